//! Why bytes are no object of the profile.

use growth::NoMemory;

/// Why `Object::read` refuses. 1 to 13 are conditions on the bytes, in the order of the tests: the lowest one that
/// holds is answered. `NoMemory` may replace any answer but 1 to 5, which the ELF header alone gives.
#[derive(Clone, Copy, Debug, PartialEq, Eq)]
pub enum ObjectRefusal {
    /// 1: fewer bytes than an ELF header has.
    Short,
    /// 2: the first four bytes are not those of an ELF file.
    NotElf,
    /// 3: not a little-endian 64-bit relocatable object of version 1 for x86-64.
    Machine,
    /// 4: section headers of another size than 64, or outside the file.
    SectionTable,
    /// 5: no section header, too many, or a name table that is not among them.
    SectionCount,
    /// 6: the name table is no string table; or a section lies outside the file, is too large, or
    /// has an alignment that is no power of two.
    SectionBounds,
    /// 7: an allocated section with a type, a flag or a name that the profile does not have.
    SectionProfile,
    /// 8: two symbol tables; or one whose header is wrong, or whose local entries are not all before the others.
    SymbolTable,
    /// 9: a symbol with a binding, a type, a section, a name or a common block that the profile does not have.
    Symbol,
    /// 10: a relocation section whose `sh_info` is no header's number; or one of a linked section that has no addends,
    /// is the second, has a wrong header, or has an entry of a symbol that isn't there.
    RelocationSection,
    /// 11: a relocation of a linked section whose type the profile does not have.
    RelocationType,
    /// 12: a relocation past the end of its section, or in a section that has no bytes in the file (NOBITS).
    FieldBounds,
    /// 13: two relocations of one section that share a byte.
    FieldOverlap,
    /// 14: out of memory.
    NoMemory(NoMemory),
}

impl From<NoMemory> for ObjectRefusal {
    ghost use Rattle.std.specs.Prelude.{◌≡◌};
    ghost use Rattle.elfobj_file.specs.declared.refusal.ObjectRefusal.TheVariants.{NoMemory};

    ghost from_gives = { λ no_memory e. e ≡ NoMemory no_memory };

    fn from(no_memory: NoMemory) -> ObjectRefusal {
        ObjectRefusal::NoMemory(no_memory)
    }
}

impl ObjectRefusal {
    ghost use Rattle.std.specs.Prelude.{◌≡◌};
    ghost use Rattle.elfobj_file.specs.RefusalNumber.{refusal_number};

    /// The number under which the refusal is reported, from 1 to 14.
    pub fn number(self) -> u8
        ensures { result ≡ refusal_number self }
    {
        match self {
            ObjectRefusal::Short => 1,
            ObjectRefusal::NotElf => 2,
            ObjectRefusal::Machine => 3,
            ObjectRefusal::SectionTable => 4,
            ObjectRefusal::SectionCount => 5,
            ObjectRefusal::SectionBounds => 6,
            ObjectRefusal::SectionProfile => 7,
            ObjectRefusal::SymbolTable => 8,
            ObjectRefusal::Symbol => 9,
            ObjectRefusal::RelocationSection => 10,
            ObjectRefusal::RelocationType => 11,
            ObjectRefusal::FieldBounds => 12,
            ObjectRefusal::FieldOverlap => 13,
            ObjectRefusal::NoMemory(_) => 14,
        }
    }
}
