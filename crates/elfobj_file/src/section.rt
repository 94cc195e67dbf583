//! Sections as callers see them.

use crate::constants::{
    SHT_FINI_ARRAY, SHT_INIT_ARRAY, SHT_NOBITS, SHT_NOTE, SHT_PREINIT_ARRAY, SHT_PROGBITS,
    SHT_X86_64_UNWIND,
};

/// The index of a section header in its table.
#[derive(Clone, Copy, Debug, PartialEq, Eq)]
pub struct SectionIndex(pub u16);

/// The index of a linked section among the linked sections of its object.
#[derive(Clone, Copy, Debug, PartialEq, Eq)]
pub struct LinkedIndex(pub usize);

/// The kind of a linked section, by its `sh_type`.
#[derive(Clone, Copy, Debug, PartialEq, Eq)]
pub enum SectionKind {
    /// `SHT_PROGBITS`: code or data.
    Progbits,
    /// `SHT_NOBITS`: space that is zero and has no bytes in the file.
    Nobits,
    /// `SHT_NOTE`: notes.
    Note,
    /// `SHT_INIT_ARRAY`: addresses of functions to call at the start.
    InitArray,
    /// `SHT_FINI_ARRAY`: addresses of functions to call at the end.
    FiniArray,
    /// `SHT_PREINIT_ARRAY`: addresses of functions to call before all others.
    PreinitArray,
    /// `SHT_X86_64_UNWIND`: unwind tables.
    Unwind,
}

impl SectionKind {
    ghost use Rattle.std.specs.Prelude.{◌≡◌};
    ghost use Rattle.elfobj_file.specs.SectionKinds.{kind_of};

    /// The kind of sections of this `sh_type`, if they are linked.
    #[tactic(auto, unfolding(crate::specs::SectionKinds::kind_of))]
    pub fn of_type(sh_type: u32) -> Option<SectionKind>
        ensures { result ≡ kind_of sh_type }
    {
        match sh_type {
            SHT_PROGBITS => Some(SectionKind::Progbits),
            SHT_NOBITS => Some(SectionKind::Nobits),
            SHT_NOTE => Some(SectionKind::Note),
            SHT_INIT_ARRAY => Some(SectionKind::InitArray),
            SHT_FINI_ARRAY => Some(SectionKind::FiniArray),
            SHT_PREINIT_ARRAY => Some(SectionKind::PreinitArray),
            SHT_X86_64_UNWIND => Some(SectionKind::Unwind),
            _ => None,
        }
    }
}

/// A linked section: one with `SHF_ALLOC` and one of the types of `SectionKind`.
#[derive(Clone, Copy, Debug, PartialEq, Eq)]
pub struct Section {
    /// The index of its section header.
    pub number: SectionIndex,
    /// Its kind.
    pub kind: SectionKind,
    /// `sh_flags`: `SHF_ALLOC`, with any of `SHF_WRITE`, `SHF_EXECINSTR`, `SHF_MERGE`, `SHF_STRINGS`.
    pub flags: u64,
    /// `sh_size`: its size in memory in bytes, at most 2^31.
    pub size: u64,
    /// `sh_addralign`: 0 or a power of two.
    pub alignment: u64,
}
