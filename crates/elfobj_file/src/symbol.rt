//! Symbols as callers see them (gABI, "Symbol Table").

use crate::constants::{
    STB_GLOBAL, STB_LOCAL, STB_WEAK, STT_COMMON, STT_FILE, STT_FUNC, STT_NOTYPE, STT_OBJECT,
    STT_SECTION,
};
use crate::section::SectionIndex;

/// The binding of a symbol, `ELF64_ST_BIND` of `st_info`.
#[derive(Clone, Copy, Debug, PartialEq, Eq)]
pub enum Binding {
    /// `STB_LOCAL`: visible only in its object.
    Local,
    /// `STB_GLOBAL`: visible in all objects; a definition that isn't common is strong.
    Global,
    /// `STB_WEAK`: visible in all objects; a definition gives way to a strong one.
    Weak,
}

impl Binding {
    ghost use Rattle.std.specs.Prelude.{◌≡◌, ◌≤◌, ℕ};
    ghost use Rattle.elfobj_file.specs.SymbolKinds.{binding_of};

    /// The `ELF64_ST_BIND` of the binding: the only number up to 2 that is read as it.
    pub fn number(self) -> u8
        ensures read { binding_of result ≡ self }
        ensures most { result ≤ 2 }
        ensures only { (n : ℕ) → n ≤ 2 → binding_of n ≡ self → n ≡ result }
    {
        match self {
            Binding::Local => STB_LOCAL,
            Binding::Global => STB_GLOBAL,
            Binding::Weak => STB_WEAK,
        }
    }
}

/// The type of a symbol, `ELF64_ST_TYPE` of `st_info`.
#[derive(Clone, Copy, Debug, PartialEq, Eq)]
pub enum SymbolKind {
    /// `STT_NOTYPE`: none given.
    NoType,
    /// `STT_OBJECT`: data.
    Object,
    /// `STT_FUNC`: code.
    Function,
    /// `STT_SECTION`: a section.
    Section,
    /// `STT_FILE`: the source file.
    File,
    /// `STT_COMMON`. Only `SHN_COMMON` makes a symbol a common block, whatever its type.
    Common,
}

impl SymbolKind {
    ghost use Rattle.std.specs.Prelude.{◌≡◌, ◌≤◌, ℕ};
    ghost use Rattle.elfobj_file.specs.SymbolKinds.{symbol_kind_of};

    /// The `ELF64_ST_TYPE` of the kind: the only number up to 5 that is read as it.
    pub fn number(self) -> u8
        ensures read { symbol_kind_of result ≡ self }
        ensures most { result ≤ 5 }
        ensures only { (n : ℕ) → n ≤ 5 → symbol_kind_of n ≡ self → n ≡ result }
    {
        match self {
            SymbolKind::NoType => STT_NOTYPE,
            SymbolKind::Object => STT_OBJECT,
            SymbolKind::Function => STT_FUNC,
            SymbolKind::Section => STT_SECTION,
            SymbolKind::File => STT_FILE,
            SymbolKind::Common => STT_COMMON,
        }
    }
}

/// Where a symbol is defined, by `st_shndx`.
#[derive(Clone, Copy, Debug, PartialEq, Eq)]
pub enum SymbolPlace {
    /// `SHN_UNDEF`: not in this object.
    Undefined,
    /// `SHN_ABS`: absolute; its value is a number.
    Absolute,
    /// `SHN_COMMON`: in a common block that the linker makes, whatever the type of the symbol.
    Common,
    /// In the section with this index.
    Section(SectionIndex),
}

/// An entry of the symbol table.
#[derive(Clone, Copy, Debug, PartialEq, Eq)]
pub struct Symbol {
    /// Its binding.
    pub binding: Binding,
    /// Its type.
    pub kind: SymbolKind,
    /// Where it is defined.
    pub place: SymbolPlace,
    /// `st_value`: its offset in its section, a number, or the alignment of a common block.
    pub value: u64,
    /// `st_size`: its size in bytes, at most 2^31 for a common block.
    pub size: u64,
}
