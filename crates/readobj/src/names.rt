//! Names of the gABI and the x86-64 psABI.

use elfobj::relocation::RelocationKind;
use elfobj::section::SectionKind;
use elfobj::symbol::{Binding, SymbolKind};

/// The name of a section type, without `SHT_`.
pub fn section_kind(kind: SectionKind) -> &'static str {
    match kind {
        SectionKind::Progbits => "PROGBITS",
        SectionKind::Nobits => "NOBITS",
        SectionKind::Note => "NOTE",
        SectionKind::InitArray => "INIT_ARRAY",
        SectionKind::FiniArray => "FINI_ARRAY",
        SectionKind::PreinitArray => "PREINIT_ARRAY",
        SectionKind::Unwind => "X86_64_UNWIND",
    }
}

/// The name of a binding, without `STB_`.
pub fn binding(binding: Binding) -> &'static str {
    match binding {
        Binding::Local => "LOCAL",
        Binding::Global => "GLOBAL",
        Binding::Weak => "WEAK",
    }
}

/// The name of a symbol type, without `STT_`.
pub fn symbol_kind(kind: SymbolKind) -> &'static str {
    match kind {
        SymbolKind::NoType => "NOTYPE",
        SymbolKind::Object => "OBJECT",
        SymbolKind::Function => "FUNC",
        SymbolKind::Section => "SECTION",
        SymbolKind::File => "FILE",
        SymbolKind::Common => "COMMON",
    }
}

/// The name of a relocation type.
pub fn relocation_kind(kind: RelocationKind) -> &'static str {
    match kind {
        RelocationKind::None => "R_X86_64_NONE",
        RelocationKind::Abs64 => "R_X86_64_64",
        RelocationKind::Pc32 => "R_X86_64_PC32",
        RelocationKind::Plt32 => "R_X86_64_PLT32",
        RelocationKind::Abs32 => "R_X86_64_32",
        RelocationKind::Abs32Signed => "R_X86_64_32S",
        RelocationKind::Abs16 => "R_X86_64_16",
        RelocationKind::Pc16 => "R_X86_64_PC16",
        RelocationKind::Abs8 => "R_X86_64_8",
        RelocationKind::Pc8 => "R_X86_64_PC8",
        RelocationKind::Pc64 => "R_X86_64_PC64",
    }
}
