//! Entries of the symbol table as they are in the file (gABI, `Elf64_Sym`: 24 bytes each), and the tests of one of
//! them.

ghost use Rattle.std.specs.Prelude.{◌≡◌, ◌≤◌, ◌+◌, ◌||◌, IfSome, false, length, nat_lt};
ghost use Rattle.elfobj_file.specs.declared.constants.TheConstants.{STB_WEAK, STT_COMMON};
ghost use Rattle.elfobj_file.specs.SymbolEntries.{symbol_entry_at};

use crate::constants::{
    MAX_SECTION_SIZE, SHN_ABS, SHN_COMMON, SHN_UNDEF, STB_GLOBAL, STB_LOCAL, STB_WEAK, STT_COMMON,
    STT_FILE, STT_FUNC, STT_NOTYPE, STT_OBJECT, STT_SECTION,
};
use crate::names::{StringTable, looked_name};
use crate::numbers::{read_u16, read_u32, read_u64};
use crate::section::SectionIndex;
use crate::section_header::SectionHeader;
use crate::span::{EMPTY_SPAN, Span};
use crate::symbol::{Binding, Symbol, SymbolKind, SymbolPlace};

/// The fields of an entry that the reader uses.
#[derive(Clone, Copy)]
pub struct SymbolEntry {
    /// `st_name`: where its name begins in the string table.
    pub st_name: u32,
    /// `st_info`: the binding and the type.
    pub st_info: u8,
    /// `st_shndx`: the index of its section, or one of the `SHN_` numbers.
    pub st_shndx: u16,
    /// `st_value`: the value.
    pub st_value: u64,
    /// `st_size`: the size.
    pub st_size: u64,
}

impl SymbolEntry {
    ghost use Rattle.elfobj_file.specs.SymbolEntries.{st_bind, st_type};
    ghost use Rattle.elfobj_file.specs.SymbolKinds.{binding_of, symbol_kind_of};
    ghost use Rattle.elfobj_file.specs.Symbols.{symbol_name, symbol_place_of, symbol_of};
    ghost use Rattle.elfobj_file.specs.SectionHeaders.{file_bytes};
    ghost use Rattle.elfobj_file.specs.Spans.{IsInside, bytes_at};
    ghost use Rattle.elfobj_file.specs.TableOf.{table_of};
    ghost use Rattle.elfobj_file.specs.Tables.{is_local_entry, is_nowhere, is_wrong_local, is_wrong_non_local};
    ghost use Rattle.elfobj_file.specs.Tables.{is_wrong_common, is_wrong_symbol};

    /// `ELF64_ST_BIND` of `st_info`.
    pub fn bind(&self) -> u8
        ensures { result ≡ st_bind self.now }
    {
        self.st_info >> 4
    }

    /// `ELF64_ST_TYPE` of `st_info`.
    pub fn kind_number(&self) -> u8
        ensures { result ≡ st_type self.now }
    {
        self.st_info & 0xf
    }

    /// Whether only its own object sees the symbol.
    pub fn is_local(&self) -> bool
        ensures { result ≡ is_local_entry self.now }
    {
        self.bind() == STB_LOCAL
    }

    /// Whether its section index is neither that of a section nor ABS nor COMMON.
    fn is_nowhere(&self, sections: u16) -> bool
        ensures { result ≡ is_nowhere sections self.now }
    {
        self.st_shndx >= sections && self.st_shndx != SHN_ABS && self.st_shndx != SHN_COMMON
    }

    /// Whether it is local, and undefined or common.
    fn is_wrong_local(&self) -> bool
        ensures { result ≡ is_wrong_local self.now }
    {
        self.is_local() && (self.st_shndx == SHN_UNDEF || self.st_shndx == SHN_COMMON)
    }

    /// Whether it isn't local, and is of type SECTION or FILE or has no name within the limits.
    fn is_wrong_non_local(&self, strings: &StringTable) -> bool
        ensures { result ≡ is_wrong_non_local (table_of strings.now) self.now }
    {
        !self.is_local()
            && (self.kind_number() == STT_SECTION
                || self.kind_number() == STT_FILE
                || strings.name_length(self.st_name).is_none())
    }

    /// Whether it is common, but not global, too large, or of an alignment that is no power of two.
    fn is_wrong_common(&self) -> bool
        ensures { result ≡ is_wrong_common self.now }
    {
        self.st_shndx == SHN_COMMON
            && (self.bind() != STB_GLOBAL
                || !self.st_value.is_power_of_two()
                || self.st_size > MAX_SECTION_SIZE)
    }

    /// Whether its binding or its type is outside the profile.
    fn has_strange_info(&self) -> bool
        ensures { result ≡ (nat_lt STB_WEAK (st_bind self.now) || nat_lt STT_COMMON (st_type self.now)) }
    {
        self.bind() > STB_WEAK || self.kind_number() > STT_COMMON
    }

    /// Refusal 9: whether the entry is outside the profile, in an object with `sections` section headers and this
    /// string table.
    pub fn is_wrong(&self, sections: u16, strings: &StringTable) -> bool
        ensures { result ≡ is_wrong_symbol sections (table_of strings.now) self.now }
    {
        self.has_strange_info()
            || self.is_nowhere(sections)
            || self.is_wrong_local()
            || self.is_wrong_non_local(strings)
            || self.is_wrong_common()
    }

    /// The range of the name in the file, if the entry is within the profile in an object with `sections` section
    /// headers and the string table of this header. A local entry has an empty name. Each call scans the name.
    pub fn looked_name(&self, sections: u16, file: &[u8], strings: &SectionHeader) -> Option<Span>
        requires { strings.now.sh_offset + strings.now.sh_size ≤ length file.now }
        ensures right { IfSome result (λ span. is_wrong_symbol sections
            (file_bytes file.now strings.now) self.now ≡ false) }
        ensures within { IfSome result (IsInside (length file.now)) }
        ensures name { IfSome result (λ span. bytes_at file.now span ≡ symbol_name
            (file_bytes file.now strings.now) self.now) }
    {
        if self.has_strange_info()
            || self.is_nowhere(sections)
            || self.is_wrong_local()
            || self.is_wrong_common()
        {
            return None;
        }
        if self.is_local() {
            return Some(EMPTY_SPAN);
        }
        if self.kind_number() == STT_SECTION || self.kind_number() == STT_FILE {
            return None;
        }
        looked_name(file, strings, self.st_name)
    }

    /// The binding; only an entry within the profile has it.
    fn binding(&self) -> Binding
        ensures { result ≡ binding_of (st_bind self.now) }
    {
        match self.bind() {
            STB_LOCAL => Binding::Local,
            STB_GLOBAL => Binding::Global,
            _ => Binding::Weak,
        }
    }

    /// The type; only an entry within the profile has it.
    fn kind(&self) -> SymbolKind
        ensures { result ≡ symbol_kind_of (st_type self.now) }
    {
        match self.kind_number() {
            STT_NOTYPE => SymbolKind::NoType,
            STT_OBJECT => SymbolKind::Object,
            STT_FUNC => SymbolKind::Function,
            STT_SECTION => SymbolKind::Section,
            STT_FILE => SymbolKind::File,
            _ => SymbolKind::Common,
        }
    }

    /// Where the symbol is defined.
    fn place(&self) -> SymbolPlace
        ensures { result ≡ symbol_place_of self.now.st_shndx }
    {
        match self.st_shndx {
            SHN_UNDEF => SymbolPlace::Undefined,
            SHN_ABS => SymbolPlace::Absolute,
            SHN_COMMON => SymbolPlace::Common,
            number => SymbolPlace::Section(SectionIndex(number)),
        }
    }

    /// The symbol as callers see it.
    #[tactic(auto, unfolding(crate::specs::Symbols::symbol_of))]
    pub fn symbol(&self) -> Symbol
        ensures { result ≡ symbol_of self.now }
    {
        Symbol {
            binding: self.binding(),
            kind: self.kind(),
            place: self.place(),
            value: self.st_value,
            size: self.st_size,
        }
    }
}

/// The entry in the 24 bytes from `at` on.
pub fn read_symbol_entry(bytes: &[u8], at: usize) -> SymbolEntry
    requires { at + 24 ≤ length bytes.now }
    ensures { result ≡ symbol_entry_at bytes.now at }
{
    SymbolEntry {
        st_name: read_u32(bytes, at),
        st_info: bytes[at + 4],
        st_shndx: read_u16(bytes, at + 6),
        st_value: read_u64(bytes, at + 8),
        st_size: read_u64(bytes, at + 16),
    }
}
