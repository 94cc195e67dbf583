//! Section headers as they are in the file (gABI, `Elf64_Shdr`: 64 bytes each), and the tests of one of them.

ghost use Rattle.std.specs.Prelude.{◌≡◌, ◌≤◌, ◌+◌, IfOk, IfSome, Some, [], false, length, unwrap_or};
ghost use Rattle.elfobj_file.specs.SectionHeaders.{header_at, headers};
ghost use Rattle.elfobj_file.specs.SectionTable.{HasSectionTable};

use crate::constants::{
    MAX_SECTION_SIZE, PROFILE_FLAGS, SHDR_SIZE, SHF_ALLOC, SHT_NOBITS, SHT_NULL, SHT_REL, SHT_RELA,
    SHT_SYMTAB,
};
use crate::elf_header::{section_count, section_table_offset};
use crate::names::{StringTable, looked_name};
use crate::numbers::{read_u32, read_u64};
use crate::section::SectionKind;
use crate::span::Span;
use growth::{NoMemory, vec};
use std::alloc::Global;

/// The fields of a section header that the reader uses.
#[derive(Clone, Copy)]
pub struct SectionHeader {
    /// `sh_name`: where its name begins in the section name table.
    pub sh_name: u32,
    /// `sh_type`: one of the `SHT_` numbers.
    pub sh_type: u32,
    /// `SHF_` flags.
    pub sh_flags: u64,
    /// `sh_offset`: where its bytes begin in the file.
    pub sh_offset: u64,
    /// `sh_size`: its size in bytes.
    pub sh_size: u64,
    /// `sh_link`: for a symbol table the index of its string table, for relocations that of their symbol table.
    pub sh_link: u32,
    /// `sh_info`: for a symbol table the index of the first entry that isn't local; for relocations that of the section
    /// that they change.
    pub sh_info: u32,
    /// `sh_addralign`: the alignment of the section in memory.
    pub sh_addralign: u64,
    /// `sh_entsize`: the size of an entry of a table.
    pub sh_entsize: u64,
}

/// Header number 0, which counts as unused whatever its bytes are.
pub const NULL_HEADER: SectionHeader = SectionHeader {
    sh_name: 0,
    sh_type: SHT_NULL,
    sh_flags: 0,
    sh_offset: 0,
    sh_size: 0,
    sh_link: 0,
    sh_info: 0,
    sh_addralign: 0,
    sh_entsize: 0,
};

impl SectionHeader {
    ghost use Rattle.elfobj_file.specs.LinkedKinds.{is_alloc, linked_kind};
    ghost use Rattle.elfobj_file.specs.Names.{string_at};
    ghost use Rattle.elfobj_file.specs.Refusal.{is_looked_at, is_out_of_bounds, is_outside_profile_by};
    ghost use Rattle.elfobj_file.specs.Relocations.{is_relocation_section};
    ghost use Rattle.elfobj_file.specs.SectionHeaders.{file_bytes};
    ghost use Rattle.elfobj_file.specs.Spans.{IsInside, bytes_at};
    ghost use Rattle.elfobj_file.specs.Symbols.{is_symbol_table};
    ghost use Rattle.elfobj_file.specs.TableOf.{table_of};

    /// Whether the rest of the header is read: it is not unused.
    fn is_looked_at(&self) -> bool
        ensures { result ≡ is_looked_at self.now }
    {
        self.sh_type != SHT_NULL
    }

    /// Whether its section takes memory when the program runs.
    pub fn is_alloc(&self) -> bool
        ensures { result ≡ is_alloc self.now }
    {
        self.sh_flags & SHF_ALLOC != 0
    }

    /// Whether its bytes end past a file of `len` bytes, it is too large, or its alignment is neither 0 nor a power of
    /// two.
    pub fn is_out_of_bounds(&self, len: u64) -> bool
        ensures { result ≡ is_out_of_bounds len self.now }
    {
        let is_past_end = len < self.sh_offset || len - self.sh_offset < self.sh_size;
        let is_aligned = self.sh_addralign == 0 || self.sh_addralign.is_power_of_two();
        self.is_looked_at()
            && (self.sh_type != SHT_NOBITS && is_past_end
                || self.sh_size > MAX_SECTION_SIZE
                || !is_aligned)
    }

    /// Whether it is allocated, and has a type that isn't linked, a flag outside the profile, or no name
    /// within the limits in the name table.
    pub fn is_outside_profile(&self, names: &StringTable) -> bool
        ensures { result ≡ is_outside_profile_by (table_of names.now) self.now }
    {
        self.is_looked_at()
            && self.is_alloc()
            && (SectionKind::of_type(self.sh_type).is_none()
                || self.sh_flags | PROFILE_FLAGS != PROFILE_FLAGS
                || names.name_length(self.sh_name).is_none())
    }

    /// Whether this is the header of a symbol table.
    pub fn is_symbol_table(&self) -> bool
        ensures { result ≡ is_symbol_table self.now }
    {
        self.sh_type == SHT_SYMTAB
    }

    /// Whether this is the header of a relocation section, with addends or without.
    pub fn is_relocation_section(&self) -> bool
        ensures { result ≡ is_relocation_section self.now }
    {
        self.sh_type == SHT_RELA || self.sh_type == SHT_REL
    }

    /// The kind of its section, if that is linked.
    pub fn linked_kind(&self) -> Option<SectionKind>
        ensures { result ≡ linked_kind self.now }
    {
        if self.is_alloc() {
            SectionKind::of_type(self.sh_type)
        } else {
            None
        }
    }

    /// The kind of its section and the range of its name in the file, if the section is linked and within the profile.
    /// `names` is the header of the section name table. Each call scans the name.
    pub fn looked_section(&self, file: &[u8], names: &SectionHeader) -> Option<(SectionKind, Span)>
        requires { names.now.sh_offset + names.now.sh_size ≤ length file.now }
        ensures kind { IfSome result (λ section. linked_kind self.now ≡ Some section.0) }
        ensures right { IfSome result (λ section. is_outside_profile_by
            (file_bytes file.now names.now) self.now ≡ false) }
        ensures within { IfSome result (λ section. IsInside (length file.now) section.1) }
        ensures name { IfSome result (λ section. bytes_at file.now section.1 ≡ unwrap_or
            (string_at (file_bytes file.now names.now) self.now.sh_name) []) }
    {
        let kind = self.linked_kind()?;
        if self.sh_flags | PROFILE_FLAGS != PROFILE_FLAGS {
            return None;
        }
        let name = looked_name(file, names, self.sh_name)?;
        Some((kind, name))
    }

    /// The bytes of its section.
    pub fn file_bytes<'a>(&self, bytes: &'a [u8]) -> &'a [u8]
        requires { self.now.sh_offset + self.now.sh_size ≤ length bytes.now }
        ensures { result.now ≡ file_bytes bytes.now self.now }
    {
        &bytes[self.sh_offset as usize..(self.sh_offset + self.sh_size) as usize]
    }
}

/// The header in the 64 bytes from `at` on.
pub fn read_header(bytes: &[u8], at: usize) -> SectionHeader
    requires { at + 64 ≤ length bytes.now }
    ensures { result ≡ header_at bytes.now at }
{
    SectionHeader {
        sh_name: read_u32(bytes, at),
        sh_type: read_u32(bytes, at + 4),
        sh_flags: read_u64(bytes, at + 8),
        sh_offset: read_u64(bytes, at + 24),
        sh_size: read_u64(bytes, at + 32),
        sh_link: read_u32(bytes, at + 40),
        sh_info: read_u32(bytes, at + 44),
        sh_addralign: read_u64(bytes, at + 48),
        sh_entsize: read_u64(bytes, at + 56),
    }
}

/// The section headers in table order, with header number 0 as an unused one.
#[tactic(auto, using(crate::proofs::Headers::header_read), unfolding(crate::specs::SectionHeaders::header, crate::specs::SectionHeaders::headers))]
pub fn read_headers(alloc: Global, bytes: &[u8]) -> Result<Vec<SectionHeader>, NoMemory>
    requires { HasSectionTable bytes.now }
    ensures { IfOk result (λ all. all.items ≡ headers bytes.now) }
{
    let start = section_table_offset(bytes) as usize;
    let count = usize::from(section_count(bytes));
    let mut headers = vec::with_capacity(alloc, count)?;
    vec::push(&mut headers, NULL_HEADER)?;
    for k in 1..count {
        vec::push(
            &mut headers,
            read_header(bytes, start + usize::from(SHDR_SIZE) * k),
        )?;
    }
    Ok(headers)
}
