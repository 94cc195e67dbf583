//! The section headers (gABI, "Section Header").

ghost use Rattle.std.specs.Prelude.{◌≡◌, ◌+◌, ◌++◌, ◌∷◌, [], IfOk, OnOk, List, ℕ, flat_map, length, take};
ghost use Rattle.std.specs.List.{enumerate_from};
ghost use Rattle.ldmodel.specs.SectionHeaders.{header_bytes};
ghost use Rattle.ldmodel.specs.Tail.{string_table, name_offset};
ghost use Rattle.emit_image.specs.Tables.{alignment_of, flags_of, header_names_of, output_headers_of};
ghost use Rattle.emit_image.specs.Tables.{section_header_of};
ghost use Rattle.emit_image.specs.HeaderRecord.{header_of};

use crate::number::{put_u32, put_u64};
use crate::strings::{add_name, no_names};
use elfobj::file::constants::{SHF_ALLOC, SHF_EXECINSTR, SHF_WRITE, SHT_NOBITS, SHT_PROGBITS};
use growth::{NoMemory, vec};
use ldmodel::placed::Placed;
use std::alloc::Global;

/// An output section, for its header.
#[derive(Clone, Copy, Debug)]
pub struct TableSection<'a> {
    /// The name.
    pub name: &'a [u8],
    /// The place in memory.
    pub placed: Placed,
    /// Where it begins in the file, modulo 2^64; 0 if its size is 0.
    pub offset: u64,
}

/// A section header, `Elf64_Shdr`, in the order of its fields.
#[derive(Clone, Copy, Debug, PartialEq, Eq)]
pub struct Header {
    /// `sh_name`: where its name begins in the table of names.
    pub name: u64,
    /// `sh_type`.
    pub kind: u32,
    /// `sh_flags`.
    pub flags: u64,
    /// `sh_addr`.
    pub address: u64,
    /// `sh_offset`.
    pub offset: u64,
    /// `sh_size`.
    pub size: u64,
    /// `sh_link`.
    pub link: u64,
    /// `sh_info`.
    pub info: u64,
    /// `sh_addralign`.
    pub alignment: u64,
    /// `sh_entsize`.
    pub entry_size: u64,
}

/// Writes a section header.
pub(crate) fn put_header(out: &mut Vec<u8>, h: &Header) -> Result<(), NoMemory>
    ensures { OnOk result (out.new.items ≡ out.old.items ++ header_bytes (header_of h.now)) }
{
    put_u32(out, h.name)?;
    put_u32(out, u64::from(h.kind))?;
    put_u64(out, h.flags)?;
    put_u64(out, h.address)?;
    put_u64(out, h.offset)?;
    put_u64(out, h.size)?;
    put_u32(out, h.link)?;
    put_u32(out, h.info)?;
    put_u64(out, h.alignment)?;
    put_u64(out, h.entry_size)?;
    Ok(())
}

/// `sh_flags` of an output section.
fn flags_of(q: &Placed) -> u64
    ensures { result ≡ flags_of q.now }
{
    let write = if q.writable { SHF_WRITE } else { 0 };
    let execute = if q.executable { SHF_EXECINSTR } else { 0 };
    SHF_ALLOC + write + execute
}

/// The alignment that a header states: an address that the script gives may be no multiple of the section's own, and
/// then it is 1.
fn alignment_of(q: &Placed) -> u64
    ensures { result ≡ alignment_of q.now }
{
    let rest = if q.alignment == 0 {
        q.start
    } else {
        q.start % q.alignment
    };
    if rest == 0 { q.alignment } else { 1 }
}

/// The header of an output section whose name begins at `name`.
fn section_header(name: u64, x: &TableSection<'_>) -> Header
    ensures { (names : List (List ℕ)) (n : ℕ) → name ≡ name_offset names n → header_of result
        ≡ section_header_of names (n, x.now) }
{
    let q = &x.placed;
    Header {
        name,
        kind: if q.has_file_bytes {
            SHT_PROGBITS
        } else {
            SHT_NOBITS
        },
        flags: flags_of(q),
        address: q.start,
        offset: x.offset,
        size: q.size,
        link: 0,
        info: 0,
        alignment: alignment_of(q),
        entry_size: 0,
    }
}

/// How many bytes the names of the headers have in their table.
fn names_length(sections: &[TableSection<'_>]) -> usize {
    let mut total: usize = 27;
    for x in sections {
        total = total.saturating_add(x.name.len()).saturating_add(1);
    }
    total
}

/// Where the names of the tables' own headers begin in the table of names.
#[derive(Clone, Copy, Debug, PartialEq, Eq)]
pub struct TableNames {
    /// `.symtab`.
    pub symbols: u64,
    /// `.strtab`.
    pub symbol_names: u64,
    /// `.shstrtab`.
    pub header_names: u64,
}

/// The null header and the headers of the output sections, the names of all headers, and where the names of the tables'
/// headers begin.
#[derive(Drop)]
pub struct OutputHeaders {
    /// The headers.
    pub headers: Vec<u8>,
    /// The names.
    pub names: Vec<u8>,
    /// The names of the tables' headers.
    pub tables: TableNames,
}

/// Writes the headers of the output sections, and adds their names to a string table without names.
fn put_sections(
    headers: &mut Vec<u8>,
    names: &mut Vec<u8>,
    sections: &[TableSection<'_>],
) -> Result<(), NoMemory>
    requires { names.old.items ≡ 0 ∷ [] }
    ensures headers { OnOk result (headers.new.items ≡ headers.old.items
        ++ flat_map (λ x. header_bytes (section_header_of (header_names_of sections.now) x))
        (enumerate_from 0 sections.now)) }
    ensures names { OnOk result (names.new.items
        ≡ string_table (take (length sections.now) (header_names_of sections.now))) }
{
    for x in sections {
        let at = add_name(names, x.name)?;
        put_header(headers, &section_header(at as u64, x))?;
    }
    Ok(())
}

/// Adds the names of the tables' headers to those of the output sections.
fn add_tables(names: &mut Vec<u8>, sections: &[TableSection<'_>]) -> Result<TableNames, NoMemory>
    requires { names.old.items ≡ string_table (take (length sections.now) (header_names_of sections.now)) }
    ensures symbols { IfOk result (λ t. t.symbols ≡ name_offset (header_names_of sections.now) (length sections.now)) }
    ensures symbol_names { IfOk result (λ t. t.symbol_names
        ≡ name_offset (header_names_of sections.now) (length sections.now + 1)) }
    ensures header_names { IfOk result (λ t. t.header_names
        ≡ name_offset (header_names_of sections.now) (length sections.now + 2)) }
    ensures names { OnOk result (names.new.items ≡ string_table (header_names_of sections.now)) }
{
    // for the prover: brings in that the number of sections fits a usize
    let _count = sections.len();
    let symbols = add_name(names, b".symtab")? as u64;
    let symbol_names = add_name(names, b".strtab")? as u64;
    let header_names = add_name(names, b".shstrtab")? as u64;
    Ok(TableNames {
        symbols,
        symbol_names,
        header_names,
    })
}

/// The null header and the headers of output sections, with the names of all headers.
pub(crate) fn output_headers(
    alloc: Global,
    sections: &[TableSection<'_>],
) -> Result<OutputHeaders, NoMemory>
    ensures headers { IfOk result (λ t. t.headers.items ≡ output_headers_of sections.now) }
    ensures names { IfOk result (λ t. t.names.items ≡ string_table (header_names_of sections.now)) }
    ensures symbols { IfOk result (λ t. t.tables.symbols
        ≡ name_offset (header_names_of sections.now) (length sections.now)) }
    ensures symbol_names { IfOk result (λ t. t.tables.symbol_names
        ≡ name_offset (header_names_of sections.now) (length sections.now + 1)) }
    ensures header_names { IfOk result (λ t. t.tables.header_names
        ≡ name_offset (header_names_of sections.now) (length sections.now + 2)) }
{
    let room = sections.len().saturating_add(4).saturating_mul(64);
    let mut headers = vec::with_capacity(alloc, room)?;
    let mut names = no_names(alloc, names_length(sections))?;
    vec::extend_from_slice(&mut headers, &[0; 64])?;
    put_sections(&mut headers, &mut names, sections)?;
    let tables = add_tables(&mut names, sections)?;
    Ok(OutputHeaders {
        headers,
        names,
        tables,
    })
}
