//! The tail of the image: the symbol table, its names, the names of the section headers, and the section headers.

ghost use Rattle.std.specs.Prelude.{◌≡◌, ◌+◌, ◌<◌, ◌^◌, ◌++◌, ◌∷◌, [], IfOk, OnOk, List, ℕ, flat_map};
ghost use Rattle.std.specs.Int.{next_multiple_of};
ghost use Rattle.ldmodel.specs.Layout.{Layout};
ghost use Rattle.ldmodel.specs.Project.{Project};
ghost use Rattle.ldmodel.specs.SectionHeaders.{end_of_part, header_bytes, part_at, table_header, table_headers};
ghost use Rattle.ldmodel.specs.SectionHeaders as definition;
ghost use Rattle.ldmodel.specs.Tail.{name_offset};
ghost use Rattle.emit_image.specs.HeaderRecord.{header_of};
ghost use Rattle.emit_image.specs.Tables.{AreTablesOf, IsTailOf, tables_of, tail_of};
ghost use Rattle.emit_image.specs.declared.symbols.TableSymbol.{TableSymbol as SymbolOf};

use crate::sections::{
    Header, OutputHeaders, TableNames, TableSection, output_headers, put_header,
};
use crate::symbols::SymbolTables;
use elfobj::file::constants::{SHT_STRTAB, SHT_SYMTAB};
use growth::{NoMemory, impossible};
use std::alloc::Global;
use std::marker::Model;

/// A part of the image, and its file offset.
#[derive(Drop)]
pub struct TailPart {
    offset: u64,
    bytes: Vec<u8>,
}

impl Model for TailPart {
    ghost use Rattle.ldmodel.specs.SectionHeaders.{FilePart};

    ghost Value = { FilePart };

    ghost view = { λ x. record { offset = x.offset; bytes = x.bytes.items } };
}

impl TailPart {
    ghost use Rattle.std.specs.Prelude.{◌≡◌};
    ghost use Rattle.ldmodel.specs.SectionHeaders.{part_at};

    /// These bytes at this offset in the file.
    pub fn new(offset: u64, bytes: Vec<u8>) -> TailPart
        ensures { result ≡ part_at offset bytes.items }
    {
        TailPart { offset, bytes }
    }

    /// The file offset of its first byte.
    pub fn offset(&self) -> u64
        ensures { result ≡ self.now.offset }
    {
        self.offset
    }

    /// The bytes of the part.
    pub fn bytes(&self) -> &[u8]
        ensures { result.now ≡ self.now.bytes }
    {
        &self.bytes
    }
}

/// The three tables, each right after the one before it.
#[derive(Drop)]
struct Tables {
    symbols: TailPart,
    symbol_names: TailPart,
    header_names: TailPart,
}

/// The tail of an image.
#[derive(Drop)]
pub struct TailParts {
    /// `.symtab`.
    pub symbols: TailPart,
    /// `.strtab`.
    pub symbol_names: TailPart,
    /// `.shstrtab`.
    pub header_names: TailPart,
    /// The section headers.
    pub headers: TailPart,
}

/// The least multiple of 8 not below `n`; no image has room for one past 2^64.
fn aligned(n: u64) -> Result<u64, NoMemory>
    ensures { IfOk result (λ x. x ≡ next_multiple_of n 8) }
{
    n.checked_next_multiple_of(8).ok_or(impossible())
}

/// Where a part ends.
fn end_of(part: &TailPart) -> Result<u64, NoMemory>
    ensures { IfOk result (λ x. x ≡ end_of_part part.now) }
{
    part.offset()
        .checked_add(part.bytes().len() as u64)
        .ok_or(impossible())
}

/// Bytes right after a part.
fn after(part: &TailPart, bytes: Vec<u8>) -> Result<TailPart, NoMemory>
    ensures { IfOk result (λ x. x ≡ part_at (end_of_part part.now) bytes.items) }
{
    let offset = end_of(part)?;
    Ok(TailPart::new(offset, bytes))
}

/// The header of the symbol table; `names` is the number of the header of its names.
fn symbols_header(name: u64, part: &TailPart, names: u64) -> Header
    ensures { header_of result ≡ table_header name SHT_SYMTAB part.now names 1 8 24 }
{
    Header {
        name,
        kind: SHT_SYMTAB,
        flags: 0,
        address: 0,
        offset: part.offset(),
        size: part.bytes().len() as u64,
        link: names,
        info: 1,
        alignment: 8,
        entry_size: 24,
    }
}

/// The header of a string table.
fn strings_header(name: u64, part: &TailPart) -> Header
    ensures { header_of result ≡ table_header name SHT_STRTAB part.now 0 0 1 0 }
{
    Header {
        name,
        kind: SHT_STRTAB,
        flags: 0,
        address: 0,
        offset: part.offset(),
        size: part.bytes().len() as u64,
        link: 0,
        info: 0,
        alignment: 1,
        entry_size: 0,
    }
}

/// Writes the headers of the tables, which come after those of this many output sections.
fn put_tables(
    out: &mut Vec<u8>,
    count: usize,
    names: &TableNames,
    tables: &Tables,
) -> Result<(), NoMemory>
    requires { count + 2 < 2 ^ 64 }
    ensures { OnOk result ((ns : List (List ℕ)) → names.now.symbols ≡ name_offset ns count → names.now.symbol_names
        ≡ name_offset ns (count + 1) → names.now.header_names ≡ name_offset ns (count + 2) → out.new.items
        ≡ out.old.items ++ flat_map header_bytes
        (table_headers count ns
        (record {
          symbols = tables.now.symbols;
          symbol_names = tables.now.symbol_names;
          header_names =
              tables.now.header_names;
        }))) }
{
    put_header(
        out,
        &symbols_header(names.symbols, &tables.symbols, count as u64 + 2),
    )?;
    put_header(
        out,
        &strings_header(names.symbol_names, &tables.symbol_names),
    )?;
    put_header(
        out,
        &strings_header(names.header_names, &tables.header_names),
    )?;
    Ok(())
}

/// The three tables past the end of the loaded part of the file.
fn place_tables(end: u64, symbols: SymbolTables, header_names: Vec<u8>) -> Result<Tables, NoMemory>
    ensures symbols { IfOk result (λ t. t.symbols ≡ part_at (next_multiple_of end 8) symbols.entries) }
    ensures symbol_names { IfOk result (λ t. t.symbol_names ≡ part_at (end_of_part t.symbols) symbols.names) }
    ensures header_names { IfOk result (λ t. t.header_names ≡ part_at (end_of_part t.symbol_names) header_names.items) }
{
    let (entries, names) = symbols.into_bytes()?;
    let entries = TailPart::new(aligned(end)?, entries);
    let names = after(&entries, names)?;
    let header_names = after(&names, header_names)?;
    Ok(Tables {
        symbols: entries,
        symbol_names: names,
        header_names,
    })
}

/// The tail of an image whose loaded part ends at `loaded_end`: the symbol table, and the headers of these output
/// sections, which come in the order of the script.
///
/// # Errors
///
/// If memory runs out.
pub fn tail(
    alloc: Global,
    loaded_end: u64,
    symbol_tables: SymbolTables,
    sections: &[TableSection<'_>],
) -> Result<TailParts, NoMemory>
    ensures parts { IfOk result (λ t. (symbols : List SymbolOf) → AreTablesOf symbols symbol_tables
        → t.symbols ∷ t.symbol_names ∷ t.header_names ∷ t.headers ∷ [] ≡ tail_of loaded_end symbols sections.now) }
    ensures of_link { IfOk result (λ t. (project : Project) (layout : Layout) (symbols : List SymbolOf)
        → AreTablesOf symbols symbol_tables → IsTailOf project layout loaded_end symbols sections.now
        → t.symbols ∷ t.symbol_names ∷ t.header_names ∷ t.headers ∷ [] ≡ definition.tail project layout) }
{
    let output = output_headers(alloc, sections)?;
    let OutputHeaders {
        headers: mut headers,
        names,
        tables: at,
    } = output;
    let tables = place_tables(loaded_end, symbol_tables, names)?;
    put_tables(&mut headers, sections.len(), &at, &tables)?;
    let offset = aligned(end_of(&tables.header_names)?)?;
    Ok(TailParts {
        symbols: tables.symbols,
        symbol_names: tables.symbol_names,
        header_names: tables.header_names,
        headers: TailPart::new(offset, headers),
    })
}
