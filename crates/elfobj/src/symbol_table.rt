//! The symbol table: its tests, and the symbols that it holds.

ghost use Rattle.std.specs.Prelude.{◌≡◌, ◌≤◌, ◌+◌, ◌⊎◌, ◌<◌, ◌++◌, ◌∷◌, [], IfErr, IfOk, OnOk, None, Some, count_by};
ghost use Rattle.std.specs.Prelude.{drop, false, find, length, nat_lt, position};
ghost use Rattle.std.specs.List.{list_all, list_any};
ghost use Rattle.elfobj.specs.PartSpans.{AreNamed};
ghost use Rattle.elfobj_file.specs.Spans.{IsInside, bytes_at};
ghost use Rattle.elfobj_file.specs.Refusal.{holds, symbol_refusals};
ghost use Rattle.elfobj_file.specs.SectionHeaders.{headers as headers_of};
ghost use Rattle.elfobj_file.specs.SectionTable.{HasSectionTable};
ghost use Rattle.elfobj.specs.Linkable.{PassesTests};
ghost use Rattle.elfobj_file.specs.Symbols.{entries_of, is_symbol_table, symbol_name, symbol_table, symbols_from};
ghost use Rattle.elfobj_file.specs.Symbols.{symbols_of};
ghost use Rattle.elfobj_file.specs.TableOf.{table_of};
ghost use Rattle.elfobj_file.specs.Tables.{has_misplaced_entry, has_wrong_header, is_local_entry, is_string_table};
ghost use Rattle.elfobj_file.specs.Tables.{is_wrong_non_local, is_wrong_symbol};
ghost use Rattle.elfobj_file.specs.declared.refusal.ObjectRefusal.TheVariants.{NoMemory as OutOfMemory};
ghost use Rattle.growth.specs.Memory.{no_memory};

use crate::refusal::ObjectRefusal;
use crate::symbols::{Symbols, read_passing};
use elfobj_file::constants::{SHT_STRTAB, SYM_SIZE};
use elfobj_file::names::StringTable;
use elfobj_file::section_header::SectionHeader;
use elfobj_file::span::{EMPTY_SPAN, Span};
use elfobj_file::symbol_entry::{SymbolEntry, read_symbol_entry};
use growth::{NoMemory, vec};
use std::alloc::Global;

/// The index of the first header of a symbol table.
pub fn symbol_table_number(headers: &[SectionHeader]) -> Option<usize>
    ensures { result ≡ position is_symbol_table headers.now }
{
    headers.iter().position(|h| h.is_symbol_table())
}

/// The first header of a symbol table.
fn symbol_table_header(headers: &[SectionHeader]) -> Option<SectionHeader>
    ensures { result ≡ find is_symbol_table headers.now }
{
    headers.iter().copied().find(|h| h.is_symbol_table())
}

/// Whether there are two symbol tables or more.
fn are_several(headers: &[SectionHeader]) -> bool
    ensures { result ≡ nat_lt 1 (count_by is_symbol_table headers.now) }
{
    headers.iter().filter(|h| h.is_symbol_table()).count() > 1
}

/// Whether the section with this header number is a string table.
fn is_string_table(headers: &[SectionHeader], number: usize) -> bool
    ensures { result ≡ is_string_table headers.now number }
{
    match headers.get(number) {
        Some(header) => header.sh_type == SHT_STRTAB,
        None => false,
    }
}

/// Refusal 8: whether the symbol table's header is outside the profile.
fn has_wrong_header(headers: &[SectionHeader], table: &SectionHeader) -> bool
    ensures { result ≡ has_wrong_header headers.now table.now }
{
    table.sh_entsize != SYM_SIZE as u64
        || table.sh_size == 0
        || table.sh_size % SYM_SIZE as u64 != 0
        || !is_string_table(headers, table.sh_link as usize)
        || table.sh_info == 0
        || table.sh_size as usize / SYM_SIZE < table.sh_info as usize
}

/// The entries of a table whose bytes are in the file.
fn read_entries(
    alloc: Global,
    bytes: &[u8],
    table: &SectionHeader,
) -> Result<Vec<SymbolEntry>, NoMemory>
    requires { table.now.sh_offset + table.now.sh_size ≤ length bytes.now }
    ensures { IfOk result (λ v. v.items ≡ entries_of bytes.now table.now) }
{
    let count = table.sh_size as usize / SYM_SIZE;
    let start = table.sh_offset as usize;
    let mut entries = vec::with_capacity(alloc, count)?;
    for k in 0..count {
        vec::push(&mut entries, read_symbol_entry(bytes, start + SYM_SIZE * k))?;
    }
    Ok(entries)
}

/// Whether all entries are local.
fn are_all_local(entries: &[SymbolEntry]) -> bool
    ensures { result ≡ list_all is_local_entry entries.now }
{
    entries.iter().all(|e| e.is_local())
}

/// Whether one of the entries is local.
fn is_any_local(entries: &[SymbolEntry]) -> bool
    ensures { result ≡ list_any is_local_entry entries.now }
{
    entries.iter().any(|e| e.is_local())
}

/// Refusal 8: whether an entry below `sh_info` isn't local, or one from there on is.
fn has_misplaced_entry(table: &SectionHeader, entries: &[SymbolEntry]) -> bool
    requires some { 0 < table.now.sh_info }
    requires within { table.now.sh_info ≤ length entries.now }
    ensures { result ≡ has_misplaced_entry table.now entries.now }
{
    let first = table.sh_info as usize;
    !are_all_local(&entries[1..first]) || is_any_local(&entries[first..])
}

/// The entries past the null entry.
fn past_null(entries: &[SymbolEntry]) -> &[SymbolEntry]
    requires { 0 < length entries.now }
    ensures { result.now ≡ drop 1 entries.now }
{
    &entries[1..]
}

/// Whether one of the entries is outside the profile.
fn is_wrong_among(entries: &[SymbolEntry], sections: u16, strings: &StringTable) -> bool
    ensures { result ≡ list_any (is_wrong_symbol sections (table_of strings.now)) entries.now }
{
    entries.iter().any(|e| e.is_wrong(sections, strings))
}

/// Whether an entry past the null entry is outside the profile.
fn is_any_wrong(entries: &[SymbolEntry], sections: u16, strings: &StringTable) -> bool
    requires { 0 < length entries.now }
    ensures { result ≡ list_any (is_wrong_symbol sections (table_of strings.now)) (drop 1 entries.now) }
{
    is_wrong_among(past_null(entries), sections, strings)
}

/// The range of an entry's name in the file.
fn name_span(strings: &StringTable, entry: &SymbolEntry) -> Span
    requires { is_wrong_non_local (table_of strings.now) entry.now ≡ false }
    ensures within { IsInside (length strings.now.file.now) result }
    ensures name { bytes_at strings.now.file.now result ≡ symbol_name (table_of strings.now) entry.now }
{
    if entry.is_local() {
        return EMPTY_SPAN;
    }
    strings.file_range(entry.st_name)
}

/// The symbols of these entries, the first of which is a null entry.
fn named_symbols(
    alloc: Global,
    strings: &StringTable,
    entries: &[SymbolEntry],
) -> Result<Symbols, NoMemory>
    requires some { 0 < length entries.now }
    requires names { list_any (is_wrong_non_local (table_of strings.now)) (drop 1 entries.now) ≡ false }
    ensures { IfOk result (λ s. AreNamed strings.now.file.now
        (symbols_from (table_of strings.now) entries.now) s.symbols.items s.names.items) }
{
    let mut symbols = Symbols::of_null(alloc, entries.len())?;
    let rest = &entries[1..];
    for entry in rest {
        symbols.push(entry.symbol(), name_span(strings, entry))?;
    }
    Ok(symbols)
}

/// Reads the symbols of a table whose header has passed its tests, or returns their refusal. Their string table is
/// scanned once.
#[cold]
#[inline(never)]
fn read_tested(
    alloc: Global,
    bytes: &[u8],
    headers: &[SectionHeader],
    table: &SectionHeader,
) -> Result<Symbols, ObjectRefusal>
    requires table { HasSectionTable bytes.now }
    requires headers { headers.now ≡ headers_of bytes.now }
    requires tests { PassesTests bytes.now }
    requires one { nat_lt 1 (count_by is_symbol_table headers.now) ≡ false }
    requires found { symbol_table bytes.now ≡ Some table.now }
    requires right { has_wrong_header headers.now table.now ≡ false }
    ensures ok { IfOk result (λ s. find (holds bytes.now) symbol_refusals ≡ None) }
    ensures symbols { IfOk result (λ s. AreNamed bytes.now (symbols_of bytes.now) s.symbols.items s.names.items) }
    ensures refused { IfErr result (λ e. (e ≡ OutOfMemory no_memory) ⊎
        (find (holds bytes.now) symbol_refusals ≡ Some e)) }
{
    let entries = read_entries(alloc, bytes, table)?;
    if has_misplaced_entry(table, &entries) {
        return Err(ObjectRefusal::SymbolTable);
    }
    let strings = headers[table.sh_link as usize];
    let names = StringTable::of_header(alloc, bytes, &strings)?;
    let count = headers.len() as u16;
    if is_any_wrong(&entries, count, &names) {
        return Err(ObjectRefusal::Symbol);
    }
    Ok(named_symbols(alloc, &names, &entries)?)
}

/// Reads the symbols of a file whose section headers have passed their tests, or returns its refusal.
pub fn read_symbols(
    alloc: Global,
    bytes: &[u8],
    headers: &[SectionHeader],
) -> Result<Symbols, ObjectRefusal>
    requires table { HasSectionTable bytes.now }
    requires headers { headers.now ≡ headers_of bytes.now }
    requires tests { PassesTests bytes.now }
    ensures ok { IfOk result (λ read. find (holds bytes.now) symbol_refusals ≡ None) }
    ensures symbols { IfOk result
        (λ read. AreNamed bytes.now (symbols_of bytes.now) read.symbols.items read.names.items) }
    ensures refused { IfErr result
        (λ refusal. (refusal ≡ OutOfMemory no_memory) ⊎ (find (holds bytes.now) symbol_refusals ≡ Some refusal)) }
{
    if are_several(headers) {
        return Err(ObjectRefusal::SymbolTable);
    }
    let Some(table) = symbol_table_header(headers) else {
        return Ok(Symbols {
            symbols: Vec::new(alloc),
            names: Vec::new(alloc),
        });
    };
    if has_wrong_header(headers, &table) {
        return Err(ObjectRefusal::SymbolTable);
    }
    let strings = headers[table.sh_link as usize];
    let count = headers.len() as u16;
    match read_passing(alloc, bytes, &table, &strings, count)? {
        Some(symbols) => Ok(symbols),
        None => read_tested(alloc, bytes, headers, &table),
    }
}
