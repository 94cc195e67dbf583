//! The relocation sections: their tests, and the relocations that they hold.

ghost use Rattle.std.specs.Prelude.{◌≡◌, ℕ, ◌≤◌, ◌<◌, ◌+◌, ◌*◌, ◌⊎◌, IfErr, IfOk, IfSome, List, None, Some, false};
ghost use Rattle.std.specs.Prelude.{true, find, length, map, replicate};
ghost use Rattle.std.specs.List.{All, list_any};
ghost use Rattle.std.specs.List.Sorted.{IsNonDecreasingBy, IsPermutation};
ghost use Rattle.elfobj_file.specs.ElfHeader.{e_shnum};
ghost use Rattle.elfobj.specs.FieldMarks.{AreBelow};
ghost use Rattle.elfobj.specs.Linkable.{PassesTests};
ghost use Rattle.elfobj.specs.PartSpans.{AreRelocated, relocations_in};
ghost use Rattle.elfobj_file.specs.Spans.{IsInside};
ghost use Rattle.elfobj.specs.Reading.{AreTables, entered, is_wrong_after};
ghost use Rattle.elfobj_file.specs.Refusal.{entry_refusals, holds, relocation_refusals};
ghost use Rattle.elfobj_file.specs.Relocations.{entries_in, relocation_section, relocations_at, share_bytes};
ghost use Rattle.elfobj.specs.Runs.{AreTablesOf, table_entries};
ghost use Rattle.elfobj_file.specs.SectionHeaders.{headers as headers_of};
ghost use Rattle.elfobj_file.specs.SectionTable.{HasSectionTable};
ghost use Rattle.elfobj_file.specs.Sections.{sections_of};
ghost use Rattle.elfobj_file.specs.Symbols.{symbols_of};
ghost use Rattle.elfobj_file.specs.Tables.{is_linked, is_wrong_below, is_wrong_table, linked_sections};
ghost use Rattle.elfobj_file.specs.declared.refusal.ObjectRefusal.TheVariants.{NoMemory as OutOfMemory};
ghost use Rattle.elfobj_file.specs.declared.refusal.ObjectRefusal.TheVariants.{RelocationSection};
ghost use Rattle.growth.specs.Memory.{no_memory};

use crate::field_marks::is_any_shared;
use crate::ordered_table::read_ordered;
use crate::refusal::ObjectRefusal;
use crate::relocation_fault::{EntryFault, is_any_refused, smallest_first};
use crate::relocation_run::{Relocations, SectionTable, read_tables};
use crate::section::Section;
use crate::symbol_table::symbol_table_number;
use elfobj_file::constants::{RELA_SIZE, SHT_REL};
use elfobj_file::section_header::SectionHeader;
use elfobj_file::span::Span;
use growth::{NoMemory, vec};
use std::alloc::Global;

/// Whether the section with this header number is linked.
fn is_linked(headers: &[SectionHeader], number: usize) -> bool
    ensures { result ≡ is_linked headers.now number }
{
    match headers.get(number) {
        Some(header) => header.linked_kind().is_some(),
        None => false,
    }
}

/// Refusal 10, for a linked section: whether the table has no addends, a wrong size, or another symbol table.
fn is_wrong_table(table: &SectionHeader, symtab: Option<usize>) -> bool
    ensures { result ≡ is_wrong_table symtab table.now }
{
    let is_of_symtab = match symtab {
        Some(number) => table.sh_link as usize == number,
        None => false,
    };
    table.sh_type == SHT_REL
        || table.sh_entsize != RELA_SIZE as u64
        || table.sh_size % RELA_SIZE as u64 != 0
        || !is_of_symtab
}

/// Refusal 10, as far as the header of a relocation section shows it: whether it is for no section, or for a linked one
/// and outside the profile. For each section number, `tables` has the first relocation section for it before this one.
fn is_wrong_section(
    headers: &[SectionHeader],
    tables: &[Option<SectionHeader>],
    table: &SectionHeader,
    symtab: Option<usize>,
) -> bool
    requires { length tables.now ≡ length headers.now }
    ensures { result ≡ is_wrong_after headers.now symtab tables.now table.now }
{
    let changed = table.sh_info as usize;
    if changed >= headers.len() {
        return true;
    }
    is_linked(headers, changed) && (tables[changed].is_some() || is_wrong_table(table, symtab))
}

/// Enters a relocation section under the number of its section, if it is the first for it.
fn enter(tables: &mut [Option<SectionHeader>], table: &SectionHeader)
    requires { table.now.sh_info < length tables.old }
    ensures { tables.new ≡ entered tables.old table.now }
{
    let changed = table.sh_info as usize;
    if tables[changed].is_none() {
        tables[changed] = Some(*table);
    }
}

/// A list without tables, of this length.
fn no_tables(alloc: Global, count: usize) -> Result<Vec<Option<SectionHeader>>, NoMemory>
    ensures { IfOk result (λ v. v.items ≡ replicate count None) }
{
    let mut tables = vec::with_capacity(alloc, count)?;
    for _ in 0..count {
        vec::push(&mut tables, None)?;
    }
    Ok(tables)
}

/// For each section number its relocation section; or the refusal `RelocationSection`, if the header of one is outside
/// the profile.
fn changing_tables(
    alloc: Global,
    bytes: &[u8],
    headers: &[SectionHeader],
) -> Result<Vec<Option<SectionHeader>>, ObjectRefusal>
    requires table { HasSectionTable bytes.now }
    requires headers { headers.now ≡ headers_of bytes.now }
    ensures right { IfOk result (λ v. is_wrong_below bytes.now (e_shnum bytes.now) ≡ false) }
    ensures tables { IfOk result (λ v. AreTables bytes.now v.items) }
    ensures wrong { IfErr result (λ e. (e ≡ OutOfMemory no_memory)
        ⊎ ((e ≡ RelocationSection) × (is_wrong_below bytes.now (e_shnum bytes.now) ≡ true))) }
{
    let symtab = symbol_table_number(headers);
    let mut tables = match no_tables(alloc, headers.len()) {
        Ok(tables) => tables,
        Err(no_memory) => return Err(ObjectRefusal::NoMemory(no_memory)),
    };
    for (number, table) in headers.iter().enumerate() {
        if table.is_relocation_section() {
            if is_wrong_section(headers, &tables, table, symtab) {
                return Err(ObjectRefusal::RelocationSection);
            }
            enter(&mut tables, table);
        }
    }
    Ok(tables)
}

/// The table of a section's entries, or an empty one.
fn section_table(section: &Section, table: Option<SectionHeader>, len: usize) -> SectionTable
    requires within { IfSome table (λ h. h.sh_offset + h.sh_size ≤ len) }
    ensures section { result.section ≡ section.now }
    ensures entries { (bytes : List ℕ) → table_entries bytes result ≡ entries_in bytes table }
    ensures within { result.start + 24 * result.count ≤ len }
{
    match table {
        Some(table) => SectionTable {
            section: *section,
            start: table.sh_offset as usize,
            count: table.sh_size as usize / RELA_SIZE,
        },
        None => SectionTable {
            section: *section,
            start: 0,
            count: 0,
        },
    }
}

/// The tables of these sections' entries.
fn section_tables(
    alloc: Global,
    bytes: &[u8],
    sections: &[Section],
    tables: &[Option<SectionHeader>],
) -> Result<Vec<SectionTable>, NoMemory>
    requires sections { sections.now ≡ linked_sections bytes.now }
    requires tables { AreTables bytes.now tables.now }
    requires tests { PassesTests bytes.now }
    ensures { IfOk result (λ v. AreTablesOf bytes.now sections.now v.items) }
{
    let mut own = vec::with_capacity(alloc, sections.len())?;
    for section in sections {
        let table = tables[section.number.0 as usize];
        vec::push(&mut own, section_table(section, table, bytes.len()))?;
    }
    Ok(own)
}

/// The lowest refusal of an entry of these tables.
fn entry_refusal(
    alloc: Global,
    bytes: &[u8],
    tables: &[SectionTable],
    symbols: usize,
) -> Result<Option<ObjectRefusal>, NoMemory>
    requires long { 24 ≤ length bytes.now }
    requires right { is_wrong_below bytes.now (e_shnum bytes.now) ≡ false }
    requires tables { AreTablesOf bytes.now (linked_sections bytes.now) tables.now }
    requires symbols { symbols ≡ length (symbols_of bytes.now) }
    ensures { IfOk result (λ o. o ≡ find (holds bytes.now) entry_refusals) }
{
    let sorted = smallest_first(alloc, tables)?;
    if !is_any_refused(alloc, bytes, &sorted, EntryFault::Any, symbols)? {
        return Ok(None);
    }
    if is_any_refused(alloc, bytes, &sorted, EntryFault::Symbol, symbols)? {
        return Ok(Some(ObjectRefusal::RelocationSection));
    }
    if is_any_refused(alloc, bytes, &sorted, EntryFault::Kind, symbols)? {
        return Ok(Some(ObjectRefusal::RelocationType));
    }
    if is_any_refused(alloc, bytes, &sorted, EntryFault::Bounds, symbols)? {
        return Ok(Some(ObjectRefusal::FieldBounds));
    }
    Ok(None)
}

/// The size of the largest section that has entries.
fn largest_size(tables: &[SectionTable]) -> u64
    ensures { All (λ t. 0 < t.count → t.section.size ≤ result) tables.now }
{
    let mut largest = 0;
    for table in tables {
        if table.count > 0 {
            largest = table.section.size.max(largest);
        }
    }
    largest
}

/// These spans in the order of their starts.
fn in_order(alloc: Global, spans: &[Span]) -> Result<Vec<Span>, NoMemory>
    ensures same { IfOk result (λ v. IsPermutation spans.now v.items) }
    ensures order { IfOk result (λ v. IsNonDecreasingBy (λ s. s.start) v.items) }
{
    let mut sorted = vec::to_vec(spans, alloc)?;
    sorted.sort_unstable_by_key(|s| s.start);
    Ok(sorted)
}

/// Whether two relocations of one section share a byte. All fields end at `size` or before.
fn is_any_overlap(alloc: Global, relocations: &Relocations, size: usize) -> Result<bool, NoMemory>
    requires within { All (IsInside (length relocations.now.all.items)) relocations.now.spans.items }
    requires fields { All (λ s. AreBelow relocations.now.all.items s.start s.end size) relocations.now.spans.items }
    ensures { IfOk result (λ b. b ≡ list_any share_bytes
        (map (relocations_in relocations.now.all.items) relocations.now.spans.items)) }
{
    let spans = in_order(alloc, &relocations.spans)?;
    is_any_shared(alloc, &relocations.all, &spans, size)
}

/// Reads the relocations of these tables, in any order of their fields, or returns their refusal. All entries are
/// tested before any is kept.
#[cold]
#[inline(never)]
fn read_tested(
    alloc: Global,
    bytes: &[u8],
    tables: &[SectionTable],
    symbols: usize,
) -> Result<Relocations, ObjectRefusal>
    requires long { 24 ≤ length bytes.now }
    requires right { is_wrong_below bytes.now (e_shnum bytes.now) ≡ false }
    requires tables { AreTablesOf bytes.now (linked_sections bytes.now) tables.now }
    requires symbols { symbols ≡ length (symbols_of bytes.now) }
    ensures ok { IfOk result (λ r. find (holds bytes.now) relocation_refusals ≡ None) }
    ensures relocations { IfOk result
        (λ r. AreRelocated (map (λ s. s.relocations) (sections_of bytes.now)) r.all.items r.spans.items) }
    ensures refused { IfErr result (λ e. (e ≡ OutOfMemory no_memory) ⊎
        (find (holds bytes.now) relocation_refusals ≡ Some e)) }
{
    let refusal = entry_refusal(alloc, bytes, tables, symbols)?;
    if let Some(refusal) = refusal {
        return Err(refusal);
    }
    let relocations = read_tables(alloc, bytes, tables)?;
    if is_any_overlap(alloc, &relocations, largest_size(tables) as usize)? {
        return Err(ObjectRefusal::FieldOverlap);
    }
    Ok(relocations)
}

/// Reads the relocations of the linked sections of a file whose section headers and symbols have passed their tests, or
/// returns its refusal.
pub fn read_relocations(
    alloc: Global,
    bytes: &[u8],
    headers: &[SectionHeader],
    sections: &[Section],
    symbols: usize,
) -> Result<Relocations, ObjectRefusal>
    requires table { HasSectionTable bytes.now }
    requires headers { headers.now ≡ headers_of bytes.now }
    requires tests { PassesTests bytes.now }
    requires sections { sections.now ≡ linked_sections bytes.now }
    requires symbols { symbols ≡ length (symbols_of bytes.now) }
    ensures ok { IfOk result (λ read. find (holds bytes.now) relocation_refusals ≡ None) }
    ensures relocations { IfOk result
        (λ read. AreRelocated (map (λ section. section.relocations) (sections_of bytes.now)) read.all.items
        read.spans.items) }
    ensures refused { IfErr result
        (λ refusal. (refusal ≡ OutOfMemory no_memory) ⊎ (find (holds bytes.now) relocation_refusals ≡ Some refusal)) }
{
    let changing = changing_tables(alloc, bytes, headers)?;
    let tables = section_tables(alloc, bytes, sections, &changing)?;
    // from here on memory is taken
    drop(changing);
    match read_ordered(alloc, bytes, &tables, symbols)? {
        Some(relocations) => Ok(relocations),
        None => read_tested(alloc, bytes, &tables, symbols),
    }
}
