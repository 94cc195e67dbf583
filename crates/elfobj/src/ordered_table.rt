//! Tables of relocations as compilers write them: all entries are within the profile, and the fields come one after
//! another. One pass tests and decodes such tables, and gives up on others.

ghost use Rattle.std.specs.Prelude.{◌≡◌, ◌≤◌, ◌+◌, ◌*◌, ◌++◌, IfOk, IfSome, false, length, map, true};
ghost use Rattle.std.specs.List.{All, list_any};
ghost use Rattle.elfobj_file.specs.Relocations.{relocation_of, relocations_at, share_bytes};
ghost use Rattle.elfobj.specs.PartSpans.{AreRelocated, relocations_in};
ghost use Rattle.elfobj.specs.Runs.{IsTableOf, has_refused_entry, is_refused_for, table_entries};
ghost use Rattle.elfobj.specs.declared.relocation_fault.EntryFault.TheVariants.{Any};

use crate::field::end_inside;
use crate::relocation::Relocation;
use crate::relocation_run::{Relocations, SectionTable};
use elfobj_file::constants::RELA_SIZE;
use elfobj_file::relocation_entry::read_relocation_entry;
use elfobj_file::span::Span;
use growth::{NoMemory, vec};
use std::alloc::Global;

/// The number of entries of these tables.
fn entry_count(tables: &[SectionTable]) -> usize {
    let mut count = 0usize;
    for table in tables {
        count = count.saturating_add(table.count);
    }
    count
}

/// Appends the relocations of a table. It stops, and returns `false`, at an entry that is outside the profile or whose
/// field begins before the end of the one before it.
#[inline(never)]
fn push_ordered(
    bytes: &[u8],
    table: &SectionTable,
    symbols: usize,
    all: &mut Vec<Relocation>,
) -> Result<bool, NoMemory>
    requires { table.now.start + 24 * table.now.count ≤ length bytes.now }
    ensures read { IfOk result (λ b. b ≡ true
        → all.new.items ≡ all.old.items ++ map relocation_of (table_entries bytes.now table.now)) }
    ensures passes { IfOk result (λ b. b ≡ true
        → list_any (is_refused_for Any symbols table.now.section) (table_entries bytes.now table.now) ≡ false) }
    ensures apart { IfOk result (λ b. b ≡ true
        → share_bytes (map relocation_of (table_entries bytes.now table.now)) ≡ false) }
{
    let mut end = 0;
    for k in 0..table.count {
        let entry = read_relocation_entry(bytes, table.start + RELA_SIZE * k);
        let Some(relocation) = entry.relocation_among(symbols) else {
            return Ok(false);
        };
        if relocation.offset < end {
            return Ok(false);
        }
        let Some(own) = end_inside(&relocation, table.section.kind, table.section.size) else {
            return Ok(false);
        };
        end = own;
        vec::push(all, relocation)?;
    }
    Ok(true)
}

/// The relocations of these tables, if all entries are within the profile, the fields of each table come one after
/// another, and there are no more entries than the file has room for.
pub fn read_ordered(
    alloc: Global,
    bytes: &[u8],
    tables: &[SectionTable],
    symbols: usize,
) -> Result<Option<Relocations>, NoMemory>
    requires { All (IsTableOf bytes.now) tables.now }
    ensures read { IfOk result
        (λ found. IfSome found (λ read. AreRelocated
        (map (λ section. relocations_at bytes.now section.number.0) (map (λ table. table.section) tables.now))
        read.all.items read.spans.items)) }
    ensures passes { IfOk result
        (λ found. IfSome found (λ read. list_any (has_refused_entry Any bytes.now symbols)
        (map (λ table. table.section) tables.now) ≡ false)) }
    ensures apart { IfOk result
        (λ found. IfSome found (λ read.
        list_any share_bytes (map (relocations_in read.all.items) read.spans.items) ≡ false)) }
{
    let count = entry_count(tables);
    if bytes.len() / RELA_SIZE < count {
        return Ok(None);
    }
    let mut all = vec::with_capacity(alloc, count)?;
    let mut spans = vec::with_capacity(alloc, tables.len())?;
    for table in tables {
        let start = all.len();
        if !push_ordered(bytes, table, symbols, &mut all)? {
            return Ok(None);
        }
        let end = all.len();
        vec::push(&mut spans, Span { start, end })?;
    }
    Ok(Some(Relocations { all, spans }))
}
