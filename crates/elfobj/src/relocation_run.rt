//! The relocations of an object, decoded. Tables may overlap in the file: those that lie a whole number of entries
//! apart share one decoded run, so that no entry of the file is decoded twice.

ghost use Rattle.std.specs.Prelude.{◌≡◌, ◌≤◌, ◌<◌, ◌+◌, ◌*◌, ◌/◌, ◌^◌, ◌++◌, IfOk, OnOk, length, map};
ghost use Rattle.std.specs.List.{All};
ghost use Rattle.elfobj.specs.PartSpans.{AreRelocated};
ghost use Rattle.elfobj_file.specs.RelocationEntries.{relocation_entries_below};
ghost use Rattle.elfobj_file.specs.Relocations.{relocation_of, relocations_at};
ghost use Rattle.elfobj.specs.Runs.{AreRuns, IsCovered, IsTableOf, table_entries};

use crate::relocation::Relocation;
use crate::section::Section;
use elfobj_file::constants::RELA_SIZE;
use elfobj_file::relocation_entry::read_relocation_entry;
use elfobj_file::span::{EMPTY_SPAN, Span};
use growth::{NoMemory, vec};
use std::alloc::Global;

/// The table of a linked section's relocations in the file.
#[derive(Clone, Copy)]
pub struct SectionTable {
    /// The section.
    pub section: Section,
    /// The file offset of its first entry.
    pub start: usize,
    /// The number of entries.
    pub count: usize,
}

/// Entries that follow one another in the file, decoded. An entry has 24 bytes (`RELA_SIZE`, the size of `Elf64_Rela`);
/// its class is its offset in the file, modulo 24. So entry number k of a class begins at 24 * k plus the class.
#[derive(Clone, Copy)]
pub struct RelocationRun {
    /// The number of the first one.
    pub low: usize,
    /// The number of entries.
    pub count: usize,
    /// Where they begin among all relocations.
    pub first: usize,
}

/// The relocations of the linked sections.
#[derive(Drop)]
pub struct Relocations {
    /// All of them, one run after another.
    pub all: Vec<Relocation>,
    /// Where those of each section lie among them.
    pub spans: Vec<Span>,
}

/// The numbers of the first entry of a class that a table has, and of the one past the last. `24 ≤ len`: the file is no
/// shorter than one `Elf64_Rela`.
pub fn class_range(tables: &[SectionTable], class: usize, len: usize) -> (usize, usize)
    requires class { class < 24 }
    requires long { 24 ≤ len }
    requires within { All (λ table. table.start + 24 * table.count ≤ len) tables.now }
    ensures order { result.0 ≤ result.1 }
    ensures end { 24 * result.1 + class ≤ len }
    ensures covers { All (IsCovered class result.0 result.1) tables.now }
{
    let mut low = usize::MAX;
    let mut end = 0usize;
    for table in tables {
        if table.count > 0 && table.start % RELA_SIZE == class {
            let number = table.start / RELA_SIZE;
            low = low.min(number);
            end = end.max(number + table.count);
        }
    }
    (low.min(end), end)
}

/// The number of entries of the runs of all classes.
fn entry_count(tables: &[SectionTable], len: usize) -> usize
    requires long { 24 ≤ len }
    requires within { All (λ t. t.start + 24 * t.count ≤ len) tables.now }
{
    let mut count = 0usize;
    for class in 0..RELA_SIZE {
        let (low, end) = class_range(tables, class, len);
        count = count.saturating_add(end - low);
    }
    count
}

/// Appends the relocations of the entries from `start` on.
fn push_entries(
    bytes: &[u8],
    start: usize,
    count: usize,
    all: &mut Vec<Relocation>,
) -> Result<(), NoMemory>
    requires { start + 24 * count ≤ length bytes.now }
    ensures { OnOk result (all.new.items ≡ all.old.items ++ map relocation_of
        (relocation_entries_below bytes.now start count)) }
{
    for k in 0..count {
        let entry = read_relocation_entry(bytes, start + RELA_SIZE * k);
        vec::push(all, entry.relocation())?;
    }
    Ok(())
}

/// The runs of all classes, each as long as its tables need, in one allocation without spare room.
fn read_runs(
    alloc: Global,
    bytes: &[u8],
    tables: &[SectionTable],
) -> Result<(Vec<Relocation>, Vec<RelocationRun>), NoMemory>
    requires long { 24 ≤ length bytes.now }
    requires within { All (λ t. t.start + 24 * t.count ≤ length bytes.now) tables.now }
    ensures { IfOk result (λ r. AreRuns bytes.now tables.now r.0.items 24 r.1.items) }
{
    let mut all = vec::with_capacity(alloc, entry_count(tables, bytes.len()))?;
    let mut runs = vec::with_capacity(alloc, RELA_SIZE)?;
    for class in 0..RELA_SIZE {
        let (low, end) = class_range(tables, class, bytes.len());
        let first = all.len();
        let count = end - low;
        push_entries(bytes, RELA_SIZE * low + class, count, &mut all)?;
        vec::push(&mut runs, RelocationRun { low, count, first })?;
    }
    Ok((all, runs))
}

/// The range of a table's relocations among all, if this is the run of its class.
fn span_in(run: &RelocationRun, table: &SectionTable) -> Span
    requires low { run.now.low ≤ table.now.start / 24 }
    requires end { table.now.start / 24 + table.now.count ≤ run.now.low + run.now.count }
    requires fits { run.now.first + run.now.count < 2 ^ 64 }
    ensures start { result.start + run.now.low ≡ run.now.first + table.now.start / 24 }
    ensures end { result.end ≡ result.start + table.now.count }
{
    let start = run.first + (table.start / RELA_SIZE - run.low);
    Span {
        start,
        end: start + table.count,
    }
}

/// The range of each table's relocations among all.
fn find_spans(
    alloc: Global,
    bytes: &[u8],
    tables: &[SectionTable],
    all: &[Relocation],
    runs: &[RelocationRun],
) -> Result<Vec<Span>, NoMemory>
    requires runs { AreRuns bytes.now tables.now all.now 24 runs.now }
    ensures { IfOk result (λ v. AreRelocated
        (map (λ t. map relocation_of (table_entries bytes.now t)) tables.now) all.now v.items) }
{
    let mut spans = vec::with_capacity(alloc, tables.len())?;
    for table in tables {
        let span = if table.count == 0 {
            EMPTY_SPAN
        } else {
            span_in(&runs[table.start % RELA_SIZE], table)
        };
        vec::push(&mut spans, span)?;
    }
    Ok(spans)
}

/// The relocations of these tables.
pub fn read_tables(
    alloc: Global,
    bytes: &[u8],
    tables: &[SectionTable],
) -> Result<Relocations, NoMemory>
    requires long { 24 ≤ length bytes.now }
    requires tables { All (IsTableOf bytes.now) tables.now }
    ensures { IfOk result (λ read. AreRelocated
        (map (λ section. relocations_at bytes.now section.number.0) (map (λ table. table.section) tables.now))
        read.all.items read.spans.items) }
{
    let (all, runs) = read_runs(alloc, bytes, tables)?;
    let spans = find_spans(alloc, bytes, tables, &all, &runs)?;
    Ok(Relocations { all, spans })
}
