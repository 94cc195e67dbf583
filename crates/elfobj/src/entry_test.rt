//! The test of the entries of one table, among tables that may overlap in the file: an entry that has passed is not
//! tested again.
//!
//! Entries that follow one another in the file have numbers from 0 on. The list `past` has a number for each entry: the
//! entries from this one up to that number, without it, have passed. At first it is the entry's own number. Each walk
//! shortens the next ones, as in a union-find structure.

ghost use Rattle.std.specs.Prelude.{◌≡◌, ℕ, ◌≤◌, ◌<◌, ◌+◌, ◌*◌, IfOk, List, get_or, length};
ghost use Rattle.std.specs.List.{list_any};
ghost use Rattle.elfobj.specs.EntryTests.{HavePassed};
ghost use Rattle.elfobj.specs.Runs.{is_refused_for, table_entries};
ghost use Rattle.elfobj.specs.declared.relocation_fault.EntryFault.{EntryFault};
ghost use Rattle.elfobj_file.specs.declared.section.Section.{Section};

use crate::relocation_fault::{EntryFault, is_refused_for};
use crate::relocation_run::SectionTable;
use elfobj_file::constants::RELA_SIZE;
use elfobj_file::relocation_entry::read_relocation_entry;
use growth::{NoMemory, vec};
use std::alloc::Global;

/// The list `past` for entries of which none is known to have passed.
pub fn none_passed(alloc: Global, count: usize) -> Result<Vec<usize>, NoMemory>
    ensures long { IfOk result (λ numbers. length numbers.items ≡ count) }
    ensures own { IfOk result (λ numbers. (k : ℕ) → k < count → get_or numbers.items k 0 ≡ k) }
{
    let mut past = vec::with_capacity(alloc, count)?;
    for entry in 0..count {
        vec::push(&mut past, entry)?;
    }
    Ok(past)
}

/// The number that `past` has for this entry. The entry then gets the number of the entry at that place, so that the
/// next walk is shorter.
fn step_over(past: &mut [usize], entry: usize) -> usize
    requires { entry < length past.old }
    ensures value { result ≡ get_or past.old entry 0 }
    ensures long { length past.new ≡ length past.old }
    ensures kept { (fault : EntryFault) (bytes : List ℕ) (n : ℕ) (s : Section) (base : ℕ)
        → HavePassed fault bytes n s base past.old → HavePassed fault bytes n s base past.new }
{
    let next = past[entry];
    if next < past.len() {
        past[entry] = past[next];
    }
    next
}

/// Whether an entry of a table is outside the profile in this way; stops at the first that is. The first entry of the
/// table has the number `first` among those that follow one another from `base` on.
pub fn is_table_refused(
    bytes: &[u8],
    table: &SectionTable,
    base: usize,
    first: usize,
    past: &mut [usize],
    fault: EntryFault,
    symbols: usize,
) -> bool
    requires start { table.now.start ≡ base + 24 * first }
    requires end { first + table.now.count ≤ length past.old }
    requires within { base + 24 * length past.old ≤ length bytes.now }
    requires passed { HavePassed fault bytes.now symbols table.now.section base past.old }
    ensures value { result ≡ list_any (is_refused_for fault symbols table.now.section)
        (table_entries bytes.now table.now) }
    ensures long { length past.new ≡ length past.old }
    ensures passed { HavePassed fault bytes.now symbols table.now.section base past.new }
{
    let end = first + table.count;
    let mut at = first;
    while at < end {
        let next = step_over(past, at);
        if next > at {
            at = next;
            continue;
        }
        let entry = read_relocation_entry(bytes, base + RELA_SIZE * at);
        if is_refused_for(fault, symbols, &table.section, &entry) {
            return true;
        }
        past[at] = at + 1;
        at += 1;
    }
    false
}
