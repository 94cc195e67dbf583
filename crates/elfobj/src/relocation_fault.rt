//! The tests of the entries of relocation sections, before any of them is kept.

ghost use Rattle.std.specs.Prelude.{◌≡◌, ◌≢◌, ℕ, ◌≤◌, ◌<◌, ◌+◌, ◌*◌, ◌%◌, IfOk, false, get_or, length, map, true};
ghost use Rattle.std.specs.List.{All, list_any};
ghost use Rattle.std.specs.List.Sorted.{IsNonDecreasingBy, IsPermutation};
ghost use Rattle.elfobj.specs.EntryTests.{PassesIn, field_ends};
ghost use Rattle.elfobj.specs.Runs.{IsCovered, IsTableOf, has_refused_entry, is_refused_for};

use crate::entry_test::{is_table_refused, none_passed};
use crate::field::is_outside;
use crate::relocation_run::{SectionTable, class_range};
use crate::section::{Section, SectionKind};
use elfobj_file::constants::RELA_SIZE;
use elfobj_file::relocation_entry::RelocationEntry;
use growth::{NoMemory, vec};
use std::alloc::Global;

/// A way in which an entry is outside the profile, in the order of the refusals' numbers.
#[derive(Clone, Copy)]
pub enum EntryFault {
    /// The first of those below.
    Any,
    /// Its symbol isn't one of the object's.
    Symbol,
    /// Its type is not of the profile.
    Kind,
    /// Its field lies outside its section.
    Bounds,
}

/// Whether an entry is outside the profile in this way, for this section.
pub fn is_refused_for(
    fault: EntryFault,
    symbols: usize,
    section: &Section,
    entry: &RelocationEntry,
) -> bool
    ensures { result ≡ is_refused_for fault symbols section.now entry.now }
{
    match fault {
        EntryFault::Any => {
            entry.names_no_symbol(symbols)
                || entry.is_strange_type()
                || is_outside(&entry.relocation(), section.kind, section.size)
        }
        EntryFault::Symbol => entry.names_no_symbol(symbols),
        EntryFault::Kind => entry.is_strange_type(),
        EntryFault::Bounds => is_outside(&entry.relocation(), section.kind, section.size),
    }
}

impl SectionTable {
    ghost use Rattle.elfobj.specs.EntryTests.{field_ends};

    /// The number of offsets at which a field may end in its section: 0 to its size, and none in a section without
    /// bytes in the file. A field that lies in a section also lies in each section that has no fewer.
    fn field_ends(&self) -> u128
        ensures { result ≡ field_ends self.now.section }
    {
        match self.section.kind {
            SectionKind::Nobits => 0,
            _ => u128::from(self.section.size) + 1,
        }
    }

    /// Whether the table has entries, and these are of a class.
    fn is_of_class(&self, class: usize) -> bool
        ensures yes { result ≡ true → (0 < self.now.count) × (self.now.start % 24 ≡ class) }
        ensures no { result ≡ false → 0 < self.now.count → self.now.start % 24 ≢ class }
    {
        self.count > 0 && self.start % RELA_SIZE == class
    }
}

/// These tables in the order of their sections' sizes, the smallest first.
pub fn smallest_first(alloc: Global, tables: &[SectionTable]) -> Result<Vec<SectionTable>, NoMemory>
    ensures same { IfOk result (λ ordered. IsPermutation tables.now ordered.items) }
    ensures order { IfOk result (λ ordered. IsNonDecreasingBy (λ table. field_ends table.section) ordered.items) }
{
    let mut sorted = vec::to_vec(tables, alloc)?;
    sorted.sort_unstable_by_key(|t| t.field_ends());
    Ok(sorted)
}

/// Whether an entry of the tables of a class is outside the profile in this way. At first `past` says
/// that none has passed. Each entry that passes is tested once, since the tables come in the order of their sections'
/// sizes.
fn is_refused_among(
    bytes: &[u8],
    tables: &[SectionTable],
    class: usize,
    low: usize,
    past: &mut [usize],
    fault: EntryFault,
    symbols: usize,
) -> bool
    requires tables { All (IsTableOf bytes.now) tables.now }
    requires order { IsNonDecreasingBy (λ t. field_ends t.section) tables.now }
    requires covers { All (IsCovered class low (low + length past.old)) tables.now }
    requires within { 24 * low + class + 24 * length past.old ≤ length bytes.now }
    requires own { (k : ℕ) → k < length past.old → get_or past.old k 0 ≡ k }
    ensures some { result ≡ true → list_any (has_refused_entry fault bytes.now symbols)
        (map (λ t. t.section) tables.now) ≡ true }
    ensures none { result ≡ false → All (PassesIn class fault bytes.now symbols) tables.now }
{
    let base = RELA_SIZE * low + class;
    for table in tables {
        if table.is_of_class(class) {
            let first = table.start / RELA_SIZE - low;
            if is_table_refused(bytes, table, base, first, past, fault, symbols) {
                return true;
            }
        }
    }
    false
}

/// Whether an entry of a table of a class is outside the profile in this way.
fn is_class_refused(
    alloc: Global,
    bytes: &[u8],
    tables: &[SectionTable],
    class: usize,
    fault: EntryFault,
    symbols: usize,
) -> Result<bool, NoMemory>
    requires class { class < 24 }
    requires long { 24 ≤ length bytes.now }
    requires tables { All (IsTableOf bytes.now) tables.now }
    requires order { IsNonDecreasingBy (λ t. field_ends t.section) tables.now }
    ensures some { IfOk result (λ b. b ≡ true
        → list_any (has_refused_entry fault bytes.now symbols) (map (λ t. t.section) tables.now) ≡ true) }
    ensures none { IfOk result (λ b. b ≡ false → All (PassesIn class fault bytes.now symbols) tables.now) }
{
    let (low, end) = class_range(tables, class, bytes.len());
    let mut past = none_passed(alloc, end - low)?;
    Ok(is_refused_among(bytes, tables, class, low, &mut past, fault, symbols))
}

/// Whether an entry of one of these tables is outside the profile in this way. The tables of the smallest sections come
/// first. It stops at the first such entry.
pub fn is_any_refused(
    alloc: Global,
    bytes: &[u8],
    tables: &[SectionTable],
    fault: EntryFault,
    symbols: usize,
) -> Result<bool, NoMemory>
    requires long { 24 ≤ length bytes.now }
    requires tables { All (IsTableOf bytes.now) tables.now }
    requires order { IsNonDecreasingBy (λ table. field_ends table.section) tables.now }
    ensures { IfOk result (λ refused. refused ≡ list_any (has_refused_entry fault bytes.now symbols)
        (map (λ table. table.section) tables.now)) }
{
    for class in 0..RELA_SIZE {
        if is_class_refused(alloc, bytes, tables, class, fault, symbols)? {
            return Ok(true);
        }
    }
    Ok(false)
}
