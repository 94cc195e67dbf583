//! The addresses of input sections, by their numbers.

ghost use Rattle.std.specs.Prelude.{◌≡◌, ◌++◌, ◌∷◌, [], IfOk, List, drop, length, min};
ghost use Rattle.gather.specs.SectionTable.{len_of};
ghost use Rattle.place.specs.Columns.{AddsEntries, IsColumn};
ghost use Rattle.place.specs.Entries.{all_entries, row_entries};

use crate::indexed_layout::SectionAddress;
use crate::indexed_section::IndexedSection;
use gather::input_section_table::InputSectionTable;
use growth::{NoMemory, vec};
use ldmodel::names::ObjectPlace;
use ldmodel::placed::OutputIndex;
use ldmodel::rows::Piece;
use place_terms::output_number::output_index;
use std::alloc::Global;

/// Stores the address of an input section under its number, if there is none.
fn add_entry(
    column: &mut Vec<Option<SectionAddress>>,
    table: &InputSectionTable,
    entry: IndexedSection,
)
    requires { length column.now.items ≡ len_of table.now }
    ensures long { length column.new.items ≡ length column.old.items }
    ensures added { AddsEntries table.now column.old.items column.new.items (entry ∷ []) }
{
    let Some(number) = table.find(ObjectPlace(entry.object), entry.part) else {
        return;
    };
    let at = number.0 as usize;
    // each section is in one row, once, but the contract does not say so
    if column[at].is_none() {
        column[at] = Some(entry.address);
    }
}

/// Puts the input sections of a row, which start at these addresses, under their numbers.
fn add_row(
    column: &mut Vec<Option<SectionAddress>>,
    table: &InputSectionTable,
    section: OutputIndex,
    row: &[Piece],
    starts: &[u64],
)
    requires { length column.now.items ≡ len_of table.now }
    ensures long { length column.new.items ≡ length column.old.items }
    ensures added { AddsEntries table.now column.old.items column.new.items
        (row_entries section.0 row.now starts.now) }
{
    for (piece, start) in row.iter().zip(starts) {
        let entry = IndexedSection {
            object: piece.section.object.0,
            part: piece.section.part,
            address: SectionAddress {
                start: *start,
                size: piece.size,
                section,
            },
        };
        add_entry(column, table, entry);
    }
}

/// These addresses without the first ones.
fn after(starts: &[u64], count: usize) -> &[u64]
    ensures { result.now ≡ drop (min count (length starts.now)) starts.now }
{
    &starts[count.min(starts.len())..]
}

/// The address of each numbered input section that is in one of these rows. `starts` has the addresses of all rows, one
/// after another.
///
/// # Errors
///
/// If memory runs out.
pub(crate) fn address_column(
    alloc: Global,
    table: &InputSectionTable,
    rows: &[Vec<Piece>],
    starts: &[u64],
) -> Result<Vec<Option<SectionAddress>>, NoMemory>
    ensures { IfOk result (λ v. IsColumn table.now (all_entries 0 rows.now starts.now) v.items) }
{
    let mut column = vec::from_elem(alloc, None, table.len() as usize)?;
    let mut left = starts;
    for (number, row) in rows.iter().enumerate() {
        let section = output_index(number)?;
        add_row(&mut column, table, section, row, left);
        left = after(left, row.len());
    }
    Ok(column)
}
