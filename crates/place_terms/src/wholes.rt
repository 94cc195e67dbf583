//! The parts of a layout that is whole, handed on.

ghost use Rattle.std.specs.Prelude.{◌≡◌, ◌++◌, ◌∷◌, [], map, IfOk, OnOk};
ghost use Rattle.ldmodel.specs.PlacementView.{data_of, region_of as region_numbers};
ghost use Rattle.place_terms.specs.Keyed.{KeyedPiece, data_at_of};
ghost use Rattle.place_terms.specs.RegionTable.{region_of};
ghost use Rattle.place_terms.specs.SectionTable.{both, keyed, keyed_piece};
ghost use Rattle.place_terms.specs.Wholes.{all_data_in, counts_in, data_in, placed_in, starts_in};

use crate::output_number::output_index;
use crate::regions::RegionState;
use crate::sections::{DataAt, PieceAt, SectionParts};
use growth::{NoMemory, vec};
use ldmodel::placed::{OutputIndex, Placed, PlacedData, PlacedRegion};
use std::alloc::Global;

/// The numbers of the output sections.
pub fn numbers_of(alloc: Global, parts: SectionParts<'_, '_>) -> Result<Vec<Placed>, NoMemory>
    ensures { IfOk result (λ v. v.items ≡ parts.entry.sections.now ++ placed_in (map keyed parts.entry.placed.now)) }
{
    let mut list = vec::with_capacity(alloc, parts.sections.len() + parts.placed.len())?;
    vec::extend_from_slice(&mut list, parts.sections)?;
    for section in parts.placed {
        vec::push(&mut list, section.placed)?;
    }
    Ok(list)
}

/// Adds an address to the end of a list. Room was made for it, so the code that grows a list stays out of the loop.
#[inline(always)]
fn push_start(list: &mut Vec<u64>, start: u64) -> Result<(), NoMemory>
    ensures { OnOk result (list.new.items ≡ list.old.items ++ start ∷ []) }
{
    if list.len() < list.capacity() {
        list.push_reserved(start);
        return Ok(());
    }
    vec::push(list, start)?;
    Ok(())
}

fn add_starts(list: &mut Vec<u64>, pieces: &[PieceAt<'_>]) -> Result<(), NoMemory>
    ensures { OnOk result (list.new.items ≡ list.old.items
        ++ map (λ (x : KeyedPiece). x.start) (map keyed_piece pieces.now)) }
{
    for at in pieces {
        push_start(list, at.start)?;
    }
    Ok(())
}

/// The addresses of the input sections, row by row; there are `count` in all.
pub fn starts_of(
    alloc: Global,
    count: usize,
    parts: SectionParts<'_, '_>,
) -> Result<Vec<u64>, NoMemory>
    ensures { IfOk result (λ v. v.items ≡ parts.entry.starts.now ++ starts_in (map keyed parts.entry.placed.now)) }
{
    let mut list = vec::with_capacity(alloc, count)?;
    vec::extend_from_slice(&mut list, parts.starts)?;
    for section in parts.placed {
        add_starts(&mut list, &section.pieces)?;
    }
    Ok(list)
}

/// How many input sections each output section has.
pub fn counts_of(alloc: Global, parts: SectionParts<'_, '_>) -> Result<Vec<usize>, NoMemory>
    ensures { IfOk result (λ v. v.items ≡ parts.entry.counts.now ++ counts_in (map keyed parts.entry.placed.now)) }
{
    let mut list = vec::with_capacity(alloc, parts.counts.len() + parts.placed.len())?;
    vec::extend_from_slice(&mut list, parts.counts)?;
    for section in parts.placed {
        vec::push(&mut list, section.pieces.len())?;
    }
    Ok(list)
}

/// Adds the data commands of an output section.
fn add_data(
    list: &mut Vec<PlacedData>,
    section: OutputIndex,
    commands: &[DataAt],
) -> Result<(), NoMemory>
    ensures { OnOk result (map data_of list.new.items ≡ map data_of list.old.items ++ data_in section.0 commands.now) }
{
    for at in commands {
        vec::push(
            list,
            PlacedData {
                section,
                start: at.start,
                width: at.width,
                value: at.value,
            },
        )?;
    }
    Ok(())
}

/// Adds the data commands of an output section that is taken over from the previous layout.
fn add_taken_data(
    list: &mut Vec<PlacedData>,
    section: OutputIndex,
    commands: &[PlacedData],
) -> Result<(), NoMemory>
    ensures { OnOk result (map data_of list.new.items ≡ map data_of list.old.items
        ++ data_in section.0 (map data_at_of commands.now)) }
{
    for at in commands {
        vec::push(
            list,
            PlacedData {
                section,
                start: at.start,
                width: at.width,
                value: at.value,
            },
        )?;
    }
    Ok(())
}

/// The data commands, section by section.
pub fn data_commands_of(
    alloc: Global,
    parts: SectionParts<'_, '_>,
) -> Result<Vec<PlacedData>, NoMemory>
    ensures { IfOk result (λ v.
        map data_of v.items ≡ all_data_in 0 (both parts.entry.taken.now parts.entry.placed.now)) }
{
    let mut list = Vec::new(alloc);
    let mut number: usize = 0;
    for section in parts.taken {
        add_taken_data(&mut list, output_index(number)?, section.data_commands)?;
        number += 1;
    }
    for section in parts.placed {
        add_data(&mut list, output_index(number)?, &section.data_commands)?;
        number += 1;
    }
    Ok(list)
}

/// The numbers of the regions.
pub fn regions_of(alloc: Global, regions: &[RegionState<'_>]) -> Result<Vec<PlacedRegion>, NoMemory>
    ensures { IfOk result (λ v. v.items ≡ map region_numbers (map region_of regions.now)) }
{
    let mut list = vec::with_capacity(alloc, regions.len())?;
    for region in regions {
        vec::push(
            &mut list,
            PlacedRegion {
                origin: region.origin,
                extent: region.extent,
            },
        )?;
    }
    Ok(list)
}
