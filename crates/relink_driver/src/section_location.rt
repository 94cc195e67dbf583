//! Where sections lie in a link, in memory and in the file, and whether they lay there in the previous link.

ghost use Rattle.std.specs.Prelude.{◌≡◌, IfOk, length, map};
ghost use Rattle.elfobj.specs.Sections.{section_of};
ghost use Rattle.relink_driver.specs.LocatedSections.{spots_below};
ghost use Rattle.relink_driver.specs.SameStarts.{HaveSameStarts, has_same_start, same_start, start_from, start_of};
ghost use Rattle.relink_driver.specs.SectionLocation.{range_at, range_from, location_in, location_of};
ghost use Rattle.relink_driver.specs.StayedSections.{range_if_same};

use elfobj::Object;
use elfobj::section::LinkedIndex;
use emit::located_section::LocatedSection;
use emit::relocate::previous_link_info::FileRange;
use growth::{NoMemory, vec};
use ldmodel::names::ObjectPlace;
use ldmodel::placed::Placed;
use ldmodel::sections::{Part, SectionRef};
use place::LinkLayout;
use place::indexed_layout::{IndexedLayout, SectionAddress};
use std::alloc::Global;

/// The location of an input section.
#[derive(Clone, Copy, Debug, PartialEq, Eq)]
pub(crate) struct SectionLocation {
    /// The address that it starts at.
    pub start: u64,
    /// How many bytes it takes in memory.
    pub size: u64,
    /// The bytes of the input section in the file.
    pub range: FileRange,
}

/// The bytes in the file of an input section whose output section begins at `offset` of the file; an empty range if the
/// output section has no file bytes. `None` if they begin past 2^64.
#[inline(always)]
#[tactic(auto, unfolding(crate::specs::SectionLocation::range_from))]
fn range_from(section: &Placed, offset: u128, start: u64, size: u64) -> Option<FileRange>
    ensures { result ≡ range_from section.now offset start size }
{
    if !section.has_file_bytes || size == 0 {
        return Some(FileRange {
            offset: 0,
            length: 0,
        });
    }
    let from_start = start.saturating_sub(section.start);
    let offset = offset.checked_add(u128::from(from_start))?;
    let offset = u64::try_from(offset).ok()?;
    Some(FileRange {
        offset,
        length: size,
    })
}

/// The bytes in the file of the input section at this address; `None` if they begin past 2^64.
#[inline(always)]
pub(crate) fn range_at(link_layout: &LinkLayout, address: SectionAddress) -> Option<FileRange>
    ensures { result ≡ range_at link_layout.now address }
{
    let number = address.section.0 as usize;
    let section = link_layout.placement.sections().get(number)?;
    let offset = link_layout.offsets.get(number)?;
    range_from(section, *offset, address.start, address.size)
}

/// The location of the input section at this address; `None` if its bytes in the file begin past 2^64.
#[inline(always)]
fn location_at(link_layout: &LinkLayout, address: SectionAddress) -> Option<SectionLocation>
    ensures { result ≡ location_of link_layout.now address }
{
    let range = range_at(link_layout, address)?;
    Some(SectionLocation {
        start: address.start,
        size: address.size,
        range,
    })
}

/// The location of an input section, if it is in the output. `None` also if its bytes in the file begin past 2^64.
#[tactic(auto, unfolding(crate::specs::SectionLocation::location_in))]
fn find_location(indexed_layout: &IndexedLayout, section: SectionRef) -> Option<SectionLocation>
    ensures { result ≡ location_in indexed_layout.now section }
{
    let address = indexed_layout.find(section)?;
    location_at(&indexed_layout.link_layout, address)
}

/// The locations of those sections of an object that are in the output, in their order. Fails if memory runs out.
pub(crate) fn locate_sections(
    alloc: Global,
    indexed_layout: &IndexedLayout,
    place: ObjectPlace,
    object: &Object,
) -> Result<Vec<LocatedSection>, NoMemory>
    ensures { IfOk result (λ v. v.items ≡ spots_below indexed_layout.now place (map section_of object.now.sections)
        (length object.now.sections)) }
{
    let sections = object.sections();
    let mut located = vec::with_capacity(alloc, sections.len())?;
    for (index, section) in sections.iter().enumerate() {
        let key = SectionRef {
            object: place,
            part: Part::InTable(section.number),
        };
        if let Some(section_location) = find_location(indexed_layout, key) {
            vec::push(
                &mut located,
                LocatedSection {
                    index: LinkedIndex(index),
                    start: section_location.start,
                    range: section_location.range,
                },
            )?;
        }
    }
    Ok(located)
}

/// The bytes in the file of an input section that is at `now` and was at `before` in the previous link, if it stayed.
/// Most sections that did not are at another address: their file ranges are not computed.
#[inline(always)]
pub(crate) fn range_if_stayed(
    previous: &LinkLayout,
    before: SectionAddress,
    link_layout: &LinkLayout,
    now: SectionAddress,
) -> Option<FileRange>
    ensures { result ≡ range_if_same (location_of previous.now before) (location_of link_layout.now now) }
{
    if before.start != now.start {
        return None;
    }
    let before = location_at(previous, before)?;
    let now = location_at(link_layout, now)?;
    if before == now { Some(now.range) } else { None }
}

/// Where an output section with file bytes starts.
#[derive(Clone, Copy)]
struct OutputStart {
    /// Its first address.
    address: u64,
    /// Where it begins in the file. It is at most the address, so that the bytes of each of its input sections begin
    /// below 2^64.
    offset: u64,
}

/// Where an output section starts that begins at `offset` of the file. `None` if it has no file bytes, or the offset is
/// above the address.
#[tactic(auto, unfolding(crate::specs::SameStarts::start_from))]
fn start_from(section: &Placed, offset: u128) -> Option<OutputStart>
    ensures { result ≡ start_from section.now offset }
{
    let offset = u64::try_from(offset).ok()?;
    if section.has_file_bytes && offset <= section.start {
        return Some(OutputStart {
            address: section.start,
            offset,
        });
    }
    None
}

/// Where the output section of this number starts, if `start_from` says so.
fn start_of(link_layout: &LinkLayout, number: usize) -> Option<OutputStart>
    ensures { result ≡ start_of link_layout.now number }
{
    let section = link_layout.placement.sections().get(number)?;
    let offset = link_layout.offsets.get(number)?;
    start_from(section, *offset)
}

/// Whether two starts are the same.
fn is_same_start(before: OutputStart, now: OutputStart) -> bool
    ensures { result ≡ same_start before now }
{
    before.address == now.address && before.offset == now.offset
}

/// Whether the output section of this number is known to start where the previous link has it.
fn has_same_start(previous: &LinkLayout, link_layout: &LinkLayout, number: usize) -> bool
    ensures { result ≡ has_same_start previous.now link_layout.now number }
{
    let Some(before) = start_of(previous, number) else {
        return false;
    };
    let Some(now) = start_of(link_layout, number) else {
        return false;
    };
    is_same_start(before, now)
}

/// For each output section of the previous link whether it is known to start at the same place in this one.
///
/// # Errors
///
/// If memory runs out.
pub(crate) fn same_starts(
    alloc: Global,
    previous: &LinkLayout,
    link_layout: &LinkLayout,
) -> Result<Vec<bool>, NoMemory>
    ensures { IfOk result (λ v. HaveSameStarts previous.now link_layout.now v.items) }
{
    let count = previous.placement.sections().len();
    let mut with_same_start = vec::with_capacity(alloc, count)?;
    for number in 0..count {
        vec::push(
            &mut with_same_start,
            has_same_start(previous, link_layout, number),
        )?;
    }
    Ok(with_same_start)
}
