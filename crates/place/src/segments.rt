//! Segments: groups of output sections, with their file offsets.

ghost use Rattle.std.specs.Prelude.{◌≡◌, ℕ, ◌+◌, ◌*◌, ◌≤◌, ◌<◌, ◌^◌, List, IfOk, length};
ghost use Rattle.ldmodel.specs.Segments.{congruent, headers_end};
ghost use Rattle.place.specs.Grouping.{Ends};
ghost use Rattle.place.specs.Placing.{AreAllSegments, HaveRoom, segment_at, past};

use crate::group::{Group, PAGE_SIZE, groups};
use growth::{NoMemory, vec};
use ldmodel::placed::PlacementView;
use ldmodel::segment::Segment;
use std::alloc::Global;

/// Where the headers end: the ELF header's 64 bytes, and 56 for each program header.
pub(crate) fn header_length(count: usize) -> u128
    ensures { result ≡ headers_end count }
{
    64 + 56 * count as u128
}

/// The least place not below `end` that is congruent to an address modulo the page size.
fn congruent_place(end: u128, address: u64) -> u128
    requires { end + 4096 < 2 ^ 128 }
    ensures { result ≡ congruent end address }
{
    let page = u128::from(PAGE_SIZE);
    end + (u128::from(address) % page + (page - end % page)) % page
}

fn place_segment(end: u128, group: &Group) -> Segment
    requires { end + 4096 < 2 ^ 128 }
    ensures { result ≡ segment_at end group.now }
{
    Segment {
        offset: congruent_place(end, group.start),
        start: group.start,
        load: group.load,
        file_size: group.file_size,
        memory_size: group.memory_size,
        writable: group.writable,
        executable: group.executable,
        first: group.first,
        last: group.last,
    }
}

/// Where the file bytes end after a segment.
pub(crate) fn end_after(end: u128, segment: Segment) -> u128
    ensures value { segment.offset + segment.file_size < 2 ^ 128 → result ≡ past end segment }
    ensures near { segment.offset ≤ end + 4096 → result ≤ end + 4096 + 2 ^ 64 }
    ensures fits { end + 4096 + 2 ^ 64 < 2 ^ 128 → segment.offset ≤ end + 4096
        → segment.offset + segment.file_size < 2 ^ 128 }
{
    if segment.file_size == 0 {
        end
    } else {
        segment.offset.saturating_add(u128::from(segment.file_size))
    }
}

/// The segments of output sections, each at the first place past the file bytes before it that is congruent to its
/// address modulo the page size. A section's end is below 2^64.
///
/// # Errors
///
/// If memory runs out.
pub fn segments(alloc: Global, placement: PlacementView<'_>) -> Result<Vec<Segment>, NoMemory>
    requires ends { Ends placement.sections.now }
    ensures are { IfOk result (λ v. AreAllSegments placement.entry.sections.now v.items) }
    ensures room { IfOk result (λ v. HaveRoom v.items) }
{
    let groups = groups(alloc, placement.sections)?;
    let mut end = header_length(groups.len());
    let mut segments = vec::with_capacity(alloc, groups.len())?;
    for group in &groups {
        let segment = place_segment(end, group);
        end = end_after(end, segment);
        vec::push(&mut segments, segment)?;
    }
    Ok(segments)
}
