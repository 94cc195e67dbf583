//! Where output sections begin in the file.

ghost use Rattle.std.specs.Prelude.{◌≡◌, ◌+◌, ◌≤◌, ◌^◌, ◌∷◌, IfOk, List, drop, map};
ghost use Rattle.std.specs.List.{AllZip};
ghost use Rattle.ldmodel_laws.specs.ImageBytes.{AreNamed};
ghost use Rattle.ldmodel.specs.Layout.{Layout};
ghost use Rattle.ldmodel.specs.PlacementView.{AreSegments, placed_of};
ghost use Rattle.ldmodel.specs.Segments as model;
ghost use Rattle.place.specs.Offsets.{is_last, offset_at, offsets_in};
ghost use Rattle.place.specs.Offsets.{IsOffset};
ghost use Rattle.place.specs.Placing.{HaveRoom};

use growth::{NoMemory, vec};
use ldmodel::placed::Placed;
use ldmodel::segment::Segment;
use ldmodel_laws::segments::segments_by_neighbours;
use std::alloc::Global;

/// Where an output section of a segment begins in the file.
fn offset_at(segment: &Segment, section: &Placed) -> u128
    requires { segment.now.offset + 2 ^ 64 ≤ 2 ^ 128 }
    ensures { result ≡ offset_at segment.now section.now }
{
    segment.offset + u128::from(section.start.saturating_sub(segment.start))
}

/// Whether an output section is the last one of its segment: it ends where that does.
fn is_last(segment: &Segment, section: &Placed) -> bool
    ensures { result ≡ is_last segment.now section.now }
{
    let end = u128::from(section.start) + u128::from(section.size);
    end.saturating_sub(u128::from(segment.start)) == u128::from(segment.memory_size)
}

/// Where an output section begins in the file, and the number of the segment that the next one is looked for in.
#[derive(Clone, Copy)]
struct NextOffset {
    offset: u128,
    segment: usize,
}

/// The file offset of an output section, and the segment to try for the next one. An empty section has offset 0; any
/// other is in segment `number`.
fn step(segments: &[Segment], number: usize, section: &Placed) -> NextOffset
    requires { HaveRoom segments.now }
    ensures { (qs : List Placed) → offsets_in (section.now ∷ qs) (drop number segments.now)
        ≡ result.offset ∷ offsets_in qs (drop result.segment segments.now) }
{
    if section.size == 0 {
        return NextOffset {
            offset: 0,
            segment: number,
        };
    }
    match segments.get(number) {
        None => NextOffset {
            offset: 0,
            segment: number,
        },
        Some(segment) => {
            let offset = offset_at(segment, section);
            let last = is_last(segment, section);
            NextOffset {
                offset,
                segment: if last { number + 1 } else { number },
            }
        }
    }
}

/// Where these output sections, which these segments are made of, begin in the file, each one of size 0 at 0.
///
/// # Errors
///
/// If memory runs out.
pub(crate) fn offsets(
    alloc: Global,
    sections: &[Placed],
    segments: &[Segment],
) -> Result<Vec<u128>, NoMemory>
    requires { HaveRoom segments.now }
    ensures { IfOk result (λ v. (layout : Layout) → AreNamed layout.sections → map placed_of layout.sections
        ≡ sections.now
        → AreSegments layout.sections (model.segments layout.sections) segments.now
        → AllZip (IsOffset layout) layout.sections v.items) }
{
    // for the prover: brings in this law
    segments_by_neighbours();
    let mut offsets = vec::with_capacity(alloc, sections.len())?;
    let mut number = 0;
    for section in sections {
        let step = step(segments, number, section);
        vec::push(&mut offsets, step.offset)?;
        number = step.segment;
    }
    Ok(offsets)
}
