//! Where the layout of the previous link is resumed: at the first row that differs.

ghost use Rattle.std.specs.Prelude.{◌≡◌, ◌<◌, ◌==◌, IfSome, IsNone, IsSome, MatchOption, None, Some, false, length};
ghost use Rattle.std.specs.Prelude.{position, slice_get, zip};
ghost use Rattle.relink_driver.specs.Resume.{AreSameBefore, IsFirstChanged, IsNext};
ghost use Rattle.relink_driver.specs.SameRows.{are_same_pieces, replaced_part, first_changed, is_changed};
ghost use Rattle.relink_driver.specs.SameRows.{is_of_same_object};
ghost use Rattle.relink_driver.specs.SameRows.{is_same_piece, is_same_row, is_same_section, kind_number};
ghost use Rattle.relink_driver.specs.SameRows.{numbered, part_name, section_name};
ghost use Rattle.relink_driver.specs.StayedSections.{IsPreviousOf, PreviousState, last_place, previous_of};
ghost use Rattle.relink_driver.specs.StayedSections.{previous_state, replaced_state};
ghost use Rattle.ldmodel.specs.Rows as model;
ghost use Rattle.ldmodel.specs.Sections as sections;
ghost use Rattle.ldmodel.specs.Stayed.{GoodLink};
ghost use Rattle.ldmodel_project.specs.ByPlace.{rows_in};
ghost use Rattle.place.specs.sections.Resumable.{IsResumable};

use crate::stayed_sections::{PreviousView, ReplacedObject};
use elfobj::Object;
use elfobj::section::{LinkedIndex, SectionIndex, SectionKind};
use ldmodel::rows::Piece;
use ldmodel::sections::{Part, SectionRef};
use ldmodel_laws::layout::placed_are_rows;
use ldmodel_project::view::ProjectView;
use place::ResumePoint;

/// The place of a section among those of an object.
fn find_section(object: &Object, number: SectionIndex) -> Option<LinkedIndex>
    ensures found { IfSome result (λ i. i.0 < length object.now.sections) }
    ensures is { MatchOption result (numbered object.now.sections number ≡ None) (λ i.
        numbered object.now.sections number ≡ slice_get object.now.sections i.0) }
{
    // for the prover: brings in the invariant of `object`, of its sections
    let _in_order = object.sections();
    object.section_at(number)
}

/// The name of a section of an object; no bytes if there is none.
fn section_name(object: &Object, number: SectionIndex) -> &[u8]
    ensures { result.now ≡ section_name object.now number }
{
    match find_section(object, number) {
        Some(index) => object.section_name(index),
        None => &[],
    }
}

/// The name of a part of an object; that of a common block is `COMMON`.
fn part_name(object: &Object, part: Part) -> &[u8]
    ensures { result.now ≡ part_name object.now part }
{
    match part {
        Part::InTable(number) => section_name(object, number),
        Part::InCommon(_) => b"COMMON",
    }
}

/// Whether two parts are the same.
fn is_same_part(before: Part, now: Part) -> bool
    ensures { result ≡ sections.is_same_part before now }
{
    before == now
}

/// Whether two kinds are the same.
fn is_same_kind(before: SectionKind, now: SectionKind) -> bool
    ensures { result ≡ (kind_number before == kind_number now) }
{
    before == now
}

/// Whether the object of `now` replaced that of `before`, and the part `before` has the same name in both objects.
fn replaced_part(
    replaced: &ReplacedObject<'_>,
    project: &ProjectView<'_>,
    before: SectionRef,
    now: SectionRef,
) -> bool
    ensures { result ≡ replaced_part (replaced_state replaced.now) project.now before now }
{
    if replaced.old_place != before.object || replaced.new_place != now.object {
        return false;
    }
    match project.object(now.object) {
        Some(object) => part_name(replaced.old_object, before.part)
            == part_name(object, before.part),
        None => false,
    }
}

/// Whether the object of `now` is that of the previous link's `before`, or replaced it and has that part under the same
/// name.
fn is_of_same_object(
    previous: &PreviousView<'_>,
    project: &ProjectView<'_>,
    before: SectionRef,
    now: SectionRef,
) -> bool
    ensures { result
        ≡ is_of_same_object (previous_state previous.now) project.now before now
        (last_place (previous_state previous.now) now.object) }
{
    match previous.origin(now.object) {
        Some(place) => place == before.object.0,
        None => match previous.replaced {
            Some(replaced) => replaced_part(&replaced, project, before, now),
            None => false,
        },
    }
}

/// Whether a section is the same as one of the previous link.
fn is_same_section(
    previous: &PreviousView<'_>,
    project: &ProjectView<'_>,
    before: SectionRef,
    now: SectionRef,
) -> bool
    ensures { result ≡ is_same_section (previous_state previous.now) project.now before now }
{
    is_same_part(before.part, now.part) && is_of_same_object(previous, project, before, now)
}

/// Whether an entry of a row is the same as one of the previous link.
fn is_same_piece(
    previous: &PreviousView<'_>,
    project: &ProjectView<'_>,
    before: &Piece,
    now: &Piece,
) -> bool
    ensures { result ≡ is_same_piece (previous_state previous.now) project.now before.now now.now }
{
    before.statement == now.statement
        && is_same_section(previous, project, before.section, now.section)
        && is_same_kind(before.kind, now.kind)
        && before.flags == now.flags
        && before.size == now.size
        && before.alignment == now.alignment
}

/// Whether the entries of a row are those of the previous link's row, as far as both go.
fn are_same_pieces(
    previous: &PreviousView<'_>,
    project: &ProjectView<'_>,
    before: &[Piece],
    now: &[Piece],
) -> bool
    ensures { result ≡ are_same_pieces (previous_state previous.now) project.now before.now now.now }
{
    before.iter().zip(now).all(|(before, now)| is_same_piece(previous, project, before, now))
}

/// Whether a row is the same as one of the previous link.
fn is_same_row(
    previous: &PreviousView<'_>,
    project: &ProjectView<'_>,
    before: &[Piece],
    now: &[Piece],
) -> bool
    ensures { result ≡ is_same_row (previous_state previous.now) project.now before.now now.now }
{
    before.len() == now.len() && are_same_pieces(previous, project, before, now)
}

/// The number of the first row that differs from the previous link's, among those that both links have.
fn find_changed(
    previous: &PreviousView<'_>,
    project: &ProjectView<'_>,
    before: &[Vec<Piece>],
    now: &[Vec<Piece>],
) -> Option<usize>
    ensures { result ≡ position (is_changed (previous_state previous.now) project.now) (zip before.now now.now) }
{
    before.iter().zip(now).position(|(before, now)| !is_same_row(previous, project, before, now))
}

/// Like `find_changed`, but if no row differs, the number of the rows that both links have.
fn first_changed(
    previous: &PreviousView<'_>,
    project: &ProjectView<'_>,
    before: &[Vec<Piece>],
    now: &[Vec<Piece>],
) -> usize
    ensures { result ≡ first_changed (previous_state previous.now) project.now before.now now.now }
{
    find_changed(previous, project, before, now).unwrap_or(before.len().min(now.len()))
}

/// The placement of the previous link, with the first row that differs from its rows. `None` if there is no previous
/// link, or its script is not known to be the same.
pub fn resume_point<'a>(
    previous: Option<PreviousView<'a>>,
    project: &ProjectView<'_>,
    rows: &[Vec<Piece>],
) -> Option<ResumePoint<'a>>
    requires rows { rows_in project.now rows.now ≡ model.rows project.now }
    ensures kept { (old : GoodLink) → IfSome (previous_of previous.entry) (IsPreviousOf old project.now)
        → IfSome result (λ point.
        IsResumable project.now.script (model.rows project.now) point.placement.now point.first_row) }
    ensures same { (old : GoodLink) (x : PreviousState) → previous_of previous.entry ≡ Some x
        → IsPreviousOf old project.now x
        → IfSome result (λ point. AreSameBefore old.project project.now point.first_row) }
    ensures some { (old : GoodLink) (x : PreviousState) → previous_of previous.entry ≡ Some x
        → IsPreviousOf old project.now x
        → IsNext old.project project.now x → IsSome result }
    ensures none { (x : PreviousState) → previous_of previous.entry ≡ Some x → x.same_script ≡ false → IsNone result }
    ensures first { (old : GoodLink) (x : PreviousState) → previous_of previous.entry ≡ Some x
        → IsPreviousOf old project.now x
        → IsNext old.project project.now x
        → IfSome result (λ point. IsFirstChanged old.project project.now point.first_row) }
{
    // for the prover: brings in the law that output sections contain the rows
    placed_are_rows();
    let previous = previous?;
    if !previous.same_script {
        return None;
    }
    let before = &previous.snapshot.indexed_layout;
    let first_row = first_changed(&previous, project, &before.rows, rows);
    Some(ResumePoint {
        placement: &before.link_layout.placement,
        first_row,
    })
}
