//! The fast path: links that differ from the previous one only in the contents of one object's sections.

ghost use Rattle.std.specs.Prelude.{◌≡◌, ◌↔◌, ◌<◌, ℕ, IfNone, IfOk, IfSome, None, OnErr, OnOk, Some, false};
ghost use Rattle.std.specs.Prelude.{slice_index_or, true};
ghost use Rattle.ldmodel.specs.Project.{Project};
ghost use Rattle.ldmodel.specs.Stayed.{GoodLink};
ghost use Rattle.ldmodel_laws.specs.Outline.{DiffersInContents};
ghost use Rattle.emit.specs.declared.rewrite.Rewrite.TheVariants.{Done, Faulty};
ghost use Rattle.relink_driver.specs.RelinkOutcome.{HasPreviousImage};
ghost use Rattle.relink_driver.specs.Context.{project_of};
ghost use Rattle.relink_driver.specs.InPlace.{IsNextLink, HasSameOutlines, IsInPlaceOutcome, origin_beside};
ghost use Rattle.relink_driver.specs.Rewritable.{IsRewritable};
ghost use Rattle.relink_driver.specs.StayedSections.{ReplacedObjectState, previous_of, previous_state, replaced_state};
ghost use Rattle.relink_driver.specs.Reads.{ReadsNothing};
ghost use Rattle.relink_driver.specs.Touched.{HasFault, HasTouched, IsTouchedWork};

use crate::context::PassContext;
use crate::outline::{same_outline, same_targets};
use crate::section_location::locate_sections;
use crate::stayed_sections::{PreviousView, ReplacedObject};
use emit::Canvas;
use emit::good::faultless_link_is_good;
use emit::located_section::nobits_are_bare;
use emit::rewrite::{Rewrite, rewrite_in_place};
use emit::rewritten::{
    rewritten_frame, rewritten_layout, rewritten_link, rewritten_names, rewritten_rows,
    rewritten_values,
};
use growth::NoMemory;
use ldmodel::meter::Meter;
use ldmodel::names::ObjectPlace;
use ldmodel_laws::segments::{files_in_order, sections_in_file};
use ldmodel_laws::stayed::{stayed_by_part, stayed_in_image};
use ldmodel_project::view::ProjectView;
use place::numbered::are_numbered;
use std::alloc::Global;

/// Whether each of the first `count` objects has the place that it had in the previous link, except for the object at
/// `place`: that one is not in the previous link.
fn others_in_place(previous: &PreviousView<'_>, count: usize, place: ObjectPlace) -> bool
    ensures { (result ≡ true) ↔ ((i : ℕ) → i < count
        → slice_index_or previous.now.origins.now i None ≡ origin_beside place.0 i) }
{
    for i in 0..count {
        let origin = if i == place.0 { None } else { Some(i) };
        if previous.origin(ObjectPlace(i)) != origin {
            return false;
        }
    }
    true
}

/// The replaced object, if the fast path is open: queries are answered from the previous link, nothing else differs
/// from it, and the two objects differ only in the contents of their sections. With `--gc-sections` their relocations
/// must name the same symbols too, since relocations are references.
fn find_replaced<'a>(
    previous: &PreviousView<'a>,
    project: &ProjectView<'_>,
) -> Option<ReplacedObject<'a>>
    ensures found { IfSome result (λ r. IsNextLink (previous_state previous.now) project.now (replaced_state r)) }
    ensures none { IfNone result ((r : ReplacedObjectState)
        → IsNextLink (previous_state previous.now) project.now r → ⊥) }
{
    if !previous.same_script || !previous.is_answered {
        return None;
    }
    let replaced = previous.replaced?;
    let object = project.object(replaced.new_place)?;
    let count = project.inputs().len();
    if replaced.old_place != replaced.new_place || previous.objects != count {
        return None;
    }
    if !others_in_place(previous, count, replaced.new_place)
        || !same_outline(replaced.old_object, object)
    {
        return None;
    }
    if project.options().gc() && !same_targets(replaced.old_object, object) {
        return None;
    }
    Some(replaced)
}

/// Laws of two projects whose objects have the same outlines, about the link of one beside that of the other. The call
/// does nothing.
fn outlines_decide()
    ensures { (old : GoodLink) (project : Project) (i : ℕ) → DiffersInContents old.project project i
        → HasSameOutlines old.project project old.layout }
{
    // for the prover: brings in the laws of `emit::rewritten`
    rewritten_names();
    rewritten_rows();
    rewritten_values();
    rewritten_frame();
    rewritten_layout();
    rewritten_link();
}

/// Writes the sections of the new object over those of the object that it replaced. `Faulty` if a relocation has a
/// fault; then the canvas is as it was.
///
/// # Errors
///
/// If memory runs out. Then the canvas is as it was.
fn rewrite_object(
    context: PassContext<'_, '_>,
    previous: &PreviousView<'_>,
    replaced: &ReplacedObject<'_>,
    canvas: &mut Canvas,
    meter: &mut Meter,
) -> Result<Rewrite, NoMemory>
    requires followed { IsNextLink (previous_state previous.now) (project_of context) (replaced_state replaced.now) }
    requires previous { HasPreviousImage (project_of context) canvas.old.bytes (previous_state previous.now) }
    ensures link { IfOk result (λ made. made ≡ Done
        → IsInPlaceOutcome (project_of context.entry) (Some (previous_state previous.now)) canvas.new.bytes) }
    ensures counted { IfOk result (λ made. made ≡ Done
        → IsTouchedWork (project_of context.entry) (previous_state previous.now)
        replaced.now.new_place.0 meter.old meter.new) }
    ensures refused { IfOk result (λ made. made ≡ Faulty → canvas.new.bytes ≡ canvas.old.bytes) }
    ensures faulty { IfOk result (λ made. made ≡ Faulty → HasFault (project_of context.entry)) }
    ensures reads { OnOk result (ReadsNothing meter.old meter.new) }
    ensures unchanged { OnErr result (canvas.new.bytes ≡ canvas.old.bytes) }
{
    // for the prover: brings in that the counts fit a u64
    let _counts = (meter.fields(), meter.bytes());
    // for the prover: brings in the laws of equal outlines, of what stayed, and of sections in the image
    outlines_decide();
    stayed_by_part();
    stayed_in_image();
    sections_in_file();
    files_in_order();
    nobits_are_bare(replaced.old_object);
    are_numbered(context.project);
    // for the prover: brings in the invariant of `context.project`
    let _inputs = context.project.inputs();
    let indexed_layout = &previous.snapshot.indexed_layout;
    faultless_link_is_good(context.project, &indexed_layout.link_layout);
    let Some(object) = context.project.object(replaced.new_place) else {
        // `find_replaced` has compared it with the object that it replaced
        unreachable!()
    };
    let located = locate_sections(context.alloc, indexed_layout, replaced.new_place, object)?;
    let values = previous
        .snapshot
        .symbols
        .slice(replaced.new_place, object.symbols().len());
    rewrite_in_place(
        context.alloc,
        canvas,
        replaced.new_place,
        object,
        values,
        &located,
        meter,
    )
}

/// Takes the fast path, if it is open: writes the sections of the one object that differs over the previous image.
/// `false` exactly if it is not open or a relocation has a fault; then the canvas is as it was.
///
/// # Errors
///
/// If memory runs out. Then the canvas is as it was.
pub(crate) fn rewrite_if_only_contents_differ(
    context: PassContext<'_, '_>,
    canvas: &mut Canvas,
    meter: &mut Meter,
) -> Result<bool, NoMemory>
    requires previous { IfSome (previous_of context.previous) (HasPreviousImage (project_of context) canvas.old.bytes) }
    ensures done { IfOk result (HasTouched (project_of context.entry)
        (previous_of context.entry.previous) canvas.old.bytes
        canvas.new.bytes meter.old meter.new) }
    ensures passed { IfOk result (λ done. done ≡ false
        → IsRewritable (project_of context.entry) (previous_of context.entry.previous) → ⊥) }
    ensures unchanged { OnErr result (canvas.new.bytes ≡ canvas.old.bytes) }
{
    let Some(previous) = context.previous else {
        return Ok(false);
    };
    let Some(replaced) = find_replaced(&previous, context.project) else {
        return Ok(false);
    };
    // for the prover: brings in the laws of equal outlines
    outlines_decide();
    // for the prover: brings in the invariant of `context.project`
    let _inputs = context.project.inputs();
    // for the prover: brings in that the count of pieces fits a u64
    let _pieces = meter.pieces();
    match rewrite_object(context, &previous, &replaced, canvas, meter)? {
        Rewrite::Done => Ok(true),
        Rewrite::Faulty => Ok(false),
    }
}
