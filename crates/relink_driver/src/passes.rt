//! The passes of a link, each with what holds after it.

ghost use Rattle.std.specs.Prelude.{◌≡◌, IfErr, IfOk, IfSome, OnErr, OnOk, map};
ghost use Rattle.gather.specs.Gathering.{IsGathering};
ghost use Rattle.relink_driver.specs.StayedSections.{previous_of};
ghost use Rattle.emit.specs.relocate.SymbolValues.{AreSymbolValues};
ghost use Rattle.place.specs.LinkLayout.{HasLayout, IsLinkLayout};
ghost use Rattle.ldmodel.specs.Layout.{Layout};
ghost use Rattle.ldmodel.specs.Link.{gathering_faults, layout, link, placed, unless};
ghost use Rattle.ldmodel.specs.Rows as model;
ghost use Rattle.ldmodel.specs.declared.fault.Fault.TheVariants.{Orphan};
ghost use Rattle.ldmodel_project.specs.ByPlace.{rows_in};
ghost use Rattle.emit.specs.relocate.Given.{IsGiven};
ghost use Rattle.relink_driver.specs.Counted.{ArePlaced, HasEvaluated, HasWritten};
ghost use Rattle.relink_driver.specs.RelinkOutcome.{HasPreviousImage};
ghost use Rattle.relink_driver.specs.Context.{IsPassContext, project_of};
ghost use Rattle.relink_driver.specs.Phases.{HasPreviousLink, IsBeside, IsFaultless, IsFilled, IsImage, IsKnown};
ghost use Rattle.relink_driver.specs.Phases.{IsLaidOut, IsPlaced};
ghost use Rattle.relink_driver.specs.Phases.{IsShort};
ghost use Rattle.relink_driver.specs.Reads.{EndsReadingNothing, ReadsNothing};
ghost use Rattle.relink_driver.specs.PassEnds.{IsPassEnd};
ghost use Rattle.relink_driver.specs.declared.pass_end.PassEnd.TheVariants.{NoMemory as OutOfMemory};
ghost use Rattle.growth.specs.Memory.{no_memory};

use crate::context::PassContext;
use crate::pass_end::{PassEnd, end_if_faulty};
use crate::resume::resume_point;
use crate::stayed_sections::StayedSections;
use crate::symbol_values::SymbolValues;
use emit::drawing::draw_image;
use emit::good::faultless_link_is_good;
use emit::image_sources::ImageSources;
use emit::length::image_length;
use emit::relocate::asserting::assertion_faults;
use emit::relocate::given::GivenValues;
use emit::relocate::link_view::LinkView;
use emit::relocate::values::Values;
use emit::relocated::Relocated;
use emit::{Canvas, fault_text};
use gather::Gathering;
use growth::{NoMemory, iterator};
use ldmodel::fault::Fault;
use ldmodel::meter::Meter;
use ldmodel::rows::Piece;
use ldmodel::sections::SectionRef;
use ldmodel_laws::layout::placed_are_rows;
use place::indexed_layout::IndexedLayout;
use place::length::length_fault;
use place::link_layout::{LayoutFault, LinkLayout};
use std::alloc::Global;

/// Names: ends the link if they have faults.
#[tactic(auto, unfolding(ldmodel::specs::Link::link))]
pub(crate) fn check_names(context: PassContext<'_, '_>) -> Result<(), PassEnd>
    requires { IsPassContext context }
    ensures rest { OnOk result (link (project_of context.entry)
        ≡ unless (gathering_faults (project_of context.entry))
        (placed (project_of context.entry) (layout (project_of context.entry)))) }
    ensures stop { IfErr result (λ stop. IsPassEnd (link (project_of context.entry)) stop) }
{
    let faults = context.symbol_table.faults(context.alloc, context.project)?;
    end_if_faulty(context.alloc, context.project, &faults)?;
    Ok(())
}

/// Orphans as faults.
///
/// # Errors
///
/// If memory runs out.
fn orphan_faults(alloc: Global, orphans: &[SectionRef]) -> Result<Vec<Fault>, NoMemory>
    ensures { IfOk result (λ v. v.items ≡ map Orphan orphans.now) }
{
    iterator::collect(orphans.iter().map(|key| Fault::Orphan(*key)), alloc)
}

/// Gathering: the numbers of the input sections, and the row of each output section.
pub(crate) fn gather_inputs(context: PassContext<'_, '_>) -> Result<Gathering, PassEnd>
    requires context { IsPassContext context }
    requires rest { link (project_of context)
        ≡ unless (gathering_faults (project_of context)) (placed (project_of context) (layout (project_of context))) }
    ensures gathering { IfOk result (λ g. IsGathering (project_of context.entry) g) }
    ensures rest { OnOk result (link (project_of context.entry)
        ≡ placed (project_of context.entry) (layout (project_of context.entry))) }
    ensures stop { IfErr result (λ stop. IsPassEnd (link (project_of context.entry)) stop) }
{
    let gathering = Gathering::of(
        context.alloc,
        context.project,
        context.symbol_table,
        context.matches,
    )?;
    let faults = orphan_faults(context.alloc, &gathering.orphans)?;
    end_if_faulty(context.alloc, context.project, &faults)?;
    Ok(gathering)
}

/// Layout: where everything lies. That of a previous link of the same script is resumed at the first row that differs.
pub(crate) fn assign_addresses(
    context: PassContext<'_, '_>,
    rows: &[Vec<Piece>],
    meter: &mut Meter,
) -> Result<LinkLayout, PassEnd>
    requires context { IsPassContext context }
    requires rows { rows_in (project_of context) rows.now ≡ model.rows (project_of context) }
    requires rest { link (project_of context) ≡ placed (project_of context) (layout (project_of context)) }
    requires previous { IfSome (previous_of context.previous) (HasPreviousLink (project_of context)) }
    ensures good { IfOk result (λ link_layout. HasLayout (project_of context.entry) link_layout) }
    ensures stop { IfErr result (λ stop. IsPassEnd (link (project_of context.entry)) stop) }
    ensures reads { ReadsNothing meter.old meter.new }
    ensures counted { OnOk result
        (ArePlaced (project_of context.entry) (previous_of context.entry.previous) meter.old meter.new) }
{
    // for the prover: brings in the law that output sections contain the rows
    placed_are_rows();
    // for the prover: brings in that the count of pieces fits a u64
    let _pieces = meter.pieces();
    let in_force = context
        .symbol_table
        .provided(context.alloc, context.project.script())?;
    let kept = resume_point(context.previous, context.project, rows);
    match LinkLayout::of(context.alloc, context.project, &in_force, rows, kept, meter) {
        Ok(link_layout) => Ok(link_layout),
        Err(LayoutFault::NoMemory(no_memory)) => Err(PassEnd::NoMemory(no_memory)),
        Err(LayoutFault::Faulty(faults)) => {
            let lines = fault_text(context.alloc, context.project, &faults)?;
            Err(PassEnd::Faulty(lines))
        }
    }
}

/// The end of layout: where each input section lies, by its number.
pub(crate) fn index_layout(
    context: PassContext<'_, '_>,
    gathering: Gathering,
    link_layout: LinkLayout,
) -> Result<IndexedLayout, PassEnd>
    requires gathering { IsGathering (project_of context) gathering }
    requires link_layout { HasLayout (project_of context) link_layout }
    requires rest { link (project_of context) ≡ placed (project_of context) (layout (project_of context)) }
    ensures good { IfOk result (λ a. IsLaidOut (project_of context.entry) a) }
    ensures stop { IfErr result (λ stop. stop ≡ OutOfMemory no_memory) }
{
    let Gathering { table, rows, .. } = gathering;
    match IndexedLayout::of(context.alloc, context.project, table, rows, link_layout) {
        Ok(indexed_layout) => Ok(indexed_layout),
        Err(no_memory) => Err(PassEnd::NoMemory(no_memory)),
    }
}

/// Ends the link if the image is too long.
fn check_length(
    context: PassContext<'_, '_>,
    link_layout: &LinkLayout,
    view: &LinkView<'_, '_>,
    name_values: &Values<'_>,
) -> Result<(), PassEnd>
    requires { IsPlaced (project_of context) link_layout.now view.now name_values.now }
    ensures good { OnOk result (IsShort (project_of context.entry) link_layout.now view.now name_values.now) }
    ensures stop { IfErr result (λ stop. IsPassEnd (link (project_of context.entry)) stop) }
{
    let length = image_length(context.alloc, context.project, link_layout, name_values)?;
    match length_fault(length) {
        None => Ok(()),
        Some(fault) => {
            let lines = fault_text(context.alloc, context.project, &[fault])?;
            Err(PassEnd::Faulty(lines))
        }
    }
}

/// Values: those of all names, and so the symbols of the output and the length of the image.
pub(crate) fn compute_values<'a>(
    context: PassContext<'a, '_>,
    link_layout: &LinkLayout,
    view: &LinkView<'_, '_>,
    given: &GivenValues<'a>,
) -> Result<Values<'a>, PassEnd>
    requires context { IsPassContext context }
    requires given { IsGiven (project_of context) context.symbol_table.now link_layout.now given.now }
    requires known { IsKnown (project_of context) context.symbol_table.now link_layout.now view.now }
    ensures good { IfOk result (λ name_values. IsShort
        (project_of context.entry) link_layout.now view.now name_values) }
    ensures stop { IfErr result (λ stop. IsPassEnd (link (project_of context.entry)) stop) }
{
    let name_values = Values::of(
        context.alloc,
        context.project,
        context.symbol_table,
        view,
        given,
    )?;
    check_length(context, link_layout, view, &name_values)?;
    Ok(name_values)
}

/// Relocation: the fields of all relocations, except those of unchanged symbols in input sections that stayed.
pub(crate) fn evaluate_relocations(
    context: PassContext<'_, '_>,
    stayed_sections: &StayedSections<'_>,
    view: &LinkView<'_, '_>,
    name_values: &Values<'_>,
    symbols: &SymbolValues,
    meter: &mut Meter,
) -> Result<Relocated, PassEnd>
    requires short { IsShort (project_of context) stayed_sections.now.indexed_layout.now.link_layout view.now
        name_values.now }
    requires beside { IsBeside (project_of context) stayed_sections.now }
    requires symbols { (layout : Layout) → IsLinkLayout
        (project_of context) layout stayed_sections.now.indexed_layout.now.link_layout
        → AreSymbolValues (project_of context) layout symbols.now }
    ensures good { IfOk result (λ r. IsFilled (project_of context.entry) stayed_sections.now name_values.now r) }
    ensures stop { IfErr result (λ stop. IsPassEnd (link (project_of context.entry)) stop) }
    ensures reads { OnOk result (ReadsNothing meter.old meter.new) }
    ensures counted { IfOk result (λ r. HasEvaluated
        (project_of context.entry) stayed_sections.now r meter.old meter.new) }
    ensures early { IfErr result (λ stop. EndsReadingNothing meter.old meter.new stop) }
{
    // for the prover: bring in these laws
    stayed_sections.is_complete();
    faultless_link_is_good(context.project, &stayed_sections.indexed_layout.link_layout);
    // for the prover: brings in the invariant of `context.project`
    let _inputs = context.project.inputs();
    // for the prover: brings in that the count of fields fits a u64
    let _fields = meter.fields();
    let relocated = Relocated::of(
        context.alloc,
        context.project,
        view,
        stayed_sections,
        name_values,
        symbols,
        meter,
    )?;
    end_if_faulty(context.alloc, context.project, &relocated.faults)?;
    Ok(relocated)
}

/// Assertions: ends the link if one does not hold.
pub(crate) fn check_assertions(
    context: PassContext<'_, '_>,
    stayed_sections: &StayedSections<'_>,
    name_values: &Values<'_>,
    fields: &Relocated,
) -> Result<(), PassEnd>
    requires { IsFilled (project_of context) stayed_sections.now name_values.now fields.now }
    ensures good { OnOk result (IsFaultless (project_of context.entry) stayed_sections.now name_values.now fields.now) }
    ensures stop { IfErr result (λ stop. IsPassEnd (link (project_of context.entry)) stop) }
{
    let faults = assertion_faults(
        context.alloc,
        context.project,
        &stayed_sections.indexed_layout.link_layout,
        name_values,
    )?;
    end_if_faulty(context.alloc, context.project, &faults)?;
    Ok(())
}

/// The image, written over that of the previous link. If memory runs out, the canvas is as it was.
pub(crate) fn draw_output(
    context: PassContext<'_, '_>,
    canvas: &mut Canvas,
    stayed_sections: &StayedSections<'_>,
    name_values: &Values<'_>,
    fields: &Relocated,
    meter: &mut Meter,
) -> Result<(), NoMemory>
    requires filled { IsFilled (project_of context) stayed_sections.now name_values.now fields.now }
    requires previous { IfSome (previous_of stayed_sections.now.previous)
        (HasPreviousImage (project_of context) canvas.old.bytes) }
    ensures image { OnOk result (IsImage (project_of context.entry) stayed_sections.now canvas.new.bytes) }
    ensures reads { OnOk result (ReadsNothing meter.old meter.new) }
    ensures counted { OnOk result (HasWritten
        (project_of context.entry) stayed_sections.now fields.now meter.old meter.new) }
    ensures unchanged { OnErr result (canvas.new.bytes ≡ canvas.old.bytes) }
{
    // for the prover: brings in this law
    stayed_sections.is_complete();
    // for the prover: brings in that the count of bytes fits a u64
    let _bytes = meter.bytes();
    let sources = ImageSources {
        project: context.project,
        indexed_layout: stayed_sections.indexed_layout,
        relocated: fields,
        previous: stayed_sections,
    };
    draw_image(
        context.alloc,
        canvas,
        &sources,
        name_values,
        &fields.retargeted,
        meter,
    )?;
    Ok(())
}
