//! The driver: one link, over resolved names, the matches of each object, and the previous link, if there is one.

ghost use Rattle.std.specs.Prelude.{◌≡◌, IfErr, IfOk, IfSome, OnErr, OnOk, map};
ghost use Rattle.gather.specs.ProjectMatches.{AreMatched};
ghost use Rattle.relink_driver.specs.StayedSections.{previous_of};
ghost use Rattle.ldmodel.specs.Layout.{Layout};
ghost use Rattle.ldmodel.specs.Link.{link};
ghost use Rattle.ldmodel.specs.MapText as definition;
ghost use Rattle.place.specs.LinkLayout.{IsLinkLayout};
ghost use Rattle.symres.specs.SymbolTable.{IsSymbolTable, SymbolTableState};
ghost use Rattle.emit.specs.relocate.LinkValues.{AreValues};
ghost use Rattle.relink_driver.specs.Rewritable.{IsRewritable};
ghost use Rattle.relink_driver.specs.declared.driver.RelinkOutcome.TheVariants.{RewrittenInPlace};
ghost use Rattle.relink_driver.specs.RelinkOutcome.{HasRelinkOutcome, HasPreviousImage, HasShownOutcome};
ghost use Rattle.relink_driver.specs.Context.{IsPassContext, project_of};
ghost use Rattle.relink_driver.specs.Phases.{IsLaidOut};
ghost use Rattle.relink_driver.specs.Reads.{EndsReadingNothing, ReadsNothing};
ghost use Rattle.relink_driver.specs.PassEnds.{IsPassEnd};
ghost use Rattle.relink_driver.specs.WithoutMap.{shown_map};
ghost use Rattle.relink_driver.specs.Worked.{HasWorked};

use crate::context::PassContext;
use crate::dirty::dirty_objects;
use crate::in_place::rewrite_if_only_contents_differ;
use crate::link_snapshot::LinkSnapshot;
use crate::pass_end::PassEnd;
use crate::passes::{
    assign_addresses, check_assertions, check_names, compute_values, draw_output,
    evaluate_relocations, gather_inputs, index_layout,
};
use crate::stayed_column::StayedColumn;
use crate::stayed_sections::{PreviousView, StayedSections};
use crate::symbol_values::{ValueSources, symbol_values};
use emit::relocate::given::GivenValues;
use emit::relocate::link_view::LinkView;
use emit::relocate::values::Values;
use emit::{Canvas, map_text};
use gather::matches::Matches;
use growth::NoMemory;
use ldmodel::meter::Meter;
use ldmodel_project::view::ProjectView;
use place::indexed_layout::IndexedLayout;
use std::alloc::Global;
use symres::SymbolTable;

/// The outcome of a link.
#[derive(Drop)]
pub enum RelinkOutcome {
    /// The project has faults: their lines.
    Faulty(Vec<u8>),
    /// It has none: the snapshot of the link, and its map, which is empty unless it was asked for.
    Good(LinkSnapshot, Vec<u8>),
    /// It has none, and differs from the previous link only in the contents of one object's sections. These are
    /// rewritten in the image; the map and the snapshot of the previous link hold for this one too.
    RewrittenInPlace,
}

/// The map, if it is asked for, else no bytes. Fails if memory runs out.
fn map_if_asked(
    context: PassContext<'_, '_>,
    indexed_layout: &IndexedLayout,
    name_values: &Values<'_>,
) -> Result<Vec<u8>, NoMemory>
    requires { IsLaidOut (project_of context) indexed_layout.now }
    ensures { IfOk result (λ text. (layout : Layout) (a : SymbolTableState)
        → IsLinkLayout (project_of context.entry) layout indexed_layout.now.link_layout
        → AreValues (project_of context.entry) layout a name_values.now
        → text.items ≡ shown_map context.entry.with_map (definition.map_text (project_of context.entry) layout)) }
{
    if !context.with_map {
        return Ok(Vec::new(context.alloc));
    }
    map_text(
        context.alloc,
        context.project,
        &indexed_layout.rows,
        &indexed_layout.link_layout,
        name_values,
    )
}

/// The passes of a link over a previous one, in their order.
fn run_passes(
    context: PassContext<'_, '_>,
    canvas: &mut Canvas,
    meter: &mut Meter,
) -> Result<RelinkOutcome, PassEnd>
    requires context { IsPassContext context }
    requires previous { IfSome (previous_of context.previous) (HasPreviousImage (project_of context) canvas.old.bytes) }
    ensures ended { IfOk result (HasShownOutcome context.entry.with_map (project_of context.entry)
        (previous_of context.entry.previous) canvas.old.bytes canvas.new.bytes) }
    ensures stop { IfErr result (λ stop. IsPassEnd (link (project_of context.entry)) stop) }
    ensures reads { OnOk result (ReadsNothing meter.old meter.new) }
    ensures worked { IfOk result (HasWorked (project_of context.entry)
        (previous_of context.entry.previous) meter.old meter.new) }
    ensures early { IfErr result (λ stop. EndsReadingNothing meter.old meter.new stop) }
    ensures unchanged { OnErr result (canvas.new.bytes ≡ canvas.old.bytes) }
{
    // `&*project` and the like borrow for as long as the locals live, as the borrow checker asks
    let PassContext {
        alloc,
        project,
        symbol_table,
        ..
    } = context;
    // finds no fault if a session links, which has asked for these faults before
    check_names(context)?;
    let gathering = gather_inputs(context)?;
    let link_layout = assign_addresses(context, &gathering.rows, meter)?;
    let indexed_layout = index_layout(context, gathering, link_layout)?;
    let given = GivenValues::of(
        alloc,
        &*project,
        &*symbol_table,
        &indexed_layout.link_layout,
    )?;
    let view = LinkView::new(alloc, &*project, &*symbol_table, &indexed_layout, &given)?;
    let name_values = compute_values(context, &indexed_layout.link_layout, &view, &given)?;
    let sources = ValueSources {
        symbol_table: &*symbol_table,
        indexed_layout: &indexed_layout,
        names: &name_values.names,
    };
    let symbols = symbol_values(alloc, project, sources)?;
    let dirty = dirty_objects(alloc, project, context.previous, &symbols)?;
    let column = StayedColumn::of(alloc, context.previous, &indexed_layout)?;
    let stayed_sections = StayedSections {
        previous: context.previous,
        indexed_layout: &indexed_layout,
        dirty: &dirty,
        column: &column,
    };
    let fields = evaluate_relocations(
        context,
        &stayed_sections,
        &view,
        &name_values,
        &symbols,
        meter,
    )?;
    check_assertions(context, &stayed_sections, &name_values, &fields)?;
    let map = map_if_asked(context, &indexed_layout, &name_values)?;
    // the last pass that may fail, since it changes the canvas
    draw_output(
        context,
        canvas,
        &stayed_sections,
        &name_values,
        &fields,
        meter,
    )?;
    // `view` borrows `indexed_layout`, which moves into the snapshot
    drop(view);
    Ok(RelinkOutcome::Good(
        LinkSnapshot {
            indexed_layout,
            symbols,
        },
        map,
    ))
}

/// Like `relink`, but makes the map only if it is asked for.
///
/// # Errors
///
/// If memory runs out. Then the canvas is as it was.
pub(crate) fn relink_with_or_without_map(
    context: PassContext<'_, '_>,
    canvas: &mut Canvas,
    meter: &mut Meter,
) -> Result<RelinkOutcome, NoMemory>
    requires context { IsPassContext context }
    requires previous { IfSome (previous_of context.previous) (HasPreviousImage (project_of context) canvas.old.bytes) }
    ensures ended { IfOk result (HasShownOutcome context.entry.with_map (project_of context.entry)
        (previous_of context.entry.previous) canvas.old.bytes canvas.new.bytes) }
    ensures reads { OnOk result (ReadsNothing meter.old meter.new) }
    ensures worked { IfOk result (HasWorked (project_of context.entry)
        (previous_of context.entry.previous) meter.old meter.new) }
    ensures in_place { IfOk result (λ ended. IsRewritable (project_of context.entry)
        (previous_of context.entry.previous) → ended ≡ RewrittenInPlace) }
    ensures unchanged { OnErr result (canvas.new.bytes ≡ canvas.old.bytes) }
{
    if rewrite_if_only_contents_differ(context, canvas, meter)? {
        return Ok(RelinkOutcome::RewrittenInPlace);
    }
    match run_passes(context, canvas, meter) {
        Ok(ended) => Ok(ended),
        Err(PassEnd::Faulty(lines)) => Ok(RelinkOutcome::Faulty(lines)),
        Err(PassEnd::NoMemory(no_memory)) => Err(no_memory),
    }
}

/// Links a project whose names are resolved and whose sections are matched. If there is a previous link, the canvas
/// holds its image. If the project has no faults, the canvas then holds the project's image; in input sections that
/// stayed, only the fields of symbols with a new value are written. If it has faults, the canvas is as it was.
///
/// The fast path: if one object was replaced by one that differs only in the contents of its sections, and queries are
/// answered from the previous link, then only these sections of the image are written, unless there are faults. Else,
/// if the script is the same, the layout of the previous link is resumed at the first row that differs.
///
/// If the project has no faults, exactly this is counted: the input sections placed from that row on, the fields
/// outside of what stayed, the fields of symbols with a new value in what stayed, and the bytes that are written.
///
/// # Errors
///
/// If memory runs out. Then the canvas is as it was.
pub fn relink(
    alloc: Global,
    project: &ProjectView<'_>,
    symbol_table: &SymbolTable,
    matches: &[&Matches],
    previous: Option<PreviousView<'_>>,
    canvas: &mut Canvas,
    meter: &mut Meter,
) -> Result<RelinkOutcome, NoMemory>
    requires symbol_table { IsSymbolTable project.now symbol_table.now }
    requires matches { AreMatched project.now (map (λ x. x.now) matches.now) }
    requires previous { IfSome (previous_of previous) (HasPreviousImage project.now canvas.old.bytes) }
    ensures ended { IfOk result (HasRelinkOutcome project.now
        (previous_of previous.entry) canvas.old.bytes canvas.new.bytes) }
    ensures reads { OnOk result (ReadsNothing meter.old meter.new) }
    ensures worked { IfOk result (HasWorked project.now (previous_of previous.entry) meter.old meter.new) }
    ensures in_place { IfOk result (λ ended. IsRewritable project.now (previous_of previous.entry)
        → ended ≡ RewrittenInPlace) }
    ensures unchanged { OnErr result (canvas.new.bytes ≡ canvas.old.bytes) }
{
    // lent again for as long as the locals live, as the borrow checker asks
    let context = PassContext {
        alloc,
        project: &*project,
        symbol_table: &*symbol_table,
        matches: &*matches,
        previous,
        with_map: true,
    };
    relink_with_or_without_map(context, canvas, meter)
}
