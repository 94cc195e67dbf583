//! A link over the tables that a session keeps.

ghost use Rattle.std.specs.Prelude.{◌≡◌, IfOk, IfSome, None, OnErr, OnOk};
ghost use Rattle.gather.specs.ProjectMatches.{AreMatched};
ghost use Rattle.symres.specs.SymbolTable.{IsSymbolTable};
ghost use Rattle.ldmodel_project.specs.ProjectState.{Listing, held, listing_of, project_of};
ghost use Rattle.ldmodel_project.specs.Listing.{AreKeysDistinct, keys_of};
ghost use Rattle.relink.specs.KeptTables.{AreTablesOf};
ghost use Rattle.relink.specs.PreviousLink.{HasUpdateOutcome, lent_of};
ghost use Rattle.relink.specs.Work.{HasWorked};
ghost use Rattle.relink_driver.specs.RelinkOutcome.{HasPreviousImage};
ghost use Rattle.relink_driver.specs.Reads.{ReadsNothing};

use crate::lent_link::LentLink;
use crate::match_table::lend_matches;
use crate::name_list::{names_in_room, room_for_names};
use crate::previous::{PreviousLink, UpdateOutcome, origins_for, view_previous};
use gather::matches::Matches;
use growth::NoMemory;
use ldmodel::meter::Meter;
use ldmodel_project::law::found_where_placed;
use ldmodel_project::order::places_of;
use ldmodel_project::project::{Next, Project};
use ldmodel_project::view::ProjectView;
use relink_driver::Canvas;
use relink_driver::driver::{RelinkOutcome, relink};
use relink_driver::name_faults::{entry_fault_line, name_fault_lines};
use std::alloc::Global;
use std::collections::VecDeque;
use symres::SymbolTable;

/// The tables that are kept of a project, lent to its link: as `&*symbol_table`, for as long as the locals live, as the
/// borrow checker asks.
#[derive(Clone, Copy)]
struct LentTables<'a> {
    /// The keys of its objects.
    keys: &'a [usize],
    /// How its names are resolved.
    symbol_table: &'a SymbolTable,
    /// Which statements take the input sections of each object.
    matches: &'a VecDeque<Matches>,
}

/// Links a project over the tables that are kept of it. Fails if memory runs out: then the canvas is as it was.
fn link_keyed(
    alloc: Global,
    project: &ProjectView<'_>,
    tables: LentTables<'_>,
    previous: Option<LentLink<'_>>,
    canvas: &mut Canvas,
    meter: &mut Meter,
) -> Result<UpdateOutcome, NoMemory>
    requires distinct { AreKeysDistinct tables.keys.now }
    requires symbol_table { IsSymbolTable project.now tables.symbol_table.now }
    requires matches { AreMatched project.now tables.matches.now.items }
    requires previous { IfSome (lent_of previous) (HasPreviousImage project.now canvas.old.bytes) }
    ensures updated { IfOk result (λ r. (l : Listing) → project.now ≡ project_of l
        → tables.entry.keys.now ≡ keys_of l.entries
        → HasUpdateOutcome l (lent_of previous.entry) canvas.old.bytes canvas.new.bytes r) }
    ensures unchanged { OnErr result (canvas.new.bytes ≡ canvas.old.bytes) }
    ensures reads { OnOk result (ReadsNothing meter.old meter.new) }
    ensures worked { IfOk result (HasWorked project.now (lent_of previous.entry) meter.old meter.new) }
{
    // for the prover: brings in the law on the keys of the objects present
    found_where_placed();
    let LentTables {
        keys,
        symbol_table,
        matches,
    } = tables;
    // while a project is opened most links end here: what goes over all objects is made only after this
    if let Some(text) = name_fault_lines(alloc, project, symbol_table)? {
        return Ok(UpdateOutcome::Faulty(text));
    }
    let lent = lend_matches(alloc, matches)?;
    let origins = places_of(alloc, keys)?;
    let inputs = project.inputs();
    let names = room_for_names(alloc, inputs)?;
    let previous_origins = origins_for(alloc, &previous)?;
    let previous = view_previous(&previous, &previous_origins);
    match relink(alloc, project, symbol_table, &lent, previous, canvas, meter) {
        Err(no_memory) => Err(no_memory),
        Ok(RelinkOutcome::Faulty(text)) => Ok(UpdateOutcome::Faulty(text)),
        Ok(RelinkOutcome::RewrittenInPlace) => Ok(UpdateOutcome::RewrittenInPlace(origins)),
        Ok(RelinkOutcome::Good(snapshot, map)) => Ok(UpdateOutcome::Good(
            PreviousLink {
                snapshot,
                origins,
                names: names_in_room(names, inputs),
                same_script: true,
            },
            map,
        )),
    }
}

/// Links the next project over what is kept of it, and over the image of the previous link without faults, if there is
/// one.
///
/// # Errors
///
/// If memory runs out. Then the canvas is as it was.
pub(crate) fn link_next(
    alloc: Global,
    next: &Next<'_>,
    symbol_table: &mut SymbolTable,
    matches: &VecDeque<Matches>,
    previous: Option<LentLink<'_>>,
    canvas: &mut Canvas,
    meter: &mut Meter,
) -> Result<UpdateOutcome, NoMemory>
    requires kept { AreTablesOf next.now symbol_table.old matches.now.items }
    requires previous { IfSome (lent_of previous) (HasPreviousImage (project_of next.now) canvas.old.bytes) }
    ensures same { symbol_table.new ≡ symbol_table.old }
    ensures updated { IfOk result (HasUpdateOutcome next.now
        (lent_of previous.entry) canvas.old.bytes canvas.new.bytes) }
    ensures unchanged { OnErr result (canvas.new.bytes ≡ canvas.old.bytes) }
    ensures reads { OnOk result (ReadsNothing meter.old meter.new) }
    ensures worked { IfOk result (HasWorked (project_of next.now) (lent_of previous.entry) meter.old meter.new) }
{
    // for the prover: brings in this law
    symbol_table.names_kept();
    // while a project is opened most links end here: its objects are gone over only after this
    if let Some(text) = entry_fault_line(alloc, next.script(), next.options(), symbol_table)? {
        return Ok(UpdateOutcome::Faulty(text));
    }
    symbol_table.index_places(alloc)?;
    symbol_table.put_in_order();
    let inputs = next.inputs(alloc)?;
    let view = next.view(&inputs);
    let tables = LentTables {
        keys: next.keys(),
        symbol_table: &*symbol_table,
        matches: &*matches,
    };
    link_keyed(alloc, &view, tables, previous, canvas, meter)
}

/// Links a project over what is kept of it, if there is no previous link.
///
/// # Errors
///
/// If memory runs out.
pub(crate) fn link_without_previous(
    alloc: Global,
    project: &Project,
    symbol_table: &SymbolTable,
    matches: &VecDeque<Matches>,
    canvas: &mut Canvas,
) -> Result<UpdateOutcome, NoMemory>
    requires kept { AreTablesOf (listing_of project.now) symbol_table.now matches.now.items }
    ensures updated { IfOk result (HasUpdateOutcome (listing_of project.now) None canvas.old.bytes canvas.new.bytes) }
{
    // for the prover: brings in this law
    symbol_table.names_kept();
    let inputs = project.inputs(alloc)?;
    let view = project.view(&inputs);
    let tables = LentTables {
        keys: project.keys(),
        symbol_table: &*symbol_table,
        matches: &*matches,
    };
    link_keyed(alloc, &view, tables, None, canvas, &mut Meter::new())
}

/// Links a project whose edits were committed without a link, over what is kept of it, and over the image of the
/// previous link without faults, if there is one.
///
/// # Errors
///
/// If memory runs out. Then the canvas is as it was.
pub(crate) fn link_committed(
    alloc: Global,
    project: &Project,
    symbol_table: &mut SymbolTable,
    matches: &VecDeque<Matches>,
    previous: Option<LentLink<'_>>,
    canvas: &mut Canvas,
    meter: &mut Meter,
) -> Result<UpdateOutcome, NoMemory>
    requires kept { AreTablesOf (listing_of project.now) symbol_table.old matches.now.items }
    requires previous { IfSome (lent_of previous) (HasPreviousImage (held project.now) canvas.old.bytes) }
    ensures same { symbol_table.new ≡ symbol_table.old }
    ensures updated { IfOk result (HasUpdateOutcome (listing_of project.now)
        (lent_of previous.entry) canvas.old.bytes canvas.new.bytes) }
    ensures unchanged { OnErr result (canvas.new.bytes ≡ canvas.old.bytes) }
    ensures reads { OnOk result (ReadsNothing meter.old meter.new) }
{
    // for the prover: brings in this law
    symbol_table.names_kept();
    symbol_table.index_places(alloc)?;
    symbol_table.put_in_order();
    let inputs = project.inputs(alloc)?;
    let view = project.view(&inputs);
    let tables = LentTables {
        keys: project.keys(),
        symbol_table: &*symbol_table,
        matches: &*matches,
    };
    link_keyed(alloc, &view, tables, previous, canvas, meter)
}
