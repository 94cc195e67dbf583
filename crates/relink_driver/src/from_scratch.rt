//! A link from scratch.

ghost use Rattle.std.specs.Prelude.{◌≡◌, IfOk, map};
ghost use Rattle.gather.specs.ProjectMatches.{AreMatched};
ghost use Rattle.ldmodel.specs.Link.{link};
ghost use Rattle.symres.specs.SymbolTable.{IsSymbolTable};
ghost use Rattle.relink_driver.specs.WithoutMap.{shown};

use crate::context::PassContext;
use crate::driver::{RelinkOutcome, relink_with_or_without_map};
use crate::output::Output;
use emit::Canvas;
use gather::matches::{Matches, lend_all, match_all};
use growth::NoMemory;
use ldmodel::meter::Meter;
use ldmodel_project::view::ProjectView;
use std::alloc::Global;
use std::hash::RandomState;
use symres::SymbolTable;

/// Links a project from scratch, over its resolved names and its matches. Fails if memory runs out. The borrow checker
/// asks for one lifetime of all that the context holds.
fn link_over<'x>(
    alloc: Global,
    project: &'x ProjectView<'_>,
    symbol_table: &'x SymbolTable,
    matches: &'x [&'x Matches],
    with_map: bool,
    meter: &mut Meter,
) -> Result<Output, NoMemory>
    requires symbol_table { IsSymbolTable project.now symbol_table.now }
    requires matches { AreMatched project.now (map (λ x. x.now) matches.now) }
    ensures { IfOk result (λ o. o ≡ shown with_map (link project.now)) }
{
    let mut image = Canvas::new(alloc);
    let context = PassContext {
        alloc,
        project,
        symbol_table,
        matches,
        previous: None,
        with_map,
    };
    match relink_with_or_without_map(context, &mut image, meter) {
        Ok(RelinkOutcome::Good(_kept, map)) => Ok(Output::good(image, map)),
        Ok(RelinkOutcome::Faulty(lines)) => Ok(Output::faulty(lines)),
        // there is no previous link
        Ok(RelinkOutcome::RewrittenInPlace) => unreachable!(),
        Err(no_memory) => Err(no_memory),
    }
}

/// Links a project from scratch: over names and matches of its own, and no previous link. The map is made if it is
/// asked for.
///
/// # Errors
///
/// If memory runs out.
pub(crate) fn link(
    alloc: Global,
    seed: RandomState,
    project: &ProjectView<'_>,
    with_map: bool,
    meter: &mut Meter,
) -> Result<Output, NoMemory>
    ensures { IfOk result (λ o. o ≡ shown with_map (link project.now)) }
{
    let symbol_table = SymbolTable::of(alloc, seed, project.inputs(), project.script(), meter)?;
    let matches = match_all(alloc, project)?;
    let match_refs = lend_all(alloc, &matches)?;
    link_over(alloc, project, &symbol_table, &match_refs, with_map, meter)
}
