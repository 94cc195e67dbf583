//! Tables that are made when they are first needed.

ghost use Rattle.std.specs.Prelude.{◌≡◌, IfOk, None, OnErr, OnOk, false, is_some, true};
ghost use Rattle.ldmodel_project.specs.ProjectState.{Listing, listing_of, next_listing, project_of};
ghost use Rattle.ldmodel_project.specs.Listing.{keys_of};
ghost use Rattle.symres.specs.decisions.Counted.{CountsNames};
ghost use Rattle.relink.specs.Change.{names_of_edit};
ghost use Rattle.relink.specs.Deferred.{AreKeysFrom, HasTables, IsStaged};
ghost use Rattle.relink.specs.KeptTables.{AreTablesOf};

use crate::link_tables::LinkTables;
use gather::matches::match_all;
use growth::NoMemory;
use ldmodel::meter::Meter;
use ldmodel_project::project::{Next, Project};
use ldmodel_project::staged::Staged;
use ldmodel_project::view::ProjectView;
use std::alloc::Global;
use std::collections::VecDeque;
use std::hash::RandomState;
use symres::SymbolTable;

/// What tables are made with.
#[derive(Clone, Copy)]
pub(crate) struct Means {
    /// The allocator.
    pub(crate) alloc: Global,
    /// The seed of hash tables, on which no answer depends.
    pub(crate) seed: RandomState,
}

/// Whether each key is the place at which it stands, from 0.
pub(crate) fn are_places(keys: &[usize]) -> bool
    ensures { result ≡ true → AreKeysFrom 0 keys.now }
{
    for place in 0..keys.len() {
        if keys[place] != place {
            return false;
        }
    }
    true
}

/// The tables of a project from nothing, whose objects have their places as keys. Fails if memory runs out.
fn tables_of_view(
    means: Means,
    project: &ProjectView<'_>,
    meter: &mut Meter,
) -> Result<LinkTables, NoMemory>
    ensures { IfOk result (λ tables. (l : Listing) → project.now ≡ project_of l → AreKeysFrom 0 (keys_of l.entries)
        → AreTablesOf l tables.symbol_table tables.matches.items) }
{
    let symbol_table = SymbolTable::of(
        means.alloc,
        means.seed,
        project.inputs(),
        project.script(),
        meter,
    )?;
    let matches = match_all(means.alloc, project)?;
    Ok(LinkTables {
        symbol_table,
        matches: VecDeque::from_vec(matches),
    })
}

/// The tables of a project: those that are there, or new ones. Fails if memory runs out: then there were none.
pub(crate) fn tables_of_project(
    means: Means,
    project: &Project,
    tables: Option<LinkTables>,
    meter: &mut Meter,
) -> Result<LinkTables, NoMemory>
    requires { HasTables (listing_of project.now) tables }
    ensures made { IfOk result (λ made. AreTablesOf (listing_of project.now) made.symbol_table made.matches.items) }
    ensures none { OnErr result (tables ≡ None) }
    ensures kept { is_some tables ≡ true → meter.new ≡ meter.old }
{
    match tables {
        Some(tables) => Ok(tables),
        None => {
            let inputs = project.inputs(means.alloc)?;
            let view = project.view(&inputs);
            tables_of_view(means, &view, meter)
        }
    }
}

/// The same of the project that a staged edit leads to.
pub(crate) fn tables_of_next(
    means: Means,
    next: &Next<'_>,
    tables: Option<LinkTables>,
    meter: &mut Meter,
) -> Result<LinkTables, NoMemory>
    requires { HasTables next.now tables }
    ensures made { IfOk result (λ made. AreTablesOf next.now made.symbol_table made.matches.items) }
    ensures none { OnErr result (tables ≡ None) }
    ensures kept { is_some tables ≡ true → meter.new ≡ meter.old }
{
    match tables {
        Some(tables) => Ok(tables),
        None => {
            let inputs = next.inputs(means.alloc)?;
            let view = next.view(&inputs);
            tables_of_view(means, &view, meter)
        }
    }
}

/// Has the tables follow a staged edit; if there are none yet, and the edit leaves the keys of the objects their
/// places, there need be none after it either.
///
/// # Errors
///
/// If memory runs out. The tables are then those of the project before the edit.
pub(crate) fn follow_if_made(
    means: Means,
    project: &Project,
    staged: &Staged,
    tables: &mut Option<LinkTables>,
    meter: &mut Meter,
) -> Result<(), NoMemory>
    requires staged { IsStaged project.now staged.now }
    requires tables { HasTables (listing_of project.now) tables.old }
    ensures kept { OnOk result (HasTables (next_listing project.now staged.now) tables.new) }
    ensures back { OnErr result (HasTables (listing_of project.now) tables.new) }
    ensures made { OnOk result (is_some tables.old ≡ true → is_some tables.new ≡ true) }
    ensures none { OnOk result (is_some tables.new ≡ false → meter.new ≡ meter.old) }
    ensures counted { OnOk result (is_some tables.old ≡ true → CountsNames meter.old meter.new
        (names_of_edit project.now.contents.entries staged.now.objects)) }
{
    let next = project.next(staged);
    if tables.is_none() && are_places(next.keys()) {
        return Ok(());
    }
    let mut made = tables_of_project(means, project, tables.take(), meter)?;
    let followed = made.follow(means.alloc, project, staged, meter);
    *tables = Some(made);
    followed
}
