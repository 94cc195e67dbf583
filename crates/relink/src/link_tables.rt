//! The tables that a session keeps beside the project and its link, and how an edit updates them.

ghost use Rattle.std.specs.Prelude.{◌≡◌, IfOk, List, None, OnErr, Some, true};
ghost use Rattle.symres.specs.decisions.Change.{Fits as FitsTables};
ghost use Rattle.symres.specs.decisions.Decisions.{AreDecisionsOf};
ghost use Rattle.symres.specs.table.State.{Forgets};
ghost use Rattle.ldmodel_project.specs.Next.{edited_key};
ghost use Rattle.relink.specs.PreviousLink.{lent_of};
ghost use Rattle.relink.specs.Update.{CanUpdate, HasRoom, IsUpdated, IsRolledBack, KeepsObjects};
ghost use Rattle.ldscript.specs.statements.declared.statement.Statement.{Statement};

use crate::change::{object_change, place_of};
use crate::lent_link::LentLink;
use crate::match_table::{match_under, matches_if_other, put_back, put_new, swap_matches};
use crate::previous::UpdateOutcome;
use crate::session_link::link_next;
use gather::matches::Matches;
use growth::{NoMemory, deques};
use ldmodel::meter::Meter;
use ldmodel::names::ObjectKey;
use ldmodel_project::order::Order;
use ldmodel_project::project::{Next, Project};
use ldmodel_project::staged::Staged;
use relink_driver::Canvas;
use std::alloc::Global;
use std::collections::VecDeque;
use symres::SymbolTable;
use symres::decisions::change::ObjectChange;

/// How names are resolved, under the keys of the objects, and which statements take the input sections of each object.
#[derive(Drop)]
pub(crate) struct LinkTables {
    pub(crate) symbol_table: SymbolTable,
    // in the order of the objects; both ends are quick to change, as while a project is opened
    pub(crate) matches: VecDeque<Matches>,
}

/// What a change of one object puts into the tables, in memory that was taken ahead.
#[derive(Drop)]
pub(crate) struct IncomingChange {
    pub(crate) order: Order,
    pub(crate) matches: Option<Matches>,
}

/// If an object was taken out of the tables, also to be replaced or moved, forgets the names that no object declares
/// now. It takes no memory.
pub(crate) fn forget_if(symbol_table: &mut SymbolTable, went: bool)
    ensures tables { symbol_table.new.kept.names.objects ≡ symbol_table.old.kept.names.objects }
    ensures forgotten { went ≡ true → Forgets symbol_table.old.kept.names symbol_table.new.kept.names }
    ensures kept { (script : List Statement) → AreDecisionsOf script symbol_table.old.kept
        → AreDecisionsOf script symbol_table.new.kept }
{
    if went {
        symbol_table.forget();
    }
}

impl LinkTables {
    /// Takes all memory that a change of one object needs. Fails if memory runs out: then the tables are of the same
    /// objects as before.
    pub(crate) fn make_room(
        &mut self,
        alloc: Global,
        next: &Next<'_>,
        change: &ObjectChange<'_>,
    ) -> Result<IncomingChange, NoMemory>
        requires fits { FitsTables self.old.symbol_table.kept.names.objects change.now }
        requires kept { AreDecisionsOf next.now.script self.old.symbol_table.kept }
        ensures same { KeepsObjects next.now.script self.old self.new }
        ensures room { IfOk result (HasRoom next.now change.now self.new) }
    {
        let order = Order::of(alloc, next.keys())?;
        let matches = match_under(alloc, next, change.key)?;
        deques::reserve(&mut self.matches, 2)?;
        self.symbol_table.room_for(next.script(), change)?;
        Ok(IncomingChange { order, matches })
    }

    /// Updates the tables for an edit of the object under a key, and links the next project. Fails if memory runs
    /// out: then the tables are those of the project before the edit.
    fn update_and_link_object(
        &mut self,
        alloc: Global,
        project: &Project,
        staged: &Staged,
        key: ObjectKey,
        previous: Option<LentLink<'_>>,
        canvas: &mut Canvas,
        meter: &mut Meter,
    ) -> Result<UpdateOutcome, NoMemory>
        requires given { CanUpdate project.now staged.now self.old (lent_of previous) canvas.old.bytes }
        requires edited { edited_key staged.now.objects.step ≡ Some key.0 }
        ensures updated { IfOk result (IsUpdated project.now staged.now (lent_of previous.entry) self.new
            canvas.old.bytes canvas.new.bytes meter.old meter.new) }
        ensures back { OnErr result (IsRolledBack project.now self.new canvas.old.bytes canvas.new.bytes) }
    {
        let next = project.next(staged);
        let script = next.script();
        let change = object_change(project, &next, staged, key);
        let coming = self.make_room(alloc, &next, &change)?;
        let IncomingChange { order, matches } = coming;
        let out = place_of(change.out);
        let into = place_of(change.into);
        let order = self.symbol_table.change(script, &change, order, meter);
        let gone = swap_matches(&mut self.matches, out, into, matches);
        match link_next(
            alloc,
            &next,
            &mut self.symbol_table,
            &self.matches,
            previous,
            canvas,
            meter,
        ) {
            Ok(updated) => {
                forget_if(&mut self.symbol_table, out.is_some());
                Ok(updated)
            }
            Err(no_memory) => {
                swap_matches(&mut self.matches, into, out, gone);
                self.symbol_table.undo(script, &change, order, meter);
                Err(no_memory)
            }
        }
    }

    /// Updates the tables for an edit of no object, as one of the script, and links the next project. Objects are
    /// matched anew only if the script has other input statements. Fails if memory runs out: then the tables are those
    /// of the project before the edit.
    fn update_and_link_script(
        &mut self,
        alloc: Global,
        project: &Project,
        staged: &Staged,
        previous: Option<LentLink<'_>>,
        canvas: &mut Canvas,
        meter: &mut Meter,
    ) -> Result<UpdateOutcome, NoMemory>
        requires given { CanUpdate project.now staged.now self.old (lent_of previous) canvas.old.bytes }
        requires edited { edited_key staged.now.objects.step ≡ None }
        ensures updated { IfOk result (IsUpdated project.now staged.now (lent_of previous.entry) self.new
            canvas.old.bytes canvas.new.bytes meter.old meter.new) }
        ensures back { OnErr result (IsRolledBack project.now self.new canvas.old.bytes canvas.new.bytes) }
    {
        let next = project.next(staged);
        let found = matches_if_other(alloc, project.script(), &next)?;
        let before = put_new(&mut self.matches, found);
        self.symbol_table.redecide(next.script(), meter);
        match link_next(
            alloc,
            &next,
            &mut self.symbol_table,
            &self.matches,
            previous,
            canvas,
            meter,
        ) {
            Ok(updated) => Ok(updated),
            Err(no_memory) => {
                put_back(&mut self.matches, before);
                self.symbol_table.redecide(project.script(), meter);
                Err(no_memory)
            }
        }
    }

    /// Updates the tables for a staged edit, and links the project that it leads to.
    ///
    /// # Errors
    ///
    /// If memory runs out. The tables are then those of the project before the edit.
    pub(crate) fn update_and_link(
        &mut self,
        alloc: Global,
        project: &Project,
        staged: &Staged,
        previous: Option<LentLink<'_>>,
        canvas: &mut Canvas,
        meter: &mut Meter,
    ) -> Result<UpdateOutcome, NoMemory>
        requires { CanUpdate project.now staged.now self.old (lent_of previous) canvas.old.bytes }
        ensures updated { IfOk result (IsUpdated project.now staged.now (lent_of previous.entry) self.new
            canvas.old.bytes canvas.new.bytes meter.old meter.new) }
        ensures back { OnErr result (IsRolledBack project.now self.new canvas.old.bytes canvas.new.bytes) }
    {
        match staged.edited() {
            Some(key) => self.update_and_link_object(
                alloc, project, staged, key, previous, canvas, meter,
            ),
            None => self.update_and_link_script(alloc, project, staged, previous, canvas, meter),
        }
    }
}
