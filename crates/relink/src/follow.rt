//! How the tables of a session follow an edit that is not linked.

ghost use Rattle.std.specs.Prelude.{◌≡◌, None, OnErr, OnOk, Some, []};
ghost use Rattle.ldmodel_project.specs.Next.{edited_key};
ghost use Rattle.ldmodel_project.specs.ProjectState.{listing_of, next_listing};
ghost use Rattle.symres.specs.decisions.Counted.{CountsNames};
ghost use Rattle.relink.specs.Change.{names_of_edit};
ghost use Rattle.relink.specs.KeptTables.{AreTablesOf};
ghost use Rattle.relink.specs.Update.{CanUpdate};

use crate::change::{object_change, place_of};
use crate::link_tables::{IncomingChange, LinkTables, forget_if};
use crate::match_table::{matches_if_other, put_new, swap_matches};
use growth::NoMemory;
use ldmodel::meter::Meter;
use ldmodel::names::ObjectKey;
use ldmodel_project::project::Project;
use ldmodel_project::staged::Staged;
use std::alloc::Global;

impl LinkTables {
    /// Follows an edit of the object under a key. Fails if memory runs out: then the tables are those of the project
    /// before the edit.
    fn follow_object(
        &mut self,
        alloc: Global,
        project: &Project,
        staged: &Staged,
        key: ObjectKey,
        meter: &mut Meter,
    ) -> Result<(), NoMemory>
        requires given { CanUpdate project.now staged.now self.old None [] }
        requires edited { edited_key staged.now.objects.step ≡ Some key.0 }
        ensures kept { OnOk result (AreTablesOf (next_listing project.now staged.now) self.new.symbol_table
            self.new.matches.items) }
        ensures back { OnErr result (AreTablesOf
            (listing_of project.now) self.new.symbol_table self.new.matches.items) }
        ensures counted { OnOk result (CountsNames meter.old meter.new
            (names_of_edit project.now.contents.entries staged.now.objects)) }
    {
        let next = project.next(staged);
        let script = next.script();
        let change = object_change(project, &next, staged, key);
        let coming = self.make_room(alloc, &next, &change)?;
        let IncomingChange { order, matches } = coming;
        let out = place_of(change.out);
        let into = place_of(change.into);
        let _order = self.symbol_table.change(script, &change, order, meter);
        let _gone = swap_matches(&mut self.matches, out, into, matches);
        forget_if(&mut self.symbol_table, out.is_some());
        Ok(())
    }

    /// Follows an edit of no object, as one of the script. Fails if memory runs out: then the tables are those of the
    /// project before the edit.
    fn follow_script(
        &mut self,
        alloc: Global,
        project: &Project,
        staged: &Staged,
        meter: &mut Meter,
    ) -> Result<(), NoMemory>
        requires given { CanUpdate project.now staged.now self.old None [] }
        requires edited { edited_key staged.now.objects.step ≡ None }
        ensures kept { OnOk result (AreTablesOf (next_listing project.now staged.now) self.new.symbol_table
            self.new.matches.items) }
        ensures back { OnErr result (AreTablesOf
            (listing_of project.now) self.new.symbol_table self.new.matches.items) }
        ensures counted { OnOk result (CountsNames meter.old meter.new
            (names_of_edit project.now.contents.entries staged.now.objects)) }
    {
        let next = project.next(staged);
        let found = matches_if_other(alloc, project.script(), &next)?;
        let _before = put_new(&mut self.matches, found);
        self.symbol_table.redecide(next.script(), meter);
        Ok(())
    }

    /// Updates the tables for a staged edit, and links nothing.
    ///
    /// # Errors
    ///
    /// If memory runs out. The tables are then those of the project before the edit.
    pub(crate) fn follow(
        &mut self,
        alloc: Global,
        project: &Project,
        staged: &Staged,
        meter: &mut Meter,
    ) -> Result<(), NoMemory>
        requires { CanUpdate project.now staged.now self.old None [] }
        ensures kept { OnOk result (AreTablesOf (next_listing project.now staged.now) self.new.symbol_table
            self.new.matches.items) }
        ensures back { OnErr result (AreTablesOf
            (listing_of project.now) self.new.symbol_table self.new.matches.items) }
        ensures counted { OnOk result (CountsNames meter.old meter.new
            (names_of_edit project.now.contents.entries staged.now.objects)) }
    {
        match staged.edited() {
            Some(key) => self.follow_object(alloc, project, staged, key, meter),
            None => self.follow_script(alloc, project, staged, meter),
        }
    }
}
