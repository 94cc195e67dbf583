//! The linker of a deferred session: edits are staged, and linked when it is asked.

ghost use Rattle.std.specs.Prelude.{◌≡◌, IfErr, IfOk, List, None, OnErr, OnOk, Ok, false, is_some, true, ℕ};
ghost use Rattle.ldmodel.specs.EditMeaning.{change_of, linked_of, refusal_of};
ghost use Rattle.ldmodel.specs.Edits.{After, Change, RefusedAs};
ghost use Rattle.ldmodel.specs.Link.{link};
ghost use Rattle.ldmodel_project.specs.ProjectState.{held, listing_of, next_listing, project_of};
ghost use Rattle.relink_driver.specs.Reads.{ReadsNothing};
ghost use Rattle.relink.specs.Deferred.{HasStaged, HasTables, IsLastGood, IsSeenAs, IsStaged, IsUpdatedOver};
ghost use Rattle.relink.specs.Deferred.{keeps_script, staged_listing};
ghost use Rattle.relink.specs.DeferredWork.{IsEditWork, IsLinkingWork, IsStagingWork};
ghost use Rattle.relink.specs.Outcome.{is_good, shown};
ghost use Rattle.relink.specs.PreviousLink.{IsOfGoodLink, IsPreviousLink};
ghost use Rattle.relink.specs.Work.{HasPlacedWork};

use crate::counts::counts_fit;
use crate::lazy_tables::{Means, follow_if_made, tables_of_next, tables_of_project};
use crate::lent_link::{lend_later, lend_previous, no_effect};
use crate::link_tables::LinkTables;
use crate::outcome::LinkOutcome;
use crate::previous::{
    EditEffect, PreviousLink, UpdateOutcome, effect_of, keep_after_fault, record_outcome,
};
use crate::session_link::{link_committed, link_next};
use crate::unchanged::{is_unchanged, puts_same};
use growth::NoMemory;
use ldmodel::edit::{Edit, EditRefusal, LinkSummary};
use ldmodel::meter::Meter;
use ldmodel_deferred::linker::DeferredLinker;
use ldmodel_project::law::found_where_placed;
use ldmodel_project::project::Project;
use ldmodel_project::staged::Staged;
use relink_driver::Canvas;
use std::alloc::Global;
use std::marker::Model;
use symres::decisions::law::{distinct_more, names_of_objects};

/// The last link, where there may be edits after it.
#[derive(Drop)]
pub(crate) struct LastLink {
    // the last link without faults, whose image is on the canvas
    pub(crate) previous: Option<PreviousLink>,
    pub(crate) outcome: LinkOutcome,
    // whether it is the link of the project, without a staged edit
    pub(crate) is_linked: bool,
}

/// The previous link as a staged edit sees it, with an outcome that is good only if that is the link of the project
/// before the edit.
#[derive(Clone, Copy)]
struct SeenLink<'a> {
    previous: &'a Option<PreviousLink>,
    outcome: &'a LinkOutcome,
}

/// A linker that keeps what a `Session` keeps, and links when it is asked. The tables of names and matches follow each
/// edit at once, once they are made: while a project is opened there are none, so that opening it is one link. The last
/// edit is kept beside the project until the next one comes: if the link is asked for before that, it is the link of
/// one edit, as in a `Session`.
#[derive(Drop)]
pub struct DeferredSession {
    pub(crate) means: Means,
    // the project without `staged`
    pub(crate) project: Project,
    // the last edit, unless it is linked
    pub(crate) staged: Option<Staged>,
    // of the project with `staged`; none while its objects are only added at the end, until the first link
    pub(crate) tables: Option<LinkTables>,
    pub(crate) canvas: Canvas,
    pub(crate) last_link: LastLink,
}

impl Model for DeferredSession {
    ghost use Rattle.std.specs.Coded.{codes};
    ghost use Rattle.std.specs.Prelude.{◌≡◌, is_some, true};
    ghost use Rattle.ldscript.specs.statements.contracts.formula.Formula as formula;
    ghost use Rattle.ldmodel.specs.Link.{link};
    ghost use Rattle.ldmodel_project.specs.ProjectState.{held, listing_of, project_of};
    ghost use Rattle.relink.specs.Deferred.{Deferred, HasStaged, HasTables, IsLastGood, edit_since, is_linked_since};
    ghost use Rattle.relink.specs.Deferred.{staged_listing};
    ghost use Rattle.relink.specs.Outcome.{shown};

    ghost Value = { Deferred };

    ghost coded = { Prim.hlevel (codes, formula.the_row.coded) };

    ghost view = { λ s. record {
      project = project_of (staged_listing s.project s.staged);
      last = shown s.canvas.bytes s.last_link.outcome;
      is_linked = is_linked_since s.last_link.is_linked s.tables s.staged;
      is_resolved = is_some s.tables;
      edited = edit_since s.last_link.is_linked s.project s.tables s.staged;
    } };

    ghost invariant = { λ s. HasStaged s.project s.staged
        × HasTables (staged_listing s.project s.staged) s.tables
        × IsLastGood s.last_link.is_linked (listing_of s.project) s.canvas.bytes s.last_link.outcome
        s.last_link.previous
        × (s.last_link.is_linked ≡ true → shown s.canvas.bytes s.last_link.outcome ≡ link (held s.project)) };
}

/// The outcome of the last link as an edit sees it: where that link is not of the project before the edit, one that
/// says nothing of the previous link.
fn seen<'a>(is_linked: bool, outcome: &'a LinkOutcome, stale: &'a LinkOutcome) -> &'a LinkOutcome
    requires { is_good stale.now ≡ false }
    ensures { IsSeenAs is_linked outcome.now result.now }
{
    if is_linked { outcome } else { stale }
}

/// Makes a staged edit without a link: the previous link no longer has the object that the edit changes.
fn commit_unlinked(
    project: &mut Project,
    staged: Staged,
    previous: &mut Option<PreviousLink>,
    seen: &LinkOutcome,
)
    requires { IsStaged project.old staged }
    ensures project { listing_of project.new ≡ next_listing project.old staged }
    ensures previous { (bytes : List ℕ) → IsPreviousLink (listing_of project.old) bytes seen.now previous.old
        → IsLastGood false (listing_of project.new) bytes seen.now previous.new }
{
    // for the prover: brings in the law of keys with a place
    found_where_placed();
    let same = puts_same(project, &staged);
    // for the prover: brings in what stands under each key after the edit
    let next = project.next(&staged);
    let _keys = next.keys();
    let effect = effect_of(previous, seen, project, &staged, same);
    project.commit(staged);
    keep_after_fault(previous, effect);
}

/// Makes the staged edit without a link, if there is one.
fn commit_staged_unlinked(
    alloc: Global,
    project: &mut Project,
    staged: &mut Option<Staged>,
    previous: &mut Option<PreviousLink>,
    outcome: &LinkOutcome,
    is_linked: &mut bool,
)
    requires { HasStaged project.old staged.old }
    ensures none { staged.new ≡ None }
    ensures project { listing_of project.new ≡ staged_listing project.old staged.old }
    ensures previous { (bytes : List ℕ)
        → IsLastGood is_linked.old (listing_of project.old) bytes outcome.now previous.old
        → IsLastGood is_linked.new (listing_of project.new) bytes outcome.now previous.new }
    ensures linked { is_linked.new ≡ true
        → (is_linked.old ≡ true) × (listing_of project.new ≡ listing_of project.old) }
    ensures kept { staged.old ≡ None → is_linked.new ≡ is_linked.old }
{
    let Some(edit) = staged.take() else {
        return;
    };
    let stale = LinkOutcome::Faulty(Vec::new(alloc));
    commit_unlinked(project, edit, previous, seen(*is_linked, outcome, &stale));
    *is_linked = false;
}

/// Links the project of a staged edit over the previous link. Fails if memory runs out: then the canvas is as it was.
fn link_staged(
    means: Means,
    project: &Project,
    staged: &Staged,
    tables: &mut Option<LinkTables>,
    seen: SeenLink<'_>,
    canvas: &mut Canvas,
    meter: &mut Meter,
) -> Result<(UpdateOutcome, EditEffect), NoMemory>
    requires staged { IsStaged project.now staged.now }
    requires tables { HasTables (next_listing project.now staged.now) tables.old }
    requires previous { IsPreviousLink (listing_of project.now) canvas.old.bytes seen.outcome.now seen.previous.now }
    ensures tables { HasTables (next_listing project.now staged.now) tables.new }
    ensures updated { IfOk result (λ both. IsUpdatedOver project.now staged.now canvas.old.bytes seen.entry.outcome.now
        seen.entry.previous.now canvas.new.bytes both.0 both.1) }
    ensures unchanged { OnErr result (canvas.new.bytes ≡ canvas.old.bytes) }
    ensures made { OnOk result (is_some tables.new ≡ true) }
    ensures reads { OnOk result (is_some tables.old ≡ true → ReadsNothing meter.old meter.new) }
    ensures counted { OnOk result (is_some tables.old ≡ true → (change : Change)
        → (keeps_script change ≡ true → staged.now.script ≡ None)
        → shown canvas.old.bytes seen.entry.outcome.now ≡ link (held project.now)
        → HasPlacedWork (held project.now) change (project_of (next_listing project.now staged.now))
        meter.old meter.new) }
{
    // for the prover: brings in the law of keys with a place
    found_where_placed();
    // for the prover: brings in that the counts fit a u64
    counts_fit(meter);
    let same = puts_same(project, staged);
    let next = project.next(staged);
    let keys = next.keys();
    let (effect, previous) = lend_previous(
        seen.previous,
        seen.outcome,
        project,
        staged,
        same,
        keys,
    );
    let mut made = tables_of_next(means, &next, tables.take(), meter)?;
    let updated = link_next(
        means.alloc,
        &next,
        &mut made.symbol_table,
        &made.matches,
        previous,
        canvas,
        meter,
    );
    *tables = Some(made);
    match updated {
        Ok(updated) => Ok((updated, effect)),
        Err(no_memory) => Err(no_memory),
    }
}

/// Whether the last link is that of the project, and its tables are made.
fn is_up_to_date(is_linked: bool, tables: &Option<LinkTables>) -> bool
    ensures yes { result ≡ true → (is_linked ≡ true) × (is_some tables.now ≡ true) }
    ensures no { is_linked ≡ true → is_some tables.now ≡ true → result ≡ true }
{
    is_linked && tables.is_some()
}

/// Links a project without a staged edit: nothing is done if the last link is its own; else it is linked over the
/// previous one. Fails if memory runs out: then nothing has changed.
fn link_unstaged(
    means: Means,
    project: &Project,
    tables: &mut Option<LinkTables>,
    last: &mut LastLink,
    canvas: &mut Canvas,
    meter: &mut Meter,
) -> Result<(), NoMemory>
    requires tables { HasTables (listing_of project.now) tables.old }
    requires last { IsLastGood last.old.is_linked (listing_of project.now) canvas.old.bytes last.old.outcome
        last.old.previous }
    requires answers { last.old.is_linked ≡ true
        → shown canvas.old.bytes last.old.outcome ≡ link (held project.now) }
    ensures tables { HasTables (listing_of project.now) tables.new }
    ensures linked { OnOk result (last.new.is_linked ≡ true) }
    ensures answers { OnOk result (shown canvas.new.bytes last.new.outcome ≡ link (held project.now)) }
    ensures last { OnOk result (IsPreviousLink (listing_of project.now) canvas.new.bytes last.new.outcome
        last.new.previous) }
    ensures canvas { OnErr result (canvas.new.bytes ≡ canvas.old.bytes) }
    ensures unchanged { OnErr result (last.new ≡ last.old) }
    ensures made { OnOk result (is_some tables.new ≡ true) }
    ensures reads { OnOk result (is_some tables.old ≡ true → ReadsNothing meter.old meter.new) }
    ensures counted { last.old.is_linked ≡ true → is_some tables.old ≡ true → meter.new ≡ meter.old }
{
    if is_up_to_date(last.is_linked, tables) {
        return Ok(());
    }
    let mut made = tables_of_project(means, project, tables.take(), meter)?;
    let updated = link_committed(
        means.alloc,
        project,
        &mut made.symbol_table,
        &made.matches,
        lend_later(&last.previous, project.keys()),
        canvas,
        meter,
    );
    *tables = Some(made);
    let updated = updated?;
    record_outcome(updated, &mut last.previous, &mut last.outcome, no_effect());
    last.is_linked = true;
    Ok(())
}

impl DeferredSession {
    /// Gives back the memory of a session that is over, as `Session::close` does.
    pub fn close(self) {}

    /// Stages an edit, after the one before it is made without a link. Right after a link its counts, with those of the
    /// next `link_now`, are those of an edit of a `Session` (`law::staged_and_linked`); of several edits each reads the
    /// object that it brings, and the link none (`law::edits_and_link`).
    ///
    /// # Errors
    ///
    /// The refusal; the project is then as before.
    pub fn stage_edit(&mut self, edit: Edit<'_>, meter: &mut Meter) -> Result<(), EditRefusal>
        ensures accepted { OnOk result (After self.old.project (change_of edit.entry) (Ok self.new.project)) }
        ensures refused { IfErr result (λ r. RefusedAs self.old.project (change_of edit.entry) (refusal_of r)) }
        ensures unchanged { OnErr result (self.new.project ≡ self.old.project) }
        ensures unlinked { self.new.last ≡ self.old.last }
        ensures counted { OnOk result (self.old.is_linked ≡ true
            → IsStagingWork self.old.project (change_of edit.entry) self.new meter.old meter.new) }
        ensures each { OnOk result (IsEditWork self.old (change_of edit.entry) self.new meter.old meter.new) }
    {
        // for the prover: brings in the laws of names that objects declare
        names_of_objects();
        distinct_more();
        // for the prover: brings in that the counts fit a u64
        counts_fit(meter);
        commit_staged_unlinked(
            self.means.alloc,
            &mut self.project,
            &mut self.staged,
            &mut self.last_link.previous,
            &self.last_link.outcome,
            &mut self.last_link.is_linked,
        );
        let staged = self.project.stage(edit, meter)?;
        let same = puts_same(&self.project, &staged);
        if is_unchanged(&self.project, &staged, same) {
            return Ok(());
        }
        match follow_if_made(self.means, &self.project, &staged, &mut self.tables, meter) {
            Err(no_memory) => Err(EditRefusal::NoMemory(no_memory)),
            Ok(()) => {
                self.staged = Some(staged);
                Ok(())
            }
        }
    }

    /// Links the project over what is kept of it.
    ///
    /// # Errors
    ///
    /// If memory runs out; the last link stays.
    pub fn link_now(&mut self, meter: &mut Meter) -> Result<LinkSummary, NoMemory>
        ensures linked { IfOk result (λ l. l ≡ linked_of (link self.old.project)) }
        ensures last { OnOk result (self.new.last ≡ link self.old.project) }
        ensures unlinked { OnErr result (self.new.last ≡ self.old.last) }
        ensures project { self.new.project ≡ self.old.project }
        ensures linked_last { OnOk result (self.new.is_linked ≡ true) }
        ensures resolved { OnOk result (self.new.is_resolved ≡ true) }
        ensures counted { OnOk result (IsLinkingWork self.old meter.old meter.new) }
    {
        let Some(staged) = self.staged.take() else {
            link_unstaged(
                self.means,
                &self.project,
                &mut self.tables,
                &mut self.last_link,
                &mut self.canvas,
                meter,
            )?;
            return Ok(self.last_link.outcome.summary(&self.canvas));
        };
        let last = &self.last_link;
        let stale = LinkOutcome::Faulty(Vec::new(self.means.alloc));
        let seen = SeenLink {
            previous: &last.previous,
            outcome: seen(last.is_linked, &last.outcome, &stale),
        };
        match link_staged(
            self.means,
            &self.project,
            &staged,
            &mut self.tables,
            seen,
            &mut self.canvas,
            meter,
        ) {
            Err(no_memory) => {
                self.staged = Some(staged);
                Err(no_memory)
            }
            Ok((updated, effect)) => {
                self.project.commit(staged);
                record_outcome(
                    updated,
                    &mut self.last_link.previous,
                    &mut self.last_link.outcome,
                    effect,
                );
                self.last_link.is_linked = true;
                Ok(self.last_link.outcome.summary(&self.canvas))
            }
        }
    }
}

impl DeferredLinker for DeferredSession {
    ghost project = { λ s. s.project };

    ghost last = { λ s. s.last };

    fn stage(&mut self, edit: Edit<'_>, meter: &mut Meter) -> Result<(), EditRefusal> {
        self.stage_edit(edit, meter)
    }

    fn make_link(&mut self, meter: &mut Meter) -> Result<LinkSummary, NoMemory> {
        self.link_now(meter)
    }

    fn image(&self) -> &[u8] {
        self.last_link.outcome.image(&self.canvas)
    }

    fn map(&self) -> &[u8] {
        self.last_link.outcome.map()
    }

    fn faults(&self) -> &[u8] {
        self.last_link.outcome.faults()
    }

    fn status(&self) -> u8 {
        self.last_link.outcome.status()
    }
}
