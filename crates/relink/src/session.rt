//! The linker of a session: it keeps objects, names, matches and the previous link without faults.

ghost use Rattle.std.specs.Prelude.{◌≡◌, [], IfOk, OnOk};
ghost use Rattle.ldmodel.specs.EditMeaning.{change_of};
ghost use Rattle.ldmodel.specs.Link.{link};
ghost use Rattle.ldmodel.specs.Project.{empty_project};
ghost use Rattle.ldmodel_project.specs.ProjectState.{held, listing_of};
ghost use Rattle.relink.specs.KeptTables.{AreTablesOf};
ghost use Rattle.relink.specs.Work.{IsWholeWork};
ghost use Rattle.relink_driver.specs.Applied.{Applied};

use crate::counts::counts_fit;
use crate::deferred::{DeferredSession, LastLink};
use crate::lazy_tables::{Means, are_places};
use crate::lent_link::lend_previous;
use crate::link_tables::LinkTables;
use crate::outcome::LinkOutcome;
use crate::previous::{EditEffect, PreviousLink, record_outcome};
use crate::session_link::link_without_previous;
use crate::unchanged::{is_unchanged, puts_same};
use growth::NoMemory;
use ldmodel::edit::{Edit, EditRefusal, LinkSummary};
use ldmodel::linker::Linker;
use ldmodel::meter::Meter;
use ldmodel::options::Options;
use ldmodel_project::law::found_where_placed;
use ldmodel_project::project::Project;
use relink_driver::Canvas;
use std::alloc::Global;
use std::collections::VecDeque;
use std::hash::RandomState;
use std::marker::Model;
use symres::SymbolTable;
use symres::decisions::law::{distinct_more, names_of_objects};

/// A linker that keeps how names are resolved, which statements take the input sections of each object, and the
/// previous link without faults. An edit of an object reads at most that object, and resolves only its names. If the
/// link before it has no faults, input sections are placed only from the first changed output section on, and the image
/// is written over the previous one, except for the input sections that stayed.
#[derive(Drop)]
pub struct Session {
    alloc: Global,
    project: Project,
    tables: LinkTables,
    // the previous link without faults, whose image is on the canvas; if `outcome` is good, the link of the project
    previous: Option<PreviousLink>,
    canvas: Canvas,
    outcome: LinkOutcome,
}

impl Model for Session {
    ghost use Rattle.std.specs.Coded.{codes};
    ghost use Rattle.std.specs.Prelude.{◌≡◌};
    ghost use Rattle.ldscript.specs.statements.contracts.formula.Formula as formula;
    ghost use Rattle.ldmodel.specs.Link.{link};
    ghost use Rattle.ldmodel.specs.Project.{Project};
    ghost use Rattle.ldmodel_project.specs.ProjectState.{held, listing_of};
    ghost use Rattle.relink.specs.Outcome.{shown};
    ghost use Rattle.relink.specs.KeptTables.{AreTablesOf};
    ghost use Rattle.relink.specs.PreviousLink.{IsPreviousLink};

    ghost Value = { Project };

    ghost coded = { Prim.hlevel (codes, formula.the_row.coded) };

    ghost view = { λ s. held s.project };

    ghost invariant = { λ s. (shown s.canvas.bytes s.outcome ≡ link (held s.project))
        × AreTablesOf (listing_of s.project) s.tables.symbol_table s.tables.matches.items
        × IsPreviousLink (listing_of s.project) s.canvas.bytes s.outcome s.previous };
}

/// What is kept of a project without objects. Fails if memory runs out.
fn tables_of_empty(
    alloc: Global,
    seed: RandomState,
    project: &Project,
) -> Result<LinkTables, NoMemory>
    requires { (held project.now).objects ≡ [] }
    ensures { IfOk result (λ k. AreTablesOf (listing_of project.now) k.symbol_table k.matches.items) }
{
    let symbol_table = SymbolTable::of(alloc, seed, &[], project.script(), &mut Meter::new())?;
    Ok(LinkTables {
        symbol_table,
        matches: VecDeque::new(alloc),
    })
}

impl Session {
    /// A linker that holds the link of the empty project. `seed` is for hash tables; no link depends on it.
    ///
    /// # Errors
    ///
    /// If memory runs out.
    pub fn new(alloc: Global, seed: RandomState, options: Options) -> Result<Session, NoMemory>
        ensures { IfOk result (λ session. session ≡ empty_project options) }
    {
        let project = Project::new(alloc, options);
        let tables = tables_of_empty(alloc, seed, &project)?;
        let mut canvas = Canvas::new(alloc);
        let updated = link_without_previous(
            alloc,
            &project,
            &tables.symbol_table,
            &tables.matches,
            &mut canvas,
        )?;
        let mut previous = None;
        let effect = EditEffect {
            keeps_previous: true,
            stale_key: None,
            same_script: true,
            is_answered: false,
        };
        let mut outcome = LinkOutcome::Faulty(Vec::new(alloc));
        record_outcome(updated, &mut previous, &mut outcome, effect);
        Ok(Session {
            alloc,
            project,
            tables,
            previous,
            canvas,
            outcome,
        })
    }

    /// Gives back the memory of a session that is over, as letting it go does. For the prover: a crate that lets a
    /// session go is proved to give back each of its parts, and one that calls this is not.
    pub fn close(self) {}

    /// The same project, for edits that are linked when it is asked. `seed` is for hash tables; no link depends on it.
    pub fn deferred(self, seed: RandomState) -> DeferredSession
        ensures project { result.project ≡ self }
        ensures last { result.last ≡ link self }
    {
        let Session {
            alloc,
            project,
            tables,
            previous,
            canvas,
            outcome,
        } = self;
        let tables = if are_places(project.keys()) {
            None
        } else {
            Some(tables)
        };
        DeferredSession {
            means: Means { alloc, seed },
            project,
            staged: None,
            tables,
            canvas,
            last_link: LastLink {
                previous,
                outcome,
                is_linked: true,
            },
        }
    }

    /// Stages an edit, updates the tables and links; commits the next project and records its link only after that. If
    /// an object replaces one of the same bytes, nothing changes, and the link that is there answers.
    fn apply_edit(&mut self, edit: Edit<'_>, meter: &mut Meter) -> Result<LinkSummary, EditRefusal>
        ensures applied { Applied self.old (change_of edit.entry) self.new result }
        ensures counted { OnOk result (IsWholeWork self.old (change_of edit.entry) self.new meter.old meter.new) }
    {
        // for the prover: brings in the laws of names that objects declare, and of keys with a place
        names_of_objects();
        distinct_more();
        found_where_placed();
        // for the prover: brings in that the counts fit a u64
        counts_fit(meter);
        let staged = self.project.stage(edit, meter)?;
        let same = puts_same(&self.project, &staged);
        if is_unchanged(&self.project, &staged, same) {
            return Ok(self.outcome.summary(&self.canvas));
        }
        let next = self.project.next(&staged);
        let keys = next.keys();
        let (effect, previous) = lend_previous(
            &self.previous,
            &self.outcome,
            &self.project,
            &staged,
            same,
            keys,
        );
        match self.tables.update_and_link(
            self.alloc,
            &self.project,
            &staged,
            previous,
            &mut self.canvas,
            meter,
        ) {
            Err(no_memory) => Err(EditRefusal::NoMemory(no_memory)),
            Ok(updated) => {
                self.project.commit(staged);
                record_outcome(updated, &mut self.previous, &mut self.outcome, effect);
                Ok(self.outcome.summary(&self.canvas))
            }
        }
    }
}

impl Linker for Session {
    ghost project = { λ s. s };

    ghost bound = { IsWholeWork };

    fn apply(&mut self, edit: Edit<'_>, meter: &mut Meter) -> Result<LinkSummary, EditRefusal> {
        self.apply_edit(edit, meter)
    }

    fn image(&self) -> &[u8] {
        self.outcome.image(&self.canvas)
    }

    fn map(&self) -> &[u8] {
        self.outcome.map()
    }

    fn faults(&self) -> &[u8] {
        self.outcome.faults()
    }

    fn status(&self) -> u8 {
        self.outcome.status()
    }
}
