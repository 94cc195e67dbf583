//! The plain linker: it links from scratch after every edit.

ghost use Rattle.std.specs.Prelude.{◌≡◌, IfOk};
ghost use Rattle.ldmodel.specs.EditMeaning.{change_of};
ghost use Rattle.ldmodel.specs.Link.{link};
ghost use Rattle.ldmodel.specs.Project.{empty_project};
ghost use Rattle.ldmodel_project.specs.ProjectState.{held, next_listing, project_of};
ghost use Rattle.ldmodel_project.specs.Next.{Fits};
ghost use Rattle.relink_driver.specs.Applied.{Applied};
ghost use Rattle.relink_driver.specs.Unbounded.{Unbounded};

use crate::output::Output;
use growth::NoMemory;
use ldmodel::edit::{Edit, EditRefusal, LinkSummary};
use ldmodel::linker::Linker;
use ldmodel::meter::Meter;
use ldmodel::options::Options;
use ldmodel_project::project::Project;
use ldmodel_project::staged::Staged;
use std::alloc::Global;
use std::hash::RandomState;
use std::marker::Model;

/// A linker that keeps nothing from one link to the next.
#[derive(Drop)]
pub struct Plain {
    alloc: Global,
    seed: RandomState,
    project: Project,
    output: Output,
}

impl Model for Plain {
    ghost use Rattle.std.specs.Coded.{codes};
    ghost use Rattle.std.specs.Prelude.{◌≡◌};
    ghost use Rattle.ldscript.specs.statements.contracts.formula.Formula as formula;
    ghost use Rattle.ldmodel.specs.Link.{link};
    ghost use Rattle.ldmodel.specs.Project.{Project};
    ghost use Rattle.ldmodel_project.specs.ProjectState.{held};

    ghost Value = { Project };

    ghost coded = { Prim.hlevel (codes, formula.the_row.coded) };

    ghost view = { λ s. held s.project };

    ghost invariant = { λ s. s.output ≡ link (held s.project) };
}

/// The link of a project that is kept.
///
/// # Errors
///
/// If memory runs out.
fn link_kept(alloc: Global, seed: RandomState, project: &Project) -> Result<Output, NoMemory>
    ensures { IfOk result (λ o. o ≡ link (held project.now)) }
{
    let inputs = project.inputs(alloc)?;
    Output::of(alloc, seed, &project.view(&inputs), &mut Meter::new())
}

/// The link of the project that a staged edit leads to.
///
/// # Errors
///
/// If memory runs out.
fn link_next(
    alloc: Global,
    seed: RandomState,
    project: &Project,
    staged: &Staged,
    meter: &mut Meter,
) -> Result<Output, NoMemory>
    requires { Fits project.now.contents staged.now.objects }
    ensures { IfOk result (λ o. o ≡ link (project_of (next_listing project.now staged.now))) }
{
    let next = project.next(staged);
    let inputs = next.inputs(alloc)?;
    Output::of(alloc, seed, &next.view(&inputs), meter)
}

impl Plain {
    /// A linker that holds the link of the empty project. `seed` is for hash tables; no link depends on it.
    ///
    /// # Errors
    ///
    /// If memory runs out.
    pub fn new(alloc: Global, seed: RandomState, options: Options) -> Result<Plain, NoMemory>
        ensures { IfOk result (λ session. session ≡ empty_project options) }
    {
        let project = Project::new(alloc, options);
        let output = link_kept(alloc, seed, &project)?;
        Ok(Plain {
            alloc,
            seed,
            project,
            output,
        })
    }

    /// Stages an edit and links the next project; takes both over only after that.
    fn apply_edit(&mut self, edit: Edit<'_>, meter: &mut Meter) -> Result<LinkSummary, EditRefusal>
        ensures { Applied self.old (change_of edit.entry) self.new result }
    {
        let staged = self.project.stage(edit, meter)?;
        match link_next(self.alloc, self.seed, &self.project, &staged, meter) {
            Err(no_memory) => Err(EditRefusal::NoMemory(no_memory)),
            Ok(output) => {
                self.project.commit(staged);
                self.output = output;
                Ok(self.output.summary())
            }
        }
    }
}

impl Linker for Plain {
    ghost project = { λ s. s };

    ghost bound = { Unbounded };

    fn apply(&mut self, edit: Edit<'_>, meter: &mut Meter) -> Result<LinkSummary, EditRefusal> {
        self.apply_edit(edit, meter)
    }

    fn image(&self) -> &[u8] {
        self.output.image()
    }

    fn map(&self) -> &[u8] {
        self.output.map()
    }

    fn faults(&self) -> &[u8] {
        self.output.faults()
    }

    fn status(&self) -> u8 {
        self.output.status()
    }
}
