//! A project, lent to a link: the next one, before its edit is committed, or the one that is kept.

ghost use Rattle.std.specs.Prelude.{◌≡◌, IfOk};
ghost use Rattle.ldmodel_project.specs.ProjectState.{held, project_of};
ghost use Rattle.ldmodel_project.specs.Inputs.{shown_inputs};
ghost use Rattle.ldmodel_project.specs.Listing.{objects_of};

use crate::input::InputObject;
use crate::project::{Next, Project};
use crate::view::ProjectView;
use growth::NoMemory;
use std::alloc::Global;

impl<'a> Next<'a> {
    /// The whole project, lent for a link over its objects, which `inputs` gives.
    pub fn view(&self, inputs: &'a [InputObject<'a>]) -> ProjectView<'a>
        requires { shown_inputs inputs.now ≡ objects_of self.now.entries }
        ensures { result ≡ project_of self.now }
    {
        // for the prover: brings in the invariant of `self.project`
        let _project = self.project;
        ProjectView::new(inputs, self.script(), self.options())
    }
}

impl Project {
    /// All objects, in their order.
    ///
    /// # Errors
    ///
    /// If memory runs out.
    pub fn inputs(&self, alloc: Global) -> Result<Vec<InputObject<'_>>, NoMemory>
        ensures { IfOk result (λ v. shown_inputs v.items ≡ objects_of self.now.contents.entries) }
    {
        self.kept.inputs(alloc)
    }

    /// The whole project, lent for a link over its objects, which `inputs` gives.
    pub fn view<'a>(&'a self, inputs: &'a [InputObject<'a>]) -> ProjectView<'a>
        requires { shown_inputs inputs.now ≡ objects_of self.now.contents.entries }
        ensures { result ≡ held self.now }
    {
        self.kept.names_differ();
        ProjectView::new(inputs, &self.script, &self.options)
    }
}
