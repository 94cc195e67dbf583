//! The faults of names: names that are defined twice, and an entry symbol that nothing defines.

ghost use Rattle.std.specs.Prelude.{◌≡◌, ◌++◌, ◌∷◌, [], IfOk, OnOk, is_some, true};
ghost use Rattle.ldmodel.specs.Link.{name_faults};
ghost use Rattle.ldmodel.specs.NameFaults.{undefined_entry};
ghost use Rattle.ldmodel.specs.Project.{Project};
ghost use Rattle.ldmodel.specs.declared.fault.Fault.TheVariants.{UndefinedEntry};
ghost use Rattle.symres.specs.SymbolTable.{IsSymbolTable};
ghost use Rattle.symres.specs.Undefined.{faults_if, is_undefined};
ghost use Rattle.ldmodel_project.specs.ByPlace.{faults_in};

use crate::symbol_table::SymbolTable;
use growth::{NoMemory, vec};
use ldmodel::fault::Fault;
use ldmodel::names::{Case, ObjectPlace};
use ldmodel_project::view::ProjectView;
use std::alloc::Global;

/// Whether nothing defines a name.
fn is_undefined(case: Case<ObjectPlace>) -> bool
    ensures { result ≡ is_undefined case }
{
    match case {
        Case::Undefined => true,
        Case::Strong(_)
        | Case::Script
        | Case::Common { .. }
        | Case::Weak(_)
        | Case::Provided
        | Case::Duplicate => false,
    }
}

impl SymbolTable {
    /// Whether there is an entry symbol, and nothing defines it.
    fn is_entry_undefined(&self, project: &ProjectView<'_>) -> bool
        requires { IsSymbolTable project.now self.now }
        ensures { result ≡ is_some (undefined_entry project.now) }
    {
        match project.entry_symbol() {
            Some(name) => is_undefined(self.case_named(project.script(), name)),
            None => false,
        }
    }

    /// Whether the names of a project have one fault alone, that of its entry symbol: nothing defines that, and no name
    /// is defined twice. No object is looked at: any view with the script and the options of the project will do.
    pub fn lacks_entry_alone(&self, view: &ProjectView<'_>) -> bool
        ensures { result ≡ true → (project : Project) → IsSymbolTable project self.now
            → project.script ≡ view.now.script → project.options ≡ view.now.options
            → faults_in project (UndefinedEntry ∷ []) ≡ name_faults project }
    {
        if self.has_doubled() {
            return false;
        }
        match view.entry_symbol() {
            Some(name) => is_undefined(self.case_named(view.script(), name)),
            None => false,
        }
    }

    /// Adds the fault of the entry symbol, if there is one.
    fn add_entry_fault(
        &self,
        project: &ProjectView<'_>,
        faults: &mut Vec<Fault>,
    ) -> Result<(), NoMemory>
        requires { IsSymbolTable project.now self.now }
        ensures { OnOk result (faults.new.items
            ≡ faults.old.items ++ faults_if (is_some (undefined_entry project.now))) }
    {
        if !self.is_entry_undefined(project) {
            return Ok(());
        }
        vec::push(faults, Fault::UndefinedEntry)?;
        Ok(())
    }

    /// The faults of the names of a project, in object order and then symbol order: `F1`; then the fault of the entry
    /// symbol, `F2`.
    ///
    /// # Errors
    ///
    /// If memory runs out.
    pub fn faults(&self, alloc: Global, project: &ProjectView<'_>) -> Result<Vec<Fault>, NoMemory>
        requires { IsSymbolTable project.now self.now }
        ensures { IfOk result (λ fs. faults_in project.now fs.items ≡ name_faults project.now) }
    {
        let mut faults = self.duplicates(alloc, project)?;
        self.add_entry_fault(project, &mut faults)?;
        Ok(faults)
    }
}
