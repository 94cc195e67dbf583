//! A project, changed by edits in two parts.

ghost use Rattle.std.specs.Prelude.{◌≡◌, ◌==◌, ◌<◌, ℕ, length, Some, Ok, IfErr, IfOk, OnErr, OnOk, slice_get};
ghost use Rattle.ldmodel.specs.EditMeaning.{change_of, refusal_of};
ghost use Rattle.ldmodel.specs.Edits.{After, RefusedAs};
ghost use Rattle.ldmodel.specs.Project.{empty_project};
ghost use Rattle.ldmodel_project.specs.ProjectState.{held, listing_of, next_listing};
ghost use Rattle.ldmodel_project.specs.Inputs.{shown_inputs};
ghost use Rattle.ldmodel_project.specs.Listing.{found_under, objects_of};
ghost use Rattle.ldmodel_project.specs.Next.{Fits, KeysAreStable, next_found};

mod early;
mod lending;
mod looking;
mod staging;

use crate::input::InputObject;
use crate::keyed_objects::KeyedObjects;
use crate::named::NamedObject;
use crate::staged::Staged;
use growth::{NoMemory, vec};
use ldmodel::edit::{Edit, EditRefusal};
use ldmodel::meter::Meter;
use ldmodel::names::ObjectKey;
use ldmodel::options::Options;
use ldscript::Script;
use std::alloc::Global;
use std::marker::Model;

/// A project: its objects, each under a key that it keeps while the project has it, in their order; the script; and
/// the options.
#[derive(Drop)]
pub struct Project {
    alloc: Global,
    kept: KeyedObjects,
    script: Script,
    options: Options,
}

impl Model for Project {
    ghost use Rattle.std.specs.Coded.{codes};
    ghost use Rattle.ldscript.specs.statements.contracts.formula.Formula as formula;
    ghost use Rattle.ldmodel_project.specs.ProjectState.{ProjectState};

    ghost Value = { ProjectState };

    ghost coded = { Prim.hlevel (codes, formula.the_row.coded) };

    ghost view = { λ p. record { contents = p.kept; script = p.script; options = p.options } };
}

impl Project {
    /// The project without objects, with the empty script.
    pub fn new(alloc: Global, options: Options) -> Project
        ensures { held result ≡ empty_project options }
    {
        Project {
            alloc,
            kept: KeyedObjects::new(alloc),
            script: Script::empty(alloc),
            options,
        }
    }

    /// The next project, as a staged edit makes it.
    pub fn next<'a>(&'a self, staged: &'a Staged) -> Next<'a>
        requires { Fits self.now.contents staged.now.objects }
        ensures next { result ≡ next_listing self.now staged.now }
        ensures found { (key : ℕ) → found_under result.entries key
            ≡ next_found self.now.contents.entries staged.now.objects.step key }
    {
        Next {
            project: self,
            staged,
        }
    }

    /// Makes a staged edit, with no allocation.
    pub fn commit(&mut self, staged: Staged)
        requires { Fits self.old.contents staged.objects }
        ensures next { listing_of self.new ≡ next_listing self.old staged }
        ensures stable { KeysAreStable self.old.contents.entries self.new.contents.entries }
        ensures found { (key : ℕ) → found_under self.new.contents.entries key
            ≡ next_found self.old.contents.entries staged.objects.step key }
    {
        let Staged { objects, script } = staged;
        self.kept.commit(objects);
        if let Some(script) = script {
            self.script = script;
        }
    }

    /// Makes an edit at once, for a project that isn't linked after each.
    ///
    /// # Errors
    ///
    /// Those of `stage`. The project is then as it was.
    pub fn edit(&mut self, edit: Edit<'_>) -> Result<(), EditRefusal>
        ensures accepted { OnOk result (After (held self.old) (change_of edit.entry) (Ok (held self.new))) }
        ensures refused { IfErr result
            (λ refused. RefusedAs (held self.old) (change_of edit.entry) (refusal_of refused)) }
        ensures unchanged { OnErr result (held self.new ≡ held self.old) }
    {
        match self.stage(edit, &mut Meter::new()) {
            Err(refusal) => Err(refusal),
            Ok(staged) => {
                self.commit(staged);
                Ok(())
            }
        }
    }
}

/// The next project, before the edit is committed.
#[derive(Drop)]
pub struct Next<'a> {
    project: &'a Project,
    staged: &'a Staged,
}

impl<'a> Model for Next<'a> {
    ghost use Rattle.std.specs.Coded.{codes};
    ghost use Rattle.ldscript.specs.statements.contracts.formula.Formula as formula;
    ghost use Rattle.ldmodel_project.specs.ProjectState.{Listing};

    ghost Value = { Listing };

    ghost coded = { Prim.hlevel (codes, formula.the_row.coded) };

    ghost use Rattle.ldmodel_project.specs.ProjectState.{next_listing};
    ghost use Rattle.ldmodel_project.specs.Inputs.{shown_inputs};
    ghost use Rattle.ldmodel_project.specs.Next.{Fits};

    ghost view = { λ n. next_listing n.project.now n.staged.now };

    ghost invariant = { λ n. Fits n.project.now.contents n.staged.now.objects };
}

impl<'a> Next<'a> {
    /// The number of objects.
    pub fn len(&self) -> usize
        ensures { result ≡ length self.now.entries }
    {
        self.staged.objects.order.len()
    }

    /// Whether there is no object.
    pub fn is_empty(&self) -> bool
        ensures { result ≡ (length self.now.entries == 0) }
    {
        self.staged.objects.order.is_empty()
    }

    /// The object at a position, and its key.
    pub fn entry(&self, at: usize) -> (ObjectKey, &'a NamedObject)
        requires { at < length self.now.entries }
        ensures { slice_get self.now.entries at ≡ Some (record { key = result.0.0; named = result.1.now }) }
    {
        let project = self.project;
        let key = self.staged.objects.order[at];
        match self.staged.objects.put_under(key) {
            Some(named) => (ObjectKey(key), named),
            None => (ObjectKey(key), project.kept.named(key)),
        }
    }

    /// All objects, in their order.
    ///
    /// # Errors
    ///
    /// If memory runs out.
    pub fn inputs(&self, alloc: Global) -> Result<Vec<InputObject<'a>>, NoMemory>
        ensures { IfOk result (λ found. shown_inputs found.items ≡ objects_of self.now.entries) }
    {
        let mut inputs = vec::with_capacity(alloc, self.len())?;
        for at in 0..self.len() {
            let (_key, named) = self.entry(at);
            inputs.push_reserved(named.input());
        }
        Ok(inputs)
    }

    /// The script.
    pub fn script(&self) -> &'a Script
        ensures { result.now ≡ self.now.script }
    {
        let project = self.project;
        match &self.staged.script {
            Some(script) => script,
            None => &project.script,
        }
    }

    /// The options.
    pub fn options(&self) -> &'a Options
        ensures { result.now ≡ self.now.options }
    {
        let project = self.project;
        &project.options
    }
}
