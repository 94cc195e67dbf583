//! A project, lent to a link.

ghost use Rattle.std.specs.Prelude.{◌≡◌, length, option_copied, slice_get};
ghost use Rattle.std.specs.Option.{option_map};
ghost use Rattle.ldmodel.specs.Edits.{AreNamesDistinct};
ghost use Rattle.ldmodel.specs.NameFaults.{object_name};
ghost use Rattle.ldmodel.specs.Names.{entry_symbol};
ghost use Rattle.ldmodel.specs.Project.{NamedObject};
ghost use Rattle.ldmodel_project.specs.Inputs.{AreObjectsNamed, shown_inputs};
ghost use Rattle.ldmodel_project.specs.Read.{AreObjectsRead};

use crate::input::InputObject;
use elfobj::Object;
use ldmodel::names::ObjectPlace;
use ldmodel::options::Options;
use ldscript::Script;
use std::marker::Model;

/// A project, lent for a link: its objects in their order, its script and its options. The key of an object in that
/// link is its place among all, from 0. No name is empty, and no two objects have one name.
#[derive(Drop)]
pub struct ProjectView<'a> {
    inputs: &'a [InputObject<'a>],
    script: &'a Script,
    options: &'a Options,
}

impl<'a> Model for ProjectView<'a> {
    ghost use Rattle.std.specs.Coded.{codes};
    ghost use Rattle.ldscript.specs.statements.contracts.formula.Formula as formula;
    ghost use Rattle.ldmodel.specs.Edits.{AreNamesDistinct};
    ghost use Rattle.ldmodel.specs.Project.{Project};
    ghost use Rattle.ldmodel_project.specs.Inputs.{shown_inputs};

    ghost Value = { Project };

    ghost coded = { Prim.hlevel (codes, formula.the_row.coded) };

    ghost view = { λ v. record {
      objects = shown_inputs v.inputs.now;
      script = v.script.now;
      options = v.options.now;
    } };

    ghost invariant = { λ v. AreNamesDistinct (shown_inputs v.inputs.now) };
}

impl<'a> ProjectView<'a> {
    /// These objects, in this order, with a script and options.
    pub fn new(
        inputs: &'a [InputObject<'a>],
        script: &'a Script,
        options: &'a Options,
    ) -> ProjectView<'a>
        requires { AreNamesDistinct (shown_inputs inputs.now) }
        ensures { result ≡ record {
          objects = shown_inputs inputs.now;
          script = script.now;
          options = options.now;
        } }
    {
        ProjectView {
            inputs,
            script,
            options,
        }
    }

    /// The objects, in their order.
    pub fn inputs(&self) -> &'a [InputObject<'a>]
        ensures same { shown_inputs result.now ≡ self.now.objects }
        ensures distinct { AreNamesDistinct self.now.objects }
    {
        self.inputs
    }

    /// The names of the objects are not empty, and no two are the same. The call does nothing.
    pub fn objects_are_named(&self)
        ensures named { AreObjectsNamed self.now.objects }
        ensures distinct { AreNamesDistinct self.now.objects }
    {
        // for the prover: brings in the invariants of `self` and of its inputs
        let _inputs = self.inputs;
    }

    /// Each object is what its bytes spell, since it was read.
    pub fn objects_are_read(&self)
        ensures { AreObjectsRead self.now.objects }
    {
        for input in self.inputs {
            // for the prover: brings in the invariant of `input.object`, of its bytes
            let _bytes = input.object.data();
        }
    }

    /// The script.
    pub fn script(&self) -> &'a Script
        ensures { result.now ≡ self.now.script }
    {
        self.script
    }

    /// The options.
    pub fn options(&self) -> &'a Options
        ensures { result.now ≡ self.now.options }
    {
        self.options
    }

    /// The name of the object at a place; no bytes for a place of none.
    pub fn name(&self, place: ObjectPlace) -> &'a [u8]
        ensures { result.now ≡ object_name self.now place.0 }
    {
        match self.inputs.get(place.0) {
            Some(input) => input.name,
            None => &[],
        }
    }

    /// The object at a place.
    pub fn object(&self, place: ObjectPlace) -> Option<&'a Object>
        ensures { option_copied result
            ≡ option_map (λ (object : NamedObject). object.object) (slice_get self.now.objects place.0) }
    {
        match self.inputs.get(place.0) {
            Some(input) => Some(input.object),
            None => None,
        }
    }

    /// The entry symbol: that of the option, else that of ENTRY.
    #[tactic(auto, unfolding(ldmodel::specs::Names::entry_symbol))]
    pub fn entry_symbol(&self) -> Option<&'a [u8]>
        ensures { option_copied result ≡ entry_symbol self.now }
    {
        let options = self.options;
        match options.entry() {
            Some(name) => Some(name),
            None => {
                let script = self.script;
                script.entry()
            }
        }
    }
}
