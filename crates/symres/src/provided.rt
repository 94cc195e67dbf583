//! The PROVIDEs of a script that are in force.

ghost use Rattle.std.specs.Prelude.{◌≡◌, IfOk, OnOk, map};
ghost use Rattle.ldmodel.specs.CodeValues.{decision_of};
ghost use Rattle.ldmodel.specs.PlacementView.{name_given_by};
ghost use Rattle.ldmodel.specs.Names.{is_provided_case, provided};
ghost use Rattle.ldmodel.specs.Project.{Project};
ghost use Rattle.ldmodel.specs.declared.script_symbol.DirectiveIndex.{DirectiveIndex};
ghost use Rattle.symres.specs.SymbolTable.{IsSymbolTable};
ghost use Rattle.symres.specs.Provided.{in_force, AddsIfInForce};

use crate::symbol_table::SymbolTable;
use growth::{NoMemory, impossible, vec};
use ldmodel::names::{Case, ObjectPlace};
use ldmodel::script_symbol::DirectiveIndex;
use ldscript::Script;
use ldscript::tree::Directive;
use std::alloc::Global;

fn is_provided(case: Case<ObjectPlace>) -> bool
    ensures { result ≡ is_provided_case (decision_of (λ key. key) case) }
{
    match case {
        Case::Provided => true,
        Case::Strong(_)
        | Case::Script
        | Case::Common { .. }
        | Case::Weak(_)
        | Case::Undefined
        | Case::Duplicate => false,
    }
}

impl SymbolTable {
    /// Whether a command is a PROVIDE that is in force.
    fn is_in_force(&self, script: &Script, command: &Directive) -> bool
        ensures { (project : Project) → IsSymbolTable project self.now → project.script ≡ script.now → result
            ≡ in_force project command.now }
    {
        match command {
            Directive::Provide(assignment) => {
                is_provided(self.case_named(script, assignment.name.as_bytes()))
            }
            Directive::Assign(_) | Directive::Assert(_) => false,
        }
    }

    /// Adds the number of a command, if it is a PROVIDE that is in force.
    fn add_if_in_force(
        &self,
        script: &Script,
        number: usize,
        command: &Directive,
        list: &mut Vec<DirectiveIndex>,
    ) -> Result<(), NoMemory>
        ensures { OnOk result ((project : Project) → IsSymbolTable project self.now → project.script ≡ script.now
            → AddsIfInForce project number command.now list.old.items list.new.items) }
    {
        if !self.is_in_force(script, command) {
            return Ok(());
        }
        match u32::try_from(number) {
            Ok(number) => {
                vec::push(list, DirectiveIndex(number))?;
                Ok(())
            }
            // No script has 2^32 statements
            Err(_) => Err(impossible()),
        }
    }

    /// The PROVIDEs that are in force, in the order of the text. Their names are hashed and looked up.
    ///
    /// # Errors
    ///
    /// If memory runs out, or if the script has more than 2^32 commands, which no script that was read has.
    pub fn provided(&self, alloc: Global, script: &Script) -> Result<Vec<DirectiveIndex>, NoMemory>
        ensures { IfOk result (λ list. (project : Project) → IsSymbolTable project self.now → project.script
            ≡ script.now
            → map (λ (k : DirectiveIndex). name_given_by project.script k.0) list.items ≡ provided project) }
    {
        let commands = script.all_directives(alloc)?;
        let mut list = Vec::new(alloc);
        for (number, at) in commands.iter().enumerate() {
            self.add_if_in_force(script, number, at.command, &mut list)?;
        }
        Ok(list)
    }
}
