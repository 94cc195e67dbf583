//! The PROVIDEs that are in force.

ghost use Rattle.std.specs.Prelude.{◌≡◌, [], IfOk, slice_get, bytes_eq};
ghost use Rattle.std.specs.List.{list_any};
ghost use Rattle.std.specs.Option.{option_map_or};
ghost use Rattle.ldscript.specs.statements.Numbered.{shown_directives};
ghost use Rattle.place_terms.specs.Mentions.{shown_names};
ghost use Rattle.place_terms.specs.ProvidedTable.{name_in, provided_names, Marks};

use crate::directives_by_name::number_in;
use growth::{NoMemory, vec};
use ldmodel::script_symbol::DirectiveIndex;
use ldscript::Script;
use ldscript::tree::{Directive, DirectiveAt};
use std::alloc::Global;
use std::marker::Model;

/// The PROVIDEs of a script that are in force. A look-up takes the time of one in the script's table of names; one of a
/// name that the script gives no value would go through all of them.
#[derive(Drop)]
pub struct Provided<'a> {
    script: &'a Script,
    numbers: &'a [DirectiveIndex],
    /// For each command of the script, whether it is one of them.
    in_force: Vec<bool>,
    /// Their names.
    names: Vec<&'a [u8]>,
}

impl<'a> Model for Provided<'a> {
    ghost use Rattle.std.specs.Prelude.{List, ℕ};

    ghost Value = { List (List ℕ) };

    ghost use Rattle.std.specs.Prelude.{◌≡◌};
    ghost use Rattle.place_terms.specs.Mentions.{shown_names};
    ghost use Rattle.place_terms.specs.ProvidedTable.{provided_names, AreInForce};

    ghost view = { λ p. provided_names p.script.now p.numbers.now };

    ghost invariant = { λ p. AreInForce p.script.now p.in_force.items (provided_names p.script.now p.numbers.now)
        × (shown_names p.names.items ≡ provided_names p.script.now p.numbers.now) };
}

/// The name that a command of these gives a value; no bytes if it gives none.
pub fn name_of<'a>(commands: &[DirectiveAt<'a>], number: DirectiveIndex) -> &'a [u8]
    ensures { result.now ≡ name_in (shown_directives commands.now) number.0 }
{
    match commands.get(number.0 as usize) {
        Some(at) => match at.command {
            Directive::Assign(assignment) | Directive::Provide(assignment) => assignment
                .name
                .as_bytes(),
            Directive::Assert(_) => b"",
        },
        None => b"",
    }
}

/// Whether a name is one of these.
fn is_among(names: &[&[u8]], name: &[u8]) -> bool
    ensures { result ≡ list_any (bytes_eq name.now) (shown_names names.now) }
{
    for other in names {
        if name == *other {
            return true;
        }
    }
    false
}

/// Notes that the PROVIDE of a name is in force.
fn mark(script: &Script, in_force: &mut Vec<bool>, name: &[u8])
    ensures { Marks script.now in_force.old.items in_force.new.items name.now }
{
    if let Some(place) = number_in(script, name) {
        if place < in_force.len() {
            in_force[place] = true;
        }
    }
}

impl<'a> Provided<'a> {
    /// The PROVIDEs of these numbers.
    pub fn new(
        alloc: Global,
        script: &'a Script,
        numbers: &'a [DirectiveIndex],
    ) -> Result<Provided<'a>, NoMemory>
        ensures { IfOk result (λ p. p ≡ provided_names script.now numbers.now) }
    {
        if numbers.is_empty() {
            return Ok(Provided {
                script,
                numbers,
                in_force: Vec::new(alloc),
                names: Vec::new(alloc),
            });
        }
        let list = script.all_directives(alloc)?;
        let mut in_force = vec::from_elem(alloc, false, list.len())?;
        let mut names = vec::with_capacity(alloc, numbers.len())?;
        for number in numbers {
            let name = name_of(&list, *number);
            mark(script, &mut in_force, name);
            vec::push(&mut names, name)?;
        }
        Ok(Provided {
            script,
            numbers,
            in_force,
            names,
        })
    }

    /// Whether the PROVIDE of a name is in force.
    pub fn is_in_force(&self, name: &[u8]) -> bool
        ensures { result ≡ list_any (bytes_eq name.now) self.now }
    {
        if self.numbers.is_empty() {
            return false;
        }
        if let Some(number) = number_in(self.script, name) {
            if number < self.in_force.len() {
                return self.in_force[number];
            }
        }
        is_among(&self.names, name)
    }
}
