//! The commands of a script that give symbols values.

ghost use Rattle.std.specs.Prelude.{◌≡◌, IfOk};
ghost use Rattle.ldscript.specs.statements.Numbered.{shown_directives};
ghost use Rattle.place_terms.specs.Numbers.{gives_at, symbol_number};

use crate::guesses::Guesses;
use growth::NoMemory;
use ldscript::Script;
use ldscript::tree::{Directive, DirectiveAt, Given};
use std::alloc::Global;
use std::marker::Model;

/// The directives of a script, found by the names of the symbols that they give values. A look-up compares the
/// name with that of the command that is guessed for it; if the guess is wrong it takes the time of a look-up in the
/// script's table.
#[derive(Drop)]
pub struct DirectivesByName<'a> {
    script: &'a Script,
    list: Vec<DirectiveAt<'a>>,
    guesses: Guesses,
}

impl<'a> Model for DirectivesByName<'a> {
    ghost use Rattle.std.specs.Prelude.{List};
    ghost use Rattle.ldscript.specs.statements.declared.statement.Statement.{Statement};
    ghost use Rattle.std.specs.Coded.{codes};
    ghost use Rattle.ldscript.specs.statements.contracts.formula.Formula as formula;

    ghost Value = { List Statement };

    ghost coded = { Prim.hlevel (codes, formula.the_row.coded) };

    ghost use Rattle.place_terms.specs.Numbers.{AreNumbered};
    ghost use Rattle.ldscript.specs.statements.Numbered.{shown_directives};

    ghost view = { λ c. c.script.now };

    ghost invariant = { λ c. AreNumbered c.script.now (shown_directives c.list.items) };
}

/// Whether the command of this number gives the symbol of this name its value.
fn gives(commands: &[DirectiveAt<'_>], number: usize, name: &[u8]) -> bool
    ensures { result ≡ gives_at (shown_directives commands.now) number name.now }
{
    match commands.get(number) {
        Some(at) => match at.command {
            Directive::Assign(a) | Directive::Provide(a) => name == a.name.as_bytes(),
            Directive::Assert(_) => false,
        },
        None => false,
    }
}

/// The number of the command that gives a symbol its value, by the script's table: for callers that ask seldom.
pub fn number_in(script: &Script, name: &[u8]) -> Option<usize>
    ensures { result ≡ symbol_number script.now name.now }
{
    match script.given(name) {
        Some(Given::Assigned(number)) | Some(Given::Provided(number)) => Some(number),
        None => None,
    }
}

/// The name that a command gives a value, if it gives one.
fn symbol_of(command: &Directive) -> Option<&[u8]> {
    match command {
        Directive::Assign(a) | Directive::Provide(a) => Some(a.name.as_bytes()),
        Directive::Assert(_) => None,
    }
}

/// Guesses at the numbers of the names that these commands give values.
fn guesses_of(alloc: Global, commands: &[DirectiveAt<'_>]) -> Result<Guesses, NoMemory> {
    let mut guesses = Guesses::new(alloc, commands.len())?;
    for number in 0..commands.len() {
        if let Some(name) = symbol_of(commands[number].command) {
            guesses.put(name, number);
        }
    }
    Ok(guesses)
}

impl<'a> DirectivesByName<'a> {
    /// The commands of a script, with a list of them and a guess at each name: for callers that ask often.
    #[tactic(auto, using(crate::proofs::GivenOnce::all_numbered))]
    pub fn new(alloc: Global, script: &'a Script) -> Result<DirectivesByName<'a>, NoMemory>
        ensures { IfOk result (λ c. c ≡ script.now) }
    {
        // for the prover: brings in the invariant of `script`
        let _statements = script.statements();
        let list = script.all_directives(alloc)?;
        let guesses = guesses_of(alloc, &list)?;
        Ok(DirectivesByName {
            script,
            list,
            guesses,
        })
    }

    /// The commands of a script, without a list or guesses, so that each look-up is one in the script's table: for
    /// callers that ask seldom.
    pub fn unlisted(alloc: Global, script: &'a Script) -> Result<DirectivesByName<'a>, NoMemory>
        ensures { IfOk result (λ c. c ≡ script.now) }
    {
        let guesses = Guesses::new(alloc, 0)?;
        Ok(DirectivesByName {
            script,
            list: Vec::new(alloc),
            guesses,
        })
    }

    /// How many commands are in the list: all commands of the script, or none.
    pub fn listed(&self) -> usize {
        self.list.len()
    }

    /// The number of the command that gives a symbol its value.
    pub fn number(&self, name: &[u8]) -> Option<usize>
        ensures { result ≡ symbol_number self.now name.now }
    {
        if let Some(number) = self.guesses.number(name) {
            if gives(&self.list, number, name) {
                return Some(number);
            }
        }
        number_in(self.script, name)
    }

    /// Like `number`, but this number is looked at first: for callers that go through the commands in order, and know
    /// the next.
    pub fn number_or(&self, next: usize, name: &[u8]) -> Option<usize>
        ensures { result ≡ symbol_number self.now name.now }
    {
        if gives(&self.list, next, name) {
            return Some(next);
        }
        self.number(name)
    }
}
