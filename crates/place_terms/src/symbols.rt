//! The symbols that a script has given values so far.

ghost use Rattle.std.specs.Prelude.{◌≡◌, [], ◌∷◌, ◌++◌, length, take, IfOk, IfSome, OnOk, Some};
ghost use Rattle.place_terms.specs.LayoutSymbols.{named, risen, value_of, value_under, AreFound, ComesAfter, IsFound, Rises};
ghost use Rattle.place_terms.specs.Tables.{symbol_number};

use crate::directives_by_name::DirectivesByName;
use crate::previous_layout::first;
use growth::{NoMemory, impossible, vec};
use ldmodel::script_symbol::{DirectiveIndex, ScriptSymbol};
use ldscript::Script;
use std::alloc::Global;
use std::marker::Model;

/// The symbols that a script has given values so far, in the order of the text, under the numbers of the commands that
/// give them. A look-up takes the time of one among the script's commands, and of one among these.
#[derive(Drop)]
pub struct AssignedSymbols<'a> {
    commands: DirectivesByName<'a>,
    list: Vec<ScriptSymbol>,
    /// The number of the command after the one that gave a symbol its value last.
    next: usize,
}

impl<'a> Model for AssignedSymbols<'a> {
    ghost use Rattle.place_terms.specs.LayoutSymbols.{Numbered};
    ghost use Rattle.std.specs.Coded.{codes};
    ghost use Rattle.ldscript.specs.statements.contracts.formula.Formula as formula;

    ghost Value = { Numbered };

    ghost coded = { Prim.hlevel (codes, formula.the_row.coded) };

    ghost use Rattle.place_terms.specs.LayoutSymbols.{AreInTurn};

    ghost view = { λ s. record { script = s.commands; list = s.list.items } };

    ghost invariant = { λ s. AreInTurn (record { script = s.commands; list = s.list.items }) s.next };
}

/// The value of the symbol that the command of a number gives. The place of that number is looked at first: a symbol is
/// there, as long as each command gives one.
fn value_given(list: &[ScriptSymbol], number: usize) -> Option<u64>
    requires { Rises list.now }
    ensures { result ≡ value_under list.now number }
{
    if let Some(symbol) = list.get(number) {
        if symbol.command.0 as usize == number {
            return Some(symbol.value);
        }
    }
    match list.binary_search_by_key(&number, |symbol| symbol.command.0 as usize) {
        Ok(place) => Some(list[place].value),
        Err(_) => None,
    }
}

/// The number of the command after the one that gives the last of these symbols, or 0 for no symbols.
fn after_last(symbols: &[ScriptSymbol]) -> usize
    requires { Rises symbols.now }
    ensures { risen 0 symbols.now ≡ Some result }
{
    match symbols.last() {
        Some(symbol) => symbol.command.0 as usize + 1,
        None => 0,
    }
}

impl<'a> AssignedSymbols<'a> {
    /// No symbol of this script, and room in the list for all.
    pub fn new(alloc: Global, script: &'a Script) -> Result<AssignedSymbols<'a>, NoMemory>
        ensures script { IfOk result (λ s. s.script ≡ script.now) }
        ensures none { IfOk result (λ s. s.list ≡ []) }
    {
        let commands = DirectivesByName::new(alloc, script)?;
        let list = vec::with_capacity(alloc, commands.listed())?;
        Ok(AssignedSymbols {
            commands,
            list,
            next: 0,
        })
    }

    /// Like `new`, for a layout whose first `count` symbols are taken over: few will be looked up.
    pub fn taken_over(
        alloc: Global,
        script: &'a Script,
        count: usize,
    ) -> Result<AssignedSymbols<'a>, NoMemory>
        ensures script { IfOk result (λ s. s.script ≡ script.now) }
        ensures none { IfOk result (λ s. s.list ≡ []) }
    {
        let commands = DirectivesByName::unlisted(alloc, script)?;
        let list = vec::with_capacity(alloc, count)?;
        Ok(AssignedSymbols {
            commands,
            list,
            next: 0,
        })
    }

    /// How many symbols there are.
    pub fn len(&self) -> usize
        ensures { result ≡ length self.now.list }
    {
        self.list.len()
    }

    /// All symbols, in the order of the text.
    pub fn into_list(self) -> Vec<ScriptSymbol>
        ensures list { result.items ≡ self.entry.list }
        ensures found { AreFound self.entry.script result.items }
        ensures rises { Rises result.items }
    {
        self.list
    }

    /// The value of a symbol.
    pub fn value(&self, name: &[u8]) -> Option<u64>
        ensures { result ≡ value_of (named self.now) name.now }
    {
        let number = self.commands.number(name)?;
        value_given(&self.list, number)
    }

    /// The number of the command that gives a symbol its value, if it comes after those of all symbols so far.
    fn next_number(&self, name: &[u8]) -> Option<DirectiveIndex>
        ensures is { IfSome result (λ k. symbol_number self.now.script name.now ≡ Some k.0) }
        ensures after { IfSome result (λ k. ComesAfter self.now.list k.0) }
    {
        let number = self.commands.number_or(self.next, name)?;
        if number < self.next {
            return None;
        }
        match u32::try_from(number) {
            Ok(number) => Some(DirectiveIndex(number)),
            Err(_) => None,
        }
    }

    /// Adds a symbol. Fails if memory runs out.
    fn push(&mut self, symbol: ScriptSymbol) -> Result<(), NoMemory>
        requires found { IsFound self.now.script symbol }
        requires after { ComesAfter self.now.list symbol.command.0 }
        ensures script { self.new.script ≡ self.old.script }
        ensures pushed { OnOk result (self.new.list ≡ self.old.list ++ symbol ∷ []) }
    {
        vec::push(&mut self.list, symbol)?;
        self.next = symbol.command.0 as usize + 1;
        Ok(())
    }

    /// Puts the first `count` of these symbols in the place of all so far.
    ///
    /// # Errors
    ///
    /// If memory runs out.
    pub fn take_over(&mut self, symbols: &[ScriptSymbol], count: usize) -> Result<(), NoMemory>
        requires found { AreFound self.now.script symbols.now }
        requires rises { Rises symbols.now }
        ensures script { self.new.script ≡ self.old.script }
        ensures taken { OnOk result (self.new.list ≡ take count symbols.now) }
    {
        let taken = first(symbols, count);
        self.list.clear();
        self.next = 0;
        vec::extend_from_slice(&mut self.list, taken)?;
        self.next = after_last(taken);
        Ok(())
    }

    /// Gives a symbol a value.
    ///
    /// # Errors
    ///
    /// If memory runs out.
    pub fn assign(&mut self, name: &[u8], value: u64) -> Result<(), NoMemory>
        ensures script { self.new.script ≡ self.old.script }
        ensures given { OnOk result (named self.new ≡ named self.old
            ++ record { name = name.now; value = value } ∷ []) }
    {
        let Some(command) = self.next_number(name) else {
            // A layout goes through the commands of its script in their order, and each of them gives a name of its own
            // a value. No contract says that of the commands so far, nor that a script has fewer than 2^32
            return Err(impossible());
        };
        self.push(ScriptSymbol { command, value })
    }
}
