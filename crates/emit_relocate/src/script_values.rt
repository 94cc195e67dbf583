//! The values that a script gives names, by name.

ghost use Rattle.std.specs.Prelude.{◌≡◌, ◌∷◌, ◌++◌, [], List, IfOk, length};
ghost use Rattle.ldscript.specs.statements.Numbering.{all_directives};
ghost use Rattle.ldscript.specs.statements.declared.statement.Statement.{Statement};
ghost use Rattle.ldmodel.specs.Layout as layout;
ghost use Rattle.ldmodel.specs.PlacementView.{given_name, symbol_of};
ghost use Rattle.place.specs.sections.Places.{AreOf};
ghost use Rattle.place.specs.terms.LayoutSymbols.{AreValuesOf, IsFound};
ghost use Rattle.emit_relocate.specs.ScriptValues.{AreScriptValues, value_in};

use growth::{NoMemory, vec};
use ldmodel::script_symbol::ScriptSymbol;
use ldscript::Script;
use ldscript::tree::Directive;
use place::Placement;
use place::terms::directives_by_name::number_in;
use std::alloc::Global;

/// The values that a script gives names, under the numbers of its commands.
#[derive(Drop)]
pub(crate) struct ScriptValues<'a> {
    pub(crate) script: &'a Script,
    values: Vec<Option<u64>>,
}

/// The name that a command gives a value to; no bytes where it gives none.
pub(crate) fn given_name(command: &Directive) -> &[u8]
    ensures { result.now ≡ given_name command.now }
{
    match command {
        Directive::Assign(assignment) | Directive::Provide(assignment) => assignment
            .name
            .as_bytes(),
        Directive::Assert(_) => &[],
    }
}

/// Notes the value of a symbol under the number of its command. The first value of a symbol counts.
fn note_value(symbol: ScriptSymbol, values: &mut Vec<Option<u64>>)
    ensures long { length values.new.items ≡ length values.old.items }
    ensures noted { (script : List Statement) (xs : List layout.ScriptSymbol) → IsFound script symbol
        → length values.old.items ≡ length (all_directives script) → AreValuesOf script values.old.items xs
        → AreValuesOf script values.new.items (xs ++ symbol_of script symbol ∷ []) }
{
    let number = symbol.command.0 as usize;
    if number < values.len() && values[number].is_none() {
        values[number] = Some(symbol.value);
    }
}

impl<'a> ScriptValues<'a> {
    /// The values of the names of a layout of this script.
    ///
    /// # Errors
    ///
    /// If memory runs out.
    pub fn of(
        alloc: Global,
        script: &'a Script,
        placement: &Placement,
    ) -> Result<ScriptValues<'a>, NoMemory>
        ensures { IfOk result (λ values. (placed : layout.Layout) → AreOf script.now placed placement.now
            → AreScriptValues placed values) }
    {
        let commands = script.all_directives(alloc)?;
        let mut values = vec::from_elem(alloc, None, commands.len())?;
        for symbol in placement.symbols() {
            note_value(*symbol, &mut values);
        }
        Ok(ScriptValues { script, values })
    }

    /// The value that the script gives a name, if it gives one. The time is logarithmic in the number of names.
    pub fn value(&self, name: &[u8]) -> Option<u64>
        ensures { result ≡ value_in self.now name.now }
    {
        let number = number_in(self.script, name)?;
        *self.values.get(number)?
    }
}
