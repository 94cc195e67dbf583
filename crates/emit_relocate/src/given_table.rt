//! The values that a script gives names, under the keys of the names.

ghost use Rattle.std.specs.Prelude.{◌≡◌, IfOk, None, replicate};
ghost use Rattle.emit_relocate.specs.GivenTable.{HasPlaces, IsGivenTable, IsPut};
ghost use Rattle.emit_relocate.specs.ScriptValues.{value_in};

use crate::script_values::{ScriptValues, given_name};
use growth::{NoMemory, vec};
use std::alloc::Global;
use symres::SymbolTable;

/// A table of no values.
fn no_values(alloc: Global, count: usize) -> Result<Vec<Option<u64>>, NoMemory>
    ensures { IfOk result (λ v. v.items ≡ replicate count None) }
{
    vec::from_elem(alloc, None, count)
}

/// Puts a value under the key of a name, if the name has one.
fn put_given(
    symbol_table: &SymbolTable,
    name: &[u8],
    value: Option<u64>,
    table: &mut Vec<Option<u64>>,
)
    requires { HasPlaces symbol_table.now table.old.items }
    ensures { IsPut symbol_table.now name.now value table.old.items table.new.items }
{
    // for the prover: brings in this law
    symbol_table.keys_decided();
    match symbol_table.key_named(name) {
        Some(key) => table[key.0] = value,
        None => {}
    }
}

/// The table of all names. Only the names that commands of the script give a value are looked up.
///
/// # Errors
///
/// If memory runs out.
pub(crate) fn given_table(
    alloc: Global,
    symbol_table: &SymbolTable,
    values: &ScriptValues<'_>,
) -> Result<Vec<Option<u64>>, NoMemory>
    ensures { IfOk result (λ table. IsGivenTable symbol_table.now (value_in values.now) table.items) }
{
    // for the prover: brings in this law
    symbol_table.keys_decided();
    let commands = values.script.all_directives(alloc)?;
    let mut table = no_values(alloc, symbol_table.limit())?;
    for at in &commands {
        let name = given_name(at.command);
        put_given(symbol_table, name, values.value(name), &mut table);
    }
    Ok(table)
}
