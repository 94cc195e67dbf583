//! The symbol table of the symbols of the output.

ghost use Rattle.std.specs.Prelude.{◌≡◌, ◌++◌, [], IfOk, List, OnOk};
ghost use Rattle.std.specs.List.{cons_option};
ghost use Rattle.ldmodel.specs.Layout.{Layout};
ghost use Rattle.ldmodel.specs.Project.{Project};
ghost use Rattle.ldmodel.specs.Tail.{ValuedSymbol, table_symbols};
ghost use Rattle.symres.specs.SymbolTable.{SymbolTableState};
ghost use Rattle.emit_relocate.specs.LinkValues.{AreValues, HasFacts};
ghost use Rattle.emit.specs.Sizes.{valued};
ghost use Rattle.emit.specs.Tables.{AreTablesFor};

use emit_image::symbols::{SymbolTables, TableSymbol};
use emit_relocate::value::SymbolValue;
use emit_relocate::values::{OutputSymbol, Values};
use growth::NoMemory;
use std::alloc::Global;

/// Adds a symbol of the output to the tables, if it has a value.
#[inline(always)]
fn add_symbol(tables: &mut SymbolTables, symbol: &OutputSymbol<'_>) -> Result<(), NoMemory>
    ensures { OnOk result ((project : Project) (layout : Layout) (xs : List ValuedSymbol)
        → HasFacts project layout symbol.now → AreTablesFor project layout xs tables.old
        → AreTablesFor project layout (xs ++ cons_option (valued project symbol.now) []) tables.new) }
{
    let facts = symbol.row.facts();
    match symbol.row.value() {
        SymbolValue::NotDefined | SymbolValue::NotInOutput => Ok(()),
        SymbolValue::Number(value) => {
            tables.push(&TableSymbol {
                name: symbol.name,
                weak: symbol.row.definer().is_weak(),
                kind: facts.kind,
                section: facts.section,
                value,
                size: facts.size,
            })?;
            Ok(())
        }
    }
}

/// The symbol table and its names, of the symbols of the output that have a value.
///
/// # Errors
///
/// If memory runs out.
pub(crate) fn symbol_tables(alloc: Global, values: &Values<'_>) -> Result<SymbolTables, NoMemory>
    ensures { IfOk result (λ t. (project : Project) (layout : Layout) (table : SymbolTableState)
        → AreValues project layout table values.now
        → AreTablesFor project layout (table_symbols project layout) t) }
{
    let sizes = values.sizes;
    let mut tables = SymbolTables::with_capacity(
        alloc,
        sizes.count as usize,
        sizes.names as usize,
    )?;
    for symbol in &values.symbols {
        add_symbol(&mut tables, symbol)?;
    }
    Ok(tables)
}
