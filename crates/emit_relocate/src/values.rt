//! The values of names and of the entry symbol, and the symbols of the output.

ghost use Rattle.std.specs.Prelude.{◌≡◌, IfOk};
ghost use Rattle.ldmodel.specs.Layout.{Layout};
ghost use Rattle.symres.specs.SymbolTable.{IsSymbolTable};
ghost use Rattle.symres.specs.Sorted.{AreSorted};
ghost use Rattle.ldmodel.specs.SymbolValues.{entry_point};
ghost use Rattle.emit_relocate.specs.Values.{value_of};
ghost use Rattle.emit_relocate.specs.AssertedSymbols.{AreInOrder};
ghost use Rattle.emit_relocate.specs.LinkView.{IsLinkView, known_link};
ghost use Rattle.emit_relocate.specs.ScriptValues.{AreScriptValues};

use crate::given::GivenValues;
use crate::link_view::LinkView;
use crate::name_rows::{NameRows, name_rows};
use crate::script_names::script_names;
use crate::sizes::SymbolSizes;
use crate::symbol_row::SymbolRow;
use crate::symbols::{Sources, add_symbols};
use crate::symbols_by_name::SymbolsByName;
use crate::value::SymbolValue;
use growth::{NoMemory, vec};
use ldmodel_project::view::ProjectView;
use std::alloc::Global;
use symres::SymbolTable;

/// A symbol of the output: a defined name.
#[derive(Clone, Copy, Debug)]
pub struct OutputSymbol<'a> {
    /// The name.
    pub name: &'a [u8],
    /// What it is.
    pub row: SymbolRow,
}

/// The values of the names of a link, and the symbols of its output.
#[derive(Drop)]
pub struct Values<'a> {
    /// The values of all names under their keys.
    pub names: Vec<SymbolValue>,
    /// The value of the entry symbol: 0 if there is none.
    pub entry: SymbolValue,
    /// The symbols of the output, in byte order of their names.
    pub symbols: Vec<OutputSymbol<'a>>,
    /// The sizes of those that have a value.
    pub sizes: SymbolSizes,
    ghost ordered: { AreInOrder symbols.items },
}

impl<'a> Values<'a> {
    ghost use Rattle.std.specs.Prelude.{map};
    ghost use Rattle.ldmodel.specs.OutputSymbols.{output_symbols};
    ghost use Rattle.emit_relocate.specs.LinkValues.{AreValues, shown_symbol};

    /// The value of the entry symbol among the symbols of the output; 0 if there is none.
    fn entry_value(project: &ProjectView<'_>, symbols: SymbolsByName<'_, '_>) -> SymbolValue
        ensures { (layout : Layout)
            → map (shown_symbol project.now) symbols.entry.list.now ≡ output_symbols project.now layout
            → value_of result ≡ entry_point project.now layout }
    {
        match project.entry_symbol() {
            None => SymbolValue::Number(0),
            Some(name) => symbols.value(name),
        }
    }

    /// The values of the symbols of a link. The names that the script alone gives, and the entry symbol, are looked up.
    ///
    /// # Errors
    ///
    /// If memory runs out.
    pub fn of(
        alloc: Global,
        project: &'a ProjectView<'_>,
        symbol_table: &'a SymbolTable,
        link: &LinkView<'_, '_>,
        given: &GivenValues<'a>,
    ) -> Result<Values<'a>, NoMemory>
        requires symbol_table { IsSymbolTable project.now symbol_table.now }
        requires sorted { AreSorted symbol_table.now given.now.sorted.items }
        ensures { IfOk result (λ values. (layout : Layout) → AreScriptValues layout given.now.values
            → IsLinkView (known_link project.now layout symbol_table.now) link.now
            → AreValues project.now layout symbol_table.now values) }
    {
        let script = project.script();
        let names = script_names(alloc, script)?;
        // allocated before the rows: the symbols are kept, and the rows are freed
        let count = given.sorted.len().saturating_add(names.len());
        let mut symbols = vec::with_capacity(alloc, count)?;
        let NameRows { rows, values } = name_rows(alloc, link)?;
        let sources = Sources {
            script,
            symbol_table,
            rows: &rows,
            given: &given.values,
        };
        let sizes = add_symbols(&sources, &given.sorted, &names, &mut symbols)?;
        let entry = Values::entry_value(project, SymbolsByName::of(&symbols));
        Ok(Values {
            names: values,
            entry,
            symbols,
            sizes,
        })
    }
}
