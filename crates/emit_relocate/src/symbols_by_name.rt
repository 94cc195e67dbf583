//! The symbols of the output, found by their names.

ghost use Rattle.std.specs.Prelude.{◌≡◌, option_copied};
ghost use Rattle.emit_relocate.specs.AssertedSymbols.{AreInOrder, found_symbol, value_found};
ghost use Rattle.emit_relocate.specs.Values.{value_of};

use crate::value::SymbolValue;
use crate::values::OutputSymbol;

/// The symbols of the output, in byte order of their names.
#[derive(Clone, Copy)]
pub struct SymbolsByName<'a, 'b> {
    list: &'a [OutputSymbol<'b>],
    ghost ordered: { AreInOrder list.now },
}

impl<'a, 'b> SymbolsByName<'a, 'b> {
    /// These symbols, which are in byte order of their names.
    pub fn of(list: &'a [OutputSymbol<'b>]) -> SymbolsByName<'a, 'b>
        requires { AreInOrder list.now }
        ensures { result.list.now ≡ list.now }
    {
        SymbolsByName { list }
    }

    /// The symbol of a name. The time is logarithmic.
    pub fn find(&self, name: &[u8]) -> Option<&'a OutputSymbol<'b>>
        ensures { option_copied result ≡ found_symbol self.now.list.now name.now }
    {
        let symbols = self.list;
        let first = symbols.partition_point(|symbol| symbol.name < name);
        let symbol = symbols.get(first)?;
        if symbol.name == name {
            Some(symbol)
        } else {
            None
        }
    }

    /// The value of a name: one without a symbol has none.
    pub fn value(&self, name: &[u8]) -> SymbolValue
        ensures { value_of result ≡ value_found (found_symbol self.now.list.now name.now) }
    {
        match self.find(name) {
            Some(symbol) => symbol.row.value(),
            None => SymbolValue::NotDefined,
        }
    }
}
