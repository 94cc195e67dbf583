//! Symbols of entered objects, by the numbers of their names.

ghost use Rattle.std.specs.Prelude.{◌≡◌, not};
ghost use Rattle.ldmodel.specs.Names.{is_local};

use elfobj::symbol::{Binding, Symbol};
use ldmodel::names::{Entry, ObjectKey};

/// An entry of the symbol table of an object.
#[derive(Clone, Copy, Debug, PartialEq, Eq)]
pub struct Numbered {
    /// The number of its name. A local symbol has none: nothing reads it.
    pub name: usize,
    /// Its number in the table.
    pub number: u32,
    /// What the table says of it.
    pub symbol: Symbol,
}

/// What a symbol that isn't local says of its name.
#[derive(Clone, Copy, Debug, PartialEq, Eq)]
pub struct Declared {
    /// The key of its object, and its number there.
    pub entry: Entry<ObjectKey>,
    /// What the symbol table says of it.
    pub symbol: Symbol,
}

/// Whether other objects see a symbol.
pub fn is_visible(symbol: &Symbol) -> bool
    ensures { result ≡ not (is_local symbol.now.binding) }
{
    match symbol.binding {
        Binding::Local => false,
        Binding::Global | Binding::Weak => true,
    }
}
