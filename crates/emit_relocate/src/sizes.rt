//! The sizes of the symbol table of the output and of its names, which are known before the tables are written.

ghost use Rattle.std.specs.Prelude.{◌≡◌, ◌+◌, ◌≤◌, IfOk, drop, length};
ghost use Rattle.emit_relocate.specs.Sizes.{plus_symbol, plus_symbols};

use crate::value::SymbolValue;
use crate::values::OutputSymbol;
use growth::{NoMemory, impossible};

/// The number of symbols that have a value, and of bytes of their names, each with a zero byte after it.
#[derive(Clone, Copy, Debug)]
pub struct SymbolSizes {
    /// The number of symbols.
    pub count: u64,
    /// The number of bytes of their names.
    pub names: u64,
}

/// The sizes of no symbols.
pub(crate) const NO_SYMBOLS: SymbolSizes = SymbolSizes { count: 0, names: 0 };

/// The sum of two sizes of names.
///
/// # Errors
///
/// If it is 2^64 or more: no memory holds that many bytes.
pub fn plus(size: u64, more: u64) -> Result<u64, NoMemory>
    ensures { IfOk result (λ n. n ≡ size + more) }
{
    size.checked_add(more).ok_or(impossible())
}

/// One more symbol.
fn plus_symbol(sizes: SymbolSizes, symbol: &OutputSymbol<'_>) -> Result<SymbolSizes, NoMemory>
    ensures { IfOk result (λ t. t ≡ plus_symbol sizes symbol.now) }
{
    match symbol.row.value() {
        SymbolValue::Number(_) => {
            let names = plus(sizes.names, symbol.name.len() as u64 + 1)?;
            let count = plus(sizes.count, 1)?;
            Ok(SymbolSizes { count, names })
        }
        SymbolValue::NotDefined | SymbolValue::NotInOutput => Ok(sizes),
    }
}

/// One more symbol, if there is one at this place.
#[inline(always)]
pub(crate) fn plus_last(
    sizes: SymbolSizes,
    symbols: &[OutputSymbol<'_>],
    place: usize,
) -> Result<SymbolSizes, NoMemory>
    requires { length symbols.now ≤ place + 1 }
    ensures { IfOk result (λ t. t ≡ plus_symbols sizes (drop place symbols.now)) }
{
    match symbols.get(place) {
        None => Ok(sizes),
        Some(symbol) => plus_symbol(sizes, symbol),
    }
}
