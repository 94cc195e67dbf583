//! The value that a symbol has in the output.

ghost use Rattle.std.specs.Prelude.{◌≡◌};
ghost use Rattle.ldmodel.specs.Assertions.{number_if_any};
ghost use Rattle.ldmodel.specs.SymbolValues.{number_or_0};
ghost use Rattle.ldmodel.specs.Targets.{or_weak};
ghost use Rattle.emit_relocate.specs.Values.{address_from, value_of};

/// The value of a symbol.
#[derive(Clone, Copy, Debug, PartialEq, Eq)]
pub enum SymbolValue {
    /// A number: an address, modulo 2^64, or the number that the symbol was given.
    Number(u64),
    /// Nothing defines the symbol.
    NotDefined,
    /// The symbol's section is not in the output.
    NotInOutput,
}

impl SymbolValue {
    /// The number, or 0 if there is none.
    pub fn number_or_0(self) -> u64
        ensures { result ≡ number_or_0 (value_of self) }
    {
        match self {
            SymbolValue::Number(value) => value,
            SymbolValue::NotDefined | SymbolValue::NotInOutput => 0,
        }
    }

    /// The number, if there is one.
    pub fn number(self) -> Option<u64>
        ensures { result ≡ number_if_any (value_of self) }
    {
        match self {
            SymbolValue::Number(value) => Some(value),
            SymbolValue::NotDefined | SymbolValue::NotInOutput => None,
        }
    }

    /// This value as a reference sees it. To one that is `weak` what nothing defines counts as 0 (gABI, "Symbol Table",
    /// `STB_WEAK`).
    pub fn or_weak(self, weak: bool) -> SymbolValue
        ensures { value_of result ≡ or_weak weak (value_of self) }
    {
        match self {
            SymbolValue::NotDefined if weak => SymbolValue::Number(0),
            value => value,
        }
    }
}

/// The address at an offset from where an input section starts, if it is in the output.
pub fn address_from(start: Option<u64>, offset: u64) -> SymbolValue
    ensures { value_of result ≡ address_from start offset }
{
    match start {
        None => SymbolValue::NotInOutput,
        Some(start) => SymbolValue::Number(start.wrapping_add(offset)),
    }
}
