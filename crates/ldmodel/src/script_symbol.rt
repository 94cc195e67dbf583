//! Symbols that the script gives values.

/// A directive, which is an assignment of a symbol, a PROVIDE or an ASSERT: its index among all of them, in the order
/// of the text.
#[derive(Clone, Copy, Debug, PartialEq, Eq)]
pub struct DirectiveIndex(pub u32);

/// A symbol that the script gives a value.
#[derive(Clone, Copy, Debug, PartialEq, Eq)]
pub struct ScriptSymbol {
    /// The assignment, or the PROVIDE in force, that defines it.
    pub command: DirectiveIndex,
    /// The value of the symbol.
    pub value: u64,
}
