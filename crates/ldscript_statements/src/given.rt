//! How a script defines a symbol.

/// The directive that defines a symbol, by its number among those of the script.
#[derive(Clone, Copy, Debug, PartialEq, Eq)]
pub enum Given {
    /// `NAME = e`
    Assigned(usize),
    /// `PROVIDE(NAME = e)`
    Provided(usize),
}
