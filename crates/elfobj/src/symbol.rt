//! Symbols as callers see them.

pub use elfobj_file::symbol::{Binding, Symbol, SymbolKind, SymbolPlace};
