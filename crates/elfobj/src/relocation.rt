//! Relocations as callers see them.

pub use elfobj_file::relocation::{Relocation, RelocationKind, SymbolIndex};
