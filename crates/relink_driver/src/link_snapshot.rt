//! What is kept of a link without faults.

use crate::symbol_values::SymbolValues;
use place::indexed_layout::IndexedLayout;

/// What the next link needs of a link without faults. Objects have the places that they had in this link.
#[derive(Drop)]
pub struct LinkSnapshot {
    /// Its rows, its layout, and the address of each input section.
    pub indexed_layout: IndexedLayout,
    /// The value of each symbol of each object.
    pub symbols: SymbolValues,
}
