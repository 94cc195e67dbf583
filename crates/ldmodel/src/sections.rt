//! Input sections: what a link places.

use crate::names::ObjectPlace;
use elfobj::relocation::SymbolIndex;
use elfobj::section::SectionIndex;

/// An input section within its object.
#[derive(Clone, Copy, Debug, PartialEq, Eq)]
pub enum Part {
    /// The section with this header number.
    InTable(SectionIndex),
    /// The common block of this entry of the symbol table.
    InCommon(SymbolIndex),
}

/// An input section: an object, and which part of it.
#[derive(Clone, Copy, Debug, PartialEq, Eq)]
pub struct SectionRef {
    /// The object.
    pub object: ObjectPlace,
    /// The part of the object.
    pub part: Part,
}
