//! What the value of a relocation's symbol depends on.

use crate::names::{NameKey, ObjectPlace};
use elfobj::section::SectionIndex;

/// What the value of a relocation's symbol depends on. If a target has the same number in two links, all relocations
/// against it have the same fields.
#[derive(Clone, Copy, Debug, PartialEq, Eq)]
pub enum Target {
    /// A name: its number is its value, 0 if nothing defines it.
    Name(NameKey),
    /// A section of an object, for a local symbol in it: its number is where the section starts.
    Section(ObjectPlace, SectionIndex),
    /// Nothing: a local absolute symbol, or symbol number 0.
    Fixed,
}
