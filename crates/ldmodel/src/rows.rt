//! Rows: the input sections of an output section, in their order.

use crate::sections::SectionRef;
use elfobj::section::SectionKind;

/// An input statement: its index among all of the script.
#[derive(Clone, Copy, Debug, PartialEq, Eq)]
pub struct InputIndex(pub u32);

/// An input section in a row: all that its address in the output follows from.
#[derive(Clone, Copy, Debug, PartialEq, Eq)]
pub struct Piece {
    /// The input statement that takes it.
    pub statement: InputIndex,
    /// Its kind; `Nobits` for a common block. It is beside the other short field, since fields lie in this order.
    pub kind: SectionKind,
    /// The input section.
    pub section: SectionRef,
    /// `sh_flags`; `SHF_ALLOC` and `SHF_WRITE` for a common block.
    pub flags: u64,
    /// How many bytes it takes in memory, at most 2^31.
    pub size: u64,
    /// The alignment: 0, which counts as 1, or a power of two.
    pub alignment: u64,
}
