//! Input sections with their addresses.

use crate::indexed_layout::SectionAddress;
use ldmodel::sections::Part;

/// An input section and its address.
#[derive(Clone, Copy)]
pub(crate) struct IndexedSection {
    /// The number of its object.
    pub(crate) object: usize,
    /// Which part of the object it is.
    pub(crate) part: Part,
    /// Its address.
    pub(crate) address: SectionAddress,
}
