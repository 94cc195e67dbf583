//! Where a layout may be resumed.

use crate::placement::Placement;

/// A previous placement of the same script, and how far its rows are those of the layout to be made.
#[derive(Clone, Copy)]
pub struct ResumePoint<'p> {
    /// The previous placement.
    pub placement: &'p Placement,
    /// The number of the first row that differs: those before it are rows of that placement.
    pub first_row: usize,
}
