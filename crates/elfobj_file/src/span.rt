//! A range of a file or of a list.

/// A range of a file or of a list.
#[derive(Clone, Copy, Debug, PartialEq, Eq)]
pub struct Span {
    /// Where it begins.
    pub start: usize,
    /// Where it ends.
    pub end: usize,
}

/// An empty range.
pub const EMPTY_SPAN: Span = Span { start: 0, end: 0 };
