//! Ranges of an image.

/// A range of bytes in an image.
#[derive(Clone, Copy, Debug, PartialEq, Eq)]
pub struct ByteRange {
    /// Where it begins.
    pub offset: usize,
    /// The number of its bytes.
    pub count: usize,
}
