//! The place of an input statement.

/// The place of an input statement.
#[derive(Clone, Copy, Debug, PartialEq, Eq)]
pub enum InputPlace {
    /// In the output section with this number.
    InSection(usize),
    /// In `/DISCARD/`.
    InDiscard,
}
