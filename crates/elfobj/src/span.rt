//! Ranges of the bytes of an object.

pub use elfobj_file::span::Span;
