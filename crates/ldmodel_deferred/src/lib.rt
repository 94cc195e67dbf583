//! The definition of a deferred session (`specs`): edits are accepted or refused without a link, `link` links the
//! project of that moment, and `changes` answers what has changed in the image.
//!
//! - `linker`: the trait of linkers that link when they are asked;
//! - `changes`: ranges of an image;
//! - `law`: laws of deferred streams, among them that with `link` after each edit there are the links of a stream
//!   without the option.
#![tactic(auto)]

pub mod changes;
pub mod law;
pub mod linker;
