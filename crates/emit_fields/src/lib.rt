//! What the image is made of: relocation fields, the canvas that it is written on, and runs of bytes between input
//! sections. Takes a relocation, the value of its symbol and its address; gives the field's bytes, or an overflow.
//!
//! - `field`: fields, and the evaluation of a relocation (`field::evaluate`); `patch`: fields at their offsets in a
//!   piece;
//! - `canvas`: a list of bytes with room for more; `run`: runs of a pattern.
#![tactic(auto)]

pub mod canvas;
pub mod field;
pub mod patch;
pub mod run;
