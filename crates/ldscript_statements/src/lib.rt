//! The tree of a linker script, and what may not be in one. Takes statements as they are read; gives their tree, their
//! numbers, and tables of the names that a script gives.
//!
//! - `statement`, `section`, `input`, `directive`, over `formula`, `sequence`, `held`, `fill`: the tree, from the top
//!   down;
//! - `mention`, `mentions`: what is given twice or named too early; `dots`: where `.` may be used; `symbols`: what an
//!   expression names;
//! - `numbering`, `place`, `given`, `tables`, `number_table` over `name_kinds`: statements under numbers, names
//!   in tables.
#![tactic(auto)]

pub mod directive;
pub mod dots;
pub mod fill;
pub mod formula;
pub mod given;
pub mod held;
pub mod input;
mod mention;
pub mod mentions;
pub mod name_kinds;
pub mod number_table;
pub mod numbering;
pub mod place;
pub mod section;
pub mod sequence;
pub mod statement;
pub mod symbols;
pub mod tables;
