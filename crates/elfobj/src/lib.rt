//! The object reader: relocatable ELF-64 objects for x86-64. Takes the bytes of a file; gives an `Object`, which lends
//! slices of them, or the bytes and the lowest refusal whose condition holds.
//!
//! - `object`: reading, and what a caller gets; `section`, `symbol`, `relocation`, `refusal`: its types;
//! - `symbols`, `ordered_table`: one pass tests and reads a table of symbols, or relocations in the order of their
//!   offsets, and gives up if a test fails;
//! - `section_table`, `symbol_table`, `relocation_table`: the tests of all headers and entries, in their order;
//! - `relocation_fault` over `entry_test`: the tests of entries, before any is kept;
//! - `field_marks`: whether fields share a byte;
//! - `field`, `relocation_run`, `linked`, `part_spans`, `span`: what an object keeps of its sections and relocations;
//! - `meter`: the counts of work, for all crates;
//! - the part `file`: the tables and entries of a file. Other families name this crate alone.
#![tactic(auto)]

mod entry_test;
pub mod field;
mod field_marks;
mod linked;
pub mod meter;
pub mod object;
mod ordered_table;
mod part_spans;
pub mod refusal;
pub mod relocation;
mod relocation_fault;
mod relocation_run;
mod relocation_table;
pub mod section;
mod section_table;
pub mod span;
pub mod symbol;
mod symbol_table;
mod symbols;

pub use crate::meter::{Count, Meter};
pub use crate::object::Object;
pub use crate::refusal::ObjectRefusal;
pub use crate::relocation::Relocation;
pub use crate::section::Section;
pub use crate::symbol::Symbol;
pub use elfobj_file as file;
