//! Links, from scratch or over a previous one. Takes a project; gives image, map, fault lines and status, or out of
//! memory; and keeps of a link without faults what the next one needs.
//!
//! - `driver` over `passes`, `context`, `pass_end`: all passes of a link, in their order, over resolved names,
//!   matches, and the previous link;
//! - `link_snapshot`: what is kept of a link; `stayed_sections` over `stayed_column`: which input sections stayed, as
//!   `emit_relocate` asks; `resume`: the first row that differs; `dirty`: objects with a symbol of another value;
//! - `in_place` over `outline`: the fast path, for a link that differs from the previous one only in the contents of
//!   one object's sections;
//! - `name_faults`: the fault lines of names; a link may end with them;
//! - `symbol_values`, `section_location`: the values of symbols, and where a section lies in memory and in the file;
//! - `from_scratch`, `output`: a link from scratch; `plain`: `Plain`, the linker that links from scratch after every
//!   edit;
//! - `from_files` over `file`, `fault`, `exit_report`: a link of files: a script and objects become a project, linked
//!   once; its exit status, and its text on standard error.
#![tactic(auto)]

mod context;
pub mod dirty;
pub mod driver;
pub mod exit_report;
pub mod fault;
pub mod file;
pub mod from_files;
mod from_scratch;
mod in_place;
pub mod link_snapshot;
pub mod name_faults;
mod outline;
pub mod output;
mod pass_end;
mod passes;
pub mod plain;
pub mod resume;
mod section_location;
mod stayed_column;
pub mod stayed_sections;
pub mod symbol_values;

// the buffer of the image: a crate that keeps links needs nothing else of `emit`
pub use emit::Canvas;
