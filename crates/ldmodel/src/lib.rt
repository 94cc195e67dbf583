//! The definitions of a project, of an edit and of a link (`specs`), and the types that the layers of a link exchange.
//!
//! - `edit`, `options`, `linker`: edits, their answers and limits; options; the trait of linkers;
//! - `names`, `sections`, `rows`, `placed`, `segment`, `target`, `fault`, `script_symbol`: what layers exchange;
//! - `given`: whether a directive assigns or provides.
#![tactic(auto)]

pub mod edit;
pub mod fault;
pub mod given;
pub mod linker;
pub mod names;
pub mod options;
pub mod placed;
pub mod rows;
pub mod script_symbol;
pub mod sections;
pub mod segment;
pub mod target;

pub use elfobj::meter;
