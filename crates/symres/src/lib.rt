//! Symbol resolution: how each name is resolved over all objects and the script, and the faults of names. Takes what is
//! kept under keys; gives cases by place, PROVIDEs in force, names in byte order, and faults.
//!
//! - `symbol_table` with `changing`: what is kept, and how it follows a change; `entered`: all objects, for a link from
//!   scratch;
//! - `case_by_place`, `sorted`, `provided`: cases by place, names in order, PROVIDEs;
//! - `faults` over `duplicates`: names defined twice, and the entry symbol; `declaring`: which symbols have names;
//! - the parts `table` (the definition of each name) and `decisions` (kept while objects change). Other families name
//!   this crate alone.
#![tactic(auto)]

mod case_by_place;
mod changing;
pub mod declaring;
mod duplicates;
mod entered;
mod faults;
mod provided;
pub mod sorted;
pub mod symbol_table;

pub use crate::symbol_table::SymbolTable;
pub use ldmodel::names::{Case, Entry};
pub use symres_decisions as decisions;
pub use symres_table as table;
pub use symres_table::names::{Decision, Names};
