//! The values of a script's expressions, and what a layout keeps under the numbers that a script gives its names. Takes
//! trees and what is in scope; gives numbers or faults, and tables that find what was put into them.
//!
//! - `value` over `scope` and `operator`: the value of an expression; `mentioned`: the names in it;
//! - `directives_by_name` over `guesses` and `named`: the numbers of names; `output_number`: those of output sections;
//! - `symbols`, `provided`, `sections` over `previous_layout`, `regions`: symbols' values, PROVIDEs in force, output
//!   sections, memory regions; `pieces`, `wholes`: what input sections bring, and the parts of a whole layout.
#![tactic(auto)]

pub mod directives_by_name;
pub mod guesses;
pub mod mentioned;
pub mod named;
mod operator;
pub mod output_number;
pub mod pieces;
pub mod previous_layout;
pub mod provided;
pub mod regions;
pub mod scope;
pub mod sections;
pub mod symbols;
pub mod value;
pub mod wholes;
