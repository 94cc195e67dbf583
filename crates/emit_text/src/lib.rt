//! The texts of a link: the map (`maps::render_map`) and the lines of faults. Each is written in one pass, into a
//! buffer for names of common length, which grows for longer ones.
//!
//! - `faults`, `fault_line`: fault lines; `maps`, `map_line`: the map; `line`, `line_buffer`, `hex`: how lines are
//!   written;
//! - `definer`: what defines a symbol; `script_names`, `named`, `symbols`, `assertion`: where names come from.
#![tactic(auto)]

pub mod assertion;
pub mod definer;
mod fault_line;
pub mod faults;
mod hex;
mod line;
mod line_buffer;
mod map_line;
pub mod maps;
mod named;
pub mod script_names;
pub mod symbols;
