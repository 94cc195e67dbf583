//! Layout: the addresses of a script's output sections and their input sections, and the values of its symbols. Takes
//! the script, the rows, the PROVIDEs in force and perhaps a previous placement; gives a `Placement`, or its first
//! fault, or all that overlap.
//!
//! - `place`, `placement`; `script` over `parts`: the statements before SECTIONS, in it and after it;
//! - `items`, `assign`, `memory`, `section`, `head` (address, load address), `body` (`.`), `end` (size, regions);
//! - `resume_point`, `boundary`, `reusable_placement`, `reuse`: what a previous placement gives; `ready`, `state`,
//!   `stop`, `fault`, `whole`;
//! - `overlaps` over `firsts`, `hull`, `extent`: output sections that overlap, in memory or where they are loaded;
//!   `law`.
#![tactic(auto)]

mod assign;
mod body;
mod boundary;
mod end;
mod extent;
pub mod fault;
mod firsts;
mod head;
mod hull;
mod items;
pub mod law;
mod memory;
pub mod overlaps;
mod parts;
pub mod place;
pub mod placement;
mod ready;
pub mod resume_point;
mod reusable_placement;
mod reuse;
mod script;
mod section;
mod state;
mod stop;
mod whole;
