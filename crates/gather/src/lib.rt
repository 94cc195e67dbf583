//! Which input sections are in a link, and in which order they stand. Takes objects, the script and resolved names;
//! gives for each object the statements that take its sections, and of a project the numbers of its input sections, its
//! rows and its orphans. Other families name this crate alone.
//!
//! - `input_section_table` over `slots` and `rank`: the numbers of input sections;
//! - `matcher` over `file_search`, `file_tables`, `word_table`, `word`, `name_places`: first match; `matches`: of one
//!   object, by `runs` of its sections, and of all;
//! - `gathered_section`, `blocks`, `cases`: the input sections, common blocks among them; `discarded_sections`;
//! - `roots`, `marking`, `references`, and of a project `live`, `referring`, `targets`, `by_key`, `places`: which
//!   sections are live;
//! - `rows` over `rooms`, `sorting`, `shared_start`, `section_names`: the rows; `live_sections`: the orphans; `taking`:
//!   rows and orphans of a link without `--gc-sections`; `gathering`: all of this, for a project; `law`.
#![tactic(auto)]

mod blocks;
mod by_key;
mod cases;
pub mod discarded_sections;
mod file_search;
mod file_tables;
pub mod gathered_section;
pub mod gathering;
pub mod input_section_table;
pub mod law;
mod live;
pub mod live_sections;
pub mod marking;
pub mod matcher;
pub mod matches;
mod name_places;
mod places;
mod rank;
pub mod references;
mod referring;
mod rooms;
pub mod roots;
pub mod rows;
pub mod runs;
pub mod same_inputs;
mod section_names;
mod shared_start;
mod slots;
mod sorting;
mod taking;
mod targets;
mod word;
mod word_table;

pub use crate::gathering::Gathering;
pub use crate::marking::mark;
pub use crate::matcher::Matcher;
