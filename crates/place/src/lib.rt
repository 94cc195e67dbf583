//! Layout, a phase of a link: addresses and file offsets. Takes a project, its rows and names, the numbers of its input
//! sections, and perhaps a previous layout; gives the layout or its faults, and where an input section stands, by its
//! key.
//!
//! - `link_layout`: the phase, over `place_sections`;
//! - `segments` over `group`: what is loaded as one, and its offset in the file; `offsets`: where output sections begin
//!   in the file; `length`: how long the image is;
//! - `indexed_layout` over `address_column` and `indexed_section`: all of that, and where each input section stands;
//!   `numbered`: the sections of an object have different numbers;
//! - the parts `terms` (values of expressions, what a layout keeps) and `sections` (output sections placed). Other
//!   families name this crate alone.
#![tactic(auto)]

mod address_column;
mod group;
pub mod indexed_layout;
mod indexed_section;
pub mod length;
pub mod link_layout;
pub mod numbered;
mod offsets;
pub mod segments;

pub use crate::link_layout::LinkLayout;
pub use ldmodel::placed::Placed;
pub use place_sections as sections;
pub use place_sections::fault::PlaceFault;
pub use place_sections::place::place;
pub use place_sections::placement::Placement;
pub use place_sections::resume_point::ResumePoint;
pub use place_terms as terms;
pub use place_terms::value::{ValueFault, value};
