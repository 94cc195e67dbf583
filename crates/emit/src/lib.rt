//! The output of a link: the fields of its relocations, its image, and its texts. Takes the layout and values of a
//! project, and perhaps a previous link; gives fields or their faults, the bytes drawn, the map and the fault lines.
//!
//! - `relocated` over `objects_read`: the fields of all relocations, or their faults; `law`;
//! - `drawing` over `image_sources`, `output`, `parts`, `pieces`, `data_runs`, `section_fields`, `symbols`: the image;
//!   `length`;
//! - `good`: a link without faults is one that the laws on two links speak of;
//! - `rewrite` over `plan` and `located_section`: the sections of one object over those in the previous image, if
//!   nothing else of the link has changed; `rewritten`: what is then the same;
//! - `map`, `fault_lines`: the texts;
//! - the parts `fields`, `relocate`, `image`, `text`. Other families name this crate alone.
#![tactic(auto)]

mod data_runs;
pub mod drawing;
pub mod fault_lines;
pub mod good;
pub mod image_sources;
mod law;
pub mod length;
pub mod located_section;
pub mod map;
mod objects_read;
mod output;
mod parts;
mod pieces;
mod plan;
pub mod relocated;
pub mod rewrite;
pub mod rewritten;
mod section_fields;
mod symbols;

pub use crate::fault_lines::fault_text;
pub use crate::map::map_text;
pub use emit_fields as fields;
pub use emit_fields::canvas::Canvas;
pub use emit_fields::field::evaluate::field;
pub use emit_fields::field::{Field, Overflow};
pub use emit_image as image;
pub use emit_image::headers::headers;
pub use emit_relocate as relocate;
pub use emit_relocate::index::Index;
pub use emit_text as text;
