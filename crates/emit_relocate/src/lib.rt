//! Values, relocation and ASSERT, three passes of a link. Takes the names of a project, its layout and its script, and
//! perhaps what a linker knows of a previous link; gives the values of names and of the entry symbol, the symbols of
//! the output, the fields of relocations, and the faults of relocations and assertions.
//!
//! - `values` over `name_rows`, `name_row`, `symbol_row`, `object_table`, `object_parts`, `script_names`, `symbols`,
//!   `sizes` and `script_values`: the values of all names, and the symbols of the output;
//! - `link_view` over `known`, `given` and `given_table`: what the evaluation of relocations asks of a link;
//! - `previous_link_info`: what a linker says of a previous link; `value`, `target`: values;
//! - `symbol_values`: the values of the symbols of all objects, which evaluation reads;
//! - `site`, `fields`, `retargeted`, `input_section`, `changed_fields`: fields, all of them or those that a previous
//!   link did not have; `law`;
//! - `index`, `bucket`, `sites_of_target`: from targets to relocations;
//! - `asserting` over `final_scope` and `symbols_by_name`: the faults of ASSERTs.
#![tactic(auto)]

pub mod asserting;
mod bucket;
pub mod changed_fields;
pub mod fields;
mod final_scope;
pub mod given;
mod given_table;
pub mod index;
mod input_section;
mod known;
pub mod law;
pub mod link_view;
pub mod name_row;
mod name_rows;
mod object_parts;
mod object_table;
pub mod previous_link_info;
mod retargeted;
mod script_names;
mod script_values;
pub mod site;
pub mod sites_of_target;
pub mod sizes;
pub mod symbol_row;
pub mod symbol_values;
mod symbols;
mod symbols_by_name;
pub mod target;
pub mod value;
pub mod values;
