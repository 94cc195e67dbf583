//! The image: its headers, its tail (symbol table, names, section headers), and drawing it. Takes layout, symbols and
//! fields; all growth comes before a byte of the canvas changes.
//!
//! - `headers`: ELF header and program headers; `tail` over `symbols`, `table_entries`, `table_names`,
//!   `strings`, `sections`, `number`: the tail;
//! - `section`: what is drawn; `row`: sections that stayed side by side as one;
//! - `redraw`: anew, or over the image of a previous link, of which what stayed is kept: the patches, and then what
//!   does
//!   not stay, by `paint_section` over `paint`, `patched`; `law`.
#![tactic(auto)]

pub mod headers;
pub mod law;
mod number;
pub mod paint;
pub mod paint_section;
mod patched;
pub mod redraw;
pub mod row;
pub mod section;
pub mod sections;
pub mod strings;
pub mod symbols;
mod table_entries;
mod table_names;
pub mod tail;
