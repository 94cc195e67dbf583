//! An object as a file: what its bytes mean, when they are refused, and the tests of single records. Takes slices of
//! the file; gives records of numbers, ranges of the file, and refusals. `elfobj` reads whole objects with it.
//!
//! - `constants`, `numbers`: the standards' numbers under their names (once more in `law`), and numbers in bytes;
//! - `section`, `symbol`, `relocation`, `refusal`: types of sections, symbols and relocations, and refusals, for
//!   callers;
//! - `elf_header`, `section_header`, `symbol_entry`, `relocation_entry`: each record and its tests;
//! - `names` with `lanes`, `span`: names in string tables, and ranges of the file.
#![tactic(auto)]

pub mod constants;
pub mod elf_header;
mod lanes;
pub mod law;
pub mod names;
pub mod numbers;
pub mod refusal;
pub mod relocation;
pub mod relocation_entry;
pub mod section;
pub mod section_header;
pub mod span;
pub mod symbol;
pub mod symbol_entry;
