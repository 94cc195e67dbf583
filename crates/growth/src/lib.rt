//! The calls that may be refused memory, and the error that only they make. Takes collections, and what they are to
//! hold; makes std's calls, with std's names and clauses, and gives `NoMemory` where such a call is refused.
//!
//! - `no_memory`: the error, and `impossible`, which makes it without a refused growth;
//! - `vec`, `boxed`, `string`, `btree_map`, `btree_set`, `deques`, `index_map`, `slabs`, `iterator`, `path`,
//!   `buffered`,
//!   `words`: the calls, by what grows;
//! - `told`: the refused memory that the error of a device tells.
#![tactic(auto)]

pub mod boxed;
pub mod btree_map;
pub mod btree_set;
pub mod buffered;
pub mod deques;
pub mod index_map;
pub mod iterator;
pub mod no_memory;
pub mod path;
pub mod slabs;
pub mod string;
pub mod told;
pub mod vec;
pub mod words;

pub use crate::no_memory::{NoMemory, impossible};
