//! Laws of the definitions of a link: each function does nothing, and its contract is the law.
//!
//! - `edits`, `streams`, `names`, `gathering`, `values`, `layout`, `segments`, `image`, `targets`, `link_command`: a
//!   law or a few each; `stayed`: of two links;
//! - `examples`, `layouts`, `links`: small projects, computed by the definitions.
#![tactic(auto)]

pub mod edits;
pub mod examples;
pub mod gathering;
pub mod image;
pub mod layout;
pub mod layouts;
pub mod link_command;
pub mod links;
pub mod names;
pub mod segments;
pub mod stayed;
pub mod streams;
pub mod targets;
pub mod values;
