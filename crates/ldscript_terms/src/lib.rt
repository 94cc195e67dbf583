//! Expressions and name patterns of a linker script. Takes tokens and words; gives trees of expressions, and patterns
//! that say which names they match.
//!
//! - `expression`, `operator`: the trees, operators and their levels; `display`: their text;
//! - `reader` over `opening`: the grammar of expressions; `dot_forms`: what an assignment to `.` may be;
//! - `pattern`, `matching` over `word`, `front`, `part`, `set`, `bytes`: how a word spells a pattern, and what it
//!   matches;
//! - `expr_law`, `pattern_law`: no tokens have two trees, no word spells two patterns.
#![tactic(auto)]

mod bytes;
mod display;
pub mod dot_forms;
pub mod expr_law;
pub mod expression;
mod front;
mod matching;
mod opening;
pub mod operator;
mod part;
pub mod pattern;
pub mod pattern_law;
pub mod reader;
mod set;
mod word;
