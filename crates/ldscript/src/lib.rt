//! The reader of linker scripts. Takes a text; gives a `Script`, or the first refusal whose condition holds. Crates
//! above name this crate for all of the script reader (`tree`).
//!
//! - `script`: the whole; `read_script`, `read_region`, `read_item`, `read_section`, `read_body`, `read_directive`,
//!   `read_input` over `steps`: a rule or two of the grammar each; `refusal`;
//! - `tree`: the types of the crates below; `law`: no text has two trees;
//! - the parts `tokens`, `terms`, `statements`: the crates below. Other families name this crate alone.
#![tactic(auto)]

pub mod law;
mod read_body;
mod read_directive;
mod read_input;
mod read_item;
mod read_region;
mod read_script;
mod read_section;
pub mod refusal;
pub mod script;
mod steps;
pub mod tree;

pub use crate::refusal::ScriptRefusal;
pub use crate::script::Script;
pub use crate::tree::{Expr, Pattern, Region, Statement, matches};
pub use ldscript_statements as statements;
pub use ldscript_terms as terms;
pub use ldscript_tokens as tokens;
