//! The tokens of a linker script, with their lines. Takes a text; gives its tokens, or a refusal.
//!
//! - `lexer` over `front`, `modes` and `limits`: tokenizing a text; `cursor`: a cursor over tokens; `refusal`;
//! - `token`, `marks`, `words`, `name`, `number`, `bytes`: kinds of tokens, and their spelling;
//! - `laws`: no text has two lists of tokens.
#![tactic(auto)]

pub mod bytes;
pub mod cursor;
pub mod front;
pub mod laws;
pub mod lexer;
pub mod limits;
mod marks;
mod modes;
pub mod name;
pub mod number;
pub mod refusal;
pub mod token;
pub mod words;
