//! How names are resolved, kept while objects change. Takes a change of one object, or another script; gives a case for
//! each known name, and resolves only the names that the change touches.
//!
//! - `decisions` with `changing` and `room`: what is kept, and how it follows a change; `keyed_object`, `change`: what
//!   is taken;
//! - `cases`: cases by the keys of names; `entered`, `all`, `single`: all names at first;
//! - `sorted_names`: names in byte order; `name_text` with `kept_text`: the same one after the other in memory, kept;
//! - `exchange`, `texts`, `noted`: the names of one object; `used_names`: which names have entries; `law`.
#![tactic(auto)]

mod all;
mod cases;
pub mod change;
mod changing;
pub mod decisions;
mod entered;
mod exchange;
mod kept_text;
pub mod keyed_object;
pub mod law;
pub mod name_text;
mod noted;
mod room;
mod single;
pub mod sorted_names;
mod texts;
mod used_names;
