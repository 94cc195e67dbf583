//! A project under edits that are staged first, with all the memory that they need, and then committed without any.
//! Takes edits; gives a `Staged` edit or a refusal, and lends a project, or the next one, to a link.
//!
//! - `project`: with its tests that need no payload (`early`), `staging`, `lending`, `looking`; `edit`: tests of edits;
//! - `keyed_objects` with `growing`, `tagged` and `tags`: objects under keys; `staged`, `named`; `order`: keys by
//!   place, places by key;
//! - `input`, `view`: a project as it is lent to a link; `law`: tables that follow an edit.
#![tactic(auto)]

pub mod edit;
pub mod input;
pub mod keyed_objects;
pub mod law;
pub mod named;
pub mod order;
pub mod project;
pub mod staged;
pub mod view;
