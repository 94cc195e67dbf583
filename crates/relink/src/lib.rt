//! The linker of a session. From one link to the next it keeps how names are resolved, which statements take input
//! sections, and the previous link without faults: the next link resumes its layout, and is written over its image.
//!
//! - `session`: `Session`; `link_tables`: what it keeps of names and sections, and how an edit updates that;
//!   `unchanged`: edits that change nothing;
//! - `deferred`: `DeferredSession`, which links when it is asked; `follow`: its tables follow an edit;
//!   `lazy_tables`: they are made when they are first needed;
//! - `law`: what edits that are linked at once count, or later, with one link; `counts`: a hint for that;
//! - `change`, `match_table`: what an edit changes under a key; the matches of all objects;
//! - `name_list`: the names of the objects of a link;
//! - `previous`, `lent_link`, `session_link`: the previous link without faults, lent to the next one, and a link over
//!   it; `outcome`: what the queries get;
//! - the parts `project` (the crate `ldmodel_project`) and `driver`. Programs name this crate alone.
#![tactic(auto)]

mod change;
mod counts;
pub mod deferred;
mod follow;
pub mod law;
mod lazy_tables;
mod lent_link;
mod link_tables;
mod match_table;
mod name_list;
mod outcome;
mod previous;
pub mod session;
mod session_link;
mod unchanged;

pub use crate::deferred::DeferredSession;
pub use crate::session::Session;
pub use ldmodel::edit::{Edit, EditRefusal, LinkSummary};
pub use ldmodel::linker::Linker;
pub use ldmodel::options::{Options, Orphans};
pub use ldmodel_deferred::linker::DeferredLinker;
pub use ldmodel_project as project;
pub use ldmodel_project::project::Project;
pub use relink_driver as driver;
pub use relink_driver::output::Output;
pub use relink_driver::plain::Plain;
