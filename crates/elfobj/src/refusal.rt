//! Why bytes are no object.

pub use elfobj_file::refusal::ObjectRefusal;
