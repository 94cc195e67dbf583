//! Why the object reader refuses a file, for people: the reader's own answer is only a number. The file is examined
//! anew, and only the safety of that is proved.

mod advice;
pub mod explain;
mod look;
pub mod lto;
mod psabi;
mod told;
