//! Reads and writes the files of a link, and finds out which names lead to one file.
//!
//! - `reading`: the bytes of a file;
//! - `destination`: which file a name leads to;
//! - `clash`: an output that another argument of the command line names too;
//! - `writing`: the outputs, each put in its place once all are written;
//! - `fault`: which file cannot be read or written, and why;
//! - `named_file` over `argument`: the file that the command line of `readobj` or `readscript` names; `argument_fault`:
//!   why it is not shown.
//!
//! No contract of std says what a file holds. What is read of a reader whose bytes are known is proved; that a file's
//! bytes are read, and what is left of old files, is tested on the built program.
#![tactic(auto)]

mod argument;
pub mod argument_fault;
pub mod clash;
pub mod destination;
pub mod fault;
pub mod named_file;
pub mod reading;
pub mod writing;
