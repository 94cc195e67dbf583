//! The files of a link.

/// An object file that has been read.
#[derive(Drop)]
pub struct ObjectFile {
    /// The word on the command line, under which the object is added.
    pub word: Vec<u8>,
    /// The bytes of the file.
    pub bytes: Vec<u8>,
}
