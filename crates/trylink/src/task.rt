//! The input of each way of answering.

use relink::Options;
use std::alloc::{AllocError, Global};
use std::hash::RandomState;

/// The bytes of a frame, and what they are linked with.
#[derive(Clone, Copy)]
pub struct Task<'a> {
    /// The memory.
    pub alloc: Global,
    /// The seed of hash tables.
    pub seed: RandomState,
    /// The options.
    pub options: &'a Options,
    /// The bytes.
    pub bytes: &'a [u8],
}

impl Task<'_> {
    /// The options, for one more linker.
    pub fn own_options(&self) -> Result<Options, AllocError> {
        let options = self.options;
        let entry = match options.entry() {
            Some(name) => Some(Vec::from_slice(self.alloc, name)?),
            None => None,
        };
        Ok(Options::new(options.gc(), entry, options.orphans()))
    }
}
