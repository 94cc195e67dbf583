//! How many entries names are going to have, by quick hashes of the names. Room is made by it: no answer depends on it.

use std::alloc::Global;

/// The entries to come. Names that share a place in the table share what is counted there. It is given out once, so
/// that they do not get more room than they have entries.
#[derive(Drop)]
pub struct Expected {
    // a power of two, or none
    counts: Vec<u16>,
}

impl Expected {
    /// Nothing.
    pub fn new(alloc: Global) -> Expected {
        Expected {
            counts: Vec::new(alloc),
        }
    }

    /// Makes this many places, a power of two, where nothing is counted, if there is memory for them.
    pub fn expect(&mut self, places: usize) {
        self.counts.clear();
        match self.counts.resize(places, 0) {
            Ok(()) => {}
            Err(_refused) => {}
        }
    }

    /// Counts an entry of a name with this hash.
    #[inline(always)]
    pub fn count(&mut self, hash: u32) {
        let at = self.place_of(hash);
        if at < self.counts.len() {
            self.counts[at] = self.counts[at].saturating_add(1);
        }
    }

    /// How many entries were counted for a hash, and not taken yet.
    pub fn take(&mut self, hash: u32) -> usize {
        let at = self.place_of(hash);
        if at >= self.counts.len() {
            return 0;
        }
        let count = self.counts[at];
        self.counts[at] = 0;
        count as usize
    }

    /// Forgets what was counted, and gives the memory back.
    pub fn clear(&mut self) {
        self.counts = Vec::new(*self.counts.allocator());
    }

    #[inline(always)]
    fn place_of(&self, hash: u32) -> usize {
        hash as usize & self.counts.len().saturating_sub(1)
    }
}
