//! Names that symbols of an object share, by where they lie in its bytes.

use elfobj::span::Span;
use growth::{NoMemory, btree_map};
use std::alloc::Global;
use std::collections::BTreeMap;

/// The length from which names are looked up by where they lie. To hash a shorter one takes no longer than to read the
/// entry of its symbol.
const LONG: usize = 64;

/// Whether a name is looked up by where it lies.
#[inline(always)]
pub fn is_long(name: Span) -> bool {
    name.end.saturating_sub(name.start) >= LONG
}

/// Where the long names of an object begin, each with the place in a list of a symbol that has it. Whoever asks looks
/// whether that symbol has the name: nothing here is relied on.
#[derive(Drop)]
pub struct Repeats {
    starts: BTreeMap<usize, usize>,
    // the bytes of long names that are still hashed before anything is noted, so that most objects note nothing
    unnoted: usize,
}

impl Repeats {
    /// No names.
    pub fn new(alloc: Global) -> Repeats {
        Repeats {
            starts: BTreeMap::new(alloc),
            unnoted: 0,
        }
    }

    /// Forgets what was noted, for an object with this number of symbols.
    pub fn start(&mut self, symbols: usize) {
        self.starts.clear();
        self.unnoted = symbols.saturating_mul(LONG);
    }

    /// The place that was noted with a name that begins where this one does.
    pub fn find(&self, name: Span) -> Option<usize> {
        if !is_long(name) {
            return None;
        }
        self.starts.get(&name.start).copied()
    }

    /// Notes the place of a symbol with this name. A short name is not noted.
    #[inline(never)]
    pub fn note(&mut self, name: Span, at: usize) -> Result<(), NoMemory> {
        if !is_long(name) {
            return Ok(());
        }
        let length = name.end.saturating_sub(name.start);
        if length <= self.unnoted {
            self.unnoted -= length;
            return Ok(());
        }
        btree_map::insert(&mut self.starts, name.start, at)?;
        Ok(())
    }
}
