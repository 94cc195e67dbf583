//! Guesses at the numbers of names.

use growth::{NoMemory, vec};
use std::alloc::Global;

/// How many slots may have the guess at a name, from one that its hash gives on.
const TRIES: u64 = 4;

/// A number plus one, under the upper half of a name's hash, in one word; 0 is no guess. So the slots are made by
/// clearing memory once, and a look at one is one load.
#[derive(Clone, Copy)]
struct Slot(u64);

impl Slot {
    /// Without a guess.
    const FREE: Slot = Slot(0);

    /// With a guess; `None` for a number that it has no room for.
    fn new(hash: u64, number: usize) -> Option<Slot> {
        let rank = u32::try_from(number).ok()?.checked_add(1)?;
        Some(Slot(tag_of(hash) << 32 | u64::from(rank)))
    }

    fn is_free(self) -> bool {
        self.0 == 0
    }

    /// The number, if this is a guess at a name of this hash.
    fn number(self, hash: u64) -> Option<usize> {
        if self.0 >> 32 != tag_of(hash) {
            return None;
        }
        let rank = (self.0 & u64::from(u32::MAX)) as usize;
        rank.checked_sub(1)
    }
}

/// The bits of a hash that do not choose the slot.
fn tag_of(hash: u64) -> u64 {
    hash >> 32
}

/// Guesses at the numbers of names: at most one at a name, and it may be the number of another name. The caller
/// compares the names, and looks the name up elsewhere if the guess is wrong or there is none. So a name that shares
/// its hash with others costs no more than that look-up, whoever has picked the names.
#[derive(Drop)]
pub struct Guesses {
    slots: Vec<Slot>,
}

/// The hash of a name by Fowler, Noll and Vo.
fn hash_of(name: &[u8]) -> u64 {
    let mut hash: u64 = 0xcbf2_9ce4_8422_2325;
    for byte in name {
        hash = (hash ^ u64::from(*byte)).wrapping_mul(0x100_0000_01b3);
    }
    hash
}

impl Guesses {
    /// No guess yet, and slots for this many names.
    pub fn new(alloc: Global, count: usize) -> Result<Guesses, NoMemory> {
        // with one slot for more names than there are powers of two, which no script has, guesses are missing
        let wanted = count
            .saturating_mul(2)
            .checked_next_power_of_two()
            .unwrap_or(1);
        let slots = vec::from_elem(alloc, Slot::FREE, wanted)?;
        Ok(Guesses { slots })
    }

    /// The slot that is tried this number of slots after the first.
    fn slot(&self, hash: u64, step: u64) -> usize {
        (hash.wrapping_add(step) as usize) & self.slots.len().saturating_sub(1)
    }

    /// Notes the number of a name, if a slot is free for it.
    pub fn put(&mut self, name: &[u8], number: usize) {
        let hash = hash_of(name);
        let Some(guess) = Slot::new(hash, number) else {
            return;
        };
        for step in 0..TRIES {
            let place = self.slot(hash, step);
            if let Some(slot) = self.slots.get_mut(place) {
                if slot.is_free() {
                    *slot = guess;
                    return;
                }
            }
        }
    }

    /// The guess at the number of a name.
    pub fn number(&self, name: &[u8]) -> Option<usize> {
        let hash = hash_of(name);
        for step in 0..TRIES {
            let slot = *self.slots.get(self.slot(hash, step))?;
            if slot.is_free() {
                return None;
            }
            if let Some(number) = slot.number(hash) {
                return Some(number);
            }
        }
        None
    }
}
