//! Entries of the symbol table, one after another. Some are put together beside their list and added to it at once,
//! which takes less time than to add each.

ghost use Rattle.std.specs.Prelude.{◌≡◌, ◌≤◌, ◌+◌, ◌++◌, [], IfOk, OnOk, length, take};

use growth::{NoMemory, vec};
use std::alloc::Global;
use std::marker::Model;

/// How many bytes an entry has.
pub(crate) const ENTRY_SIZE: usize = 24;

/// How many bytes of entries are put together at a time.
const BLOCK_SIZE: usize = 1536;

/// A list of entries, as bytes.
#[derive(Drop)]
pub(crate) struct Entries {
    /// The entries, except for the last ones.
    bytes: Vec<u8>,
    /// The last entries; past them are bytes without a meaning.
    block: [u8; BLOCK_SIZE],
    /// How many bytes the last entries have.
    used: usize,
}

impl Model for Entries {
    ghost use Rattle.std.specs.Prelude.{◌≤◌, ◌++◌, List, ℕ, take};

    ghost Value = { List ℕ };

    ghost view = { λ entries. entries.bytes.items ++ take entries.used entries.block };

    ghost invariant = { λ entries. entries.used ≤ 1536 };
}

/// Copies an entry over the bytes from `at` on.
#[inline(always)]
fn put_entry(block: &mut [u8; BLOCK_SIZE], at: usize, entry: &[u8; ENTRY_SIZE])
    requires { at + 24 ≤ 1536 }
    ensures { take (at + 24) block.new ≡ take at block.old ++ entry.now }
{
    block[at..at + ENTRY_SIZE].copy_from_slice(entry);
}

/// Adds entries that were put together.
#[inline(never)]
fn add_block(bytes: &mut Vec<u8>, block: &[u8]) -> Result<(), NoMemory>
    ensures { OnOk result (bytes.new.items ≡ bytes.old.items ++ block.now) }
{
    vec::extend_from_slice(bytes, block)
}

impl Entries {
    /// No entries, with room for this number of bytes.
    pub(crate) fn with_capacity(alloc: Global, room: usize) -> Result<Entries, NoMemory>
        ensures { IfOk result (λ entries. entries ≡ []) }
    {
        Ok(Entries {
            bytes: vec::with_capacity(alloc, room)?,
            block: [0; BLOCK_SIZE],
            used: 0,
        })
    }

    /// Adds an entry.
    #[inline(always)]
    pub(crate) fn push(&mut self, entry: &[u8; ENTRY_SIZE]) -> Result<(), NoMemory>
        ensures { OnOk result (self.new ≡ self.old ++ entry.now) }
    {
        if self.used > BLOCK_SIZE - ENTRY_SIZE {
            add_block(&mut self.bytes, &self.block[..self.used])?;
            self.used = 0;
        }
        put_entry(&mut self.block, self.used, entry);
        self.used += ENTRY_SIZE;
        Ok(())
    }

    /// The bytes of all entries.
    pub(crate) fn into_bytes(self) -> Result<Vec<u8>, NoMemory>
        ensures { IfOk result (λ bytes. bytes.items ≡ self) }
    {
        let Entries {
            bytes: mut bytes,
            block,
            used,
        } = self;
        add_block(&mut bytes, &block[..used])?;
        Ok(bytes)
    }
}
