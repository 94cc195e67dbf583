//! Names of the symbol table, one after another, each with a zero byte after it. Some are put together beside their
//! list and added to it at once, and most are copied without a call.

ghost use Rattle.std.specs.Prelude.{◌≡◌, ◌≤◌, ◌<◌, ◌+◌, ◌++◌, ◌∷◌, [], IfOk, OnOk, cond, length};

use crate::strings::no_names;
use growth::{NoMemory, vec};
use std::alloc::Global;
use std::marker::Model;

/// How many bytes of names are put together at a time.
const BLOCK_SIZE: usize = 1024;

/// The last names of a list.
#[derive(Drop)]
struct NameBlock {
    /// The bytes, as far as this is in use.
    bytes: [u8; BLOCK_SIZE],
    /// How much of it is in use.
    used: usize,
}

impl Model for NameBlock {
    ghost use Rattle.std.specs.Prelude.{◌≤◌, List, ℕ, take};

    ghost Value = { List ℕ };

    ghost view = { λ t. take t.used t.bytes };

    ghost invariant = { λ t. t.used ≤ 1024 };
}

impl NameBlock {
    /// No bytes.
    fn new() -> NameBlock
        ensures { result ≡ [] }
    {
        NameBlock {
            bytes: [0; BLOCK_SIZE],
            used: 0,
        }
    }

    /// How many bytes there are.
    #[inline(always)]
    fn len(&self) -> usize
        ensures is { result ≡ length self.now }
        ensures few { result ≤ 1024 }
    {
        self.used
    }

    /// Adds bytes for which there is room.
    #[inline(always)]
    fn put(&mut self, part: &[u8])
        requires { length self.old + length part.now ≤ 1024 }
        ensures { self.new ≡ self.old ++ part.now }
    {
        let end = self.used + part.len();
        self.bytes[self.used..end].copy_from_slice(part);
        self.used = end;
    }

    /// Adds N to 2 N bytes, for which there is room, by their first and their last N, which are copied without a call.
    /// Returns whether the part has such a length; if not, nothing is added.
    #[inline(always)]
    fn put_ends<const N: usize>(&mut self, part: &[u8]) -> bool
        requires room { length self.old + length part.now ≤ 1024 }
        requires short { N ≤ 16 }
        ensures { self.new ≡ cond result (self.old ++ part.now) self.old }
    {
        let (Some(first), Some(last)) = (part.first_chunk::<N>(), part.last_chunk::<N>()) else {
            return false;
        };
        if part.len() - N > N {
            return false;
        }
        // copies of their own: so no test is made whether the ranges overlap
        let (first, last) = (*first, *last);
        let end = self.used + part.len();
        self.bytes[self.used..self.used + N].copy_from_slice(&first);
        self.bytes[end - N..end].copy_from_slice(&last);
        self.used = end;
        true
    }

    /// Adds a name for which there is room. Most names are short.
    #[inline(always)]
    fn put_name(&mut self, name: &[u8])
        requires { length self.old + length name.now ≤ 1024 }
        ensures { self.new ≡ self.old ++ name.now }
    {
        if self.put_ends::<8>(name) || self.put_ends::<16>(name) || self.put_ends::<4>(name) {
            return;
        }
        self.put(name);
    }

    /// Adds a zero byte, for which there is room.
    #[inline(always)]
    fn put_zero(&mut self)
        requires { length self.old + 1 ≤ 1024 }
        ensures { self.new ≡ self.old ++ 0 ∷ [] }
    {
        self.put(&[0]);
    }

    /// Adds the bytes to a list, and begins anew.
    fn move_to(&mut self, list: &mut Vec<u8>) -> Result<(), NoMemory>
        ensures list { OnOk result (list.new.items ≡ list.old.items ++ self.old) }
        ensures empty { OnOk result (self.new ≡ []) }
    {
        vec::extend_from_slice(list, &self.bytes[..self.used])?;
        self.used = 0;
        Ok(())
    }
}

/// A list of names, as bytes.
#[derive(Drop)]
pub(crate) struct Names {
    /// The names, except for the last ones.
    bytes: Vec<u8>,
    /// The last names.
    block: NameBlock,
}

impl Model for Names {
    ghost use Rattle.std.specs.Prelude.{◌++◌, List, ℕ};

    ghost Value = { List ℕ };

    ghost view = { λ names. names.bytes.items ++ names.block };
}

impl Names {
    /// The zero byte that a string table begins with, and room for this number of bytes.
    pub(crate) fn with_capacity(alloc: Global, room: usize) -> Result<Names, NoMemory>
        ensures { IfOk result (λ names. names ≡ 0 ∷ []) }
    {
        Ok(Names {
            bytes: no_names(alloc, room)?,
            block: NameBlock::new(),
        })
    }

    /// Adds a name for which there is no room in the block.
    #[inline(never)]
    fn push_past_block(&mut self, name: &[u8]) -> Result<(), NoMemory>
        ensures { OnOk result (self.new ≡ self.old ++ name.now ++ 0 ∷ []) }
    {
        self.block.move_to(&mut self.bytes)?;
        vec::extend_from_slice(&mut self.bytes, name)?;
        vec::push(&mut self.bytes, 0)?;
        Ok(())
    }

    /// How many bytes there are.
    #[inline(always)]
    pub(crate) fn len(&self) -> usize
        ensures { result ≡ length self.now }
    {
        self.bytes.len() + self.block.len()
    }

    /// Adds a name.
    #[inline(always)]
    pub(crate) fn push(&mut self, name: &[u8]) -> Result<(), NoMemory>
        ensures { OnOk result (self.new ≡ self.old ++ name.now ++ 0 ∷ []) }
    {
        if name.len() >= BLOCK_SIZE - self.block.len() {
            return self.push_past_block(name);
        }
        self.block.put_name(name);
        self.block.put_zero();
        Ok(())
    }

    /// The bytes of all names.
    pub(crate) fn into_bytes(self) -> Result<Vec<u8>, NoMemory>
        ensures { IfOk result (λ bytes. bytes.items ≡ self) }
    {
        let Names {
            bytes: mut bytes,
            block: mut block,
        } = self;
        block.move_to(&mut bytes)?;
        Ok(bytes)
    }
}
