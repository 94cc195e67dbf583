//! Short parts of a text, put together beside it.

ghost use Rattle.std.specs.Prelude.{◌≡◌, ◌≤◌, ◌++◌, ◌+◌, [], IfOk, OnOk, cond, length, true};

use growth::{NoMemory, vec};
use std::marker::Model;

/// How many bytes are put together at most.
const ROOM: usize = 1024;

/// Bytes that are put together beside a text, so that it grows seldom.
#[derive(Drop)]
pub(crate) struct LineBuffer {
    /// The bytes, as far as this is in use.
    bytes: [u8; ROOM],
    /// How much of it is in use.
    used: usize,
}

impl Model for LineBuffer {
    ghost use Rattle.std.specs.Prelude.{◌≤◌, List, ℕ, take};

    ghost Value = { List ℕ };

    ghost view = { λ t. take t.used t.bytes };

    ghost invariant = { λ t. t.used ≤ 1024 };
}

impl LineBuffer {
    /// No bytes yet.
    pub(crate) fn new() -> LineBuffer
        ensures { result ≡ [] }
    {
        LineBuffer {
            bytes: [0; ROOM],
            used: 0,
        }
    }

    /// Adds a part, for which there is room.
    #[inline(always)]
    pub(crate) fn put(&mut self, part: &[u8])
        requires { length self.old + length part.now ≤ 1024 }
        ensures { self.new ≡ self.old ++ part.now }
    {
        let end = self.used + part.len();
        self.bytes[self.used..end].copy_from_slice(part);
        self.used = end;
    }

    /// Adds a part of N to 2 N bytes, for which there is room, by its first and its last N bytes, which are copied
    /// without a call. Returns whether the part has such a length; if not, nothing is added.
    #[inline(always)]
    fn put_ends<const N: usize>(&mut self, part: &[u8]) -> bool
        requires room { length self.old + length part.now ≤ 1024 }
        requires short { N ≤ 16 }
        ensures { self.new ≡ cond result (self.old ++ part.now) self.old }
    {
        let (Some(first), Some(last)) = (part.first_chunk::<N>(), part.last_chunk::<N>()) else {
            return false;
        };
        if part.len() - N > N {
            return false;
        }
        // copies of their own: so no test is made whether the ranges overlap
        let (first, last) = (*first, *last);
        let end = self.used + part.len();
        self.bytes[self.used..self.used + N].copy_from_slice(&first);
        self.bytes[end - N..end].copy_from_slice(&last);
        self.used = end;
        true
    }

    /// Adds a name, for which there is room. Most names are short.
    #[inline(always)]
    pub(crate) fn put_name(&mut self, name: &[u8])
        requires { length self.old + length name.now ≤ 1024 }
        ensures { self.new ≡ self.old ++ name.now }
    {
        if self.put_ends::<16>(name) || self.put_ends::<8>(name) || self.put_ends::<4>(name) {
            return;
        }
        self.put(name);
    }

    /// Adds the bytes to a text, and begins anew. Fails if memory runs out.
    pub(crate) fn move_to(&mut self, text: &mut Vec<u8>) -> Result<(), NoMemory>
        ensures text { OnOk result (text.new.items ≡ text.old.items ++ self.old) }
        ensures empty { OnOk result (self.new ≡ []) }
    {
        vec::extend_from_slice(text, &self.bytes[..self.used])?;
        self.used = 0;
        Ok(())
    }

    /// Whether there is room for this many bytes more; where there is less, the bytes are first added to a text. Fails
    /// if memory runs out.
    #[inline(always)]
    pub(crate) fn make_room(&mut self, text: &mut Vec<u8>, count: usize) -> Result<bool, NoMemory>
        ensures same { OnOk result (text.new.items ++ self.new ≡ text.old.items ++ self.old) }
        ensures room { IfOk result (λ has. has ≡ true → length self.new + count ≤ 1024) }
    {
        if count <= ROOM - self.used {
            return Ok(true);
        }
        self.move_to(text)?;
        Ok(count <= ROOM)
    }

    /// Adds a part: where there is no room for it, the bytes before it are added to a text, and so is a part that is
    /// longer than any room. Fails if memory runs out.
    pub(crate) fn append(&mut self, text: &mut Vec<u8>, part: &[u8]) -> Result<(), NoMemory>
        ensures { OnOk result (text.new.items ++ self.new ≡ (text.old.items ++ self.old) ++ part.now) }
    {
        if self.make_room(text, part.len())? {
            self.put(part);
            return Ok(());
        }
        self.move_to(text)?;
        vec::extend_from_slice(text, part)
    }
}
