//! Names and words that are kept.

ghost use Rattle.std.specs.Prelude.{◌≡◌, ◌≤◌, IfOk, length};
ghost use Rattle.ldscript_tokens.specs.Names.{stored, IsStored};

use growth::{NoMemory, boxed, vec};
use std::alloc::Global;
use std::marker::Model;

/// The greatest length in bytes of a name that is kept without the heap.
const MAX_INLINE: usize = 14;

/// The bytes of a name. Most names are short, and a script may have a million of them: a name takes 16 bytes, and a
/// short one none on the heap.
#[derive(Drop)]
enum NameBytes {
    /// In place: the length, and the bytes.
    Inline(u8, [u8; MAX_INLINE]),
    /// On the heap.
    Heap(Box<Vec<u8>>),
}

/// Bytes that a script gives: a name, a word, or the text of a message.
#[derive(Drop)]
pub struct ScriptName {
    bytes: NameBytes,
}

impl Model for ScriptName {
    ghost use Rattle.std.specs.Prelude.{ℕ, List};
    ghost use Rattle.ldscript_tokens.specs.Names.{stored, IsStored};

    ghost Value = { List ℕ };

    ghost view = { λ name. stored name.bytes };

    ghost invariant = { λ name. IsStored name.bytes };
}

/// The bytes, copied in place.
fn inline(bytes: &[u8]) -> NameBytes
    requires { length bytes.now ≤ 14 }
    ensures value { stored result ≡ bytes.now }
    ensures fits { IsStored result }
{
    let mut stored = [0; MAX_INLINE];
    stored[..bytes.len()].copy_from_slice(bytes);
    NameBytes::Inline(bytes.len() as u8, stored)
}

impl ScriptName {
    /// A copy of these bytes.
    ///
    /// # Errors
    ///
    /// If memory runs out.
    pub fn new(alloc: Global, bytes: &[u8]) -> Result<ScriptName, NoMemory>
        ensures { IfOk result (λ n. n ≡ bytes.now) }
    {
        if bytes.len() <= MAX_INLINE {
            return Ok(ScriptName {
                bytes: inline(bytes),
            });
        }
        let bytes = vec::from_slice(alloc, bytes)?;
        let bytes = NameBytes::Heap(boxed::new(alloc, bytes)?);
        Ok(ScriptName { bytes })
    }

    /// The bytes.
    pub fn as_bytes(&self) -> &[u8]
        ensures { result.now ≡ self.now }
    {
        match &self.bytes {
            NameBytes::Inline(length, bytes) => &bytes[..usize::from(*length)],
            NameBytes::Heap(bytes) => bytes.as_slice(),
        }
    }
}
