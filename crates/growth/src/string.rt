//! The calls of `String`.

ghost use Rattle.std.specs.Prelude.{◌≡◌, IfOk, string_bytes};

use crate::no_memory::NoMemory;
use std::alloc::Global;

/// A string of its own with this text.
pub fn from_str(alloc: Global, s: &str) -> Result<String, NoMemory>
    ensures ok { IfOk result (λ t. string_bytes t ≡ s.now) }
{
    match String::from_str(alloc, s) {
        Ok(text) => Ok(text),
        Err(_) => Err(NoMemory::refused()),
    }
}
