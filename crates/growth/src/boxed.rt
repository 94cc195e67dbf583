//! The calls of `Box`.

ghost use Rattle.std.specs.Prelude.{◌≡◌, IfOk};

use crate::no_memory::NoMemory;
use std::alloc::Global;

/// A box that holds a value.
pub fn new<T: Drop>(alloc: Global, x: T) -> Result<Box<T>, NoMemory>
    ensures ok { IfOk result (λ b. b.value ≡ x) }
{
    match Box::new(alloc, x) {
        Ok(boxed) => Ok(boxed),
        Err(_) => Err(NoMemory::refused()),
    }
}
