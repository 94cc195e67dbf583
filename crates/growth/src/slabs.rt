//! The calls of `Slab`.

ghost use Rattle.std.specs.Prelude.{◌≡◌, ◌+◌, ◌<◌, ◌≤◌, IfOk, OnOk, OnErr, IsOk, Some, None};
ghost use Rattle.slab.specs.Slab.{get, slab_len, HasRoomFor, Updates};

use crate::no_memory::NoMemory;
use slab::Slab;

/// Makes room for `additional` more values, so that as many calls of `insert` need no memory.
pub fn reserve<T>(slab: &mut Slab<T>, additional: usize) -> Result<(), NoMemory>
    ensures room { OnOk result (HasRoomFor slab.new additional) }
    ensures succeeds { HasRoomFor slab.old additional → IsOk result }
    ensures had_room { HasRoomFor slab.old additional → slab.new ≡ slab.old }
    ensures capacity { slab.old.capacity ≤ slab.new.capacity }
    ensures rest_kept { slab.new ≡ record slab.old { capacity = slab.new.capacity } }
{
    match slab.reserve(additional) {
        Ok(()) => Ok(()),
        Err(_) => Err(NoMemory::refused()),
    }
}
