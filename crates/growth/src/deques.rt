//! The calls of `VecDeque`.

ghost use Rattle.std.specs.Prelude.{◌≡◌, ◌+◌, ◌<◌, ◌≤◌, OnOk, OnErr};
ghost use Rattle.std.specs.VecDeque.{deque_len, deque_capacity};

use crate::no_memory::NoMemory;
use std::collections::VecDeque;

/// Makes room for `additional` more elements.
pub fn reserve<T>(list: &mut VecDeque<T>, additional: usize) -> Result<(), NoMemory>
    ensures items { list.new.items ≡ list.old.items }
    ensures len { deque_len list.new ≡ deque_len list.old }
    ensures capacity { deque_capacity list.old ≤ deque_capacity list.new }
    ensures ok { OnOk result (deque_len list.new + additional ≤ deque_capacity list.new) }
    ensures full { OnErr result (deque_capacity list.old < deque_len list.old + additional) }
{
    match list.reserve(additional) {
        Ok(()) => Ok(()),
        Err(_) => Err(NoMemory::refused()),
    }
}
