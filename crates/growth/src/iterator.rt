//! What collects the items of an iterator.

ghost use Rattle.std.specs.Prelude.{IfOk, List};
ghost use Rattle.std.specs.Iterator.{DrainsIf, HoldsAlong, IsFinite};
ghost use Rattle.std.specs.Iterator.Runs.{WholeRun};

use crate::no_memory::NoMemory;

/// The items of an iterator, as a collection.
pub fn collect<I: Iterator, B: FromIterator<I::Item>>(
    iter: I,
    alloc: B::Alloc,
) -> Result<B, NoMemory>
    requires can { I.can_next iter }
    requires finite { IsFinite (I.remaining iter) }
    requires can_collect { HoldsAlong I.next_gives iter B.can_from_iter }

    // On success the collection is made of the items taken: all of them, if it is complete.
    ensures ran { IfOk result (λ v. (xs : List I.Item)
        × DrainsIf I.next_gives (B.is_complete v) iter xs × B.from_iter_gives xs v) }

    // If it is complete, the same, as one run of `next` calls up to `None`.
    ensures runs { IfOk result (λ v. B.is_complete v
        → WholeRun I.next_gives iter (λ p. B.from_iter_gives p.items v)) }
{
    match iter.collect(alloc) {
        Ok(collected) => Ok(collected),
        Err(_) => Err(NoMemory::refused()),
    }
}
