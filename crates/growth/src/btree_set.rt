//! The calls of `BTreeSet`.

ghost use Rattle.std.specs.Prelude.{◌≡◌, ◌+◌, IfOk, OnOk, OnErr, true, false, not, if◌then◌else◌};
ghost use Rattle.std.specs.Bool.{OnFalse};
ghost use Rattle.std.specs.BTreeSet.{btree_set_len, contains, insert_key, IsOrdered, IsUnchanged, Updates};

use crate::no_memory::NoMemory;
use std::collections::BTreeSet;

/// Adds a key, and returns whether it is new. If it is not, the stored key stays.
pub fn insert<K: Ord + Drop>(set: &mut BTreeSet<K>, key: K) -> Result<bool, NoMemory>
    // On success the set has `key`, other keys stay, and the result says if it was new.
    ensures added { IfOk result (λ added. added ≡ not (contains K.cmp set.old key)) }
    ensures updates { OnOk result (Updates K.cmp set.old set.new key true) }
    ensures keys { OnOk result (set.new.keys ≡ insert_key K.cmp set.old.keys key) }
    ensures unchanged { IfOk result (λ added. OnFalse added (IsUnchanged set.old set.new)) }
    ensures len { IfOk result (λ added. btree_set_len set.new ≡ btree_set_len set.old + (if added then 1 else 0)) }

    // On failure the keys stay. Only a new key can fail.
    ensures err { OnErr result (IsUnchanged set.old set.new) }
    ensures absent { OnErr result (contains K.cmp set.old key ≡ false) }

    // The keys ascend.
    ensures ordered { IsOrdered K.cmp set.new }
{
    match set.insert(key) {
        Ok(added) => Ok(added),
        Err(_) => Err(NoMemory::refused()),
    }
}
