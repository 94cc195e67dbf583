//! The calls of `BTreeMap`.

ghost use Rattle.std.specs.Prelude.{◌≡◌, ◌+◌, IfOk, OnOk, OnErr, IsSome, Some, None, is_some, if◌then◌else◌};
ghost use Rattle.std.specs.BTreeMap.{btree_map_len, get, insert_entry, keys, IsOrdered, IsUnchanged, Updates};

use crate::no_memory::NoMemory;
use std::collections::BTreeMap;

/// Puts a value at a key. A key that is there stays, and its old value is returned.
pub fn insert<K: Ord + Drop, V: Drop>(
    map: &mut BTreeMap<K, V>,
    key: K,
    value: V,
) -> Result<Option<V>, NoMemory>
    // On success `key` has `value`, its old value is returned, and other keys keep theirs.
    ensures old { IfOk result (λ old. old ≡ get K.cmp map.old key) }
    ensures updates { OnOk result (Updates K.cmp map.old map.new key (Some value)) }
    ensures entries { OnOk result (map.new.entries ≡ insert_entry K.cmp map.old.entries key value) }
    ensures keys_stay { IfOk result (λ old. IsSome old → keys map.new ≡ keys map.old) }
    ensures len { IfOk result (λ old. btree_map_len map.new ≡ btree_map_len map.old + (if is_some old then 0 else 1)) }

    // On failure the entries stay. Only a new key can fail.
    ensures absent { OnErr result (get K.cmp map.old key ≡ None) }
    ensures err { OnErr result (IsUnchanged map.old map.new) }

    // The keys ascend.
    ensures ordered { IsOrdered K.cmp map.new }
    ensures was_ordered { IsOrdered K.cmp map.old }
{
    match map.insert(key, value) {
        Ok(old) => Ok(old),
        Err(_) => Err(NoMemory::refused()),
    }
}
