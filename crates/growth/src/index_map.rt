//! The calls of `IndexMap`.

ghost use Rattle.std.specs.Prelude.{◌≡◌, ◌+◌, ◌<◌, ◌≤◌, is_some, if◌then◌else◌, Some, None};
ghost use Rattle.std.specs.Prelude.{IfOk, OnOk, OnErr, IfSome, IfNone, IsOk};
ghost use Rattle.indexmap.specs.IndexMap.{get, hasher_of, index_map_len, insert_entry, spare};
ghost use Rattle.indexmap.specs.IndexMap.{IsUnchanged, IsUnique, KeepsRoom, Updates};

use crate::no_memory::NoMemory;
use indexmap::IndexMap;
use indexmap::map::Entry;
use std::hash::{BuildHasher, Hash};

/// Makes room for `additional` more entries.
pub fn reserve<K: Eq + Hash, V, S: BuildHasher>(
    map: &mut IndexMap<K, V, S>,
    additional: usize,
) -> Result<(), NoMemory>
    ensures entries { IsUnchanged map.old map.new }
    ensures ok { OnOk result (additional ≤ spare map.new) }
    ensures succeeds { additional ≤ spare map.old → IsOk result }
    ensures room { KeepsRoom map.old map.new }
    ensures unique { IsUnique K.eq map.new }
{
    match map.reserve(additional) {
        Ok(()) => Ok(()),
        Err(_) => Err(NoMemory::refused()),
    }
}

/// Inserts a pair. A key that is there keeps its place, and the old value is returned. A new key goes last.
pub fn insert<K: Eq + Hash + Drop, V: Drop, S: BuildHasher>(
    map: &mut IndexMap<K, V, S>,
    key: K,
    value: V,
) -> Result<Option<V>, NoMemory>
    // On success `key` has `value`, its old value is returned, and other keys keep theirs.
    ensures old { IfOk result (λ old. old ≡ get K.eq map.old key) }
    ensures updates { OnOk result (Updates K.eq map.old map.new key (Some value)) }
    ensures entries { OnOk result (map.new.entries ≡ insert_entry K.eq map.old.entries key value) }
    ensures len { IfOk result (λ old. index_map_len map.new ≡ index_map_len map.old + (if is_some old then 0 else 1)) }

    // On failure the entries stay. Only a new key can fail.
    ensures err { OnErr result (IsUnchanged map.old map.new) }
    ensures absent { OnErr result (get K.eq map.old key ≡ None) }

    // With room to spare it succeeds, and it uses up at most one place.
    ensures succeeds { 0 < spare map.old → IsOk result }
    ensures spare { spare map.old ≤ spare map.new + 1 }
    ensures hasher { hasher_of map.new ≡ hasher_of map.old }
    ensures unique { IsUnique K.eq map.new }
{
    match map.insert(key, value) {
        Ok(old) => Ok(old),
        Err(_) => Err(NoMemory::refused()),
    }
}

/// Inserts a pair if the key is new, which goes last; returns the value that the key has otherwise.
pub fn insert_new<K: Eq + Hash + Drop, V: Copy, S: BuildHasher>(
    map: &mut IndexMap<K, V, S>,
    key: K,
    value: V,
) -> Result<Option<V>, NoMemory>
    ensures old { IfOk result (λ old. old ≡ get K.eq map.old key) }
    ensures known { IfOk result (λ old. IfSome old (λ _. map.new.entries ≡ map.old.entries)) }
    ensures put { IfOk result (λ old. IfNone old (map.new.entries ≡ insert_entry K.eq map.old.entries key value)) }
    ensures err { OnErr result (map.new.entries ≡ map.old.entries) }
{
    match map.entry(key) {
        Ok(Entry::Occupied(entry)) => Ok(Some(*entry.get())),
        Ok(Entry::Vacant(entry)) => {
            entry.insert(value);
            Ok(None)
        }
        Err(_) => Err(NoMemory::refused()),
    }
}
