//! The byte order of names by numbers made of their first bytes: the numbers lie side by side and are compared at once,
//! while names lie all over memory.

ghost use Rattle.std.specs.Prelude.{◌≡◌, ◌∷◌, ◌<◌, ℕ, slice_index};
ghost use Rattle.std.specs.Ordering.{nat_cmp};
ghost use Rattle.std.specs.Cmp.Lexicographic.{slice_cmp};
ghost use Rattle.symres_table.specs.PrefixKeys.{IsPrefixKey};

use std::cmp::Ordering;
use std::marker::Model;

/// The number of a name's bytes of which its key is made.
const LEN: usize = 16;

/// The first bytes of a name as a number, the first one worth most, with zeros after the end of a short name.
#[derive(Clone, Copy)]
pub(crate) struct PrefixKey {
    /// The number.
    pub(crate) number: u128,
}

/// The first bytes of a name, with zeros after the end of a short one.
fn padded(name: &[u8]) -> [u8; LEN]
    ensures { (k : ℕ) → k < 16 → slice_index result k ≡ slice_index name.now k }
{
    let mut bytes = [0; LEN];
    let count = name.len().min(LEN);
    bytes[..count].copy_from_slice(&name[..count]);
    bytes
}

impl PrefixKey {
    /// The key of a name.
    pub(crate) fn new(name: &[u8]) -> PrefixKey
        ensures { IsPrefixKey result.number name.now }
    {
        PrefixKey {
            number: u128::from_be_bytes(padded(name)),
        }
    }
}

/// A name with its key. Names are ordered by their bytes, which is found by the keys alone if these differ.
#[derive(Drop)]
pub struct KeyedName<'a> {
    key: PrefixKey,
    name: &'a [u8],
}

impl<'a> Model for KeyedName<'a> {
    ghost use Rattle.std.specs.Prelude.{List, ℕ};
    ghost use Rattle.symres_table.specs.PrefixKeys.{IsPrefixKey};

    ghost Value = { List ℕ };

    ghost view = { λ a. a.name.now };

    ghost invariant = { λ a. IsPrefixKey a.key.number a.name.now };
}

impl<'a> KeyedName<'a> {
    /// A name, with its key.
    pub fn new(name: &'a [u8]) -> KeyedName<'a>
        ensures { result ≡ name.now }
    {
        KeyedName {
            key: PrefixKey::new(name),
            name,
        }
    }

    /// The name.
    pub fn name(&self) -> &'a [u8]
        ensures { result.now ≡ self.now }
    {
        self.name
    }

    /// Which of two names comes first in byte order.
    pub fn cmp(&self, other: &KeyedName<'_>) -> Ordering
        ensures { result ≡ slice_cmp nat_cmp self.now other.now }
    {
        let one = self.key.number;
        let two = other.key.number;
        if one != two {
            return one.cmp(&two);
        }
        self.name.cmp(other.name)
    }
}
