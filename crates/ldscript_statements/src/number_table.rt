//! Tables from names to numbers. Comparisons of names order them, so that no choice of names makes one slow.

ghost use Rattle.std.specs.Prelude.{◌≡◌, ℕ, List, None, Some, OnOk, bytes_eq, if◌then◌else◌, is_some};
ghost use Rattle.std.specs.Ordering.{nat_cmp};
ghost use Rattle.std.specs.Cmp.Lexicographic.{slice_cmp};
ghost use Rattle.std.specs.BTreeMap.{get_by};
ghost use Rattle.std.specs.Vec.{vec_items};
ghost use Rattle.ldscript_statements.specs.NameKinds.{AreKindsOf};

use crate::name_kinds::NameKinds;
use growth::{NoMemory, btree_map, vec};
use std::alloc::Global;
use std::collections::BTreeMap;

/// Numbers under names.
#[derive(Drop)]
pub struct NumberTable {
    numbers: BTreeMap<Vec<u8>, usize>,
    /// The kinds of its names: most names that are looked up are of none of these.
    kinds: NameKinds,
    ghost known: { AreKindsOf kinds
        (λ name. is_some (get_by (λ key. slice_cmp nat_cmp name (vec_items key)) numbers)) },
}

impl NumberTable {
    ghost use Rattle.ldscript_statements.specs.NumberTables.{number_at};

    /// The empty table.
    pub(crate) fn new(alloc: Global) -> NumberTable
        ensures { (name : List ℕ) → number_at result name ≡ None }
    {
        NumberTable {
            numbers: BTreeMap::new(alloc),
            kinds: NameKinds::none(),
        }
    }

    /// Inserts a number under a name, in place of an earlier one.
    pub(crate) fn put(&mut self, alloc: Global, name: &[u8], number: usize) -> Result<(), NoMemory>
        ensures { OnOk result ((q : List ℕ)
            → number_at self.new q ≡ (if bytes_eq q name.now then Some number else number_at self.old q)) }
    {
        let key = vec::from_slice(alloc, name)?;
        self.kinds.note(name);
        btree_map::insert(&mut self.numbers, key, number)?;
        Ok(())
    }

    /// The number under a name, in time logarithmic in the number of names, and constant if none of them has the name's
    /// kind.
    pub fn number(&self, name: &[u8]) -> Option<usize>
        ensures { result ≡ number_at self.now name.now }
    {
        if !self.kinds.has_kind_of(name) {
            return None;
        }
        self.numbers.get(name).copied()
    }
}
