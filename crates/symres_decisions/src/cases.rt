//! The cases of names by the keys of names, and how many of them are duplicates.

ghost use Rattle.std.specs.Prelude.{◌≡◌, ◌<◌, ◌≤◌, ℕ, [], length, OnOk, slice_set, count_by, if◌then◌else◌};
ghost use Rattle.symres_decisions.specs.Decided.{case_at, is_doubled};

use growth::{NoMemory, vec};
use ldmodel::names::{Case, NameKey, ObjectKey};
use std::alloc::Global;
use std::marker::Model;

/// The case of each key that has one. How many are duplicates is known without a pass.
#[derive(Drop)]
pub struct Cases {
    list: Vec<Option<Case<ObjectKey>>>,
    doubled: usize,
}

impl Model for Cases {
    ghost use Rattle.std.specs.Prelude.{◌≡◌, count_by, List, Option};
    ghost use Rattle.ldmodel.specs.declared.names.Case.{Case};
    ghost use Rattle.ldmodel.specs.declared.names.ObjectKey.{ObjectKey};
    ghost use Rattle.symres_decisions.specs.Decided.{is_doubled};

    ghost Value = { List (Option (Case ObjectKey)) };

    ghost view = { λ a. a.list.items };

    ghost invariant = { λ a. a.doubled ≡ count_by is_doubled a.list.items };
}

/// 1 for a duplicate.
fn count(case: Option<Case<ObjectKey>>) -> usize
    ensures { result ≡ (if is_doubled case then 1 else 0) }
{
    match case {
        Some(Case::Duplicate) => 1,
        Some(
            Case::Strong(_)
            | Case::Script
            | Case::Common { .. }
            | Case::Weak(_)
            | Case::Provided
            | Case::Undefined,
        )
        | None => 0,
    }
}

impl Cases {
    /// No cases.
    pub fn new(alloc: Global) -> Cases
        ensures { result ≡ [] }
    {
        Cases {
            list: Vec::new(alloc),
            doubled: 0,
        }
    }

    /// How many places for cases there are: each key that has a case is below this number.
    pub fn len(&self) -> usize
        ensures { result ≡ length self.now }
    {
        self.list.len()
    }

    /// How many are duplicates.
    pub fn doubled(&self) -> usize
        ensures { result ≡ count_by is_doubled self.now }
    {
        self.doubled
    }

    /// The case of a key, if it has one.
    #[inline(always)]
    pub fn get(&self, key: NameKey) -> Option<Case<ObjectKey>>
        ensures { result ≡ case_at self.now key.0 }
    {
        self.list.get(key.0).copied().unwrap_or(None)
    }

    /// Gives a key this case, or none. There is a place for it.
    pub fn set(&mut self, key: NameKey, case: Option<Case<ObjectKey>>)
        requires { key.0 < length self.old }
        ensures { self.new ≡ slice_set self.old key.0 case }
    {
        let without = self.doubled - count(self.list[key.0]);
        self.list[key.0] = case;
        self.doubled = without + count(case);
    }

    /// Makes room for this number of places more.
    pub fn reserve(&mut self, count: usize) -> Result<(), NoMemory>
        ensures { self.new ≡ self.old }
    {
        vec::reserve_exact(&mut self.list, count)
    }

    /// Makes places for cases up to a key.
    pub fn grow_to(&mut self, key: NameKey) -> Result<(), NoMemory>
        ensures same { (k : ℕ) → case_at self.new k ≡ case_at self.old k }
        ensures more { length self.old ≤ length self.new }
        ensures ok { OnOk result (key.0 < length self.new) }
    {
        while self.list.len() <= key.0 {
            vec::push(&mut self.list, None)?;
        }
        Ok(())
    }
}
