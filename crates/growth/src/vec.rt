//! The calls of `Vec`.

ghost use Rattle.std.specs.Prelude.{◌≡◌, ◌+◌, ◌-◌, ◌<◌, ◌≤◌, ◌++◌, ◌∷◌, [], ℕ, length, take, replicate, insert, max};
ghost use Rattle.std.specs.Prelude.{is_ok, if◌then◌else◌, slice_index_or, IfOk, OnOk, OnErr, IsOk};
ghost use Rattle.std.specs.Prelude.{vec_len, vec_capacity};
ghost use Rattle.std.specs.List.{AllClonesOf, AllZip, SameBelow};
ghost use Rattle.std.specs.List.Sorted.{IsPermutation, IsSortedByClosure, IsSortedByKeyClosure};
ghost use Rattle.std.specs.List.Sorted.{IsStableByClosure, IsStableByKeyClosure};

use crate::no_memory::NoMemory;
use std::alloc::Global;
use std::cmp::Ordering;

/// An empty list with room for `capacity` elements.
pub fn with_capacity<T>(alloc: Global, capacity: usize) -> Result<Vec<T>, NoMemory>
    ensures items { IfOk result (λ v. v.items ≡ []) }
    ensures len { IfOk result (λ v. vec_len v ≡ 0) }
    ensures capacity { IfOk result (λ v. capacity ≤ vec_capacity v) }
    ensures exact { IfOk result (λ v. vec_capacity v ≡ capacity) }
    ensures succeeds { capacity ≡ 0 → IsOk result }
{
    match Vec::with_capacity(alloc, capacity) {
        Ok(list) => Ok(list),
        Err(_) => Err(NoMemory::refused()),
    }
}

/// A list of copies of these elements.
pub fn from_slice<T: Copy>(alloc: Global, items: &[T]) -> Result<Vec<T>, NoMemory>
    ensures items { IfOk result (λ v. v.items ≡ items.now) }
    ensures len { IfOk result (λ v. vec_len v ≡ length items.now) }
{
    match Vec::from_slice(alloc, items) {
        Ok(list) => Ok(list),
        Err(_) => Err(NoMemory::refused()),
    }
}

/// A list of `n` clones of one element.
pub fn from_elem<T: Clone + Drop>(alloc: Global, elem: T, n: usize) -> Result<Vec<T>, NoMemory>
    ensures items { IfOk result (λ v. AllClonesOf T.is_clone elem v.items) }
    ensures len { IfOk result (λ v. vec_len v ≡ n) }
    ensures items_if_clones_equal { IfOk result (λ v. ((y : T) → T.is_clone elem y → y ≡ elem)
        → v.items ≡ replicate n elem) }
{
    match Vec::from_elem(alloc, elem, n) {
        Ok(list) => Ok(list),
        Err(_) => Err(NoMemory::refused()),
    }
}

/// A list of one element.
pub fn of_one<T: Drop>(alloc: Global, value: T) -> Result<Vec<T>, NoMemory>
    ensures items { IfOk result (λ v. v.items ≡ value ∷ []) }
    ensures len { IfOk result (λ v. vec_len v ≡ 1) }
{
    let mut list = Vec::new(alloc);
    match list.push(value) {
        Ok(()) => Ok(list),
        Err(_) => Err(NoMemory::refused()),
    }
}

/// A list of clones of these elements.
pub fn to_vec<T: Clone>(items: &[T], alloc: Global) -> Result<Vec<T>, NoMemory>
    ensures ok { IfOk result (λ v. AllZip T.is_clone items.now v.items) }
    ensures len { IfOk result (λ v. vec_len v ≡ length items.now) }
    ensures items_if_clones_equal { IfOk result (λ v. ((x y : T) → T.is_clone x y → y ≡ x) → v.items ≡ items.now) }
{
    match items.to_vec(alloc) {
        Ok(list) => Ok(list),
        Err(_) => Err(NoMemory::refused()),
    }
}

/// Makes room for `additional` more elements.
pub fn reserve<T>(list: &mut Vec<T>, additional: usize) -> Result<(), NoMemory>
    // The elements stay, whatever the result.
    ensures items { list.new.items ≡ list.old.items }
    ensures len { vec_len list.new ≡ vec_len list.old }

    // Success leaves room for `additional` more, and the capacity never shrinks.
    ensures ok { OnOk result (vec_len list.new + additional ≤ vec_capacity list.new) }
    ensures capacity { vec_capacity list.old ≤ vec_capacity list.new }

    // It fails only where that room was missing, and then the capacity stays.
    ensures succeeds { vec_len list.old + additional ≤ vec_capacity list.old → IsOk result }
    ensures full { OnErr result (vec_capacity list.old < vec_len list.old + additional) }
    ensures err { OnErr result (vec_capacity list.new ≡ vec_capacity list.old) }
{
    match list.reserve(additional) {
        Ok(()) => Ok(()),
        Err(_) => Err(NoMemory::refused()),
    }
}

/// Makes room for exactly `additional` more elements.
pub fn reserve_exact<T>(list: &mut Vec<T>, additional: usize) -> Result<(), NoMemory>
    ensures items { list.new.items ≡ list.old.items }
    ensures len { vec_len list.new ≡ vec_len list.old }
    ensures ok { OnOk result (vec_len list.new + additional ≤ vec_capacity list.new) }
    ensures capacity { vec_capacity list.old ≤ vec_capacity list.new }
    ensures succeeds { vec_len list.old + additional ≤ vec_capacity list.old → IsOk result }
    ensures full { OnErr result (vec_capacity list.old < vec_len list.old + additional) }
    ensures capacity_exact { OnOk result
        (vec_capacity list.new ≡ max (vec_capacity list.old) (vec_len list.old + additional)) }
    ensures err { OnErr result (vec_capacity list.new ≡ vec_capacity list.old) }
{
    match list.reserve_exact(additional) {
        Ok(()) => Ok(()),
        Err(_) => Err(NoMemory::refused()),
    }
}

/// Appends an element.
pub fn push<T: Drop>(list: &mut Vec<T>, value: T) -> Result<(), NoMemory>
    // On success `value` is appended. On failure the elements stay.
    ensures items { list.new.items ≡ (if is_ok result then list.old.items ++ value ∷ [] else list.old.items) }
    ensures len { vec_len list.new ≡ (if is_ok result then vec_len list.old + 1 else vec_len list.old) }

    // The capacity never shrinks, and a push with room to spare succeeds.
    ensures capacity { vec_capacity list.old ≤ vec_capacity list.new }
    ensures succeeds { vec_len list.old < vec_capacity list.old → IsOk result }

    // The length grows by at most one, and only a full list can fail.
    ensures lower_bound { vec_len list.old ≤ vec_len list.new }
    ensures upper_bound { vec_len list.new ≤ vec_len list.old + 1 }
    ensures full { OnErr result (vec_capacity list.old ≤ vec_len list.old) }

    // `items` again, index by index.
    ensures by_index { SameBelow list.old.items list.new.items (vec_len list.old)
        × ((d : T) → IsOk result → slice_index_or list.new.items (vec_len list.old) d ≡ value) }
{
    match list.push(value) {
        Ok(()) => Ok(()),
        Err(_) => Err(NoMemory::refused()),
    }
}

/// Puts an element at a place, and moves those from there on up.
pub fn insert<T: Drop>(list: &mut Vec<T>, index: usize, element: T) -> Result<(), NoMemory>
    requires { index ≤ vec_len list.old }

    // On success `element` stands at `index`. On failure the elements stay.
    ensures items { list.new.items ≡ (if is_ok result then insert list.old.items index element else list.old.items) }
    ensures len { vec_len list.new ≡ (if is_ok result then vec_len list.old + 1 else vec_len list.old) }

    // The capacity never shrinks. With room it succeeds; only a full list can fail.
    ensures capacity { vec_capacity list.old ≤ vec_capacity list.new }
    ensures succeeds { vec_len list.old < vec_capacity list.old → IsOk result }
    ensures full { OnErr result (vec_capacity list.old ≤ vec_len list.old) }

    // `items` again, index by index.
    ensures by_index { ((d : T) → IsOk result → slice_index_or list.new.items index d ≡ element)
        × SameBelow list.old.items list.new.items index
        × ((k : ℕ) (d : T) → IsOk result → index < k
        → slice_index_or list.new.items k d ≡ slice_index_or list.old.items (k - 1) d) }
{
    match list.insert(index, element) {
        Ok(()) => Ok(()),
        Err(_) => Err(NoMemory::refused()),
    }
}

/// Appends copies of these elements.
pub fn extend_from_slice<T: Copy>(list: &mut Vec<T>, other: &[T]) -> Result<(), NoMemory>
    // On success `other` is appended. On failure the elements stay.
    ensures items { list.new.items ≡ (if is_ok result then list.old.items ++ other.now else list.old.items) }
    ensures len { vec_len list.new ≡ (if is_ok result then vec_len list.old + length other.now else vec_len list.old) }

    // The capacity never shrinks, and the call fails only where room was missing.
    ensures capacity { vec_capacity list.old ≤ vec_capacity list.new }
    ensures succeeds { vec_len list.old + length other.now ≤ vec_capacity list.old → IsOk result }
    ensures full { OnErr result (vec_capacity list.old < vec_len list.old + length other.now) }

    // `items` again, index by index.
    ensures by_index { SameBelow list.old.items list.new.items (vec_len list.old)
        × ((k : ℕ) (d : T) → IsOk result → vec_len list.old ≤ k
        → slice_index_or list.new.items k d ≡ slice_index_or other.now (k - vec_len list.old) d) }
{
    match list.extend_from_slice(other) {
        Ok(()) => Ok(()),
        Err(_) => Err(NoMemory::refused()),
    }
}

/// Keeps the first `n` elements, and fills up to `n` with copies of `value`.
pub fn resize<T: Copy>(list: &mut Vec<T>, n: usize, value: T) -> Result<(), NoMemory>
    // On success it is cut to `n`, or filled up with `value`. On failure the elements stay.
    ensures items { list.new.items ≡ (if is_ok result
        then take n list.old.items ++ replicate (n - vec_len list.old) value else list.old.items) }
    ensures len { vec_len list.new ≡ (if is_ok result then n else vec_len list.old) }

    // The capacity never shrinks, and the call fails only if the capacity was below `n`.
    ensures capacity { vec_capacity list.old ≤ vec_capacity list.new }
    ensures succeeds { n ≤ vec_capacity list.old → IsOk result }
    ensures full { OnErr result (vec_capacity list.old < n) }

    // `items` again, index by index.
    ensures by_index { ((k : ℕ) (d : T) → k < n → k < vec_len list.old
        → slice_index_or list.new.items k d ≡ slice_index_or list.old.items k d)
        × ((k : ℕ) (d : T) → IsOk result → vec_len list.old ≤ k → k < n → slice_index_or list.new.items k d ≡ value) }
{
    match list.resize(n, value) {
        Ok(()) => Ok(()),
        Err(_) => Err(NoMemory::refused()),
    }
}

/// Moves the elements of another list to the end.
pub fn append<T>(list: &mut Vec<T>, other: &mut Vec<T>) -> Result<(), NoMemory>
    // On success the elements of `other` move to the end. On failure both keep theirs.
    ensures items { list.new.items ≡ (if is_ok result then list.old.items ++ other.old.items else list.old.items) }
    ensures len { vec_len list.new ≡ (if is_ok result then vec_len list.old + vec_len other.old else vec_len list.old) }
    ensures other_items { other.new.items ≡ (if is_ok result then [] else other.old.items) }
    ensures other_len { vec_len other.new ≡ (if is_ok result then 0 else vec_len other.old) }

    // It fails only where room was missing. The capacity never shrinks; `other`'s stays.
    ensures capacity { vec_capacity list.old ≤ vec_capacity list.new }
    ensures succeeds { vec_len list.old + vec_len other.old ≤ vec_capacity list.old → IsOk result }
    ensures other_capacity { vec_capacity other.new ≡ vec_capacity other.old }
    ensures full { OnErr result (vec_capacity list.old < vec_len list.old + vec_len other.old) }
{
    match list.append(other) {
        Ok(()) => Ok(()),
        Err(_) => Err(NoMemory::refused()),
    }
}

/// Sorts by an order. Elements that are equal in it keep their order.
pub fn sort_by<T, F: FnMut(&T, &T) -> Ordering>(
    list: &mut Vec<T>,
    compare: F,
) -> Result<(), NoMemory>
    requires { F.IsAlwaysCallable compare }

    // The same elements in the same capacity, whatever the result.
    ensures permutation { IsPermutation list.old.items list.new.items }
    ensures len { vec_len list.new ≡ vec_len list.old }
    ensures capacity { vec_capacity list.new ≡ vec_capacity list.old }

    // Where `compare` is a strict weak order: success sorts by it, and ties keep their order.
    ensures sorted { OnOk result (IsSortedByClosure F.FnMut compare list.new.items) }
    ensures stable { IsStableByClosure F.FnMut compare list.old.items list.new.items }

    // On failure the elements stay in place. Sorting up to 20 elements never fails.
    ensures err { OnErr result (list.new.items ≡ list.old.items) }
    ensures succeeds { vec_len list.old ≤ 20 → IsOk result }
{
    match list.sort_by(compare) {
        Ok(()) => Ok(()),
        Err(_) => Err(NoMemory::refused()),
    }
}

/// Sorts by a key. Elements of the same key keep their order.
pub fn sort_by_key<T, K: Ord + Drop, F: FnMut(&T) -> K>(
    list: &mut Vec<T>,
    f: F,
) -> Result<(), NoMemory>
    requires { F.IsAlwaysCallable f }

    // The same elements in the same capacity, whatever the result.
    ensures permutation { IsPermutation list.old.items list.new.items }
    ensures len { vec_len list.new ≡ vec_len list.old }
    ensures capacity { vec_capacity list.new ≡ vec_capacity list.old }

    // Where `f` is a function of the element: success sorts by key, and ties keep their order.
    ensures sorted { OnOk result (IsSortedByKeyClosure F.FnMut K.cmp f list.new.items) }
    ensures stable { IsStableByKeyClosure F.FnMut K.cmp f list.old.items list.new.items }

    // On failure the elements stay in place. Sorting up to 20 elements never fails.
    ensures err { OnErr result (list.new.items ≡ list.old.items) }
    ensures succeeds { vec_len list.old ≤ 20 → IsOk result }
{
    match list.sort_by_key(f) {
        Ok(()) => Ok(()),
        Err(_) => Err(NoMemory::refused()),
    }
}
