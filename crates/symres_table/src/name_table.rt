//! Numbers of names. A name keeps its number until it is forgotten.

ghost use Rattle.std.specs.Prelude.{◌≡◌, ◌≢◌, ◌==◌, ℕ, List, [], IfOk, IfSome, Some, None, MatchOption, length};
ghost use Rattle.std.specs.Prelude.{take, IfNone, ◌++◌, ◌∷◌};
ghost use Rattle.std.specs.Prelude.{map, filter, is_some, if◌then◌else◌, nat_lt, OnErr, ◌<◌, slice_index_or};
ghost use Rattle.slab.specs.Slab.{ContainsKey, get, Updates};
ghost use Rattle.symres_table.specs.Known.{AddsNames, AreApart, entry_spelled, Files, HaveSlots, IsConsistent};
ghost use Rattle.symres_table.specs.Known.{IsKeptWhere};
ghost use Rattle.symres_table.specs.Known.{kept_if, number_in};
ghost use Rattle.std.proofs.Common.{Vec, Global};
ghost use Rattle.symres_table.specs.Numbers.{is_used};
ghost use Rattle.symres_table.specs.State.{slot, AreDistinct, IsListing, IsNamed, KeepsNames};

use crate::hashing::WordState;
use crate::objects::Objects;
use growth::{NoMemory, index_map, slabs, vec};
use indexmap::IndexMap;
use indexmap::map::Iter;
use slab::Slab;
use std::alloc::Global;
use std::hash::RandomState;
use std::marker::Model;

/// Two tables that tell each other's contents: the number of a name, and under each number the place of its name in the
/// first table.
#[derive(Drop)]
pub struct NameTable {
    numbers: IndexMap<Vec<u8>, usize, WordState>,
    places: Slab<usize>,
}

impl Model for NameTable {
    ghost use Rattle.std.specs.Prelude.{map};
    ghost use Rattle.symres_table.specs.Known.{entry_spelled, spelled, stored, IsFiled, KnownNames};

    ghost Value = { KnownNames };

    ghost view = { λ a. record {
      slots = map spelled (stored a.numbers.entries a.places.slots);
      order = map entry_spelled a.numbers.entries;
    } };

    ghost invariant = { λ a. IsFiled a.numbers.entries a.places.slots };
}

fn has_place(places: &Slab<usize>, number: usize) -> bool
    ensures { result ≡ is_some (get places.now number) }
{
    places.get(number).is_some()
}

fn drop_unused(places: &mut Slab<usize>, objects: &Objects)
    ensures { (n : ℕ) → get places.new n ≡ (if is_used n objects.now.objects then get places.old n else None) }
{
    places.retain(|number, _place| objects.is_used(number));
}

/// Drops the numbers of the names from an index of the list on.
fn drop_from(places: &mut Slab<usize>, count: usize)
    ensures { (n : ℕ) → get places.new n ≡ kept_if (λ p. nat_lt p count) (get places.old n) }
{
    places.retain(|_number, place| *place < count);
}

/// Writes the place of the name of a number.
fn file(places: &mut Slab<usize>, number: usize, place: usize)
    requires { ContainsKey places.old number }
    ensures updates { Updates places.old places.new number (Some place) }
    ensures long { length places.new.slots ≡ length places.old.slots }
{
    places[number] = place;
}

fn number_at(numbers: &IndexMap<Vec<u8>, usize, WordState>, place: usize) -> usize
    requires { place < length numbers.now.entries }
    ensures { (e : Vec ℕ Global × ℕ) → (slice_index_or numbers.now.entries place e).1 ≡ result }
{
    match numbers.get_index(place) {
        Some((_name, number)) => *number,
        None => unreachable!(),
    }
}

/// Appends a name with this number, or returns the number that it has.
fn put_new(
    numbers: &mut IndexMap<Vec<u8>, usize, WordState>,
    key: Vec<u8>,
    number: usize,
) -> Result<Option<usize>, NoMemory>
    ensures same { IfOk result (λ o. IfSome o (λ n. numbers.new.entries ≡ numbers.old.entries)) }
    ensures known { IfOk result (λ o. IfSome o (λ n. number_in key.items numbers.old.entries ≡ Some n)) }
    ensures absent { IfOk result (λ o. IfNone o (number_in key.items numbers.old.entries ≡ None)) }
    ensures put { IfOk result (λ o. IfNone o (numbers.new.entries ≡ numbers.old.entries ++ (key, number) ∷ [])) }
    ensures refused { OnErr result (numbers.new.entries ≡ numbers.old.entries) }
{
    index_map::insert_new(numbers, key, number)
}

/// Writes the places of all names, which have moved.
fn file_all(places: &mut Slab<usize>, numbers: &IndexMap<Vec<u8>, usize, WordState>)
    requires apart { AreApart numbers.now.entries }
    requires slots { HaveSlots numbers.now.entries places.old.slots }
    ensures { Files numbers.now.entries (length numbers.now.entries) places.old.slots places.new.slots }
{
    for place in 0..numbers.len() {
        file(places, number_at(numbers, place), place);
    }
}

impl NameTable {
    /// A table that hashes by `seed`, so that whoever picks names cannot tell which of them collide.
    pub fn new(alloc: Global, seed: RandomState) -> NameTable
        ensures { result ≡ record { slots = []; order = [] } }
    {
        NameTable {
            numbers: IndexMap::with_hasher(alloc, WordState::new(seed)),
            places: Slab::new(alloc),
        }
    }

    /// Makes room for this many more names, as far as there is memory for it.
    pub fn expect(&mut self, names: usize)
        ensures { self.new ≡ self.old }
    {
        match self.numbers.reserve(names) {
            Ok(()) => {}
            Err(_refused) => {}
        }
        match self.places.reserve(names) {
            Ok(()) => {}
            Err(_refused) => {}
        }
    }

    /// The allocator of the tables.
    pub fn allocator(&self) -> Global {
        *self.numbers.allocator()
    }

    /// How many names are known. The two tables agree, and no two numbers have one name.
    pub fn len(&self) -> usize
        ensures len { result ≡ length self.now.order }
        ensures consistent { IsConsistent self.now }
        ensures distinct { AreDistinct self.now.slots }
        ensures listing { IsListing self.now.slots self.now.order }
    {
        self.numbers.len()
    }

    /// The number of a name.
    pub fn number_of(&self, name: &[u8]) -> Option<usize>
        ensures number { MatchOption result ((n : ℕ) → slot self.now.slots n ≢ Some name.now) (λ n.
            IsNamed self.now.slots n name.now) }
        ensures distinct { AreDistinct self.now.slots }
    {
        self.numbers.get(name).copied()
    }

    /// The name of a number.
    pub fn name_of(&self, number: usize) -> Option<&[u8]>
        ensures { MatchOption result ((name : List ℕ) → slot self.now.slots number ≢ Some name) (λ name.
            IsNamed self.now.slots number name.now) }
    {
        match self.places.get(number) {
            Some(place) => match self.numbers.get_index(*place) {
                Some((name, _number)) => Some(name.as_slice()),
                None => None,
            },
            None => None,
        }
    }

    /// Whether a number has a name, which is not read.
    #[inline(always)]
    pub fn has_name(&self, number: usize) -> bool
        ensures { result ≡ is_some (slot self.now.slots number) }
    {
        has_place(&self.places, number)
    }

    /// The number of a name, which is new if the name was not known.
    #[inline(never)]
    pub fn add(&mut self, name: &[u8]) -> Result<usize, NoMemory>
        ensures ok { IfOk result (λ n. IsNamed self.new.slots n name.now) }
        ensures kept { KeepsNames self.old.slots self.new.slots }
        ensures added { AddsNames self.old self.new }
    {
        match self.number_of(name) {
            Some(number) => Ok(number),
            None => self.insert(name),
        }
    }

    /// The same as `add`, for a name that is likely to be new: it is hashed once.
    #[inline(never)]
    pub fn add_new(&mut self, name: &[u8]) -> Result<usize, NoMemory>
        ensures ok { IfOk result (λ n. IsNamed self.new.slots n name.now) }
        ensures kept { KeepsNames self.old.slots self.new.slots }
        ensures added { AddsNames self.old self.new }
    {
        let key = vec::from_slice(*self.numbers.allocator(), name)?;
        slabs::reserve(&mut self.places, 1)?;
        let place = self.numbers.len();
        match put_new(&mut self.numbers, key, self.places.vacant_key())? {
            Some(number) => Ok(number),
            None => Ok(self.places.insert_reserved(place)),
        }
    }

    /// The first byte of the name at an index of the list of names, if it has one.
    #[inline(always)]
    pub fn first_byte(&self, place: usize) -> Option<u8> {
        match self.numbers.get_index(place) {
            Some((key, _number)) => key.first().copied(),
            None => None,
        }
    }

    /// The number of a name, if it is the one at an index of the list of names.
    #[inline(always)]
    pub fn number_if(&self, place: usize, name: &[u8]) -> Option<usize>
        ensures { IfSome result (λ n. IsNamed self.now.slots n name.now) }
    {
        match self.numbers.get_index(place) {
            Some((key, number)) => {
                if key.as_slice() == name {
                    Some(*number)
                } else {
                    None
                }
            }
            None => None,
        }
    }

    /// The number of a name, which is new if the name was not known. It is not hashed if it is at this index of the
    /// list of names.
    #[inline(always)]
    pub fn add_at(&mut self, place: Option<usize>, name: &[u8]) -> Result<usize, NoMemory>
        ensures ok { IfOk result (λ n. IsNamed self.new.slots n name.now) }
        ensures kept { KeepsNames self.old.slots self.new.slots }
        ensures added { AddsNames self.old self.new }
    {
        if let Some(place) = place {
            if let Some(number) = self.number_if(place, name) {
                return Ok(number);
            }
        }
        self.add(name)
    }

    /// The number of the name at an index of the list of names.
    pub fn number_listed(&self, place: usize) -> usize
        requires { place < length self.now.order }
        ensures { (e : List ℕ × ℕ) → (slice_index_or self.now.order place e).1 ≡ result }
    {
        number_at(&self.numbers, place)
    }

    /// The names with their numbers.
    pub fn iter(&self) -> Iter<'_, Vec<u8>, usize>
        ensures names { map entry_spelled result ≡ self.now.order }
        ensures listing { IsListing self.now.slots self.now.order }
    {
        self.numbers.iter()
    }

    /// Forgets the names that have no entry. The others keep their numbers.
    pub fn forget_unused(&mut self, objects: &Objects)
        ensures kept { IsKeptWhere (λ n. is_used n objects.now.objects) self.old.slots self.new.slots }
        ensures order { self.new.order ≡ filter (λ (e : List ℕ × ℕ). is_used e.1 objects.now.objects) self.old.order }
    {
        drop_unused(&mut self.places, objects);
        let places = &self.places;
        self.numbers
            .retain(|_name, number| has_place(places, *number));
        // for the prover: brings in the invariant of `self.numbers`
        let _count = self.numbers.len();
        file_all(&mut self.places, &self.numbers);
    }

    /// Forgets the names that are not among the first `count` to become known. The others keep their numbers.
    pub fn drop_newer(&mut self, count: usize)
        ensures { self.new.order ≡ take count self.old.order }
    {
        self.numbers.truncate(count);
        drop_from(&mut self.places, count);
    }

    fn insert(&mut self, name: &[u8]) -> Result<usize, NoMemory>
        requires { (n : ℕ) → slot self.old.slots n ≢ Some name.now }
        ensures ok { IfOk result (λ n. IsNamed self.new.slots n name.now) }
        ensures kept { KeepsNames self.old.slots self.new.slots }
        ensures added { AddsNames self.old self.new }
    {
        let key = vec::from_slice(*self.numbers.allocator(), name)?;
        slabs::reserve(&mut self.places, 1)?;
        let place = self.numbers.len();
        index_map::insert(&mut self.numbers, key, self.places.vacant_key())?;
        Ok(self.places.insert_reserved(place))
    }
}
