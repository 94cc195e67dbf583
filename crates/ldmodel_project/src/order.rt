//! The keys of objects by place, and the places of keys.

ghost use Rattle.std.specs.Prelude.{◌≡◌, ◌==◌, IfOk, OnOk, length, nat_eq, position, slice_get};
ghost use Rattle.std.specs.Option.{option_map};
ghost use Rattle.ldmodel.specs.declared.names.ObjectKey.{ObjectKey};
ghost use Rattle.ldmodel_project.specs.Listing.{AreKeysDistinct};
ghost use Rattle.ldmodel_project.specs.Order.{HasPlaces, IsNoted};

use growth::{NoMemory, vec};
use ldmodel::names::ObjectKey;
use std::alloc::Global;
use std::marker::Model;

/// The keys of objects in an order, each once. The key at a place is found in constant time; so is the place of a key
/// once the order is indexed, and before that the keys are searched.
#[derive(Drop)]
pub struct Order {
    keys: Vec<usize>,
    // the place of each key under its number, if the order is indexed
    places: Option<Vec<Option<usize>>>,
}

impl Model for Order {
    ghost use Rattle.std.specs.Prelude.{ℕ, IfSome, List};
    ghost use Rattle.ldmodel_project.specs.Listing.{AreKeysDistinct};
    ghost use Rattle.ldmodel_project.specs.Order.{HasPlaces};

    ghost Value = { List ℕ };

    ghost view = { λ o. o.keys.items };

    ghost invariant = { λ o. AreKeysDistinct o.keys.items
        × IfSome o.places (λ places. HasPlaces o.keys.items places.items) };
}

/// Notes where a key stands. Where the table has no place for the key, it grows so that the key's is the last: for keys
/// that ascend from 0 on by one place each.
fn note_place(places: &mut Vec<Option<usize>>, key: usize, place: usize) -> Result<(), NoMemory>
    ensures { OnOk result (IsNoted places.old.items places.new.items key place) }
{
    if key < places.len() {
        places[key] = Some(place);
        return Ok(());
    }
    vec::resize(places, key, None)?;
    vec::push(places, Some(place))?;
    Ok(())
}

/// The place of each of these keys among them, under its number.
///
/// # Errors
///
/// If memory runs out: it takes some for each number up to the greatest key.
pub fn places_of(alloc: Global, keys: &[usize]) -> Result<Vec<Option<usize>>, NoMemory>
    requires { AreKeysDistinct keys.now }
    ensures { IfOk result (λ places. HasPlaces keys.now places.items) }
{
    // the greatest key asks for as many, since no two keys are the same
    let mut places = vec::with_capacity(alloc, keys.len())?;
    for (place, key) in keys.iter().enumerate() {
        note_place(&mut places, *key, place)?;
    }
    Ok(places)
}

impl Order {
    /// These keys, in this order, not indexed yet.
    ///
    /// # Errors
    ///
    /// If memory runs out: it takes some for each key.
    pub fn of(alloc: Global, keys: &[usize]) -> Result<Order, NoMemory>
        requires { AreKeysDistinct keys.now }
        ensures { IfOk result (λ order. order ≡ keys.now) }
    {
        let keys = vec::from_slice(alloc, keys)?;
        Ok(Order { keys, places: None })
    }

    /// Indexes the order: from then on the place of a key is found in constant time. If it is indexed already, nothing
    /// is done.
    ///
    /// # Errors
    ///
    /// If memory runs out: it takes some for each number up to the greatest key.
    pub fn index(&mut self, alloc: Global) -> Result<(), NoMemory>
        ensures { self.new ≡ self.old }
    {
        if self.places.is_none() {
            self.places = Some(places_of(alloc, &self.keys)?);
        }
        Ok(())
    }

    /// The number of keys.
    pub fn len(&self) -> usize
        ensures { result ≡ length self.now }
    {
        self.keys.len()
    }

    /// Whether there is no key.
    pub fn is_empty(&self) -> bool
        ensures { result ≡ (length self.now == 0) }
    {
        self.keys.is_empty()
    }

    /// The keys, in their order.
    pub fn keys(&self) -> &[usize]
        ensures value { result.now ≡ self.now }
        ensures distinct { AreKeysDistinct self.now }
    {
        // for the prover: brings in the invariant of `self`
        let _places = &self.places;
        &self.keys
    }

    /// The key at a place, from 0.
    pub fn key_of(&self, place: usize) -> Option<ObjectKey>
        ensures { option_map (λ (key : ObjectKey). key.0) result ≡ slice_get self.now place }
    {
        match self.keys.get(place) {
            Some(key) => Some(ObjectKey(*key)),
            None => None,
        }
    }

    /// The place of a key, if it has one.
    pub fn place_of(&self, key: ObjectKey) -> Option<usize>
        ensures { result ≡ position (nat_eq key.0) self.now }
    {
        let Some(places) = &self.places else {
            return self.keys.iter().position(|other| *other == key.0);
        };
        match places.get(key.0) {
            Some(place) => *place,
            None => None,
        }
    }
}
