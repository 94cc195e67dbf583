//! The objects of a project under stable keys, in their order.

ghost use Rattle.std.specs.Prelude.{◌≡◌, ◌==◌, ◌<◌, [], ℕ, IfOk, IfSome, length, is_some, slice_get, true};
ghost use Rattle.std.specs.Option.{option_copied};
ghost use Rattle.ldmodel.specs.Edits.{AreNamesDistinct, place_of, is_in_use};
ghost use Rattle.ldmodel_project.specs.Inputs.{shown_inputs};
ghost use Rattle.ldmodel_project.specs.Listing.{AreKeysDistinct, found_under, key_count, keys_of, objects_of};
ghost use Rattle.ldmodel_project.specs.Next.{Fits, next_entries, named_under, KeysAreStable};

mod growing;
mod tagged;
mod tags;

use crate::input::InputObject;
use crate::keyed_objects::tagged::TaggedObjects;
use crate::named::NamedObject;
use crate::staged::StagedObjects;
use growth::{NoMemory, vec};
use std::alloc::Global;
use std::marker::Model;

/// The objects of a project, each under a key that it keeps, in their order.
#[derive(Drop)]
pub struct KeyedObjects {
    alloc: Global,
    objects: TaggedObjects,
    order: Vec<usize>,
}

impl Model for KeyedObjects {
    ghost use Rattle.std.specs.Prelude.{◌-◌, map};
    ghost use Rattle.slab.specs.Slab.{slab_len};
    ghost use Rattle.ldmodel_project.specs.Listing.{Contents};
    ghost use Rattle.ldmodel_project.specs.Slots.{entry_at, IsOrdered};

    ghost Value = { Contents };

    ghost view = { λ k. record {
      entries = map (entry_at k.objects) k.order.items;
      vacant_key = k.objects.vacant_key;
      room = k.objects.capacity - slab_len k.objects;
    } };

    ghost invariant = { λ k. IsOrdered k.objects k.order.items };
}

impl KeyedObjects {
    /// No object.
    pub fn new(alloc: Global) -> KeyedObjects
        ensures { result.entries ≡ [] }
    {
        KeyedObjects {
            alloc,
            objects: TaggedObjects::new(alloc),
            order: Vec::new(alloc),
        }
    }

    /// The number of objects.
    pub fn len(&self) -> usize
        ensures { result ≡ length self.now.entries }
    {
        self.order.len()
    }

    /// Whether there is no object.
    pub fn is_empty(&self) -> bool
        ensures { result ≡ (length self.now.entries == 0) }
    {
        self.order.is_empty()
    }

    /// The place of the object of this name. If no object has it, that is mostly found at once; else the names are
    /// searched one by one.
    pub fn place_of(&self, name: &[u8]) -> Option<usize>
        ensures place { result ≡ place_of (objects_of self.now.entries) name.now }
        ensures used { is_some result ≡ is_in_use (objects_of self.now.entries) name.now }
        ensures named { IfSome result (λ _. 0 < length name.now) }
    {
        if self.objects.surely_lack(name) {
            return None;
        }
        for (i, key) in self.order.iter().enumerate() {
            if self.objects[*key].input().name == name {
                return Some(i);
            }
        }
        None
    }

    /// The object under a key.
    pub fn named(&self, key: usize) -> &NamedObject
        requires { 0 < key_count self.now.entries key }
        ensures { result.now ≡ named_under self.now.entries key }
    {
        &self.objects[key]
    }

    /// The object under a key, if there is one.
    pub fn found(&self, key: usize) -> Option<&NamedObject>
        ensures { option_copied result ≡ found_under self.now.entries key }
    {
        self.objects.get(key)
    }

    /// The object at a place, from 0.
    pub fn named_at(&self, place: usize) -> Option<&NamedObject>
        ensures { option_copied result ≡ slice_get (objects_of self.now.entries) place }
    {
        if place < self.order.len() {
            Some(&self.objects[self.order[place]])
        } else {
            None
        }
    }

    /// The keys of all objects, in their order.
    pub fn keys(&self) -> &[usize]
        ensures value { result.now ≡ keys_of self.now.entries }
        ensures distinct { AreKeysDistinct result.now }
    {
        // for the prover: brings in the invariant of `self.objects`
        let _objects = &self.objects;
        &self.order
    }

    /// No two objects have one name.
    pub(crate) fn names_differ(&self)
        ensures { AreNamesDistinct (objects_of self.now.entries) }
    {
        // for the prover: brings in the invariant of `self.objects`
        let _objects = &self.objects;
    }

    /// All objects, in their order.
    ///
    /// # Errors
    ///
    /// If memory runs out.
    pub(crate) fn inputs(&self, alloc: Global) -> Result<Vec<InputObject<'_>>, NoMemory>
        ensures { IfOk result (λ v. shown_inputs v.items ≡ objects_of self.now.entries) }
    {
        let mut inputs = vec::with_capacity(alloc, self.order.len())?;
        for key in self.order.iter() {
            vec::push(&mut inputs, self.objects[*key].input())?;
        }
        Ok(inputs)
    }

    /// Makes a staged edit, with no allocation.
    pub(crate) fn commit(&mut self, staged: StagedObjects)
        requires { Fits self.old staged }
        ensures next { self.new.entries ≡ next_entries self.old.entries staged }
        ensures stable { KeysAreStable self.old.entries self.new.entries }
    {
        let StagedObjects {
            order,
            step,
            places: _,
        } = staged;
        self.objects.change(step);
        self.order = order;
    }
}
