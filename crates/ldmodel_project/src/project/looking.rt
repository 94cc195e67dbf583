//! Objects of a project, or of the next one, under their keys and at their places.

ghost use Rattle.std.specs.Prelude.{◌≡◌, slice_get};
ghost use Rattle.std.specs.Option.{option_copied, option_map};
ghost use Rattle.ldmodel.specs.Project.{NamedObject};
ghost use Rattle.ldmodel.specs.declared.names.ObjectKey.{ObjectKey};
ghost use Rattle.ldmodel_project.specs.Listing.{AreKeysDistinct, found_under, keys_of, objects_of};

use crate::named::NamedObject;
use crate::project::{Next, Project};
use elfobj::Object;
use ldmodel::names::ObjectKey;
use ldscript::Script;

impl Project {
    /// The keys of all objects, in their order.
    pub fn keys(&self) -> &[usize]
        ensures value { result.now ≡ keys_of self.now.contents.entries }
        ensures distinct { AreKeysDistinct result.now }
    {
        self.kept.keys()
    }

    /// The script.
    pub fn script(&self) -> &Script
        ensures { result.now ≡ self.now.script }
    {
        &self.script
    }

    /// The key of the object at a place, from 0.
    pub fn key_at(&self, place: usize) -> Option<ObjectKey>
        ensures { option_map (λ (k : ObjectKey). k.0) result ≡ slice_get (keys_of self.now.contents.entries) place }
    {
        match self.kept.keys().get(place) {
            Some(key) => Some(ObjectKey(*key)),
            None => None,
        }
    }

    /// The object under a key, with its name.
    pub fn named(&self, key: ObjectKey) -> Option<&NamedObject>
        ensures { option_copied result ≡ found_under self.now.contents.entries key.0 }
    {
        self.kept.found(key.0)
    }

    /// The object at a place, with its name.
    pub fn named_at(&self, place: usize) -> Option<&NamedObject>
        ensures { option_copied result ≡ slice_get (objects_of self.now.contents.entries) place }
    {
        self.kept.named_at(place)
    }

    /// The object under a key.
    pub fn object(&self, key: ObjectKey) -> Option<&Object>
        ensures { option_copied result
            ≡ option_map (λ (object : NamedObject). object.object) (found_under self.now.contents.entries key.0) }
    {
        match self.named(key) {
            Some(named) => Some(named.object()),
            None => None,
        }
    }
}

impl<'a> Next<'a> {
    /// The keys of all objects, in their order.
    pub fn keys(&self) -> &'a [usize]
        ensures value { result.now ≡ keys_of self.now.entries }
        ensures distinct { AreKeysDistinct result.now }
    {
        // for the prover: brings in the invariant of `self.project`
        let _kept = self.project.keys();
        let staged = self.staged;
        &staged.objects.order
    }

    /// The key of the object at a place, from 0.
    pub fn key_at(&self, place: usize) -> Option<ObjectKey>
        ensures { option_map (λ (k : ObjectKey). k.0) result ≡ slice_get (keys_of self.now.entries) place }
    {
        match self.keys().get(place) {
            Some(key) => Some(ObjectKey(*key)),
            None => None,
        }
    }

    /// The object under a key, with its name.
    pub fn named(&self, key: ObjectKey) -> Option<&'a NamedObject>
        ensures { option_copied result ≡ found_under self.now.entries key.0 }
    {
        let project = self.project;
        let staged = self.staged;
        staged.objects.found(&project.kept, key.0)
    }

    /// The object at a place, with its name.
    pub fn named_at(&self, place: usize) -> Option<&'a NamedObject>
        ensures { option_copied result ≡ slice_get (objects_of self.now.entries) place }
    {
        if place < self.len() {
            let (_key, named) = self.entry(place);
            Some(named)
        } else {
            None
        }
    }

    /// The object under a key.
    pub fn object(&self, key: ObjectKey) -> Option<&'a Object>
        ensures { option_copied result
            ≡ option_map (λ (object : NamedObject). object.object) (found_under self.now.entries key.0) }
    {
        match self.named(key) {
            Some(named) => Some(named.object()),
            None => None,
        }
    }
}
