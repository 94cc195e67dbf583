//! Objects under keys, with marks of their names.

ghost use Rattle.std.specs.Prelude.{◌≡◌, ◌≤◌, ℕ, [], None, Some, IfOk, OnOk, false, true, bytes_eq};
ghost use Rattle.std.specs.Option.{option_copied};
ghost use Rattle.ldmodel.specs.Project.{NamedObject as Named};
ghost use Rattle.ldmodel_project.specs.Next.{CanChange, next_slot};
ghost use Rattle.ldmodel_project.specs.Tags.{AreTagged, KeepsMarks, NotesPut};
ghost use Rattle.slab.specs.Slab.{get, HasRoomFor};

use crate::keyed_objects::tags::Tags;
use crate::named::NamedObject;
use crate::staged::Step;
use growth::{NoMemory, slabs};
use slab::Slab;
use std::alloc::Global;
use std::marker::Model;
use std::ops::Index;

/// Objects under keys. Contracts see the slab: the marks of the names decide only how soon it is known that no object
/// has a name.
#[derive(Drop)]
pub(crate) struct TaggedObjects {
    alloc: Global,
    slab: Slab<NamedObject>,
    tags: Tags,
}

impl Model for TaggedObjects {
    ghost use Rattle.ldmodel.specs.Project.{NamedObject};
    ghost use Rattle.ldmodel_project.specs.Tags.{AreTagged};
    ghost use Rattle.slab.specs.Slab.{Slab};

    ghost Value = { Slab NamedObject };

    ghost view = { λ o. o.slab };

    ghost invariant = { λ o. AreTagged o.tags o.slab };
}

/// Makes a step on the objects, with no allocation.
fn change(objects: &mut Slab<NamedObject>, step: Step)
    requires { CanChange objects.old step }
    ensures { (key : ℕ) → get objects.new key ≡ next_slot objects.old step key }
{
    match step {
        Step::Put { key, named } => {
            if objects.contains(key) {
                objects[key] = named;
            } else {
                objects.insert_reserved(named);
            }
        }
        Step::Remove { key } => {
            objects.remove(key);
        }
        Step::Move { .. } | Step::Stay => {}
    }
}

/// Notes the name that a step puts.
fn note_put(tags: &mut Tags, step: &Step)
    ensures noted { NotesPut tags.new step.now }
    ensures kept { KeepsMarks tags.old tags.new }
{
    if let Step::Put { named, .. } = step {
        tags.note(named.name());
    }
}

/// More marks, with the names of all objects.
fn more_tags(alloc: Global, objects: &Slab<NamedObject>) -> Result<Tags, NoMemory>
    ensures { IfOk result (λ t. AreTagged t objects.now) }
{
    let mut tags = Tags::with_room(alloc, objects.len())?;
    for key in 0..objects.capacity() {
        if let Some(named) = objects.get(key) {
            tags.note(named.name());
        }
    }
    Ok(tags)
}

impl Index<usize> for TaggedObjects {
    ghost use Rattle.std.specs.Prelude.{◌≡◌, Some};
    ghost use Rattle.slab.specs.Slab.{get, ContainsKey};

    type Output = NamedObject;

    ghost can_index = { ContainsKey };

    ghost index_gives = { λ s key value. get s key ≡ Some value };

    fn index(&self, key: usize) -> &NamedObject {
        &self.slab[key]
    }
}

impl TaggedObjects {
    /// No object.
    pub(crate) fn new(alloc: Global) -> TaggedObjects
        ensures { result.slots ≡ [] }
    {
        TaggedObjects {
            alloc,
            slab: Slab::new(alloc),
            tags: Tags::new(alloc),
        }
    }

    /// Whether it is sure at once that no object has this name.
    pub(crate) fn surely_lack(&self, name: &[u8]) -> bool
        ensures { result ≡ true → (key : ℕ) → (o : Named) → get self.now key ≡ Some o
            → bytes_eq o.name name.now ≡ false }
    {
        !self.tags.may_have(name)
    }

    /// The object under a key, if there is one.
    pub(crate) fn get(&self, key: usize) -> Option<&NamedObject>
        ensures { option_copied result ≡ get self.now key }
    {
        self.slab.get(key)
    }

    /// The key of the next new object.
    pub(crate) fn vacant_key(&self) -> usize
        ensures value { result ≡ self.now.vacant_key }
        ensures vacant { get self.now result ≡ None }
    {
        self.slab.vacant_key()
    }

    /// Makes room for more objects, and marks for their names. If memory runs out for marks, there are as many as
    /// before.
    pub(crate) fn reserve(&mut self, additional: usize) -> Result<(), NoMemory>
        ensures room { OnOk result (HasRoomFor self.new additional) }
        ensures capacity { self.old.capacity ≤ self.new.capacity }
        ensures rest_kept { self.new ≡ record self.old { capacity = self.new.capacity } }
    {
        if self.tags.are_few(self.slab.len()) {
            if let Ok(tags) = more_tags(self.alloc, &self.slab) {
                self.tags = tags;
            }
        }
        slabs::reserve(&mut self.slab, additional)
    }

    /// Makes a step, with no allocation.
    pub(crate) fn change(&mut self, step: Step)
        requires { CanChange self.old step }
        ensures { (key : ℕ) → get self.new key ≡ next_slot self.old step key }
    {
        note_put(&mut self.tags, &step);
        change(&mut self.slab, step);
    }
}
