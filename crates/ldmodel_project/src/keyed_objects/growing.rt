//! All growths of an edit of the objects, before anything changes.

ghost use Rattle.std.specs.Prelude.{◌≡◌, ◌<◌, ◌≤◌, None, Some, IfOk, insert, remove, slice_set, slice_index};
ghost use Rattle.std.specs.Prelude.{slice_index_or, length};
ghost use Rattle.ldmodel.specs.Edits.{place_of, unnamed};
ghost use Rattle.ldmodel_project.specs.Listing.{objects_of};
ghost use Rattle.ldmodel_project.specs.Next.{edited_key};
ghost use Rattle.ldmodel_project.specs.Staging.{IsStaged, IsEditing, SameButRoom};

use crate::keyed_objects::KeyedObjects;
use crate::named::NamedObject;
use crate::staged::{Places, StagedObjects, Step};
use elfobj::Object;
use growth::{NoMemory, vec};
use std::alloc::Global;

/// An order with one more key.
fn with_key(alloc: Global, order: &[usize], at: usize, key: usize) -> Result<Vec<usize>, NoMemory>
    requires { at ≤ length order.now }
    ensures { IfOk result (λ v. v.items ≡ insert order.now at key) }
{
    let mut copy = vec::with_capacity(alloc, order.len() + 1)?;
    vec::extend_from_slice(&mut copy, &order[..at])?;
    vec::push(&mut copy, key)?;
    vec::extend_from_slice(&mut copy, &order[at..])?;
    Ok(copy)
}

/// An order without one of its keys.
fn without_key(alloc: Global, order: &[usize], at: usize) -> Result<Vec<usize>, NoMemory>
    requires { at < length order.now }
    ensures { IfOk result (λ v. v.items ≡ remove order.now at) }
{
    let mut copy = vec::with_capacity(alloc, order.len())?;
    vec::extend_from_slice(&mut copy, &order[..at])?;
    vec::extend_from_slice(&mut copy, &order[at + 1..])?;
    Ok(copy)
}

/// An order with one key at another place.
fn with_key_moved(
    alloc: Global,
    order: &[usize],
    from: usize,
    to: usize,
) -> Result<Vec<usize>, NoMemory>
    requires from { from < length order.now }
    requires to { to ≤ length (remove order.now from) }
    ensures { IfOk result (λ v. v.items ≡ insert (remove order.now from) to (slice_index order.now from)) }
{
    let mut copy = without_key(alloc, order, from)?;
    vec::insert(&mut copy, to, order[from])?;
    Ok(copy)
}

impl KeyedObjects {
    /// What a new object needs: its name's copy, room in the slab, and an order with its key.
    pub(crate) fn reserve_add(
        &mut self,
        name: &[u8],
        at: usize,
        object: Object,
    ) -> Result<StagedObjects, NoMemory>
        requires named { 0 < length name.now }
        requires place { at ≤ length self.old.entries }
        requires unused { place_of (objects_of self.old.entries) name.now ≡ None }
        ensures same { SameButRoom self.old self.new }
        ensures staged { IfOk result (λ s.
            IsStaged self.new s (insert (objects_of self.old.entries) at
            (record { name = name.now; object = object }))) }
        ensures touching { IfOk result (IsEditing None) }
        ensures after { IfOk result (λ s. s.places.after ≡ Some at) }
    {
        let named = NamedObject::new(self.alloc, name, object)?;
        self.objects.reserve(1)?;
        let key = self.objects.vacant_key();
        let order = with_key(self.alloc, &self.order, at, key)?;
        Ok(StagedObjects {
            order,
            step: Step::Put { key, named },
            places: Places {
                before: None,
                after: Some(at),
            },
        })
    }

    /// What another object at a place needs: its name's copy, and a copy of the order.
    pub(crate) fn reserve_replace(
        &self,
        name: &[u8],
        at: usize,
        object: Object,
    ) -> Result<StagedObjects, NoMemory>
        requires named { 0 < length name.now }
        requires place { place_of (objects_of self.now.entries) name.now ≡ Some at }
        ensures staged { IfOk result (λ s.
            IsStaged self.now s (slice_set (objects_of self.now.entries) at
            (record { name = name.now; object = object }))) }
        ensures touching { IfOk result (IsEditing (Some at)) }
    {
        let named = NamedObject::new(self.alloc, name, object)?;
        let order = vec::from_slice(self.alloc, &self.order)?;
        let key = self.order[at];
        Ok(StagedObjects {
            order,
            step: Step::Put { key, named },
            places: Places {
                before: Some(at),
                after: Some(at),
            },
        })
    }

    /// What a move needs: an order with the key elsewhere.
    pub(crate) fn reserve_move(&self, from: usize, to: usize) -> Result<StagedObjects, NoMemory>
        requires from { from < length self.now.entries }
        requires to { to ≤ length (remove (objects_of self.now.entries) from) }
        ensures staged { let objects = objects_of self.now.entries in
            IfOk result (λ s. IsStaged self.now s
            (insert (remove objects from) to (slice_index_or objects from unnamed))) }
        ensures touching { IfOk result (IsEditing (Some from)) }
    {
        let order = with_key_moved(self.alloc, &self.order, from, to)?;
        let key = self.order[from];
        Ok(StagedObjects {
            order,
            step: Step::Move { key },
            places: Places {
                before: Some(from),
                after: Some(to),
            },
        })
    }

    /// What a removal needs: an order without the key.
    pub(crate) fn reserve_remove(&self, at: usize) -> Result<StagedObjects, NoMemory>
        requires { at < length self.now.entries }
        ensures staged { IfOk result (λ s. IsStaged self.now s (remove (objects_of self.now.entries) at)) }
        ensures touching { IfOk result (IsEditing (Some at)) }
    {
        let order = without_key(self.alloc, &self.order, at)?;
        let key = self.order[at];
        Ok(StagedObjects {
            order,
            step: Step::Remove { key },
            places: Places {
                before: Some(at),
                after: None,
            },
        })
    }

    /// What an edit needs that leaves all objects: a copy of the order.
    pub(crate) fn reserve_same(&self) -> Result<StagedObjects, NoMemory>
        ensures staged { IfOk result (λ s. IsStaged self.now s (objects_of self.now.entries)) }
        ensures unedited { IfOk result (λ s. edited_key s.step ≡ None) }
    {
        let order = vec::from_slice(self.alloc, &self.order)?;
        Ok(StagedObjects {
            order,
            step: Step::Stay,
            places: Places {
                before: None,
                after: None,
            },
        })
    }
}
