//! Edits that are staged: they have all the memory that they need, and nothing has changed yet.

ghost use Rattle.std.specs.Prelude.{◌≡◌, ℕ, Some, None, IfSome, IfNone};
ghost use Rattle.std.specs.Option.{option_copied, option_map};
ghost use Rattle.ldmodel.specs.declared.names.ObjectKey.{ObjectKey};
ghost use Rattle.ldmodel_project.specs.Next.{next_found, put_under, removed_key, edited_key};

use crate::keyed_objects::KeyedObjects;
use crate::named::NamedObject;
use ldmodel::names::ObjectKey;
use ldscript::Script;

/// What an edit does to the objects under their keys.
#[derive(Drop)]
pub(crate) enum Step {
    /// An object goes under a key, which is new or had another one.
    Put {
        /// The key.
        key: usize,
        /// The object.
        named: NamedObject,
    },
    /// The object under a key goes.
    Remove {
        /// The key.
        key: usize,
    },
    /// The object under a key goes to another place.
    Move {
        /// The key.
        key: usize,
    },
    /// All objects stay.
    Stay,
}

/// The place of the object that an edit adds, replaces, removes or moves: before the edit, and after it.
#[derive(Clone, Copy)]
pub(crate) struct Places {
    pub(crate) before: Option<usize>,
    pub(crate) after: Option<usize>,
}

/// The objects after an edit: their keys in order, the step that leads there, and the places of what it touches.
#[derive(Drop)]
pub(crate) struct StagedObjects {
    pub(crate) order: Vec<usize>,
    pub(crate) step: Step,
    pub(crate) places: Places,
}

/// An edit with all that it needs of memory. Dropped, it leaves no trace.
#[derive(Drop)]
pub struct Staged {
    pub(crate) objects: StagedObjects,
    pub(crate) script: Option<Script>,
}

impl StagedObjects {
    /// The object that the edit puts under a key.
    pub(crate) fn put_under(&self, key: usize) -> Option<&NamedObject>
        ensures { option_copied result ≡ put_under self.now.step key }
    {
        match &self.step {
            Step::Put { key: new, named } if key == *new => Some(named),
            _ => None,
        }
    }

    /// The object that is under a key after the edit.
    pub(crate) fn found<'a>(&'a self, kept: &'a KeyedObjects, key: usize) -> Option<&'a NamedObject>
        ensures { option_copied result ≡ next_found kept.now.entries self.now.step key }
    {
        match &self.step {
            Step::Put { key: new, named } if key == *new => Some(named),
            Step::Remove { key: old } if key == *old => None,
            _ => kept.found(key),
        }
    }
}

impl Staged {
    /// The object that the edit puts, and the key under which it does.
    pub fn put(&self) -> Option<(ObjectKey, &NamedObject)>
        ensures some { IfSome result (λ put. put_under self.now.objects.step put.0.0 ≡ Some put.1.now) }
        ensures none { IfNone result ((key : ℕ) → put_under self.now.objects.step key ≡ None) }
        ensures edited { IfSome result (λ put. edited_key self.now.objects.step ≡ Some put.0.0) }
    {
        match &self.objects.step {
            Step::Put { key, named } => Some((ObjectKey(*key), named)),
            _ => None,
        }
    }

    /// The key that the edit removes.
    pub fn removed(&self) -> Option<ObjectKey>
        ensures removed { option_map (λ (key : ObjectKey). key.0) result ≡ removed_key self.now.objects.step }
        ensures edited { IfSome result (λ key. edited_key self.now.objects.step ≡ Some key.0) }
    {
        match &self.objects.step {
            Step::Remove { key } => Some(ObjectKey(*key)),
            _ => None,
        }
    }

    /// The key of the object that the edit puts, removes or moves; none for an edit of the script.
    pub fn edited(&self) -> Option<ObjectKey>
        ensures { option_map (λ (key : ObjectKey). key.0) result ≡ edited_key self.now.objects.step }
    {
        match &self.objects.step {
            Step::Put { key, .. } => Some(ObjectKey(*key)),
            Step::Remove { key } => Some(ObjectKey(*key)),
            Step::Move { key } => Some(ObjectKey(*key)),
            Step::Stay => None,
        }
    }

    /// The place of that object before the edit; `None` for a new one.
    pub fn place_before(&self) -> Option<usize>
        ensures { result ≡ self.now.objects.places.before }
    {
        self.objects.places.before
    }

    /// The place of that object after the edit; `None` for one that is removed.
    pub fn place_after(&self) -> Option<usize>
        ensures { result ≡ self.now.objects.places.after }
    {
        self.objects.places.after
    }

    /// The script that the edit sets.
    pub fn new_script(&self) -> Option<&Script>
        ensures { option_copied result ≡ self.now.script }
    {
        self.script.as_ref()
    }
}
