//! Changes of one object: what goes and what comes, under one key.

ghost use Rattle.std.specs.Prelude.{◌≡◌, ℕ, List};
ghost use Rattle.elfobj.specs.Symbols.{NamedSymbol};
ghost use Rattle.symres_decisions.specs.Change.{changed_tables, Fits, reversed};
ghost use Rattle.symres_decisions.specs.declared.change.ObjectChange.{ObjectChange};

use elfobj::Object;
use ldmodel::names::ObjectKey;

/// An object at a place among the entered ones, from 0.
#[derive(Clone, Copy)]
pub struct ObjectAt<'a> {
    /// The place.
    pub place: usize,
    /// The object.
    pub object: &'a Object,
}

/// What changes under a key. If nothing goes, an object is added, and if nothing comes, one is removed; with both one
/// object takes another's place, or is moved.
#[derive(Clone, Copy)]
pub struct ObjectChange<'a> {
    /// The key.
    pub key: ObjectKey,
    /// The object that goes, and the place that it has.
    pub out: Option<ObjectAt<'a>>,
    /// The object that comes, and its place among those that stay.
    pub into: Option<ObjectAt<'a>>,
}

/// The change back.
pub fn reverse<'a>(change: &ObjectChange<'a>) -> ObjectChange<'a>
    ensures { result ≡ reversed change.now }
{
    ObjectChange {
        key: change.key,
        out: change.into,
        into: change.out,
    }
}

/// A change and then the change back leave the objects as they were.
pub fn undone()
    ensures { (tables : List (ℕ × List NamedSymbol)) (c : ObjectChange) → Fits tables c
        → changed_tables (changed_tables tables c) (reversed c) ≡ tables }
{}
