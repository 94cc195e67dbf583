//! Objects as they are entered first: each under its key.

use elfobj::Object;
use ldmodel::names::ObjectKey;

/// An object under its key, lent while its names are entered.
#[derive(Clone, Copy)]
pub struct KeyedObject<'a> {
    /// Its key.
    pub key: ObjectKey,
    /// The object.
    pub object: &'a Object,
}
