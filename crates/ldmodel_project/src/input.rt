//! The objects of a project as a link takes them: each under its place.

ghost use Rattle.std.specs.Prelude.{◌<◌, length};

use elfobj::Object;

/// An object under its name, lent for a link. Its key in that link is its place among all, from 0.
#[derive(Clone, Copy)]
pub struct InputObject<'a> {
    /// The name.
    pub name: &'a [u8],
    /// The object.
    pub object: &'a Object,
    ghost named: { 0 < length name.now },
}
