//! Boxes for large parts of a tree.

ghost use Rattle.std.specs.Prelude.{◌≡◌, IfOk};

use growth::{NoMemory, boxed};
use std::alloc::Global;
use std::marker::Model;

/// A large case of an enum of the tree, in a box, so that the other cases do not take its size. Contracts see it as the
/// part itself.
#[derive(Drop)]
pub struct Held<T> {
    part: Box<T>,
}

impl<T> Model for Held<T> {
    ghost Value = { T };

    ghost view = { λ held. held.part.value };
}

impl<T> Held<T> {
    /// The part.
    pub fn get(&self) -> &T
        ensures { result.now ≡ self.now }
    {
        &self.part
    }
}

impl<T: Drop> Held<T> {
    /// Boxes a part.
    ///
    /// # Errors
    ///
    /// If memory runs out. The part is then dropped.
    pub fn new(alloc: Global, part: T) -> Result<Held<T>, NoMemory>
        ensures { IfOk result (λ held. held ≡ part) }
    {
        let part = boxed::new(alloc, part)?;
        Ok(Held { part })
    }
}
