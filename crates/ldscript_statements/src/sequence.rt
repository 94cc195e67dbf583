//! Lists that a tree holds.

ghost use Rattle.std.specs.Prelude.{◌≡◌, [], ◌∷◌, ◌++◌, OnOk};

use growth::{NoMemory, vec};
use std::alloc::Global;
use std::marker::Model;

/// A list in the order of the text. Contracts see its elements, not where they are in memory.
#[derive(Drop)]
pub struct Sequence<T> {
    elements: Vec<T>,
}

impl<T> Model for Sequence<T> {
    ghost use Rattle.std.specs.Prelude.{List};

    ghost Value = { List T };

    ghost view = { λ sequence. sequence.elements.items };
}

impl<T> Sequence<T> {
    /// The empty list.
    pub fn new(alloc: Global) -> Sequence<T>
        ensures { result ≡ [] }
    {
        Sequence {
            elements: Vec::new(alloc),
        }
    }

    /// The elements.
    pub fn as_slice(&self) -> &[T]
        ensures { result.now ≡ self.now }
    {
        self.elements.as_slice()
    }
}

impl<T: Drop> Sequence<T> {
    /// Adds an element at the end. Most lists of a tree have one element, so the first allocation is for one.
    ///
    /// # Errors
    ///
    /// If memory runs out.
    pub fn push(&mut self, element: T) -> Result<(), NoMemory>
        ensures { OnOk result (self.new ≡ self.old ++ element ∷ []) }
    {
        if self.elements.is_empty() {
            vec::reserve_exact(&mut self.elements, 1)?;
        }
        vec::push(&mut self.elements, element)?;
        Ok(())
    }
}
