//! The location of an input section of an object in a link.

ghost use Rattle.std.specs.Prelude.{◌≡◌, ◌==◌, ℕ, All, Some, find, slice_get};
ghost use Rattle.elfobj.specs.Sections.{LinkedSection};
ghost use Rattle.emit.specs.InPlaceRewrites.{IsBare};

use elfobj::Object;
use elfobj::section::LinkedIndex;
use emit_relocate::previous_link_info::FileRange;

/// An input section of an object, and its location.
#[derive(Clone, Copy, Debug)]
pub struct LocatedSection {
    /// The place of the section among the linked sections of its object.
    pub index: LinkedIndex,
    /// The address that it starts at.
    pub start: u64,
    /// Its bytes in the file; none if its output section has none there.
    pub range: FileRange,
}

/// A NOBITS section of an object has no bytes of its own and no relocations. The call changes nothing.
pub fn nobits_are_bare(object: &Object)
    ensures { All IsBare object.now.sections }
{
    // for the prover: brings in the invariant of `object`, of its sections
    if object.sections().is_empty() {
        return;
    }
    // for the prover: brings in the invariant of `object`, of its relocations
    let _relocations = object.relocations(LinkedIndex(0));
}

/// The number of a section of an object is that of no other. The call does nothing.
pub(crate) fn numbers_differ(object: &Object)
    ensures { (j : ℕ) (section : LinkedSection) → slice_get object.now.sections j ≡ Some section
        → find (λ (y : LinkedSection). y.number.0 == section.number.0) object.now.sections ≡ Some section }
{
    // for the prover: brings in the invariant of `object`, of its sections
    let _sections = object.sections();
}
