//! The objects of a link, each looked up once.

ghost use Rattle.std.specs.Prelude.{◌≡◌, IfOk};
ghost use Rattle.emit_relocate.specs.ObjectParts.{AreAddresses, AreSymbols};
ghost use Rattle.emit_relocate.specs.ObjectTable.{IsObjectTable};

use crate::link_view::LinkView;
use crate::object_parts::ObjectParts;
use growth::{NoMemory, vec};
use ldmodel::names::ObjectPlace;
use std::alloc::Global;

/// The objects of a link as the look-ups of their symbols need them. They lie side by side in little memory, so that
/// each is read quickly, whatever the order that they are asked for in.
#[derive(Drop)]
pub(crate) struct ObjectTable<'a> {
    // in the order of their places
    objects: Vec<ObjectParts<'a>>,
}

impl<'a> ObjectTable<'a> {
    /// All objects of a link.
    ///
    /// # Errors
    ///
    /// If memory runs out.
    pub fn of(alloc: Global, link: &LinkView<'a, '_>) -> Result<ObjectTable<'a>, NoMemory>
        ensures { IfOk result (λ x. IsObjectTable link.now.project.now link.now.indexed_layout.now x) }
    {
        let count = link.project.inputs().len();
        let mut objects = vec::with_capacity(alloc, count)?;
        for place in 0..count {
            let parts = ObjectParts::of(link.project, link.indexed_layout, ObjectPlace(place));
            objects.push_reserved(parts);
        }
        Ok(ObjectTable { objects })
    }

    /// The object at a place. One that the table does not have is looked up: no object is there.
    #[inline(always)]
    pub fn parts(&self, link: &LinkView<'a, '_>, place: ObjectPlace) -> ObjectParts<'a>
        requires { IsObjectTable link.now.project.now link.now.indexed_layout.now self.now }
        ensures place { result.place ≡ place }
        ensures symbols { AreSymbols link.now.project.now result }
        ensures addresses { AreAddresses link.now.indexed_layout.now result }
    {
        match self.objects.get(place.0) {
            Some(parts) => *parts,
            None => ObjectParts::of(link.project, link.indexed_layout, place),
        }
    }
}
