//! The fields of a section of an object, among those of all sections.

ghost use Rattle.std.specs.Prelude.{◌≡◌, ◌∷◌, Bool, IfNone, IfSome, Some, slice_get};
ghost use Rattle.elfobj.specs.Sections.{LinkedSection};
ghost use Rattle.ldmodel.specs.Project.{NamedObject};
ghost use Rattle.ldmodel.specs.declared.sections.SectionRef.{SectionRef};
ghost use Rattle.place.specs.IndexedLayout.{IsIndexedLayout};
ghost use Rattle.emit_relocate.specs.KnownLink.{KnownLink};
ghost use Rattle.emit.specs.Runs.{AreRunsUnless, IsRunUnless};

use crate::relocated::Relocated;
use elfobj::section::LinkedIndex;
use emit_fields::patch::Patch;
use ldmodel::names::ObjectPlace;
use place::indexed_layout::IndexedLayout;

/// Where the first `count` runs end, by the end of each; none if there are fewer.
fn end_of(ends: &[usize], count: usize) -> Option<usize>
    ensures { result ≡ slice_get (0 ∷ ends.now) count }
{
    if count == 0 {
        return Some(0);
    }
    match ends.get(count - 1) {
        None => None,
        Some(end) => Some(*end),
    }
}

/// The fields of a section of the object at a place, unless it stays; none if there is no such place or section.
pub(crate) fn fields_of<'a>(
    relocated: &'a Relocated,
    indexed_layout: &IndexedLayout,
    place: ObjectPlace,
    section: LinkedIndex,
) -> Option<&'a [Patch]>
    ensures some { IfSome result (λ run. (link : KnownLink) (stays : SectionRef → Bool) (object : NamedObject)
        (x : LinkedSection)
        → IsIndexedLayout link.project link.layout indexed_layout.now
        → AreRunsUnless link stays relocated.now.patches.items relocated.now.ends.items
        → slice_get link.project.objects place.0 ≡ Some object → slice_get object.object.sections section.0 ≡ Some x
        → IsRunUnless link stays (record { object = object; section = x }) run.now) }
    ensures none { IfNone result ((link : KnownLink) (stays : SectionRef → Bool) (object : NamedObject)
        (x : LinkedSection)
        → IsIndexedLayout link.project link.layout indexed_layout.now
        → AreRunsUnless link stays relocated.now.patches.items relocated.now.ends.items
        → slice_get link.project.objects place.0 ≡ Some object → slice_get object.object.sections section.0 ≡ Some x
        → ⊥) }
{
    let patches = relocated.patches.as_slice();
    let ends = relocated.ends.as_slice();
    let first = indexed_layout.linked_before(place)?;
    let number = first.checked_add(section.0)?;
    let begin = end_of(ends, number)?;
    let end = end_of(ends, number.checked_add(1)?)?;
    if begin > end || end > patches.len() {
        return None;
    }
    Some(&patches[begin..end])
}
