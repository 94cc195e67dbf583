//! Writing the sections of an object anew.

ghost use Rattle.std.specs.Prelude.{◌≡◌, ℕ, IfOk, OnErr, [], sum_by};
ghost use Rattle.elfobj.specs.Raised.{raised};
ghost use Rattle.elfobj.specs.declared.meter.Count.TheVariants.{Bytes, Fields};
ghost use Rattle.ldmodel.specs.Image.{image};
ghost use Rattle.ldmodel.specs.Project.{NamedObject, Project};
ghost use Rattle.ldmodel.specs.Relocations.{relocation_faults};
ghost use Rattle.emit_relocate.specs.Fields.{evaluations};
ghost use Rattle.emit_relocate.specs.KnownLink.{KnownLink, named_object};
ghost use Rattle.emit_relocate.specs.SymbolValues.{IsRow};
ghost use Rattle.emit.specs.InPlaceRewrites.{IsInPlaceRewrite};
ghost use Rattle.emit.specs.LocatedSections.{HasLocatedSections, bytes_of, sites_of};
ghost use Rattle.emit.specs.declared.rewrite.Rewrite.TheVariants.{Done, Faulty};

use crate::located_section::{LocatedSection, nobits_are_bare, numbers_differ};
use crate::plan::{plan, write_plan};
use elfobj::Object;
use emit_fields::canvas::Canvas;
use emit_relocate::value::SymbolValue;
use growth::NoMemory;
use ldmodel::meter::Meter;
use ldmodel::names::ObjectPlace;
use std::alloc::Global;

/// What came of a rewrite.
#[derive(Clone, Copy, Debug)]
pub enum Rewrite {
    /// The sections are written.
    Done,
    /// A relocation has a fault, so nothing is written.
    Faulty,
}

/// Writes the input sections of an object onto a canvas. The canvas holds the image of a link that differs only in the
/// contents of these sections. `values` are the values of the object's symbols, and `located` has each section that is
/// in the output. The answer is `Faulty` exactly if a relocation has a fault; the canvas is then as it was.
///
/// Each relocation whose symbol has a value counts as one, and each byte of a section that has bytes in the file.
///
/// # Errors
///
/// If memory runs out. A location that no link has, such as one past the end of the image, counts as that. The canvas
/// is then as it was.
pub fn rewrite_in_place(
    alloc: Global,
    canvas: &mut Canvas,
    place: ObjectPlace,
    object: &Object,
    values: &[SymbolValue],
    located: &[LocatedSection],
    meter: &mut Meter,
) -> Result<Rewrite, NoMemory>
    ensures image { IfOk result (λ made. made ≡ Done → (old : Project) (link : KnownLink) (named : NamedObject)
        → IsInPlaceRewrite old link place named → named.object ≡ object.now → IsRow link named values.now
        → HasLocatedSections link.project link.layout named located.now → canvas.old.bytes ≡ image old link.layout
        → canvas.new.bytes ≡ image link.project link.layout) }
    ensures faultless { IfOk result (λ made. made ≡ Done → (old : Project) (link : KnownLink) (named : NamedObject)
        → IsInPlaceRewrite old link place named → named.object ≡ object.now → IsRow link named values.now
        → HasLocatedSections link.project link.layout named located.now → relocation_faults old link.layout ≡ []
        → relocation_faults link.project link.layout ≡ []) }
    ensures counted { IfOk result (λ made. made ≡ Done → (link : KnownLink) (named : NamedObject)
        → named_object link place ≡ Some named → named.object ≡ object.now → IsRow link named values.now
        → HasLocatedSections link.project link.layout named located.now
        → meter.new ≡ raised (raised meter.old Fields (evaluations link (sites_of link.layout named))) Bytes
        (sum_by (bytes_of object.now) located.now)) }
    ensures counted_refused { IfOk result (λ made. made ≡ Faulty → (link : KnownLink) (named : NamedObject)
        → named_object link place ≡ Some named → named.object ≡ object.now → IsRow link named values.now
        → HasLocatedSections link.project link.layout named located.now → (n : ℕ)
        × (meter.new ≡ raised meter.old Fields n)) }
    ensures refused_faulty { IfOk result (λ made. made ≡ Faulty → (link : KnownLink) (named : NamedObject)
        → named_object link place ≡ Some named → named.object ≡ object.now → IsRow link named values.now
        → HasLocatedSections link.project link.layout named located.now
        → relocation_faults link.project link.layout ≡ []
        → ⊥) }
    ensures refused { IfOk result (λ made. made ≡ Faulty → canvas.new.bytes ≡ canvas.old.bytes) }
    ensures unchanged { OnErr result (canvas.new.bytes ≡ canvas.old.bytes) }
    ensures room { canvas.new.room ≡ canvas.old.room }
{
    // for the prover: brings in that the count of fields fits a u64
    let _fields = meter.fields();
    nobits_are_bare(object);
    numbers_differ(object);
    match plan(alloc, canvas.len(), place, object, values, located, meter)? {
        None => Ok(Rewrite::Faulty),
        Some(plan) => {
            write_plan(canvas, &plan, meter);
            Ok(Rewrite::Done)
        }
    }
}
