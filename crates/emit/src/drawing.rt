//! The image of a link.

ghost use Rattle.std.specs.Prelude.{◌≡◌, ◌≤◌, ◌+◌, ◌-◌, ◌∷◌, [], All, Bool, IfOk, List, None, OnErr, OnOk, false};
ghost use Rattle.std.specs.Prelude.{ℕ, is_some};
ghost use Rattle.elfobj.specs.Raised.{raised};
ghost use Rattle.elfobj.specs.declared.meter.Count.TheVariants as counts;
ghost use Rattle.std.specs.List.{AllZip};
ghost use Rattle.emit_image.specs.Redrawings.{ArePatchesOf};
ghost use Rattle.emit_image.specs.OfLink.{IsImagePart};
ghost use Rattle.emit_image.specs.Stretches.{EndsBy, patch_bytes};
ghost use Rattle.ldmodel_laws.specs.Untouched.{IsGood};
ghost use Rattle.place.specs.IndexedLayout.{IsIndexedLayout};
ghost use Rattle.ldmodel.specs.Image as definition;
ghost use Rattle.ldmodel.specs.Layout.{Layout};
ghost use Rattle.ldmodel.specs.SectionHeaders.{image_length};
ghost use Rattle.ldmodel.specs.Stayed.{GoodLink};
ghost use Rattle.ldmodel.specs.WorkBound.{bytes_stayed, retargeted_bytes};
ghost use Rattle.ldmodel.specs.declared.sections.SectionRef.{SectionRef};
ghost use Rattle.symres.specs.SymbolTable.{SymbolTableState};
ghost use Rattle.emit_relocate.specs.PreviousLinkInfo.{IsComplete};
ghost use Rattle.emit_relocate.specs.LinkView.{known_link};
ghost use Rattle.emit.specs.Drawable.{AreOutputs, HasOutputs, IsDrawable, IsDrawableAt};
ghost use Rattle.emit.specs.StayedPieces.{AreAllThatStayed, HaveStayed, IsSound};

use crate::image_sources::ImageSources;
use crate::output::{OutputDrawing, outputs};
use crate::parts::drawing_parts;
use crate::pieces::image_pieces;
use elfobj::Meter;
use emit_fields::canvas::Canvas;
use emit_fields::patch::Patch;
use emit_image::law::{drawing_is_image, drawing_stands, joined_is_whole, placement_is_in_memory};
use emit_image::redraw::redraw;
use emit_image::section::{Drawing, ImagePart, ImagePiece};
use emit_image::tail::{TailPart, TailParts};
use emit_relocate::previous_link_info::PreviousLinkInfo;
use emit_relocate::values::Values;
use growth::NoMemory;
use ldmodel_laws::segments::sections_in_file;
use ldmodel_laws::stayed::stayed_in_both;
use ldmodel_project::view::ProjectView;
use place::indexed_layout::IndexedLayout;
use std::alloc::Global;

/// A part of the tail, lent.
fn lend_part(part: &TailPart) -> ImagePart<'_>
    ensures { IsImagePart part.now result }
{
    ImagePart {
        offset: part.offset(),
        bytes: part.bytes(),
    }
}

/// The parts of the tail, lent in their order.
fn lend_parts(tail: &TailParts) -> [ImagePart<'_>; 4]
    ensures { AllZip IsImagePart (tail.now.symbols ∷ tail.now.symbol_names ∷ tail.now.header_names ∷ tail.now.headers
        ∷ []) result }
{
    [
        lend_part(&tail.symbols),
        lend_part(&tail.symbol_names),
        lend_part(&tail.header_names),
        lend_part(&tail.headers),
    ]
}

/// Draws these output sections, and what else the image of a link has, onto a canvas: all but what stays, in which the
/// patches are written. Fails if memory runs out; then the canvas is as it was.
fn draw_outputs(
    alloc: Global,
    canvas: &mut Canvas,
    project: &ProjectView<'_>,
    indexed_layout: &IndexedLayout,
    values: &Values<'_>,
    outputs: &[OutputDrawing<'_>],
    patches: &[Patch],
    meter: &mut Meter,
) -> Result<(), NoMemory>
    requires outputs { HasOutputs project.now indexed_layout.now values.now outputs.now }
    requires patches { (layout : Layout) → IsIndexedLayout project.now layout indexed_layout.now
        → All (EndsBy (image_length project.now layout)) patches.now }
    ensures image { OnOk result ((layout : Layout) (stays : SectionRef → Bool)
        → AreOutputs project.now indexed_layout.now values.now layout stays outputs.now
        → ((k : SectionRef) → stays k ≡ false) → canvas.new.bytes ≡ definition.image project.now layout) }
    ensures redrawn { OnOk result ((old new : GoodLink) (stays : SectionRef → Bool) → new.project ≡ project.now
        → AreOutputs project.now indexed_layout.now values.now new.layout stays outputs.now → IsGood old
        → IsGood new → HaveStayed old new stays → ArePatchesOf old new patches.now
        → canvas.old.bytes ≡ definition.image old.project old.layout
        → canvas.new.bytes ≡ definition.image new.project new.layout) }
    ensures work { OnOk result ((old new : GoodLink) (stays : SectionRef → Bool) → new.project ≡ project.now
        → AreOutputs project.now indexed_layout.now values.now new.layout stays outputs.now → IsGood new
        → AreAllThatStayed old new stays → patch_bytes patches.now ≤ retargeted_bytes old new
        → meter.new.bytes + bytes_stayed old new
        ≤ meter.old.bytes + (image_length new.project new.layout + retargeted_bytes old new)) }
    ensures spent { OnOk result ((old new : GoodLink) (stays : SectionRef → Bool) → new.project ≡ project.now
        → AreOutputs project.now indexed_layout.now values.now new.layout stays outputs.now → IsGood new
        → AreAllThatStayed old new stays → HaveStayed old new stays → meter.new ≡ raised meter.old counts.Bytes
        (patch_bytes patches.now + (image_length new.project new.layout - bytes_stayed old new))) }
    ensures counted { OnOk result ((n : ℕ) × (meter.new ≡ raised meter.old counts.Bytes n)) }
    ensures unchanged { OnErr result (canvas.new.bytes ≡ canvas.old.bytes) }
{
    // for the prover: bring in these laws
    drawing_stands();
    drawing_is_image();
    joined_is_whole();
    placement_is_in_memory();
    stayed_in_both();
    sections_in_file();
    let parts = drawing_parts(alloc, project, indexed_layout, values, outputs)?;
    let tail = lend_parts(&parts.tail);
    let drawing = Drawing {
        headers: &parts.headers,
        sections: &parts.sections,
        tail: &tail,
    };
    redraw(canvas, &drawing, patches, meter)
}

/// Writes the image of a link without faults onto a canvas, and counts the bytes that it writes: all except those of
/// the input sections of which `sources.previous` says that they stayed. In these only the patches are written, at
/// their offsets in the file.
///
/// If nothing stays, the canvas may hold anything before. Else it must hold the image of the previous link,
/// `sources.previous` may report only sections that stayed, and the patches must be the fields in them whose symbol has
/// another value. Then the canvas holds the image of the new link after the call. If `sources.previous` reports all
/// sections that stayed, the bytes outside of them and those of the patches are written, and no others.
///
/// # Errors
///
/// If memory runs out. Then the canvas is as it was.
pub fn draw_image<'a, E: PreviousLinkInfo>(
    alloc: Global,
    canvas: &mut Canvas,
    sources: &ImageSources<'a, '_, E>,
    values: &Values<'_>,
    patches: &[Patch],
    meter: &mut Meter,
) -> Result<(), NoMemory>
    requires drawable { IsDrawable sources.now.project.now sources.now.indexed_layout.now values.now
        sources.now.relocated.now
        (λ key. is_some (E.range sources.now.previous.now key)) }
    requires patches { (layout : Layout) → IsIndexedLayout sources.now.project.now layout sources.now.indexed_layout.now
        → All (EndsBy (image_length sources.now.project.now layout)) patches.now }
    ensures image { OnOk result ((layout : Layout) (table : SymbolTableState)
        → IsDrawableAt sources.now.project.now layout table sources.now.indexed_layout.now values.now
        sources.now.relocated.now (λ key. is_some (E.range sources.now.previous.now key))
        → ((key : SectionRef) → E.range sources.now.previous.now key ≡ None)
        → canvas.new.bytes ≡ definition.image sources.now.project.now layout) }
    ensures redrawn { OnOk result ((old new : GoodLink) (table : SymbolTableState)
        → new.project ≡ sources.now.project.now
        → IsDrawableAt sources.now.project.now new.layout table sources.now.indexed_layout.now values.now
        sources.now.relocated.now (λ key. is_some (E.range sources.now.previous.now key)) → IsGood old → IsGood new
        → IsSound (E.range sources.now.previous.now) old (known_link new.project new.layout table)
        → ArePatchesOf old new patches.now → canvas.old.bytes ≡ definition.image old.project old.layout
        → canvas.new.bytes ≡ definition.image new.project new.layout) }
    ensures work { OnOk result ((old new : GoodLink) (table : SymbolTableState) → new.project ≡ sources.now.project.now
        → IsDrawableAt sources.now.project.now new.layout table sources.now.indexed_layout.now values.now
        sources.now.relocated.now (λ key. is_some (E.range sources.now.previous.now key)) → IsGood new
        → IsComplete (E.range sources.now.previous.now) old (known_link new.project new.layout table)
        → patch_bytes patches.now ≤ retargeted_bytes old new → meter.new.bytes + bytes_stayed old new
        ≤ meter.old.bytes + (image_length new.project new.layout + retargeted_bytes old new)) }
    ensures spent { OnOk result ((old new : GoodLink) (table : SymbolTableState) → new.project ≡ sources.now.project.now
        → IsDrawableAt sources.now.project.now new.layout table sources.now.indexed_layout.now values.now
        sources.now.relocated.now (λ key. is_some (E.range sources.now.previous.now key)) → IsGood new
        → IsComplete (E.range sources.now.previous.now) old (known_link new.project new.layout table)
        → IsSound (E.range sources.now.previous.now) old (known_link new.project new.layout table)
        → meter.new ≡ raised meter.old counts.Bytes
        (patch_bytes patches.now + (image_length new.project new.layout - bytes_stayed old new))) }
    ensures counted { OnOk result ((n : ℕ) × (meter.new ≡ raised meter.old counts.Bytes n)) }
    ensures unchanged { OnErr result (canvas.new.bytes ≡ canvas.old.bytes) }
{
    // the borrow checker wants its lifetime named
    let pieces: Vec<Vec<ImagePiece<'a>>> = image_pieces(alloc, sources)?;
    let link_layout = &sources.indexed_layout.link_layout;
    let outputs = outputs(alloc, sources.project, link_layout, &pieces)?;
    draw_outputs(
        alloc,
        canvas,
        sources.project,
        sources.indexed_layout,
        values,
        &outputs,
        patches,
        meter,
    )
}
