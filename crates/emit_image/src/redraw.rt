//! The image of a link, over what the canvas holds of the image of a previous one: its parts are the headers, the
//! output sections, the tail, and zeros between them.

ghost use Rattle.std.specs.Prelude.{◌≡◌, ◌≤◌, ◌+◌, ◌-◌, All, OnErr, OnOk, ◌<◌, ◌^◌, length, ℕ, slice_index, true};
ghost use Rattle.std.specs.Prelude.{false};
ghost use Rattle.elfobj.specs.Raised.{raised};
ghost use Rattle.elfobj.specs.declared.meter.Count.TheVariants as counts;
ghost use Rattle.ldmodel_laws.specs.Untouched.{IsGood};
ghost use Rattle.ldmodel.specs.Image.{image};
ghost use Rattle.ldmodel.specs.Layout.{Layout};
ghost use Rattle.ldmodel.specs.Project.{Project};
ghost use Rattle.ldmodel.specs.SectionHeaders.{image_length};
ghost use Rattle.ldmodel.specs.Stayed.{GoodLink};
ghost use Rattle.ldmodel.specs.WorkBound.{bytes_stayed, retargeted_bytes};
ghost use Rattle.emit_image.specs.Drawing.{IsDrawing, drawing_end, drawing_spot, IsOrderly, end_of_sections, part_end};
ghost use Rattle.emit_image.specs.Joined.{AreAlike};
ghost use Rattle.emit_image.specs.Redrawings.{EachPiece, HasStayed, IsMarkedIfStayed, IsRedrawing};
ghost use Rattle.emit_image.specs.OfLink.{AreUnstayed, IsDrawingOf};
ghost use Rattle.emit_image.specs.Drawn.{count_unstayed, IsDrawnFor};
ghost use Rattle.emit_image.specs.Stretches.{EndsBy, patch_bytes, IsPatchOf, is_patched};
ghost use Rattle.emit_image.specs.declared.section.Drawing.{Drawing as DrawingOf};
ghost use Rattle.emit_image.specs.Painted.{IsPainted, IsReady};
ghost use Rattle.emit_image.specs.Reached.{after_zeros, part_image, section_image};
ghost use Rattle.elfobj.specs.declared.meter.Count.TheVariants.{Bytes};

use crate::law::{drawing_is_image, kept_is_image, kept_is_not_drawn, kept_is_what_stayed};
use crate::paint::{ZERO, grow_to, paint_bytes, paint_fill};
use crate::paint_section::paint_section;
use crate::patched::BUFFER_SIZE;
use crate::section::{Drawing, ImagePart, ImageSection};
use elfobj::Meter;
use emit_fields::canvas::Canvas;
use emit_fields::patch::Patch;
use growth::NoMemory;

/// The lengths that room is made for are multiples of this one.
const STEP: usize = 1 << 20;

/// The length that room is made for where an image gets this one: the next multiple of `STEP`, if there is one.
fn with_spare(length: usize) -> usize
    ensures { length ≤ result }
{
    match length.checked_add(STEP - length % STEP) {
        Some(more) => more,
        None => length,
    }
}

/// Makes room for an image of this length, and somewhat more if there is memory for it: so an image that grows a little
/// at each edit is not copied to a larger place each time. Fails if there is no memory for the image itself.
fn make_room(canvas: &mut Canvas, length: usize) -> Result<(), NoMemory>
    ensures bytes { canvas.new.bytes ≡ canvas.old.bytes }
    ensures room { OnOk result (length ≤ canvas.new.room) }
{
    match canvas.reserve(with_spare(length)) {
        Ok(()) => Ok(()),
        Err(_refused) => canvas.reserve(length),
    }
}

/// Where the last output section ends.
fn sections_end(drawing: &Drawing<'_>) -> usize
    requires drawing { IsDrawing drawing.now }
    ensures { result ≡ end_of_sections (length drawing.now.headers.now) drawing.now.sections.now }
{
    let mut at = drawing.headers.len();
    for x in drawing.sections {
        at = (x.offset + x.size) as usize;
    }
    at
}

/// Where the image ends.
pub(crate) fn image_end(drawing: &Drawing<'_>) -> usize
    requires drawing { IsDrawing drawing.now }
    ensures { result ≡ drawing_end drawing.now }
{
    let mut at = sections_end(drawing);
    for part in drawing.tail {
        at = part.offset as usize + part.bytes.len();
    }
    at
}

/// Writes the zeros before an output section, and the section. Returns where it ends.
fn paint_next_section(
    canvas: &mut Canvas,
    buffer: &mut [u8; BUFFER_SIZE],
    limit: usize,
    from: usize,
    section: &ImageSection<'_>,
    meter: &mut Meter,
) -> usize
    requires ready { IsReady limit canvas.old }
    requires order { from ≤ section.now.offset }
    requires orderly { IsOrderly section.now }
    requires within { section.now.offset + section.now.size ≤ limit }
    ensures end { result ≡ section.now.offset + section.now.size }
    ensures ready { IsReady limit canvas.new }
    ensures painted { IsPainted canvas.old.bytes canvas.new.bytes meter.old meter.new from
        (section.now.offset + section.now.size)
        (after_zeros section.now.offset (section_image section.now)) }
{
    paint_fill(canvas, limit, from, section.offset as usize, &ZERO, meter);
    paint_section(canvas, buffer, limit, section, meter);
    (section.offset + section.size) as usize
}

/// Writes the output sections after the headers. Returns where the last one ends.
fn paint_sections(
    canvas: &mut Canvas,
    buffer: &mut [u8; BUFFER_SIZE],
    limit: usize,
    drawing: &Drawing<'_>,
    meter: &mut Meter,
) -> usize
    requires drawing { IsDrawing drawing.now }
    requires ready { IsReady limit canvas.old }
    requires within { end_of_sections (length drawing.now.headers.now) drawing.now.sections.now ≤ limit }
    ensures end { result ≡ end_of_sections (length drawing.now.headers.now) drawing.now.sections.now }
    ensures ready { IsReady limit canvas.new }
    ensures painted { IsPainted canvas.old.bytes canvas.new.bytes meter.old meter.new (length drawing.now.headers.now)
        (end_of_sections (length drawing.now.headers.now) drawing.now.sections.now) (drawing_spot drawing.now) }
{
    let mut at = drawing.headers.len();
    for x in drawing.sections {
        at = paint_next_section(canvas, buffer, limit, at, x, meter);
    }
    at
}

/// Writes the zeros before a part of the tail, and the part. Returns where it ends.
fn paint_part(
    canvas: &mut Canvas,
    limit: usize,
    from: usize,
    part: &ImagePart<'_>,
    meter: &mut Meter,
) -> usize
    requires ready { IsReady limit canvas.old }
    requires order { from ≤ part.now.offset }
    requires end { part_end part.now < 2 ^ 64 }
    requires within { part_end part.now ≤ limit }
    ensures end { result ≡ part_end part.now }
    ensures ready { IsReady limit canvas.new }
    ensures painted { IsPainted canvas.old.bytes canvas.new.bytes meter.old meter.new from (part_end part.now)
        (after_zeros part.now.offset (part_image part.now)) }
{
    let begin = part.offset as usize;
    paint_fill(canvas, limit, from, begin, &ZERO, meter);
    paint_bytes(canvas, limit, begin, part.bytes, meter);
    begin + part.bytes.len()
}

/// Writes the tail from where the output sections end. Returns where it ends.
fn paint_tail(
    canvas: &mut Canvas,
    limit: usize,
    from: usize,
    drawing: &Drawing<'_>,
    meter: &mut Meter,
) -> usize
    requires drawing { IsDrawing drawing.now }
    requires ready { IsReady limit canvas.old }
    requires within { drawing_end drawing.now ≤ limit }
    requires from { from ≡ end_of_sections (length drawing.now.headers.now) drawing.now.sections.now }
    ensures end { result ≡ drawing_end drawing.now }
    ensures ready { IsReady limit canvas.new }
    ensures painted { IsPainted canvas.old.bytes canvas.new.bytes meter.old meter.new from (drawing_end drawing.now)
        (drawing_spot drawing.now) }
{
    let mut at = from;
    for part in drawing.tail {
        at = paint_part(canvas, limit, at, part, meter);
    }
    at
}

/// Writes all of an image that does not stay, each byte once. The canvas grows with it, up to where the image ends.
pub(crate) fn paint_drawing(
    canvas: &mut Canvas,
    limit: usize,
    drawing: &Drawing<'_>,
    meter: &mut Meter,
)
    requires drawing { IsDrawing drawing.now }
    requires ready { IsReady limit canvas.old }
    requires limit { limit ≡ drawing_end drawing.now }
    ensures ready { IsReady limit canvas.new }
    ensures painted { IsPainted canvas.old.bytes canvas.new.bytes meter.old meter.new 0 (drawing_end drawing.now)
        (drawing_spot drawing.now) }
{
    let mut buffer = [0; BUFFER_SIZE];
    paint_bytes(canvas, limit, 0, drawing.headers, meter);
    let at = paint_sections(canvas, &mut buffer, limit, drawing, meter);
    let _end = paint_tail(canvas, limit, at, drawing, meter);
}

/// Writes a field. One of eight bytes is copied as one word, as one of four is by `Canvas::write`.
#[inline(always)]
fn write_field(canvas: &mut Canvas, at: usize, field: &[u8], meter: &mut Meter)
    requires { at + length field.now ≤ length canvas.old.bytes }
    ensures written { (i : ℕ) → i < length field.now
        → slice_index canvas.new.bytes (at + i) ≡ slice_index field.now i }
    ensures before { (o : ℕ) → o < at → slice_index canvas.new.bytes o ≡ slice_index canvas.old.bytes o }
    ensures after { (o : ℕ) → at + length field.now ≤ o
        → slice_index canvas.new.bytes o ≡ slice_index canvas.old.bytes o }
    ensures len { length canvas.new.bytes ≡ length canvas.old.bytes }
    ensures room { canvas.new.room ≡ canvas.old.room }
    ensures counted { meter.new ≡ raised meter.old Bytes (length field.now) }
{
    if let [a, b, c, d, e, f, g, h] = field {
        canvas.write(at, &[*a, *b, *c, *d, *e, *f, *g, *h], meter);
    } else {
        canvas.write(at, field, meter);
    }
}

/// Writes patches at their places in the file; the canvas grows if they lie past it. If the patches have the
/// bytes of an image, bytes of the canvas that were right for that image stay right, and the patched bytes become
/// right.
fn write_patches(canvas: &mut Canvas, patches: &[Patch], end: usize, meter: &mut Meter)
    requires within { All (EndsBy end) patches.now }
    requires short { length canvas.old.bytes ≤ end }
    requires room { end ≤ canvas.old.room }
    ensures grows { (image : ℕ → ℕ) → All (IsPatchOf image) patches.now → (o : ℕ) → slice_index canvas.old.bytes o
        ≡ image o → slice_index canvas.new.bytes o ≡ image o }
    ensures settled { (image : ℕ → ℕ) → All (IsPatchOf image) patches.now → (o : ℕ) → is_patched patches.now o ≡ true
        → slice_index canvas.new.bytes o ≡ image o }
    ensures short { length canvas.new.bytes ≤ end }
    ensures room { end ≤ canvas.new.room }
    ensures counted { (n : ℕ) → raised meter.new Bytes n
        ≡ raised meter.old Bytes (patch_bytes patches.now + n) }
{
    // for the prover: brings in that the length of the canvas fits a usize
    let _len = canvas.len();
    for patch in patches {
        let field = patch.field.bytes();
        grow_to(canvas, patch.offset + field.len(), end);
        write_field(canvas, patch.offset, field, meter);
    }
}

/// Brings the canvas to the image of a drawing, up to its end: cuts off what lies past it, writes the patches, and then
/// what does not stay, each byte once. It takes no memory, and counts the bytes that it writes. A byte that does not
/// stay is then that of the drawing, whatever the canvas held.
pub(crate) fn write_image(
    canvas: &mut Canvas,
    drawing: &Drawing<'_>,
    end: usize,
    patches: &[Patch],
    meter: &mut Meter,
)
    requires drawing { IsDrawing drawing.now }
    requires end { end ≡ drawing_end drawing.now }
    requires room { end ≤ canvas.old.room }
    requires patches { All (EndsBy end) patches.now }
    ensures len { length canvas.new.bytes ≡ end }
    ensures drawn { (o : ℕ) → o < end → (drawing_spot drawing.now o).stays ≡ false
        → slice_index canvas.new.bytes o ≡ (drawing_spot drawing.now o).byte }
    ensures image { (image : ℕ → ℕ) → IsDrawnFor image drawing.now patches.now canvas.old.bytes → (o : ℕ) → o < end
        → slice_index canvas.new.bytes o ≡ image o }
    ensures counted { meter.new
        ≡ raised meter.old Bytes (patch_bytes patches.now + count_unstayed (drawing_spot drawing.now) end) }
{
    canvas.resize_reserved(canvas.len().min(end));
    write_patches(canvas, patches, end, meter);
    paint_drawing(canvas, end, drawing, meter);
    // for the prover: brings in that the count of bytes fits a u64
    let _bytes = meter.bytes();
}

/// Writes the image of a drawing onto a canvas, except for the bytes that stay; in these only the patches are written,
/// at their offsets in the file. Room for all of it is taken before anything is written, so that this can be the last
/// call of an edit that may fail.
///
/// In a drawing, neighbours that stay may be joined into one entry. The clauses speak about `whole`, the same drawing
/// with nothing joined.
///
/// If nothing stays, the canvas may hold anything before. Else it must hold the image of the old link, only input
/// sections that stayed may be kept, and the patches must be the fields in them whose symbol has another value: then
/// the canvas holds the image of the new link. If exactly the sections that stayed are kept, exactly the bytes outside
/// of them and those of these fields are written.
///
/// # Errors
///
/// If memory runs out. Then the canvas is as it was.
pub fn redraw(
    canvas: &mut Canvas,
    drawing: &Drawing<'_>,
    patches: &[Patch],
    meter: &mut Meter,
) -> Result<(), NoMemory>
    requires drawing { IsDrawing drawing.now }
    requires patches { All (EndsBy (drawing_end drawing.now)) patches.now }
    ensures image { OnOk result ((project : Project) (layout : Layout) (whole : DrawingOf) → AreAlike whole drawing.now
        → AreUnstayed whole → IsDrawingOf project layout whole → canvas.new.bytes ≡ image project layout) }
    ensures redrawn { OnOk result ((old new : GoodLink) (whole : DrawingOf) → AreAlike whole drawing.now
        → IsGood old → IsGood new → IsRedrawing old new whole patches.now
        → canvas.old.bytes ≡ image old.project old.layout → canvas.new.bytes ≡ image new.project new.layout) }
    ensures work { OnOk result ((old new : GoodLink) (whole : DrawingOf) → AreAlike whole drawing.now
        → IsDrawing whole → IsGood new → IsDrawingOf new.project new.layout whole
        → EachPiece (IsMarkedIfStayed old new) new.layout whole → patch_bytes patches.now ≤ retargeted_bytes old new
        → meter.new.bytes + bytes_stayed old new
        ≤ meter.old.bytes + (image_length new.project new.layout + retargeted_bytes old new)) }
    ensures spent { OnOk result ((old new : GoodLink) (whole : DrawingOf) → AreAlike whole drawing.now
        → IsDrawing whole → IsGood new → IsDrawingOf new.project new.layout whole
        → EachPiece (IsMarkedIfStayed old new) new.layout whole → EachPiece (HasStayed old new) new.layout whole
        → meter.new ≡ raised meter.old counts.Bytes
        (patch_bytes patches.now + (image_length new.project new.layout - bytes_stayed old new))) }
    ensures counted { OnOk result (meter.new ≡ raised meter.old counts.Bytes
        (patch_bytes patches.now + count_unstayed (drawing_spot drawing.now) (drawing_end drawing.now))) }
    ensures unchanged { OnErr result (canvas.new.bytes ≡ canvas.old.bytes) }
{
    // for the prover: bring in these laws
    drawing_is_image();
    kept_is_image();
    kept_is_not_drawn();
    kept_is_what_stayed();
    let end = image_end(drawing);
    make_room(canvas, end)?;
    write_image(canvas, drawing, end, patches, meter);
    Ok(())
}
