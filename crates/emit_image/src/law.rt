//! Laws of drawings.

ghost use Rattle.std.specs.Prelude.{◌≡◌, ◌≤◌, ◌<◌, ◌+◌, ◌-◌, ◌^◌, ℕ, All, List, Ok, false, length, slice_index};
ghost use Rattle.std.specs.List.{AllZip};
ghost use Rattle.std.specs.List.Sorted.{IsPermutation};
ghost use Rattle.elfobj.specs.RelocationKinds.{width};
ghost use Rattle.emit_fields.specs.declared.patch.Patch.{Patch};
ghost use Rattle.ldmodel_laws.specs.Untouched.{IsGood};
ghost use Rattle.ldmodel.specs.Image.{byte_at, image};
ghost use Rattle.ldmodel.specs.Layout.{Layout};
ghost use Rattle.ldmodel.specs.Placement.{placement};
ghost use Rattle.ldmodel.specs.Project.{Project};
ghost use Rattle.ldmodel.specs.Relocations.{Site};
ghost use Rattle.ldmodel.specs.Rows.{Piece};
ghost use Rattle.ldmodel.specs.SectionHeaders.{image_length};
ghost use Rattle.ldmodel.specs.Segments.{nonempty};
ghost use Rattle.ldmodel.specs.Stayed.{GoodLink, retargeted};
ghost use Rattle.ldmodel.specs.WorkBound.{bytes_stayed, retargeted_bytes};
ghost use Rattle.ldscript.specs.statements.declared.statement.Statement.{Statement};
ghost use Rattle.emit_image.specs.Drawing.{IsDrawing, drawing_end, drawing_spot};
ghost use Rattle.emit_image.specs.InMemory.{AreFilled, IsInMemory};
ghost use Rattle.emit_image.specs.Joined.{AreAlike, IsJoined};
ghost use Rattle.emit_image.specs.Redrawings.{ArePatchesOf, EachPiece, HasStayed, IsMarkedIfStayed, IsRedrawing};
ghost use Rattle.emit_image.specs.OfLink.{AreUnstayed, IsDrawingOf};
ghost use Rattle.emit_image.specs.Drawn.{IsDrawnFor, count_unstayed};
ghost use Rattle.emit_image.specs.Stretches.{EndsBy, patch_bytes};
ghost use Rattle.emit_image.specs.declared.section.Drawing.{Drawing};

use ldmodel_laws::layout::{layout_by_effects, nothing_overlaps};
use ldmodel_laws::segments::{sections_in_file, segments_by_neighbours};
use ldmodel_laws::stayed::{fields_in_image, pieces_in_image, stayed_in_both, untouched_bytes};

/// A drawing whose parts are those of a link has the bytes of the link's image, except where bytes stay, and ends where
/// the image ends. Where no input section stays, no byte does. Bytes that agree with the image at each offset, and are
/// as many, are the image.
pub fn drawing_is_image()
    ensures byte { (project : Project) (layout : Layout) (drawing : Drawing) → IsDrawingOf project layout drawing
        → (o : ℕ) → (drawing_spot drawing o).stays
        ≡ false → (drawing_spot drawing o).byte ≡ byte_at project layout o }
    ensures end { (project : Project) (layout : Layout) (drawing : Drawing) → IsDrawingOf project layout drawing
        → drawing_end drawing ≡ image_length project layout }
    ensures unstayed { (drawing : Drawing) → AreUnstayed drawing → (o : ℕ) → (drawing_spot drawing o).stays ≡ false }
    ensures whole { (project : Project) (layout : Layout) (bytes : List ℕ) → length bytes ≡ image_length project layout
        → ((o : ℕ) → o < image_length project layout → slice_index bytes o ≡ byte_at project layout o) → bytes
        ≡ image project layout }
{}

/// A drawing whose parts are those of a link stands in order in the file, where the parts of each output section that
/// isn't empty stand in order in memory, fills have 1 to 8 bytes, and bytes and fields fill their input sections.
pub fn drawing_stands()
    ensures { (project : Project) (layout : Layout) (drawing : Drawing) → IsDrawingOf project layout drawing
        → All IsInMemory (nonempty layout.sections)
        → AreFilled drawing → image_length project layout < 2 ^ 64 → IsDrawing drawing }
{
    segments_by_neighbours();
}

/// The parts of each nonempty output section of a placement are in order in memory.
pub fn placement_is_in_memory()
    ensures { (script : List Statement) (rows : List (List Piece)) (provided : List (List ℕ)) (layout : Layout)
        → placement script rows provided ≡ Ok layout → All IsInMemory (nonempty layout.sections) }
{
    nothing_overlaps();
    layout_by_effects();
}

/// A drawing in which input sections that stay are joined has the same bytes, of which the same stay, and stands in
/// order too; and a drawing in which none are joined is alike to itself.
pub fn joined_is_whole()
    ensures stands { (whole drawing : Drawing) → IsJoined whole drawing → IsDrawing whole → IsDrawing drawing }
    ensures alike { (whole drawing : Drawing) → IsJoined whole drawing → AreAlike whole drawing }
    ensures own { (drawing : Drawing) → AreAlike drawing drawing }
{}

/// What is kept of the image of an old link is right for a new one, where only input sections that stayed are kept, and
/// patches give the fields of their sites whose symbol has another value: then the drawing and the patches are a plan
/// for the new image, and no patch ends past the drawing. With or without a drawing, no such patch ends past the image.
pub fn kept_is_image()
    ensures drawn { (old new : GoodLink) (drawing : Drawing) (patches : List Patch) → IsGood old → IsGood new
        → IsRedrawing old new drawing patches
        → IsDrawnFor (byte_at new.project new.layout) drawing patches (image old.project old.layout) }
    ensures within { (old new : GoodLink) (drawing : Drawing) (patches : List Patch) → IsGood old → IsGood new
        → IsRedrawing old new drawing patches → All (EndsBy (drawing_end drawing)) patches }
    ensures ends { (old new : GoodLink) (patches : List Patch) → IsGood new → ArePatchesOf old new patches
        → All (EndsBy (image_length new.project new.layout)) patches }
{
    untouched_bytes();
    stayed_in_both();
    pieces_in_image();
    fields_in_image();
    sections_in_file();
}

/// If all input sections that stayed are kept, the bytes that do not stay and those of what stayed are together no more
/// than the image has.
pub fn kept_is_not_drawn()
    ensures { (old new : GoodLink) (drawing : Drawing) → IsGood new → IsDrawing drawing
        → IsDrawingOf new.project new.layout drawing
        → EachPiece (IsMarkedIfStayed old new) new.layout drawing
        → count_unstayed (drawing_spot drawing) (drawing_end drawing)
        + bytes_stayed old new ≤ image_length new.project new.layout }
{
    sections_in_file();
}

/// If exactly the input sections that stayed are kept, the bytes that do not stay are the other bytes of the image.
pub fn kept_is_what_stayed()
    ensures { (old new : GoodLink) (drawing : Drawing) → IsGood new → IsDrawing drawing
        → IsDrawingOf new.project new.layout drawing
        → EachPiece (IsMarkedIfStayed old new) new.layout drawing → EachPiece (HasStayed old new) new.layout drawing
        → count_unstayed (drawing_spot drawing) (drawing_end drawing)
        ≡ image_length new.project new.layout - bytes_stayed old new }
{
    sections_in_file();
}

/// Patches of the sites in input sections that stayed whose symbol has another value, one of each, have as many bytes
/// as the fields of these sites.
pub fn patches_are_all()
    ensures { (old new : GoodLink) (sites : List Site) (patches : List Patch)
        → IsPermutation sites (retargeted old new)
        → AllZip (λ (site : Site) (q : Patch). length q.field ≡ width site.relocation.kind) sites patches
        → patch_bytes patches ≡ retargeted_bytes old new }
{}
