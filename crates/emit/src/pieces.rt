//! Input sections as they are drawn.

ghost use Rattle.std.specs.Prelude.{◌≡◌, ◌≢◌, ◌<◌, ◌≤◌, ◌++◌, ◌∷◌, [], ℕ, All, Bool, IfNone, IfOk, IfSome, List};
ghost use Rattle.std.specs.Prelude.{OnOk, Some, false};
ghost use Rattle.std.specs.Prelude.{is_some, length, map, slice_get};
ghost use Rattle.std.specs.List.{AllZip};
ghost use Rattle.std.specs.Vec.{vec_items};
ghost use Rattle.emit_image.specs.Joined.{StandFor};
ghost use Rattle.emit_image.specs.declared.section.ImagePiece.{ImagePiece as Drawn};
ghost use Rattle.elfobj.specs.Numbering.{IsNumberedAt};
ghost use Rattle.elfobj.specs.Sections.{LinkedSection, section_of};
ghost use Rattle.place.specs.IndexedLayout.{IsIndexedLayout};
ghost use Rattle.ldmodel.specs.Layout.{Layout, PlacedPiece, PlacedOutput};
ghost use Rattle.ldmodel.specs.Project.{NamedObject};
ghost use Rattle.ldmodel.specs.SymbolValues.{placed_part};
ghost use Rattle.ldmodel.specs.declared.sections.Part.TheVariants as part;
ghost use Rattle.ldmodel.specs.declared.sections.SectionRef.{SectionRef as KeyOf};
ghost use Rattle.symres.specs.SymbolTable.{SymbolTableState};
ghost use Rattle.ldmodel_project.specs.ByPlace.{piece_in, rows_in};
ghost use Rattle.emit_relocate.specs.KnownLink.{KnownLink};
ghost use Rattle.emit_relocate.specs.LinkView.{known_link};
ghost use Rattle.emit.specs.Output.{IsJoinedRow};
ghost use Rattle.emit.specs.Pieces.{AreRowsAt, AreSources, IsDrawnPiece, IsPlacedAt, IsRowAt, IsRowPiece};
ghost use Rattle.emit.specs.Pieces.{IsSectionPiece};
ghost use Rattle.emit.specs.Runs.{AreRunsUnless};

use crate::image_sources::ImageSources;
use crate::relocated::Relocated;
use crate::section_fields::fields_of;
use elfobj::Object;
use elfobj::section::{LinkedIndex, Section, SectionIndex, SectionKind};
use emit_image::row::{add_drawn, add_stayed};
use emit_image::section::ImagePiece;
use emit_relocate::previous_link_info::PreviousLinkInfo;
use growth::{NoMemory, vec};
use ldmodel::names::ObjectPlace;
use ldmodel::rows::Piece;
use ldmodel::sections::{Part, SectionRef};
use ldmodel_laws::gathering::{live_by_path, once_in_rows};
use ldmodel_laws::layout::placed_are_rows;
use ldmodel_project::view::ProjectView;
use place::indexed_layout::IndexedLayout;
use place::numbered::are_numbered;
use std::alloc::Global;

/// An input section of `size` zeros at an address.
fn zeros<'a>(size: u64, start: u64) -> ImagePiece<'a>
    ensures { (result.start ≡ start) × (result.size ≡ size) × (result.bytes.now ≡ []) × (result.fields.now ≡ [])
        × (result.stays ≡ false) }
{
    ImagePiece {
        start,
        size,
        bytes: &[],
        fields: &[],
        stays: false,
    }
}

/// The section of an object at a place.
fn section_at(object: &Object, index: LinkedIndex) -> Section
    requires { index.0 < length object.now.sections }
    ensures { (section : LinkedSection) → slice_get object.now.sections index.0 ≡ Some section → result
        ≡ section_of section }
{
    object.sections()[index.0]
}

/// The index of the section of an object with this number, looked for at one index before all others.
fn section_near(object: &Object, number: SectionIndex, hint: usize) -> Option<LinkedIndex>
    ensures found { IfSome result (λ i. IsNumberedAt (map section_of object.now.sections) number i.0) }
    ensures absent { IfNone result
        (All (λ section. section.number.0 ≢ number.0) (map section_of object.now.sections)) }
{
    let Some(section) = object.sections().get(hint) else {
        return object.section_at(number);
    };
    if section.number.0 == number.0 {
        return Some(LinkedIndex(hint));
    }
    object.section_at(number)
}

/// A section of the object of a key, as an input section of this number of bytes at an address; all zeros if it is
/// NOBITS, or if there is no list of its fields, which no link lacks.
fn section_piece<'a>(
    relocated: &'a Relocated,
    indexed_layout: &IndexedLayout,
    place: ObjectPlace,
    object: &'a Object,
    index: LinkedIndex,
    size: u64,
    start: u64,
) -> ImagePiece<'a>
    requires { index.0 < length object.now.sections }
    ensures { (link : KnownLink) (stays : KeyOf → Bool) (o : NamedObject) (section : LinkedSection)
        (w : PlacedPiece)
        → AreSources link stays indexed_layout.now relocated.now → slice_get link.project.objects place.0 ≡ Some o
        → o.object ≡ object.now
        → slice_get o.object.sections index.0 ≡ Some section
        → stays (record { object = place; part = part.InTable section.number }) ≡ false
        → placed_part link.layout o.name (part.InTable section.number) ≡ Some w → w.start ≡ start → section.size ≡ size
        → IsSectionPiece link o section size start result }
{
    let section = section_at(object, index);
    // for the prover: brings in the invariant of `object`, of its sections
    let _sections = object.sections();
    let _relocations = object.relocations(index);
    let bytes = object.section_bytes(index);
    match section.kind {
        SectionKind::Nobits => zeros(size, start),
        _ => match fields_of(relocated, indexed_layout, place, index) {
            None => zeros(size, start),
            Some(fields) => ImagePiece {
                start,
                size,
                bytes,
                fields,
                stays: false,
            },
        },
    }
}

/// What is drawn of an entry at an address: the bytes of its section, or zeros if it belongs to no object. `hint` is
/// where its section is looked for first, and is updated for the next entry: the sections of an object mostly stand in
/// a row one after the other, as in the object.
fn drawn_piece<'a>(
    project: &'a ProjectView<'_>,
    relocated: &'a Relocated,
    indexed_layout: &IndexedLayout,
    piece: &Piece,
    start: u64,
    hint: &mut usize,
) -> ImagePiece<'a>
    ensures { (link : KnownLink) (stays : KeyOf → Bool) (w : PlacedPiece)
        → link.project ≡ project.now → AreSources link stays indexed_layout.now relocated.now
        → stays piece.now.section ≡ false
        → IsPlacedAt project.now link.layout (piece_in project.now piece.now) start w
        → IsDrawnPiece link.project link.layout w result }
{
    // for the prover: brings in the invariant of `project`
    let _inputs = project.inputs();
    project.objects_are_named();
    let key = piece.section.object;
    match piece.section.part {
        Part::InCommon(_) => zeros(piece.size, start),
        Part::InTable(number) => match project.object(key) {
            None => zeros(piece.size, start),
            Some(object) => match section_near(object, number, *hint) {
                None => zeros(piece.size, start),
                Some(index) => {
                    *hint = index.0.wrapping_add(1);
                    // for the prover: brings in the invariant of `object`, of its sections
                    let _sections = object.sections();
                    section_piece(
                        relocated,
                        indexed_layout,
                        key,
                        object,
                        index,
                        piece.size,
                        start,
                    )
                }
            },
        },
    }
}

/// Whether a common block stayed. It is looked up by its key, which a call is lent.
#[inline(never)]
fn common_has_stayed<E: PreviousLinkInfo>(previous: &E, section: SectionRef) -> bool
    ensures { result ≡ is_some (E.range previous.now section) }
{
    previous.has_stayed(section)
}

/// Whether an entry of a row stayed. The few common blocks are looked up apart: for the others no key need be kept in
/// memory.
#[inline(always)]
fn has_stayed<E: PreviousLinkInfo>(previous: &E, piece: &Piece) -> bool
    ensures { result ≡ is_some (E.range previous.now piece.now.section) }
{
    match piece.section.part {
        Part::InTable(_) => previous.has_stayed(piece.section),
        Part::InCommon(_) => common_has_stayed(previous, piece.section),
    }
}

/// Adds an entry of a row at an address: one that stays is joined to the one before it, where that stays too and no gap
/// lies between. `hint` is as in `drawn_piece`. Fails if memory runs out.
fn add_entry<'a, E: PreviousLinkInfo>(
    sources: &ImageSources<'a, '_, E>,
    piece: &Piece,
    start: u64,
    pieces: &mut Vec<ImagePiece<'a>>,
    hint: &mut usize,
) -> Result<(), NoMemory>
    ensures { OnOk result ((link : KnownLink) (w : PlacedPiece) (whole : List Drawn)
        → link.project ≡ sources.now.project.now
        → AreSources link (λ k. is_some (E.range sources.now.previous.now k)) sources.now.indexed_layout.now
        sources.now.relocated.now
        → IsPlacedAt sources.now.project.now link.layout (piece_in sources.now.project.now piece.now) start w
        → StandFor whole pieces.old.items
        → (y : Drawn) × IsRowPiece link.project link.layout (λ k. is_some (E.range sources.now.previous.now k)) w y
        × StandFor (whole ++ y ∷ []) pieces.new.items) }
{
    if has_stayed(sources.previous, piece) {
        return add_stayed(pieces, piece.size, start);
    }
    let drawn = drawn_piece(
        sources.project,
        sources.relocated,
        sources.indexed_layout,
        piece,
        start,
        hint,
    );
    add_drawn(pieces, drawn)
}

/// Adds an entry of a row at an address, as `add_entry` does, unless it is empty: nothing of it lies in the image.
/// Objects have many empty sections, as `.text` beside one section for each function.
fn add_unless_empty<'a, E: PreviousLinkInfo>(
    sources: &ImageSources<'a, '_, E>,
    piece: &Piece,
    start: u64,
    pieces: &mut Vec<ImagePiece<'a>>,
    hint: &mut usize,
) -> Result<(), NoMemory>
    ensures { OnOk result ((link : KnownLink) (w : PlacedPiece) (whole : List Drawn)
        → link.project ≡ sources.now.project.now
        → AreSources link (λ k. is_some (E.range sources.now.previous.now k)) sources.now.indexed_layout.now
        sources.now.relocated.now
        → IsPlacedAt sources.now.project.now link.layout (piece_in sources.now.project.now piece.now) start w
        → StandFor whole pieces.old.items
        → (y : Drawn) × IsRowPiece link.project link.layout (λ k. is_some (E.range sources.now.previous.now k)) w y
        × StandFor (whole ++ y ∷ []) pieces.new.items) }
{
    if piece.size == 0 {
        return Ok(());
    }
    add_entry(sources, piece, start, pieces, hint)
}

/// The address of this number among some; 0 if there are fewer.
fn start_at(starts: &[u64], number: usize) -> u64
    ensures { (start : ℕ) → slice_get starts.now number ≡ Some start → result ≡ start }
{
    match starts.get(number) {
        None => 0,
        Some(start) => *start,
    }
}

/// The entries of a row at these addresses that are not empty, of which those that stay are joined where no gap lies
/// between. Fails if memory runs out.
fn image_row<'a, E: PreviousLinkInfo>(
    alloc: Global,
    sources: &ImageSources<'a, '_, E>,
    row: &[Piece],
    starts: &[u64],
) -> Result<Vec<ImagePiece<'a>>, NoMemory>
    ensures { IfOk result (λ v. (link : KnownLink) (output : PlacedOutput) → link.project ≡ sources.now.project.now
        → AreSources link (λ k. is_some (E.range sources.now.previous.now k)) sources.now.indexed_layout.now
        sources.now.relocated.now
        → IsRowAt sources.now.project.now link.layout (map (piece_in sources.now.project.now) row.now) starts.now output
        → IsJoinedRow link.project link.layout (λ k. is_some (E.range sources.now.previous.now k)) output v.items) }
{
    let mut pieces = vec::with_capacity(alloc, row.len())?;
    let mut hint: usize = 0;
    for (k, piece) in row.iter().enumerate() {
        let start = start_at(starts, k);
        add_unless_empty(sources, piece, start, &mut pieces, &mut hint)?;
    }
    Ok(pieces)
}

/// How many addresses a row of this many entries takes of those that are left.
fn taken(count: usize, left: usize) -> usize
    ensures few { result ≤ left }
    ensures all { count ≤ left → result ≡ count }
{
    if count <= left { count } else { left }
}

/// The entries of all rows, row by row. Fails if memory runs out.
fn image_rows<'a, E: PreviousLinkInfo>(
    alloc: Global,
    sources: &ImageSources<'a, '_, E>,
    starts: &[u64],
) -> Result<Vec<Vec<ImagePiece<'a>>>, NoMemory>
    ensures { IfOk result (λ v. (link : KnownLink) → link.project ≡ sources.now.project.now
        → AreSources link (λ k. is_some (E.range sources.now.previous.now k)) sources.now.indexed_layout.now
        sources.now.relocated.now
        → AreRowsAt sources.now.project.now link.layout
        (rows_in sources.now.project.now sources.now.indexed_layout.now.rows.items) starts.now
        → AllZip (IsJoinedRow link.project link.layout (λ k. is_some (E.range sources.now.previous.now k)))
        link.layout.sections (map vec_items v.items)) }
{
    let mut pieces = vec::with_capacity(alloc, sources.indexed_layout.rows.len())?;
    let mut at: usize = 0;
    for row in &sources.indexed_layout.rows {
        let row = row.as_slice();
        let drawn = image_row(alloc, sources, row, &starts[at..])?;
        vec::push(&mut pieces, drawn)?;
        at += taken(row.len(), starts.len() - at);
    }
    Ok(pieces)
}

/// The input sections of each output section, in their order; those that a previous link says have stayed stay, and are
/// joined where no gap lies between.
///
/// # Errors
///
/// If memory runs out.
pub(crate) fn image_pieces<'a, E: PreviousLinkInfo>(
    alloc: Global,
    sources: &ImageSources<'a, '_, E>,
) -> Result<Vec<Vec<ImagePiece<'a>>>, NoMemory>
    ensures { IfOk result (λ v. (layout : Layout) (table : SymbolTableState)
        → IsIndexedLayout sources.now.project.now layout sources.now.indexed_layout.now
        → AreRunsUnless (known_link sources.now.project.now layout table)
        (λ k. is_some (E.range sources.now.previous.now k)) sources.now.relocated.now.patches.items
        sources.now.relocated.now.ends.items
        → AllZip (IsJoinedRow sources.now.project.now layout (λ k. is_some (E.range sources.now.previous.now k)))
        layout.sections (map vec_items v.items)) }
{
    // for the prover: bring in these laws
    live_by_path();
    once_in_rows();
    placed_are_rows();
    are_numbered(sources.project);
    let _inputs = sources.project.inputs();
    let starts = sources.indexed_layout.link_layout.placement.pieces();
    image_rows(alloc, sources, starts)
}
