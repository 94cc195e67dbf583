//! The text of the map, from parts that are ready; `emit::map` gathers these parts.

ghost use Rattle.std.specs.Prelude.{◌≡◌, ◌++◌, IfOk, OnOk, map};
ghost use Rattle.std.specs.Vec.{vec_items};
ghost use Rattle.ldscript.specs.Numbered.{shown_sections};
ghost use Rattle.ldmodel.specs.Layout.{Layout};
ghost use Rattle.ldmodel.specs.MapText.{map_text};
ghost use Rattle.emit_text.specs.MapOf.{IsMapOf};
ghost use Rattle.emit_text.specs.ShownMap.{letters, piece_text, pieces_text, section_text, sections_text, shown_map};

use crate::line_buffer::LineBuffer;
use crate::map_line::{SectionNumbers, put_entry_line, put_piece_line, put_section_line};
use crate::named::next_part_name;
use crate::symbols::{MapSymbols, put_symbols};
use growth::{NoMemory, vec};
use ldmodel::placed::{Placed, PlacementView};
use ldmodel::rows::Piece;
use ldmodel_project::view::ProjectView;
use ldscript::tree::OutputSectionAt;
use std::alloc::Global;

/// What the map shows of a link.
#[derive(Clone, Copy)]
pub struct MapParts<'a> {
    /// The entry point.
    pub entry: u64,
    /// The output sections of the script, in their order.
    pub sections: &'a [OutputSectionAt<'a>],
    /// Their addresses.
    pub placement: PlacementView<'a>,
    /// The input sections in each.
    pub rows: &'a [Vec<Piece>],
}

/// The FLAGS of an output section: `r`, then `w` or `-`, then `x` or `-`.
fn flags(placed: &Placed) -> &'static [u8]
    ensures { result.now ≡ letters placed.now.writable placed.now.executable }
{
    match (placed.writable, placed.executable) {
        (false, false) => b"r--",
        (true, false) => b"rw-",
        (false, true) => b"r-x",
        (true, true) => b"rwx",
    }
}

/// `section NAME START LOAD SIZE FLAGS`
fn put_section(text: &mut Vec<u8>, name: &[u8], placed: &Placed) -> Result<(), NoMemory>
    ensures { OnOk result (text.new.items ≡ text.old.items ++ section_text name.now placed.now) }
{
    let numbers = SectionNumbers {
        start: placed.start,
        load: placed.load,
        size: placed.size,
    };
    put_section_line(text, name, numbers, flags(placed))
}

/// `piece ADDRESS SIZE OBJECT SECTION`. Returns where the section of the next line is likely among those of its object.
#[tactic(auto, using(crate::proofs::MapLines::piece_spelled))]
#[inline(always)]
fn put_piece(
    text: &mut Vec<u8>,
    lines: &mut LineBuffer,
    project: &ProjectView<'_>,
    piece: &Piece,
    start: u64,
    likely: usize,
) -> Result<usize, NoMemory>
    ensures { OnOk result (text.new.items ++ lines.new
        ≡ (text.old.items ++ lines.old) ++ piece_text project.now piece.now start) }
{
    let object = project.name(piece.section.object);
    let (section, place) = next_part_name(project, piece.section, likely);
    put_piece_line(text, lines, start, piece.size, object, section)?;
    Ok(place)
}

/// The lines of a row, whose addresses are the first of `starts`.
fn put_pieces(
    text: &mut Vec<u8>,
    project: &ProjectView<'_>,
    row: &[Piece],
    starts: &[u64],
) -> Result<(), NoMemory>
    ensures { OnOk result (text.new.items ≡ text.old.items ++ pieces_text project.now row.now starts.now) }
{
    let mut lines = LineBuffer::new();
    let mut likely = 0;
    for i in 0..row.len().min(starts.len()) {
        likely = put_piece(text, &mut lines, project, &row[i], starts[i], likely)?;
    }
    lines.move_to(text)?;
    Ok(())
}

/// The lines of all output sections, each with its row.
fn put_sections(
    text: &mut Vec<u8>,
    project: &ProjectView<'_>,
    parts: &MapParts<'_>,
) -> Result<(), NoMemory>
    ensures { OnOk result (text.new.items
        ≡ text.old.items ++ sections_text project.now parts.now.placement.sections.now
        (shown_sections parts.now.sections.now) (map vec_items parts.now.rows.now) parts.now.placement.starts.now) }
{
    let mut starts = parts.placement.starts;
    // three tables side by side
    for k in 0..parts.placement.sections.len() {
        let Some(section) = parts.sections.get(k) else {
            return Ok(());
        };
        let Some(row) = parts.rows.get(k) else {
            return Ok(());
        };
        let placed = &parts.placement.sections[k];
        put_section(text, section.section.name.as_bytes(), placed)?;
        put_pieces(text, project, row, starts)?;
        starts = &starts[row.len().min(starts.len())..];
    }
    Ok(())
}

/// The lines of the map.
fn put_map<S: MapSymbols>(
    text: &mut Vec<u8>,
    project: &ProjectView<'_>,
    parts: &MapParts<'_>,
    symbols: &S,
) -> Result<(), NoMemory>
    ensures { OnOk result (text.new.items ≡ text.old.items ++ shown_map project.now parts.now (S.list symbols.now)) }
{
    put_entry_line(text, parts.entry)?;
    put_sections(text, project, parts)?;
    put_symbols(text, project, symbols)?;
    Ok(())
}

/// Room for the line of an input section: 42 bytes, and both names.
const PIECE_ROOM: usize = 96;
/// Room for the line of a symbol: 26 bytes, and both names.
const SYMBOL_ROOM: usize = 64;
/// Room for the line of an output section, 64 bytes and its name, or of the entry point.
const SECTION_ROOM: usize = 96;

/// Room for the lines of the map, if names are of common length. Room that is not used is not touched.
fn likely_size(parts: &MapParts<'_>, symbols: usize) -> usize {
    let pieces = parts.placement.starts.len().saturating_mul(PIECE_ROOM);
    let symbols = symbols.saturating_mul(SYMBOL_ROOM);
    let lines = parts.placement.sections.len().saturating_add(1);
    let sections = lines.saturating_mul(SECTION_ROOM);
    pieces.saturating_add(symbols).saturating_add(sections)
}

/// The map of a link: the entry point, the output sections with their rows, and the symbols in byte order of names.
/// `specs/MapOf.antt` says what `parts` and `symbols` must be: `symbols` has names in byte order, among them all that
/// are defined. The map is written once, into room that grows where names are long: to measure it first would take as
/// long as to write it.
///
/// # Errors
///
/// If memory runs out.
pub fn render_map<S: MapSymbols>(
    alloc: Global,
    parts: &MapParts<'_>,
    symbols: &S,
    project: &ProjectView<'_>,
) -> Result<Vec<u8>, NoMemory>
    ensures { (layout : Layout) → IsMapOf project.now layout parts.now (S.list symbols.now)
        → IfOk result (λ text. text.items ≡ map_text project.now layout) }
{
    let mut text = vec::with_capacity(alloc, likely_size(parts, symbols.count()))?;
    put_map(&mut text, project, parts, symbols)?;
    Ok(text)
}
