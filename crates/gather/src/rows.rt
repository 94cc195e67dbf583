//! The rows of the output sections.

ghost use Rattle.std.specs.Prelude.{◌≡◌, ◌++◌, ◌∷◌, [], ℕ, IfOk, List, OnOk, if◌then◌else◌, length, map};
ghost use Rattle.std.specs.List.{filter_map};
ghost use Rattle.gather.specs.GatheredSections.{AreGathered, as_piece, own_piece, taken_in};
ghost use Rattle.gather.specs.LiveMarks.{marked};
ghost use Rattle.gather.specs.RowPieces.{AddsTo, AreBuckets, AreEmpty, taken_piece};
ghost use Rattle.gather.specs.Runs.{linked_piece};
ghost use Rattle.ldmodel.specs.InputSections.{input_sections};
ghost use Rattle.ldmodel.specs.Live.{live};
ghost use Rattle.ldmodel.specs.Rows.{rows};
ghost use Rattle.ldmodel.specs.declared.rows.Piece.{Piece};
ghost use Rattle.ldmodel_project.specs.ByPlace.{piece_in, rows_in};
ghost use Rattle.ldscript.specs.statements.Numbered.{shown_inputs};
ghost use Rattle.ldscript.specs.statements.Numbering.{input_statements, output_sections};

use crate::gathered_section::{GatheredSection, linked};
use crate::live_sections::is_marked;
use crate::rooms::{count_taken, empty_buckets};
use crate::sorting::order;
use elfobj::section::Section;
use growth::{NoMemory, vec};
use ldmodel::names::ObjectPlace;
use ldmodel::rows::{InputIndex, Piece};
use ldmodel_project::view::ProjectView;
use ldscript::tree::{InputPlace, InputStatementAt, Sort};
use std::alloc::Global;
use std::mem;

/// This many empty rows.
fn empty_rows(alloc: Global, count: usize) -> Result<Vec<Vec<Piece>>, NoMemory>
    ensures { IfOk result (λ lists. AreEmpty count lists.items) }
{
    let mut lists: Vec<Vec<Piece>> = vec::with_capacity(alloc, count)?;
    for _number in 0..count {
        vec::push(&mut lists, Vec::new(alloc))?;
    }
    Ok(lists)
}

/// How many live sections each statement takes.
fn counts(
    alloc: Global,
    sections: &[GatheredSection],
    marks: &[bool],
    statements: usize,
) -> Result<Vec<usize>, NoMemory> {
    let mut counts = vec::from_elem(alloc, 0_usize, statements)?;
    for (place, section) in sections.iter().enumerate() {
        if is_marked(marks, place) {
            count_taken(&mut counts, section.statement, 1);
        }
    }
    Ok(counts)
}

/// Adds a piece to the end of a list. Room was made for it, so the code that grows a list stays out of callers' loops.
#[inline(always)]
fn push_piece(list: &mut Vec<Piece>, piece: Piece) -> Result<(), NoMemory>
    ensures { OnOk result (list.new.items ≡ list.old.items ++ piece ∷ []) }
{
    if list.len() < list.capacity() {
        list.push_reserved(piece);
        return Ok(());
    }
    vec::push(list, piece)?;
    Ok(())
}

/// Adds a section to those of the statement that takes it. Its piece is made here, right where it is to stand, and is
/// copied nowhere.
#[inline(always)]
pub(crate) fn add_section(
    buckets: &mut Vec<Vec<Piece>>,
    section: &GatheredSection,
    statement: InputIndex,
) -> Result<(), NoMemory>
    ensures { OnOk result ((xs : List Piece) (count : ℕ) → AreBuckets xs count buckets.old.items
        → AreBuckets (xs ++ as_piece section.now statement ∷ []) count buckets.new.items) }
{
    let number = statement.0 as usize;
    if number < buckets.len() {
        push_piece(&mut buckets[number], section.piece(statement))?;
    }
    Ok(())
}

/// Adds linked sections of an object to a list, as pieces that this statement takes.
fn push_run(
    list: &mut Vec<Piece>,
    place: ObjectPlace,
    statement: InputIndex,
    run: &[Section],
) -> Result<(), NoMemory>
    ensures { OnOk result (list.new.items ≡ list.old.items ++ map (linked_piece place statement) run.now) }
{
    for section in run {
        push_piece(
            list,
            linked(place, Some(statement), section).piece(statement),
        )?;
    }
    Ok(())
}

/// Adds linked sections of an object to those of the statement that takes them.
pub(crate) fn add_run(
    buckets: &mut Vec<Vec<Piece>>,
    place: ObjectPlace,
    statement: InputIndex,
    run: &[Section],
) -> Result<(), NoMemory>
    ensures { OnOk result ((xs : List Piece) (count : ℕ) → AreBuckets xs count buckets.old.items
        → AreBuckets (xs ++ map (linked_piece place statement) run.now) count buckets.new.items) }
{
    let number = statement.0 as usize;
    if number < buckets.len() {
        push_run(&mut buckets[number], place, statement, run)?;
    }
    Ok(())
}

/// Adds a section to those of the statement that takes it, if it is live and one does.
fn add_taken(
    buckets: &mut Vec<Vec<Piece>>,
    section: &GatheredSection,
    is_live: bool,
) -> Result<(), NoMemory>
    ensures { OnOk result ((xs : List Piece) (count : ℕ) → AreBuckets xs count buckets.old.items
        → AreBuckets (xs ++ filter_map own_piece (if is_live then section.now ∷ [] else [])) count
        buckets.new.items) }
{
    match section.statement {
        Some(statement) if is_live => add_section(buckets, section, statement),
        _ => Ok(()),
    }
}

/// The live sections that each statement takes, in their order. `marks` says of each section whether it is live. They
/// are counted first, so that no bucket grows.
fn buckets(
    alloc: Global,
    sections: &[GatheredSection],
    marks: &[bool],
    statements: &[InputStatementAt<'_>],
    outputs: usize,
) -> Result<Vec<Vec<Piece>>, NoMemory>
    ensures { IfOk result (λ buckets.
        AreBuckets (taken_in marks.now sections.now) (length statements.now) buckets.items) }
{
    let counts = counts(alloc, sections, marks, statements.len())?;
    let mut buckets = empty_buckets(alloc, statements, &counts, outputs)?;
    for (place, section) in sections.iter().enumerate() {
        add_taken(&mut buckets, section, is_marked(marks, place))?;
    }
    Ok(buckets)
}

/// Adds pieces to the end of a row. An empty row takes the list as it is, with no copy.
fn add_pieces(row: &mut Vec<Piece>, pieces: &mut Vec<Piece>) -> Result<(), NoMemory>
    ensures { OnOk result (row.new.items ≡ row.old.items ++ pieces.old.items) }
{
    if row.is_empty() {
        mem::swap(row, pieces);
        return Ok(());
    }
    vec::append(row, pieces)
}

/// Adds the pieces that a statement takes, in the order of its sort, to the row of its output section.
fn add_statement(
    alloc: Global,
    project: &ProjectView<'_>,
    rows: &mut Vec<Vec<Piece>>,
    place: InputPlace,
    sort: Option<Sort>,
    pieces: &mut Vec<Piece>,
) -> Result<(), NoMemory>
    ensures { OnOk result (AddsTo project.now place sort pieces.old.items rows.old.items rows.new.items) }
{
    match place {
        InputPlace::InSection(number) => {
            order(alloc, project, pieces, sort)?;
            if number < rows.len() {
                add_pieces(&mut rows[number], pieces)?;
            }
            Ok(())
        }
        InputPlace::InDiscard => Ok(()),
    }
}

/// The rows that these buckets make, which have the pieces of each statement: those of a row's statements one after
/// another, each in the order of its statement's sort. The script has this many output sections.
///
/// # Errors
///
/// If memory runs out.
pub(crate) fn join_buckets(
    alloc: Global,
    project: &ProjectView<'_>,
    statements: &[InputStatementAt<'_>],
    outputs: usize,
    taken: Vec<Vec<Piece>>,
) -> Result<Vec<Vec<Piece>>, NoMemory>
    requires statements { shown_inputs statements.now ≡ input_statements project.now.script }
    requires outputs { outputs ≡ length (output_sections project.now.script) }
    requires taken { length taken.items ≡ length statements.now }
    ensures { IfOk result (λ found. (xs : List Piece) → AreBuckets xs (length statements.now) taken.items
        → map (piece_in project.now) xs ≡ filter_map (taken_piece project.now) (live project.now)
        → rows_in project.now found.items ≡ rows project.now) }
{
    let mut buckets = taken;
    let mut found = empty_rows(alloc, outputs)?;
    for (number, statement) in statements.iter().enumerate() {
        let place = statement.place;
        let sort = statement.input.sort;
        add_statement(
            alloc,
            project,
            &mut found,
            place,
            sort,
            &mut buckets[number],
        )?;
    }
    Ok(found)
}

/// The row of each output section, in the order of the script: statement by statement the live sections that the
/// statement takes, in object order and then section order or, if the statement has a sort, in the order of that.
/// `marks` says of each section whether it is live.
///
/// # Errors
///
/// If memory runs out.
pub fn rows(
    alloc: Global,
    project: &ProjectView<'_>,
    sections: &[GatheredSection],
    marks: &[bool],
) -> Result<Vec<Vec<Piece>>, NoMemory>
    ensures { IfOk result (λ found. AreGathered project.now sections.now
        → marked marks.now (input_sections project.now) ≡ live project.now
        → rows_in project.now found.items ≡ rows project.now) }
{
    let script = project.script();
    let statements = script.input_statements(alloc)?;
    let outputs = script.output_sections(alloc)?.len();
    let buckets = buckets(alloc, sections, marks, &statements, outputs)?;
    join_buckets(alloc, project, &statements, outputs, buckets)
}
