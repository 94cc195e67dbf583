//! How many pieces come into the bucket of each statement: room for them is made at once, so that no bucket grows.

ghost use Rattle.std.specs.Prelude.{IfOk, length};
ghost use Rattle.gather.specs.RowPieces.{AreEmpty};

use crate::blocks::CommonBlock;
use crate::matches::Matches;
use growth::{NoMemory, vec};
use ldmodel::rows::{InputIndex, Piece};
use ldscript::tree::{InputPlace, InputStatementAt};
use std::alloc::Global;

/// Counts sections for the statement that takes them, if one does.
pub(crate) fn count_taken(counts: &mut Vec<usize>, statement: Option<InputIndex>, sections: usize) {
    if let Some(statement) = statement {
        let number = statement.0 as usize;
        if number < counts.len() {
            counts[number] = counts[number].saturating_add(sections);
        }
    }
}

/// Counts the input sections of an object.
fn count_object(counts: &mut Vec<usize>, matches: &Matches, blocks: &[CommonBlock]) {
    for run in &matches.linked {
        count_taken(counts, run.statement, run.count as usize);
    }
    count_taken(counts, matches.common, blocks.len());
}

/// How many input sections each statement takes. `blocks` has the common blocks of each object, in object order.
fn count_all(
    alloc: Global,
    matches: &[&Matches],
    blocks: &[Vec<CommonBlock>],
    statements: usize,
) -> Result<Vec<usize>, NoMemory> {
    let mut counts = vec::from_elem(alloc, 0_usize, statements)?;
    for (matches, blocks) in matches.iter().zip(blocks) {
        count_object(&mut counts, matches, blocks);
    }
    Ok(counts)
}

/// Adds to the length of a statement's row.
fn add_length(lengths: &mut Vec<usize>, place: InputPlace, count: usize) {
    if let InputPlace::InSection(row) = place {
        if row < lengths.len() {
            lengths[row] = lengths[row].saturating_add(count);
        }
    }
}

/// How long each row becomes, if its statements take these numbers of sections.
fn row_lengths(
    alloc: Global,
    statements: &[InputStatementAt<'_>],
    counts: &[usize],
    outputs: usize,
) -> Result<Vec<usize>, NoMemory> {
    let mut lengths = vec::from_elem(alloc, 0_usize, outputs)?;
    for (statement, count) in statements.iter().zip(counts) {
        add_length(&mut lengths, statement.place, *count);
    }
    Ok(lengths)
}

/// How many pieces the bucket of a statement has room for: its own `count`, or those of the whole row if it is the
/// first statement there that takes any, since its bucket becomes the row. The length of that row is then set to 0.
fn room(lengths: &mut Vec<usize>, place: InputPlace, count: usize) -> usize {
    match place {
        InputPlace::InDiscard => 0,
        InputPlace::InSection(row) if count > 0 && row < lengths.len() => {
            let room = count.max(lengths[row]);
            lengths[row] = 0;
            room
        }
        InputPlace::InSection(_) => count,
    }
}

/// An empty bucket for each statement, with room for the pieces that come into it: for its own, whose number is in
/// `counts`, and in the first bucket of a row for those of the whole row. The script has this many output sections.
///
/// # Errors
///
/// If memory runs out.
pub(crate) fn empty_buckets(
    alloc: Global,
    statements: &[InputStatementAt<'_>],
    counts: &[usize],
    outputs: usize,
) -> Result<Vec<Vec<Piece>>, NoMemory>
    ensures { IfOk result (λ lists. AreEmpty (length statements.now) lists.items) }
{
    let mut lengths = row_lengths(alloc, statements, counts, outputs)?;
    let mut buckets: Vec<Vec<Piece>> = vec::with_capacity(alloc, statements.len())?;
    for (number, statement) in statements.iter().enumerate() {
        let count = counts.get(number).copied().unwrap_or(0);
        let room = room(&mut lengths, statement.place, count);
        vec::push(&mut buckets, vec::with_capacity(alloc, room)?)?;
    }
    Ok(buckets)
}

/// An empty bucket for each statement, with room for all input sections that it takes. `blocks` has the common blocks
/// of each object, in object order.
///
/// # Errors
///
/// If memory runs out.
pub(crate) fn buckets_for(
    alloc: Global,
    matches: &[&Matches],
    blocks: &[Vec<CommonBlock>],
    statements: &[InputStatementAt<'_>],
    outputs: usize,
) -> Result<Vec<Vec<Piece>>, NoMemory>
    ensures { IfOk result (λ lists. AreEmpty (length statements.now) lists.items) }
{
    let counts = count_all(alloc, matches, blocks, statements.len())?;
    empty_buckets(alloc, statements, &counts, outputs)
}
