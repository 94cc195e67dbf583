//! Pieces in the order of a sort.

ghost use Rattle.std.specs.Prelude.{◌≡◌, ◌<◌, IfOk, OnOk, Some, length, max};
ghost use Rattle.std.specs.List.{All};
ghost use Rattle.gather.specs.NamedPieces.{AreNames, AreOfNames, pieces_at};
ghost use Rattle.gather.specs.RowPieces.{Orders};
ghost use Rattle.gather.specs.SharedStarts.{AllBegin};
ghost use Rattle.gather.specs.declared.sorting.NamedPlace.{NamedPlace};
ghost use Rattle.ldmodel.specs.Project.{Project};
ghost use Rattle.ldscript.specs.statements.declared.input.Sort.TheVariants.{ByName, ByAlignment};

use crate::section_names::section_name;
use crate::shared_start::shared_start;
use growth::{NoMemory, vec};
use ldmodel::rows::Piece;
use ldmodel_laws::gathering::row_by_order;
use ldmodel_project::view::ProjectView;
use ldscript::tree::Sort;
use std::alloc::Global;
use symres::table::prefix_key::KeyedName;

/// The name of a piece's section, without the prefix that all names share, and the place of the piece.
#[derive(Drop)]
struct NamedPlace<'a> {
    name: KeyedName<'a>,
    place: usize,
}

/// The names of the sections of pieces, each of which is looked up once.
fn names_of<'a>(
    alloc: Global,
    project: &ProjectView<'a>,
    pieces: &[Piece],
) -> Result<Vec<&'a [u8]>, NoMemory>
    ensures { IfOk result (λ names. AreNames project.now pieces.now names.items) }
{
    let mut names = vec::with_capacity(alloc, pieces.len())?;
    for piece in pieces {
        vec::push(&mut names, section_name(project, piece.section))?;
    }
    Ok(names)
}

/// For each name, all of which begin with `start`, what follows that, and the place of the name.
fn places_of<'a>(
    alloc: Global,
    names: &[&'a [u8]],
    start: &[u8],
) -> Result<Vec<NamedPlace<'a>>, NoMemory>
    requires { AllBegin start.now names.now }
    ensures { IfOk result (λ places. AreOfNames start.now names.now (length names.now) places.items) }
{
    let mut places = vec::with_capacity(alloc, names.len())?;
    for (place, name) in names.iter().enumerate() {
        vec::push(
            &mut places,
            NamedPlace {
                name: KeyedName::new(&name[start.len()..]),
                place,
            },
        )?;
    }
    Ok(places)
}

/// Puts pieces in the order of these places.
fn put_in_order(
    alloc: Global,
    pieces: &mut Vec<Piece>,
    places: &[NamedPlace<'_>],
) -> Result<(), NoMemory>
    requires { All (λ (x : NamedPlace). x.place < length pieces.old.items) places.now }
    ensures { OnOk result (pieces.new.items ≡ pieces_at pieces.old.items places.now) }
{
    let mut ordered = vec::with_capacity(alloc, places.len())?;
    for entry in places {
        vec::push(&mut ordered, pieces[entry.place])?;
    }
    *pieces = ordered;
    Ok(())
}

/// Puts pieces in the order of the names of their sections, byte by byte. Each name is looked up once.
fn sort_by_name(
    alloc: Global,
    project: &ProjectView<'_>,
    pieces: &mut Vec<Piece>,
) -> Result<(), NoMemory>
    ensures { OnOk result (Orders project.now (Some ByName) pieces.old.items pieces.new.items) }
{
    // for the prover: brings in this law
    row_by_order();
    let names = names_of(alloc, project, pieces)?;
    let mut places = places_of(alloc, &names, shared_start(&names))?;
    vec::sort_by(&mut places, |a, b| a.name.cmp(&b.name))?;
    put_in_order(alloc, pieces, &places)
}

/// The alignment of a piece, at least 1.
fn alignment(piece: &Piece) -> u64
    ensures { result ≡ max 1 piece.now.alignment }
{
    piece.alignment.max(1)
}

/// Puts pieces in the order of their alignments, the greatest first.
fn sort_by_alignment(pieces: &mut Vec<Piece>) -> Result<(), NoMemory>
    ensures { (project : Project) → OnOk result (Orders project (Some ByAlignment) pieces.old.items pieces.new.items) }
{
    // for the prover: brings in this law
    row_by_order();
    vec::sort_by(pieces, |a, b| alignment(b).cmp(&alignment(a)))
}

/// Puts pieces in the order of a statement's sort: by name, byte by byte, or by alignment, the greatest first. Those
/// with equal keys stay as they were, and so do all without a sort. Names are looked up for a sort by name alone.
pub(crate) fn order(
    alloc: Global,
    project: &ProjectView<'_>,
    pieces: &mut Vec<Piece>,
    sort: Option<Sort>,
) -> Result<(), NoMemory>
    ensures { OnOk result (Orders project.now sort pieces.old.items pieces.new.items) }
{
    match sort {
        None => {
            // for the prover: brings in this law
            row_by_order();
            Ok(())
        }
        Some(Sort::ByName) => sort_by_name(alloc, project, pieces),
        Some(Sort::ByAlignment) => sort_by_alignment(pieces),
    }
}
