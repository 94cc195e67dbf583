//! What input sections in their places bring into an output section.

ghost use Rattle.std.specs.Prelude.{◌≡◌, ◌==◌, ◌&&◌, map, not, bit_and};
ghost use Rattle.std.specs.List.{list_any};
ghost use Rattle.ldmodel.specs.Layout.{PlacedPiece};
ghost use Rattle.ldmodel.specs.Placement.{is_empty, is_in_file};
ghost use Rattle.place_terms.specs.Keyed.{piece_at};
ghost use Rattle.place_terms.specs.Naming.{Naming};
ghost use Rattle.place_terms.specs.SectionTable.{keyed_piece};

use crate::sections::PieceAt;
use elfobj::section::SectionKind;

/// Whether an input section brings bytes into the file.
fn is_in_file(at: &PieceAt<'_>) -> bool
    ghost naming: { Naming }
    ensures { result ≡ is_in_file (piece_at naming (keyed_piece at.now)) }
{
    !matches!(at.piece.kind, SectionKind::Nobits) && at.piece.size != 0
}

/// Whether one of these input sections brings bytes into the file.
pub fn any_in_file(pieces: &[PieceAt<'_>]) -> bool
    ghost naming: { Naming }
    ensures { result ≡ list_any is_in_file (map (piece_at naming) (map keyed_piece pieces.now)) }
{
    for at in pieces {
        if is_in_file(at) {
            return true;
        }
    }
    false
}

fn has_this_flag(at: &PieceAt<'_>, flag: u64) -> bool
    ensures { result ≡ (not (bit_and at.now.piece.now.flags flag == 0) && not (at.now.piece.now.size == 0)) }
{
    at.piece.flags & flag != 0 && at.piece.size != 0
}

/// Whether one of these input sections that is not empty has a flag.
pub fn any_with_flag(pieces: &[PieceAt<'_>], flag: u64) -> bool
    ghost naming: { Naming }
    ensures { result ≡ list_any (λ (placed : PlacedPiece). not (bit_and placed.piece.flags flag == 0)
        && not (is_empty placed)) (map (piece_at naming) (map keyed_piece pieces.now)) }
{
    for at in pieces {
        if has_this_flag(at, flag) {
            return true;
        }
    }
    false
}
