//! The input sections of an output section, as they are drawn. One that stays is joined to the one before it if
//! that stays too and no gap lies between: so what stayed together is drawn as one.

ghost use Rattle.std.specs.Prelude.{◌≡◌, ◌+◌, ◌++◌, ◌∷◌, [], IfSome, List, OnOk, false, true};
ghost use Rattle.emit_image.specs.Joined.{IsStayedPieceAt, StandFor};
ghost use Rattle.emit_image.specs.declared.section.ImagePiece.{ImagePiece as PieceOf};

use crate::section::ImagePiece;
use growth::{NoMemory, vec};

/// An input section that stays, of `size` bytes at `start`.
fn stayed_piece<'a>(size: u64, start: u64) -> ImagePiece<'a>
    ensures { IsStayedPieceAt start size result }
{
    ImagePiece {
        start,
        size,
        bytes: &[],
        fields: &[],
        stays: true,
    }
}

/// The size of `last` joined with an input section of `size` bytes at `start`, if `last` stays and ends at `start`.
fn joined_size(last: &ImagePiece<'_>, size: u64, start: u64) -> Option<u64>
    ensures { IfSome result (λ long. (last.now.stays ≡ true) × (last.now.start + last.now.size ≡ start)
        × (long ≡ last.now.size + size)) }
{
    if !last.stays {
        return None;
    }
    let reach = start.checked_sub(last.start)?;
    if reach != last.size {
        return None;
    }
    last.size.checked_add(size)
}

/// Adds an input section. `push` makes a call even if there is room.
#[inline(always)]
fn add<'a>(row: &mut Vec<ImagePiece<'a>>, piece: ImagePiece<'a>) -> Result<(), NoMemory>
    ensures { OnOk result (row.new.items ≡ row.old.items ++ piece.entry ∷ []) }
{
    if row.len() < row.capacity() {
        row.push_reserved(piece);
    } else {
        vec::push(row, piece)?;
    }
    Ok(())
}

/// Adds an input section that stays, of `size` bytes at `start`, joined to the last one if that stays and ends there.
///
/// # Errors
///
/// If memory runs out.
pub fn add_stayed<'a>(row: &mut Vec<ImagePiece<'a>>, size: u64, start: u64) -> Result<(), NoMemory>
    ensures { OnOk result ((whole : List PieceOf) → StandFor whole row.old.items
        → (x : PieceOf) × IsStayedPieceAt start size x × StandFor (whole ++ x ∷ []) row.new.items) }
{
    let count = row.len();
    if count > 0 {
        let last = row[count - 1];
        if let Some(size) = joined_size(&last, size, start) {
            row[count - 1] = ImagePiece { size, ..last };
            return Ok(());
        }
    }
    add(row, stayed_piece(size, start))?;
    Ok(())
}

/// Adds an input section that does not stay.
///
/// # Errors
///
/// If memory runs out.
pub fn add_drawn<'a>(row: &mut Vec<ImagePiece<'a>>, piece: ImagePiece<'a>) -> Result<(), NoMemory>
    ensures { OnOk result ((whole : List PieceOf) → StandFor whole row.old.items → piece.entry.stays ≡ false
        → StandFor (whole ++ piece.entry ∷ []) row.new.items) }
{
    add(row, piece)?;
    Ok(())
}
