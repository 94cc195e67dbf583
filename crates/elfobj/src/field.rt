//! The fields that relocations change: whether they lie in their section, and their order.

ghost use Rattle.std.specs.Prelude.{◌≡◌, IfNone, IfSome, OnOk, false, true};
ghost use Rattle.std.specs.List.Sorted.{IsNonDecreasingBy, IsPermutation};
ghost use Rattle.elfobj_file.specs.Relocations.{field_end};
ghost use Rattle.elfobj_file.specs.Tables.{is_outside};

use crate::relocation::Relocation;
use crate::section::SectionKind;
use growth::{NoMemory, vec};

/// Whether a relocation changes a byte past the end of its section of `size` bytes, or lies in one that has no bytes in
/// the file.
pub fn is_outside(relocation: &Relocation, kind: SectionKind, size: u64) -> bool
    ensures { result ≡ is_outside kind size relocation.now }
{
    match kind {
        SectionKind::Nobits => true,
        _ => size < relocation.offset || size - relocation.offset < relocation.kind.width(),
    }
}

/// Where the field of a relocation ends, if it lies in a section of this kind and size.
pub fn end_inside(relocation: &Relocation, kind: SectionKind, size: u64) -> Option<u64>
    ensures end { IfSome result (λ end. end ≡ field_end relocation.now) }
    ensures inside { IfSome result (λ end. is_outside kind size relocation.now ≡ false) }
    ensures outside { IfNone result (is_outside kind size relocation.now ≡ true) }
{
    let end = u128::from(relocation.offset) + u128::from(relocation.kind.width());
    match kind {
        SectionKind::Nobits => None,
        _ => {
            if end <= u128::from(size) {
                Some(end as u64)
            } else {
                None
            }
        }
    }
}

/// Whether the relocations are in the order of their offsets.
fn are_ascending(relocations: &[Relocation]) -> bool
    ensures { result ≡ true → IsNonDecreasingBy (λ r. r.offset) relocations.now }
{
    let mut last = 0;
    for relocation in relocations {
        if relocation.offset < last {
            return false;
        }
        last = relocation.offset;
    }
    true
}

/// Fills `room` with these relocations in the order of their offsets. They are copied if they have that order, as
/// assemblers write them, and else sorted.
pub fn put_in_order(relocations: &[Relocation], room: &mut Vec<Relocation>) -> Result<(), NoMemory>
    ensures same { OnOk result (IsPermutation relocations.now room.new.items) }
    ensures order { OnOk result (IsNonDecreasingBy (λ relocation. relocation.offset) room.new.items) }
{
    room.clear();
    vec::extend_from_slice(room, relocations)?;
    if are_ascending(relocations) {
        return Ok(());
    }
    room.sort_unstable_by_key(|r| r.offset);
    Ok(())
}
