//! Fields at their offsets, and the bytes of an input section with its fields over them.

ghost use Rattle.std.specs.Prelude.{◌≡◌, ◌≤◌, ◌<◌, ◌+◌, ◌-◌, ℕ, All, IfOk, List, length, slice_index, true};
ghost use Rattle.std.specs.List.Sorted.{IsNonDecreasingBy};
ghost use Rattle.elfobj.specs.Raised.{raised};
ghost use Rattle.emit_fields.specs.Patches.{AreApart, AreInOrder, IsWithin, patch_end, patched_byte};

use crate::canvas::Canvas;
use crate::field::Field;
use elfobj::{Count, Meter};
use growth::{NoMemory, vec};

/// A field and its offset.
#[derive(Debug, Drop)]
pub struct Patch {
    /// The offset of its first byte: in its input section, or in the file where patches of an image are meant
    /// (`Relocated::retargeted` of `emit`, and what `emit_image` calls patches).
    pub offset: usize,
    /// Its bytes.
    pub field: Field,
}

/// Whether these are in the order of their offsets.
fn is_ascending(patches: &[Patch]) -> bool
    ensures { result ≡ true → IsNonDecreasingBy (λ p. p.offset) patches.now }
{
    for k in 1..patches.len() {
        if patches[k].offset < patches[k - 1].offset {
            return false;
        }
    }
    true
}

/// Puts the fields of one piece, no two of which share a byte, into the order of their offsets. If they have it
/// already, as assemblers write them, that is one pass without memory; else they are sorted.
///
/// # Errors
///
/// If there is no memory for the sort.
pub fn in_order(mut patches: Vec<Patch>) -> Result<Vec<Patch>, NoMemory>
    requires { AreApart patches.items }
    ensures order { IfOk result (λ ordered. (n : ℕ) → All (IsWithin n) patches.items → AreInOrder 0 n ordered.items) }
    ensures same { IfOk result (λ ordered. (bytes : List ℕ) (i : ℕ)
        → patched_byte bytes ordered.items i ≡ patched_byte bytes patches.items i) }
{
    if !is_ascending(&patches) {
        vec::sort_by_key(&mut patches, |p| p.offset)?;
    }
    Ok(patches)
}

/// Writes the bytes of a piece from the offset `done` up to a field, and the field; returns its end.
fn write_up_to(
    canvas: &mut Canvas,
    at: usize,
    bytes: &[u8],
    done: usize,
    patch: &Patch,
    meter: &mut Meter,
) -> usize
    requires within { at + length bytes.now ≤ length canvas.old.bytes }
    requires order { done ≤ patch.now.offset }
    requires end { patch_end patch.now ≤ length bytes.now }
    ensures end { result ≡ patch_end patch.now }
    ensures own { (i : ℕ) → done ≤ i → i < patch.now.offset
        → slice_index canvas.new.bytes (at + i) ≡ slice_index bytes.now i }
    ensures field { (i : ℕ) → patch.now.offset ≤ i → i < patch_end patch.now
        → slice_index canvas.new.bytes (at + i) ≡ slice_index patch.now.field (i - patch.now.offset) }
    ensures before { (o : ℕ) → o < at + done → slice_index canvas.new.bytes o ≡ slice_index canvas.old.bytes o }
    ensures after { (o : ℕ) → at + patch_end patch.now ≤ o
        → slice_index canvas.new.bytes o ≡ slice_index canvas.old.bytes o }
    ensures len { length canvas.new.bytes ≡ length canvas.old.bytes }
    ensures room { canvas.new.room ≡ canvas.old.room }
    ensures counted { meter.new ≡ raised meter.old Count.Bytes (patch_end patch.now - done) }
{
    // for the prover: brings in that the length of the canvas fits a usize
    let _len = canvas.len();
    let field = patch.field.bytes();
    canvas.write(at + done, &bytes[done..patch.offset], meter);
    canvas.write(at + patch.offset, field, meter);
    patch.offset + field.len()
}

/// Writes a piece from `at` on: its fields, and its own bytes between them, each byte once.
pub fn write_patched(
    canvas: &mut Canvas,
    at: usize,
    bytes: &[u8],
    patches: &[Patch],
    meter: &mut Meter,
)
    requires within { at + length bytes.now ≤ length canvas.old.bytes }
    requires order { AreInOrder 0 (length bytes.now) patches.now }
    ensures written { (i : ℕ) → i < length bytes.now
        → slice_index canvas.new.bytes (at + i) ≡ patched_byte bytes.now patches.now i }
    ensures before { (offset : ℕ) → offset < at
        → slice_index canvas.new.bytes offset ≡ slice_index canvas.old.bytes offset }
    ensures after { (offset : ℕ) → at + length bytes.now ≤ offset
        → slice_index canvas.new.bytes offset ≡ slice_index canvas.old.bytes offset }
    ensures len { length canvas.new.bytes ≡ length canvas.old.bytes }
    ensures room { canvas.new.room ≡ canvas.old.room }
    ensures counted { meter.new ≡ raised meter.old Count.Bytes (length bytes.now) }
{
    // for the prover: brings in that the length of the canvas fits a usize
    let _len = canvas.len();
    let mut done = 0;
    for patch in patches {
        done = write_up_to(canvas, at, bytes, done, patch, meter);
    }
    canvas.write(at + done, &bytes[done..], meter);
}
