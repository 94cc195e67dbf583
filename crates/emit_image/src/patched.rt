//! Input sections with the fields that lie in them. All but long ones are put together beside the canvas and written at
//! once, which takes less time than to write each field and what lies before it.

ghost use Rattle.std.specs.Prelude.{◌≡◌, ◌≤◌, ◌<◌, ◌+◌, ℕ, length, slice_index};
ghost use Rattle.elfobj.specs.Raised.{raised};
ghost use Rattle.elfobj.specs.declared.meter.Count.TheVariants.{Bytes};
ghost use Rattle.emit_fields.specs.Patches.{AreInOrder, patched_byte};

use elfobj::Meter;
use emit_fields::canvas::Canvas;
use emit_fields::patch::{Patch, write_patched};

/// The greatest size of an input section that is assembled beside the canvas.
pub(crate) const BUFFER_SIZE: usize = 4096;

/// Copies bytes over as many others. Four of them, as most fields have, are copied as one word.
#[inline(always)]
fn copy_over(to: &mut [u8], from: &[u8])
    requires { length to.old ≡ length from.now }
    ensures { to.new ≡ from.now }
{
    if let [first, second, third, fourth] = from {
        let word = [*first, *second, *third, *fourth];
        to.copy_from_slice(&word);
    } else {
        to.copy_from_slice(from);
    }
}

/// Copies bytes over those from `at` on.
#[inline(always)]
fn put(whole: &mut [u8; BUFFER_SIZE], at: usize, bytes: &[u8])
    requires { at + length bytes.now ≤ 4096 }
    ensures written { (i : ℕ) → i < length bytes.now
        → slice_index whole.new (at + i) ≡ slice_index bytes.now i }
    ensures before { (o : ℕ) → o < at → slice_index whole.new o ≡ slice_index whole.old o }
    ensures after { (o : ℕ) → at + length bytes.now ≤ o → slice_index whole.new o ≡ slice_index whole.old o }
{
    let end = at + bytes.len();
    copy_over(&mut whole[at..end], bytes);
}

/// Puts the bytes of the fields that lie in a section, and its own between them, over the first of `whole`.
fn put_together(whole: &mut [u8; BUFFER_SIZE], bytes: &[u8], patches: &[Patch])
    requires few { length bytes.now ≤ 4096 }
    requires order { AreInOrder 0 (length bytes.now) patches.now }
    ensures { (i : ℕ) → i < length bytes.now → slice_index whole.new i ≡ patched_byte bytes.now patches.now i }
{
    put(whole, 0, bytes);
    for patch in patches {
        put(whole, patch.offset, patch.field.bytes());
    }
}

/// Writes an input section as `write_piece` does, however many fields lie in it. It stands apart from the loop over
/// input sections, which has the more registers so.
#[inline(never)]
fn write_with_fields(
    canvas: &mut Canvas,
    buffer: &mut [u8; BUFFER_SIZE],
    at: usize,
    bytes: &[u8],
    patches: &[Patch],
    meter: &mut Meter,
)
    requires within { at + length bytes.now ≤ length canvas.old.bytes }
    requires order { AreInOrder 0 (length bytes.now) patches.now }
    ensures written { (i : ℕ) → i < length bytes.now
        → slice_index canvas.new.bytes (at + i) ≡ patched_byte bytes.now patches.now i }
    ensures before { (o : ℕ) → o < at → slice_index canvas.new.bytes o ≡ slice_index canvas.old.bytes o }
    ensures after { (o : ℕ) → at + length bytes.now ≤ o
        → slice_index canvas.new.bytes o ≡ slice_index canvas.old.bytes o }
    ensures len { length canvas.new.bytes ≡ length canvas.old.bytes }
    ensures room { canvas.new.room ≡ canvas.old.room }
    ensures counted { meter.new ≡ raised meter.old Bytes (length bytes.now) }
{
    if bytes.len() > BUFFER_SIZE {
        write_patched(canvas, at, bytes, patches, meter);
        return;
    }
    put_together(buffer, bytes, patches);
    canvas.write(at, &buffer[..bytes.len()], meter);
}

/// Writes an input section from `at` on: the bytes of the fields that lie in it, and its own between them, each byte
/// once. It may be assembled in `buffer`, whose contents have no meaning before and after.
#[inline(always)]
pub(crate) fn write_piece(
    canvas: &mut Canvas,
    buffer: &mut [u8; BUFFER_SIZE],
    at: usize,
    bytes: &[u8],
    patches: &[Patch],
    meter: &mut Meter,
)
    requires within { at + length bytes.now ≤ length canvas.old.bytes }
    requires order { AreInOrder 0 (length bytes.now) patches.now }
    ensures written { (i : ℕ) → i < length bytes.now
        → slice_index canvas.new.bytes (at + i) ≡ patched_byte bytes.now patches.now i }
    ensures before { (o : ℕ) → o < at → slice_index canvas.new.bytes o ≡ slice_index canvas.old.bytes o }
    ensures after { (o : ℕ) → at + length bytes.now ≤ o
        → slice_index canvas.new.bytes o ≡ slice_index canvas.old.bytes o }
    ensures len { length canvas.new.bytes ≡ length canvas.old.bytes }
    ensures room { canvas.new.room ≡ canvas.old.room }
    ensures counted { meter.new ≡ raised meter.old Bytes (length bytes.now) }
{
    if patches.is_empty() {
        canvas.write(at, bytes, meter);
    } else {
        write_with_fields(canvas, buffer, at, bytes, patches, meter);
    }
}
