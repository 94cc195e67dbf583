//! The image, written from its beginning to its end: runs, bytes, input sections and data commands. An input section
//! that stays is skipped.

ghost use Rattle.std.specs.Prelude.{◌≡◌, ◌≤◌, ◌<◌, ◌+◌, ◌-◌, ◌%◌, ℕ, length, slice_index, false};
ghost use Rattle.elfobj.specs.Raised.{raised};
ghost use Rattle.elfobj.specs.declared.meter.Count.TheVariants.{Bytes};
ghost use Rattle.ldscript.specs.statements.Widths.{byte_count};
ghost use Rattle.emit_image.specs.Drawing.{IsFilled, data_byte, piece_byte};
ghost use Rattle.emit_image.specs.Painted.{IsPainted, IsReady};

use crate::patched::{BUFFER_SIZE, write_piece};
use crate::section::ImagePiece;
use elfobj::Meter;
use emit_fields::canvas::Canvas;
use emit_fields::run::write_run;
use ldmodel::placed::PlacedData;

/// What lies between output sections, and in place of an input section without bytes.
pub(crate) const ZERO: [u8; 1] = [0];

/// The greatest length of a gap that is written at once, from a run of its byte.
const SHORT: usize = 32;

/// A run of one value.
fn run_of(byte: u8) -> [u8; SHORT]
    ensures len { length result ≡ 32 }
    ensures filled { (i : ℕ) → i < 32 → slice_index result i ≡ byte }
{
    [byte; SHORT]
}

/// Writes at most 32 bytes of one value, from `at` on, at once.
#[inline(always)]
fn write_same(canvas: &mut Canvas, at: usize, n: usize, byte: u8, meter: &mut Meter)
    requires within { at + n ≤ length canvas.old.bytes }
    requires short { n ≤ 32 }
    ensures written { (i : ℕ) → i < n → slice_index canvas.new.bytes (at + i) ≡ byte }
    ensures before { (o : ℕ) → o < at → slice_index canvas.new.bytes o ≡ slice_index canvas.old.bytes o }
    ensures after { (o : ℕ) → at + n ≤ o → slice_index canvas.new.bytes o ≡ slice_index canvas.old.bytes o }
    ensures len { length canvas.new.bytes ≡ length canvas.old.bytes }
    ensures room { canvas.new.room ≡ canvas.old.room }
    ensures counted { meter.new ≡ raised meter.old Bytes n }
{
    // for the prover: brings in that the length of the canvas fits a usize
    let _len = canvas.len();
    let run = run_of(byte);
    canvas.write(at, &run[..n], meter);
}

/// Writes a pattern of 1 to 8 bytes over and over, `n` bytes from `at` on, however many they are. It stands apart from
/// the loop over input sections, which has the more registers so.
#[inline(never)]
fn write_long(canvas: &mut Canvas, at: usize, n: usize, pattern: &[u8], meter: &mut Meter)
    requires within { at + n ≤ length canvas.old.bytes }
    requires some { 0 < length pattern.now }
    requires most { length pattern.now ≤ 8 }
    ensures written { (i : ℕ) → i < n
        → slice_index canvas.new.bytes (at + i) ≡ slice_index pattern.now (i % length pattern.now) }
    ensures before { (o : ℕ) → o < at → slice_index canvas.new.bytes o ≡ slice_index canvas.old.bytes o }
    ensures after { (o : ℕ) → at + n ≤ o → slice_index canvas.new.bytes o ≡ slice_index canvas.old.bytes o }
    ensures len { length canvas.new.bytes ≡ length canvas.old.bytes }
    ensures room { canvas.new.room ≡ canvas.old.room }
    ensures counted { meter.new ≡ raised meter.old Bytes n }
{
    write_run(canvas, at, n, pattern, meter);
}

/// Writes a pattern of 1 to 8 bytes over and over, `n` bytes from `at` on. Most gaps are short and of one byte.
#[inline(always)]
fn write_fill(canvas: &mut Canvas, at: usize, n: usize, pattern: &[u8], meter: &mut Meter)
    requires within { at + n ≤ length canvas.old.bytes }
    requires some { 0 < length pattern.now }
    requires most { length pattern.now ≤ 8 }
    ensures written { (i : ℕ) → i < n
        → slice_index canvas.new.bytes (at + i) ≡ slice_index pattern.now (i % length pattern.now) }
    ensures before { (o : ℕ) → o < at → slice_index canvas.new.bytes o ≡ slice_index canvas.old.bytes o }
    ensures after { (o : ℕ) → at + n ≤ o → slice_index canvas.new.bytes o ≡ slice_index canvas.old.bytes o }
    ensures len { length canvas.new.bytes ≡ length canvas.old.bytes }
    ensures room { canvas.new.room ≡ canvas.old.room }
    ensures counted { meter.new ≡ raised meter.old Bytes n }
{
    if pattern.len() == 1 && n <= SHORT {
        write_same(canvas, at, n, pattern[0], meter);
    } else {
        write_long(canvas, at, n, pattern, meter);
    }
}

/// How far the canvas grows at a time. Its new bytes are zeros at first; a block of them is still in the processor's
/// cache when the bytes of the image are written over it.
const BLOCK: usize = 65_536;

/// Makes a canvas that is shorter than `least` at least that long, and at most `most` bytes, by zeros.
#[inline(never)]
fn grow(canvas: &mut Canvas, least: usize, most: usize)
    requires order { least ≤ most }
    requires short { length canvas.old.bytes ≤ most }
    requires room { most ≤ canvas.old.room }
    ensures reached { least ≤ length canvas.new.bytes }
    ensures grown { length canvas.old.bytes ≤ length canvas.new.bytes }
    ensures short { length canvas.new.bytes ≤ most }
    ensures same { (o : ℕ) → slice_index canvas.new.bytes o ≡ slice_index canvas.old.bytes o }
    ensures room { canvas.old.room ≤ canvas.new.room }
{
    let len = canvas.len().saturating_add(BLOCK);
    canvas.resize_reserved(len.max(least).min(most));
}

/// Makes a canvas of at most `most` bytes at least `least` long, by zeros.
#[inline(always)]
pub(crate) fn grow_to(canvas: &mut Canvas, least: usize, most: usize)
    requires order { least ≤ most }
    requires short { length canvas.old.bytes ≤ most }
    requires room { most ≤ canvas.old.room }
    ensures reached { least ≤ length canvas.new.bytes }
    ensures grown { length canvas.old.bytes ≤ length canvas.new.bytes }
    ensures short { length canvas.new.bytes ≤ most }
    ensures same { (o : ℕ) → slice_index canvas.new.bytes o ≡ slice_index canvas.old.bytes o }
    ensures room { canvas.old.room ≤ canvas.new.room }
{
    if canvas.len() < least {
        grow(canvas, least, most);
    }
}

/// Writes a run of a pattern up to `end`; nothing if it is empty. The canvas first grows to `reach`, and up to `limit`.
#[inline(always)]
pub(crate) fn paint_gap(
    canvas: &mut Canvas,
    limit: usize,
    from: usize,
    end: usize,
    reach: usize,
    pattern: &[u8],
    meter: &mut Meter,
)
    requires ready { IsReady limit canvas.old }
    requires order { from ≤ end }
    requires reach { end ≤ reach }
    requires within { reach ≤ limit }
    requires some { 0 < length pattern.now }
    requires few { length pattern.now ≤ 8 }
    ensures ready { IsReady limit canvas.new }
    ensures reached { reach ≤ length canvas.new.bytes }
    ensures painted { IsPainted canvas.old.bytes canvas.new.bytes meter.old meter.new from end (λ o.
        record { byte = slice_index pattern.now ((o - from) % length pattern.now); stays = false }) }
{
    grow_to(canvas, reach, limit);
    if from == end {
        return;
    }
    write_fill(canvas, from, end - from, pattern, meter);
}

/// Writes a run of a pattern up to `end`; nothing if it is empty. The canvas grows with it, up to `limit`.
#[inline(never)]
pub(crate) fn paint_fill(
    canvas: &mut Canvas,
    limit: usize,
    from: usize,
    end: usize,
    pattern: &[u8],
    meter: &mut Meter,
)
    requires ready { IsReady limit canvas.old }
    requires order { from ≤ end }
    requires within { end ≤ limit }
    requires some { 0 < length pattern.now }
    requires few { length pattern.now ≤ 8 }
    ensures ready { IsReady limit canvas.new }
    ensures painted { IsPainted canvas.old.bytes canvas.new.bytes meter.old meter.new from end (λ o.
        record { byte = slice_index pattern.now ((o - from) % length pattern.now); stays = false }) }
{
    paint_gap(canvas, limit, from, end, end, pattern, meter);
}

/// Writes bytes from `from` on. The canvas grows with them, up to `limit`.
pub(crate) fn paint_bytes(
    canvas: &mut Canvas,
    limit: usize,
    from: usize,
    bytes: &[u8],
    meter: &mut Meter,
)
    requires ready { IsReady limit canvas.old }
    requires within { from + length bytes.now ≤ limit }
    ensures ready { IsReady limit canvas.new }
    ensures painted { IsPainted canvas.old.bytes canvas.new.bytes meter.old meter.new from (from + length bytes.now)
        (λ o. record { byte = slice_index bytes.now (o - from); stays = false }) }
{
    grow_to(canvas, from + bytes.len(), limit);
    canvas.write(from, bytes, meter);
}

/// Writes an input section that does not stay, within the length of the canvas.
#[inline(always)]
fn write_drawn(
    canvas: &mut Canvas,
    buffer: &mut [u8; BUFFER_SIZE],
    from: usize,
    piece: &ImagePiece<'_>,
    meter: &mut Meter,
)
    requires within { from + piece.now.size ≤ length canvas.old.bytes }
    requires filled { IsFilled piece.now }
    ensures own { (i : ℕ) → i < piece.now.size
        → slice_index canvas.new.bytes (from + i) ≡ piece_byte (piece.now.start + i) piece.now }
    ensures before { (o : ℕ) → o < from → slice_index canvas.new.bytes o ≡ slice_index canvas.old.bytes o }
    ensures after { (o : ℕ) → from + piece.now.size ≤ o
        → slice_index canvas.new.bytes o ≡ slice_index canvas.old.bytes o }
    ensures len { length canvas.new.bytes ≡ length canvas.old.bytes }
    ensures room { canvas.new.room ≡ canvas.old.room }
    ensures counted { meter.new ≡ raised meter.old Bytes piece.now.size }
{
    if piece.bytes.is_empty() {
        write_long(canvas, from, piece.size as usize, &ZERO, meter);
    } else {
        write_piece(canvas, buffer, from, piece.bytes, piece.fields, meter);
    }
}

/// Writes an input section that is not empty, unless it stays, within the length of the canvas.
#[inline(always)]
pub(crate) fn paint_piece(
    canvas: &mut Canvas,
    buffer: &mut [u8; BUFFER_SIZE],
    from: usize,
    piece: &ImagePiece<'_>,
    meter: &mut Meter,
)
    requires within { from + piece.now.size ≤ length canvas.old.bytes }
    requires filled { IsFilled piece.now }
    ensures len { length canvas.new.bytes ≡ length canvas.old.bytes }
    ensures room { canvas.new.room ≡ canvas.old.room }
    ensures painted { IsPainted canvas.old.bytes canvas.new.bytes meter.old meter.new from (from + piece.now.size) (λ o.
        record { byte = piece_byte (piece.now.start + (o - from)) piece.now; stays = piece.now.stays }) }
{
    if piece.stays {
        return;
    }
    write_drawn(canvas, buffer, from, piece, meter);
}

/// Writes a data command.
pub(crate) fn paint_data(
    canvas: &mut Canvas,
    limit: usize,
    from: usize,
    end: usize,
    command: &PlacedData,
    meter: &mut Meter,
)
    requires ready { IsReady limit canvas.old }
    requires end { from + byte_count command.now.width ≡ end }
    requires within { end ≤ limit }
    ensures ready { IsReady limit canvas.new }
    ensures painted { IsPainted canvas.old.bytes canvas.new.bytes meter.old meter.new from end (λ o.
        record { byte = data_byte (command.now.start + (o - from)) command.now; stays = false }) }
{
    let bytes = command.value.to_le_bytes();
    grow_to(canvas, end, limit);
    canvas.write(from, &bytes[..end - from], meter);
}
