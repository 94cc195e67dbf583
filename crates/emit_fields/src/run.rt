//! Runs of bytes: gaps and zeros.

ghost use Rattle.std.specs.Prelude.{◌≡◌, ◌≤◌, ◌<◌, ◌+◌, ◌%◌, ℕ, length, slice_index};
ghost use Rattle.elfobj.specs.Raised.{raised};
ghost use Rattle.elfobj.specs.declared.meter.Count.TheVariants.{Bytes};

use crate::canvas::Canvas;
use elfobj::Meter;

/// The size of a chunk in bytes: a multiple of each length that a pattern may have.
const CHUNK: usize = 840;

/// The greatest length of a run that is written at once, without a chunk.
const SHORT: usize = 32;

/// The first `count` bytes of a run of a pattern, and zeros after them.
fn chunk_of(pattern: &[u8], count: usize) -> [u8; CHUNK]
    requires some { 0 < length pattern.now }
    requires count { count ≤ 840 }
    ensures len { length result ≡ 840 }
    ensures filled { (i : ℕ) → i < count → slice_index result i ≡ slice_index pattern.now (i % length pattern.now) }
{
    let mut chunk = [0; CHUNK];
    for i in 0..count {
        chunk[i] = pattern[i % pattern.len()];
    }
    chunk
}

/// The first `count` bytes of a run of a pattern, and zeros after them.
fn short_run_of(pattern: &[u8], count: usize) -> [u8; SHORT]
    requires some { 0 < length pattern.now }
    requires count { count ≤ 32 }
    ensures len { length result ≡ 32 }
    ensures filled { (i : ℕ) → i < count → slice_index result i ≡ slice_index pattern.now (i % length pattern.now) }
{
    let period = pattern.len();
    let mut short = [0; SHORT];
    for i in 0..count {
        short[i] = pattern[i % period];
    }
    short
}

/// Writes a run of at most 32 bytes at once, as `write_run` does.
fn write_short_run(canvas: &mut Canvas, at: usize, n: usize, pattern: &[u8], meter: &mut Meter)
    requires within { at + n ≤ length canvas.old.bytes }
    requires some { 0 < length pattern.now }
    requires short { n ≤ 32 }
    ensures written { (i : ℕ) → i < n
        → slice_index canvas.new.bytes (at + i) ≡ slice_index pattern.now (i % length pattern.now) }
    ensures before { (o : ℕ) → o < at → slice_index canvas.new.bytes o ≡ slice_index canvas.old.bytes o }
    ensures after { (o : ℕ) → at + n ≤ o → slice_index canvas.new.bytes o ≡ slice_index canvas.old.bytes o }
    ensures len { length canvas.new.bytes ≡ length canvas.old.bytes }
    ensures room { canvas.new.room ≡ canvas.old.room }
    ensures counted { meter.new ≡ raised meter.old Bytes n }
{
    // for the prover: brings in that the length of the canvas fits a usize
    let _len = canvas.len();
    let short = short_run_of(pattern, n);
    canvas.write(at, &short[..n], meter);
}

/// Writes a run in chunks, as `write_run` does.
fn write_chunks(canvas: &mut Canvas, at: usize, n: usize, pattern: &[u8], meter: &mut Meter)
    requires within { at + n ≤ length canvas.old.bytes }
    requires some { 0 < length pattern.now }
    requires most { length pattern.now ≤ 8 }
    ensures written { (i : ℕ) → i < n
        → slice_index canvas.new.bytes (at + i) ≡ slice_index pattern.now (i % length pattern.now) }
    ensures before { (o : ℕ) → o < at → slice_index canvas.new.bytes o ≡ slice_index canvas.old.bytes o }
    ensures after { (o : ℕ) → at + n ≤ o → slice_index canvas.new.bytes o ≡ slice_index canvas.old.bytes o }
    ensures len { length canvas.new.bytes ≡ length canvas.old.bytes }
    ensures room { canvas.new.room ≡ canvas.old.room }
    ensures counted { meter.new ≡ raised meter.old Bytes n }
{
    // for the prover: brings in that the length of the canvas fits a usize
    let _len = canvas.len();
    let chunk = chunk_of(pattern, n.min(CHUNK));
    for k in 0..n / CHUNK {
        canvas.write(at + CHUNK * k, &chunk, meter);
    }
    let rest = n % CHUNK;
    canvas.write(at + (n - rest), &chunk[..rest], meter);
}

/// Writes `n` bytes from `at` on, within the length, which repeat a pattern of 1 to 8 bytes, and changes no others. It
/// takes no memory, and counts the bytes that it writes.
pub fn write_run(canvas: &mut Canvas, at: usize, n: usize, pattern: &[u8], meter: &mut Meter)
    requires within { at + n ≤ length canvas.old.bytes }
    requires some { 0 < length pattern.now }
    requires most { length pattern.now ≤ 8 }
    ensures written { (i : ℕ) → i < n
        → slice_index canvas.new.bytes (at + i) ≡ slice_index pattern.now (i % length pattern.now) }
    ensures before { (offset : ℕ) → offset < at
        → slice_index canvas.new.bytes offset ≡ slice_index canvas.old.bytes offset }
    ensures after { (offset : ℕ) → at + n ≤ offset
        → slice_index canvas.new.bytes offset ≡ slice_index canvas.old.bytes offset }
    ensures len { length canvas.new.bytes ≡ length canvas.old.bytes }
    ensures room { canvas.new.room ≡ canvas.old.room }
    ensures counted { meter.new ≡ raised meter.old Bytes n }
{
    // most runs are short: gaps before input sections
    if n <= SHORT {
        write_short_run(canvas, at, n, pattern, meter);
    } else {
        write_chunks(canvas, at, n, pattern, meter);
    }
}
