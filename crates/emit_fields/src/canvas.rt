//! The buffer that the image is written into.

ghost use Rattle.std.specs.Prelude.{◌≡◌, ◌↔◌, ◌≤◌, ◌<◌, ◌+◌, ◌*◌, ℕ, [], IsTrue, OnErr, OnOk, length, max, slice_index};
ghost use Rattle.std.specs.Prelude.{slice_index_or, vec_capacity, vec_len};
ghost use Rattle.elfobj.specs.Raised.{raised};

use elfobj::{Count, Meter};
use growth::{NoMemory, vec};
use std::alloc::Global;
use std::marker::Model;

/// Copies bytes over others of the same length. Four bytes, the size of most fields, are copied as one word.
#[inline(always)]
fn copy_over(to: &mut [u8], from: &[u8])
    requires { length to.old ≡ length from.now }
    ensures { to.new ≡ from.now }
{
    if let [first, second, third, fourth] = from {
        let word = [*first, *second, *third, *fourth];
        to.copy_from_slice(&word);
    } else {
        to.copy_from_slice(from);
    }
}

/// The number of zeros that are added at once.
const ZERO_BLOCK: usize = 256;

/// Adds `count` blocks of zeros, for which there is room.
fn add_zero_blocks(bytes: &mut Vec<u8>, zeros: &[u8], count: usize)
    requires zeros { (i : ℕ) → slice_index_or zeros.now i 0 ≡ 0 }
    requires room { vec_len bytes.old + length zeros.now * count ≤ vec_capacity bytes.old }
    ensures len { vec_len bytes.new ≡ vec_len bytes.old + length zeros.now * count }
    ensures kept { (offset : ℕ) → offset < vec_len bytes.old
        → slice_index_or bytes.new.items offset 0 ≡ slice_index_or bytes.old.items offset 0 }
    ensures zeros { (offset : ℕ) → vec_len bytes.old ≤ offset → slice_index_or bytes.new.items offset 0 ≡ 0 }
    ensures room { vec_capacity bytes.old ≤ vec_capacity bytes.new }
{
    for _ in 0..count {
        bytes.extend_from_slice(zeros).unwrap();
    }
}

/// A list of bytes with reserved room, in which it grows without an allocation. Its bytes change by
/// [`Canvas::resize_reserved`] and [`Canvas::write`] alone.
#[derive(Drop)]
pub struct Canvas {
    bytes: Vec<u8>,
}

impl Model for Canvas {
    ghost use Rattle.std.specs.Prelude.{vec_capacity};
    ghost use Rattle.emit_fields.specs.Canvas.{CanvasState};

    ghost Value = { CanvasState };

    ghost view = { λ c. record { bytes = c.bytes.items; room = vec_capacity c.bytes } };
}

impl Canvas {
    /// An empty canvas.
    pub fn new(alloc: Global) -> Canvas
        ensures { result ≡ record { bytes = []; room = 0 } }
    {
        Canvas {
            bytes: Vec::new(alloc),
        }
    }

    /// Its length in bytes.
    pub fn len(&self) -> usize
        ensures len { result ≡ length self.now.bytes }
        ensures within { result ≤ self.now.room }
    {
        self.bytes.len()
    }

    /// Whether it has no bytes.
    pub fn is_empty(&self) -> bool
        ensures { IsTrue result ↔ (self.now.bytes ≡ []) }
    {
        self.bytes.is_empty()
    }

    /// Its bytes.
    pub fn bytes(&self) -> &[u8]
        ensures { result.now ≡ self.now.bytes }
    {
        &self.bytes
    }

    /// Reserves room for a length of `n`, and no more. It fails only if there was less room, and then changes nothing.
    pub fn reserve(&mut self, n: usize) -> Result<(), NoMemory>
        ensures bytes { self.new.bytes ≡ self.old.bytes }
        ensures room { OnOk result (n ≤ self.new.room) }
        ensures exact { OnOk result (self.new.room ≡ max self.old.room n) }
        ensures kept { self.old.room ≤ self.new.room }
        ensures refused { OnErr result (self.new ≡ self.old) }
        ensures only_without_room { OnErr result (self.old.room < n) }
    {
        let len = self.bytes.len();
        if n <= len {
            return Ok(());
        }
        vec::reserve_exact(&mut self.bytes, n - len)
    }

    /// Sets the length to `n`, for which room must be reserved: keeps the bytes below it and adds zeros. It takes no
    /// memory and counts nothing.
    pub fn resize_reserved(&mut self, n: usize)
        requires { n ≤ self.old.room }
        ensures len { length self.new.bytes ≡ n }
        ensures kept { (offset : ℕ) → offset < n → offset < length self.old.bytes
            → slice_index self.new.bytes offset ≡ slice_index self.old.bytes offset }
        ensures zeros { (offset : ℕ) → length self.old.bytes ≤ offset → offset < n
            → slice_index self.new.bytes offset ≡ 0 }
        ensures room { self.old.room ≤ self.new.room }
    {
        // a block at a time: `resize` adds them byte by byte
        let added = n.saturating_sub(self.bytes.len());
        add_zero_blocks(&mut self.bytes, &[0; ZERO_BLOCK], added / ZERO_BLOCK);
        self.bytes.resize(n, 0).unwrap();
    }

    /// Writes bytes from `at` on, within the length, and changes no others. It takes no memory, and counts
    /// the bytes that it writes.
    pub fn write(&mut self, at: usize, bytes: &[u8], meter: &mut Meter)
        requires { at + length bytes.now ≤ length self.old.bytes }
        ensures written { (i : ℕ) → i < length bytes.now
            → slice_index self.new.bytes (at + i) ≡ slice_index bytes.now i }
        ensures before { (offset : ℕ) → offset < at
            → slice_index self.new.bytes offset ≡ slice_index self.old.bytes offset }
        ensures after { (offset : ℕ) → at + length bytes.now ≤ offset
            → slice_index self.new.bytes offset ≡ slice_index self.old.bytes offset }
        ensures len { length self.new.bytes ≡ length self.old.bytes }
        ensures room { self.new.room ≡ self.old.room }
        ensures counted { meter.new ≡ raised meter.old Count.Bytes (length bytes.now) }
    {
        let len = self.bytes.len();
        prove!(at <= len);
        let end = at + bytes.len();
        copy_over(&mut self.bytes[at..end], bytes);
        meter.raise(Count::Bytes, bytes.len() as u64);
    }
}
