//! Whether two relocations of a table share a byte, for tables that may overlap. The tables are taken in the order of
//! their starts, with a mark on each byte of a field in a window of relocations. The window only moves forward, so that
//! each relocation enters and leaves it once, however many tables have it.

ghost use Rattle.std.specs.Prelude.{◌≡◌, ℕ, ◌≤◌, ◌<◌, ◌+◌, ◌⊎◌, IfOk, false, get_or, length, map, true};
ghost use Rattle.std.specs.List.{All, list_any, slice_range};
ghost use Rattle.std.specs.List.Sorted.{IsNonDecreasingBy};
ghost use Rattle.elfobj.specs.FieldMarks.{AreBelow, IsWindow};
ghost use Rattle.elfobj.specs.PartSpans.{relocations_in};
ghost use Rattle.elfobj_file.specs.Spans.{IsInside};
ghost use Rattle.elfobj_file.specs.Relocations.{field_end, share_bytes};

use crate::relocation::Relocation;
use elfobj_file::span::Span;
use growth::{NoMemory, vec};
use std::alloc::Global;

/// Whether a byte of a field has a mark.
fn is_marked(marks: &[bool], relocation: &Relocation) -> bool
    requires { field_end relocation.now ≤ length marks.now }
    ensures marked { result ≡ true
        → (b : ℕ) × (relocation.now.offset ≤ b) × (b < field_end relocation.now) × (get_or marks.now b false ≡ true) }
    ensures free { result ≡ false → (b : ℕ) → relocation.now.offset ≤ b → b < field_end relocation.now
        → get_or marks.now b false ≡ false }
{
    let start = relocation.offset as usize;
    let end = start + relocation.kind.width() as usize;
    for at in start..end {
        if marks[at] {
            return true;
        }
    }
    false
}

/// Marks the bytes of a field, or removes their marks.
fn mark(marks: &mut [bool], relocation: &Relocation, is_taken: bool)
    requires { field_end relocation.now ≤ length marks.old }
    ensures long { length marks.new ≡ length marks.old }
    ensures inside { (b : ℕ) → relocation.now.offset ≤ b → b < field_end relocation.now
        → get_or marks.new b false ≡ is_taken }
    ensures outside { (b : ℕ) → (b < relocation.now.offset) ⊎ (field_end relocation.now ≤ b)
        → get_or marks.new b false ≡ get_or marks.old b false }
{
    let start = relocation.offset as usize;
    let end = start + relocation.kind.width() as usize;
    for at in start..end {
        marks[at] = is_taken;
    }
}

/// Removes the relocations before `start` from the window that begins at `from`.
fn leave(all: &[Relocation], marks: &mut [bool], from: usize, start: usize, until: usize)
    requires window { IsWindow all.now from until marks.old }
    requires order { from ≤ start }
    requires inside { start ≤ until }
    ensures left { IsWindow all.now start until marks.new }
    ensures long { length marks.new ≡ length marks.old }
{
    for at in from..start {
        mark(marks, &all[at], false);
    }
}

/// Adds the relocations before `end` to the window. It stops, and returns `true`, at the first that shares a byte with
/// one in the window.
fn enter(all: &[Relocation], marks: &mut [bool], from: usize, until: usize, end: usize) -> bool
    requires window { IsWindow all.now from until marks.old }
    requires order { until ≤ end }
    requires within { end ≤ length all.now }
    requires fields { AreBelow all.now from end (length marks.old) }
    ensures shared { result ≡ true → share_bytes (slice_range all.now from end) ≡ true }
    ensures apart { result ≡ false → IsWindow all.now from end marks.new }
    ensures long { length marks.new ≡ length marks.old }
{
    for at in until..end {
        let relocation = &all[at];
        if is_marked(marks, relocation) {
            return true;
        }
        mark(marks, relocation, true);
    }
    false
}

/// Whether two relocations of one span share a byte. The spans come in the order of their starts. All fields end within
/// `marks`, in which no byte is marked.
fn is_any_met(all: &[Relocation], spans: &[Span], marks: &mut [bool]) -> bool
    requires within { All (IsInside (length all.now)) spans.now }
    requires order { IsNonDecreasingBy (λ s. s.start) spans.now }
    requires fields { All (λ s. AreBelow all.now s.start s.end (length marks.old)) spans.now }
    requires free { (b : ℕ) → get_or marks.old b false ≡ false }
    ensures { result ≡ list_any share_bytes (map (relocations_in all.now) spans.now) }
{
    let mut from = 0;
    let mut until = 0;
    for span in spans {
        leave(all, marks, from, span.start.min(until), until);
        from = span.start;
        until = until.max(from);
        if until < span.end {
            if enter(all, marks, from, until, span.end) {
                return true;
            }
            until = span.end;
        }
    }
    false
}

/// Whether two relocations of one span share a byte. The spans come in the order of their starts. All fields end at
/// `size` or before.
pub fn is_any_shared(
    alloc: Global,
    all: &[Relocation],
    spans: &[Span],
    size: usize,
) -> Result<bool, NoMemory>
    requires within { All (IsInside (length all.now)) spans.now }
    requires order { IsNonDecreasingBy (λ span. span.start) spans.now }
    requires fields { All (λ span. AreBelow all.now span.start span.end size) spans.now }
    ensures { IfOk result (λ shared. shared ≡ list_any share_bytes (map (relocations_in all.now) spans.now)) }
{
    let mut marks = vec::from_elem(alloc, false, size)?;
    Ok(is_any_met(all, spans, &mut marks))
}
