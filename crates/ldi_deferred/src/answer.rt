//! Answers of a deferred session, beside those of every session.

ghost use Rattle.std.specs.Prelude.{◌≡◌, ◌+◌, ◌++◌, ◌≤◌, [], OnOk, decimal, flat_map, length};
ghost use Rattle.ldmodel_deferred.specs.Answers.{accepted_line};
ghost use Rattle.ldmodel_deferred.specs.Changes.{AreWithin, changes_answer, range_bytes, range_line};
ghost use Rattle.ldi_stream.specs.Stepped.{CountsFailure, Writes};

use itoa::Buffer;
use ldi_stream::answer::{write_all, write_answer};
use ldi_stream::devices::Sink;
use ldi_stream::fault::WriteFault;
use ldmodel_deferred::changes::ByteRange;

/// Answers an accepted edit: `accepted`.
///
/// # Errors
///
/// If a call of `sink` failed. A prefix of the answer is written then.
pub fn write_accepted<W: Sink>(sink: &mut W) -> Result<(), WriteFault>
    ensures text { Writes (W.written sink.old) (W.written sink.new) accepted_line result }
    ensures flushed { OnOk result (W.held sink.new ≡ []) }
    ensures counted { CountsFailure (W.failed sink.old) (W.failed sink.new) result }
{
    write_all(sink, b"accepted\n")?;
    sink.flush()
}

/// Writes a number in decimal, and a byte after it.
fn write_number<W: Sink>(sink: &mut W, n: u64, end: &[u8]) -> Result<(), WriteFault>
    ensures text { Writes (W.written sink.old) (W.written sink.new) (decimal n ++ end.now) result }
    ensures counted { CountsFailure (W.failed sink.old) (W.failed sink.new) result }
{
    let mut buffer = Buffer::new();
    write_all(sink, buffer.format(n).as_bytes())?;
    write_all(sink, end)
}

/// Writes the line of a range.
fn write_range<W: Sink>(sink: &mut W, range: ByteRange) -> Result<(), WriteFault>
    ensures text { Writes (W.written sink.old) (W.written sink.new) (range_line range) result }
    ensures counted { CountsFailure (W.failed sink.old) (W.failed sink.new) result }
{
    write_number(sink, range.offset as u64, b" ")?;
    write_number(sink, range.count as u64, b"\n")
}

/// Writes the lines of ranges.
fn write_lines<W: Sink>(sink: &mut W, ranges: &[ByteRange]) -> Result<(), WriteFault>
    ensures text { Writes (W.written sink.old) (W.written sink.new) (flat_map range_line ranges.now) result }
    ensures counted { CountsFailure (W.failed sink.old) (W.failed sink.new) result }
{
    for range in ranges {
        write_range(sink, *range)?;
    }
    Ok(())
}

/// The bytes of a range of an image.
fn bytes_in(image: &[u8], range: ByteRange) -> &[u8]
    requires { range.offset + range.count ≤ length image.now }
    ensures { result.now ≡ range_bytes image.now range }
{
    &image[range.offset..range.offset + range.count]
}

/// Writes the bytes of ranges of an image.
fn write_contents<W: Sink>(
    sink: &mut W,
    image: &[u8],
    ranges: &[ByteRange],
) -> Result<(), WriteFault>
    requires { AreWithin (length image.now) ranges.now }
    ensures text { Writes (W.written sink.old) (W.written sink.new)
        (flat_map (range_bytes image.now) ranges.now) result }
    ensures counted { CountsFailure (W.failed sink.old) (W.failed sink.new) result }
{
    for range in ranges {
        write_all(sink, bytes_in(image, *range))?;
    }
    Ok(())
}

/// Answers `changes`: the length of the image and the number of ranges, a line for each, and then the bytes of each.
///
/// # Errors
///
/// If a call of `sink` failed. A prefix of the answer is written then.
#[tactic(auto, unfolding(ldmodel_deferred::specs::Changes::changes_answer))]
pub fn write_changes<W: Sink>(
    sink: &mut W,
    image: &[u8],
    ranges: &[ByteRange],
) -> Result<(), WriteFault>
    requires { AreWithin (length image.now) ranges.now }
    ensures text { Writes (W.written sink.old) (W.written sink.new) (changes_answer image.now ranges.now) result }
    ensures flushed { OnOk result (W.held sink.new ≡ []) }
    ensures counted { CountsFailure (W.failed sink.old) (W.failed sink.new) result }
{
    write_answer(sink, b"changes", image.len() as u64, ranges.len() as u64)?;
    write_lines(sink, ranges)?;
    write_contents(sink, image, ranges)?;
    sink.flush()
}
