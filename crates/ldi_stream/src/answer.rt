//! Answers, each written whole and then flushed.

ghost use Rattle.std.specs.Prelude.{◌≡◌, ◌∷◌, [], ℕ, take, codes, decimal, OnOk, OnErr};
ghost use Rattle.std.specs.Io.KnownBytes.{Appends};
ghost use Rattle.ldmodel.specs.Answers.{answer_line, bytes_answer, refused_line, stream_line};
ghost use Rattle.ldmodel.specs.EditMeaning.{refusal_of};
ghost use Rattle.ldi_stream.specs.Stepped.{CountsFailure, Writes};

use crate::devices::Sink;
use crate::fault::WriteFault;
use itoa::Buffer;
use ldmodel::edit::{EditRefusal, LinkSummary};

/// Writes all the bytes.
///
/// # Errors
///
/// If a call of `sink` failed. A prefix of the bytes is written then.
pub fn write_all<W: Sink>(sink: &mut W, bytes: &[u8]) -> Result<(), WriteFault>
    ensures ok { OnOk result (Appends (W.written sink.old) (W.written sink.new) bytes.now) }
    ensures err { OnErr result ((n : ℕ) × Appends (W.written sink.old) (W.written sink.new) (take n bytes.now)) }
    ensures counted { CountsFailure (W.failed sink.old) (W.failed sink.new) result }
{
    let mut at = 0;
    while at < bytes.len() {
        at += sink.write(&bytes[at..])?;
    }
    Ok(())
}

/// Writes a space, and a number in decimal.
fn write_number<W: Sink>(sink: &mut W, n: u64) -> Result<(), WriteFault>
    ensures text { Writes (W.written sink.old) (W.written sink.new) (32 ∷ decimal n) result }
    ensures counted { CountsFailure (W.failed sink.old) (W.failed sink.new) result }
{
    let mut buffer = Buffer::new();
    write_all(sink, b" ")?;
    write_all(sink, buffer.format(n).as_bytes())
}

/// Writes an answer of one line: a word and two numbers.
///
/// # Errors
///
/// If a call of `sink` failed. A prefix of the answer is written then.
#[tactic(auto, unfolding(ldmodel::specs::Answers::answer_line))]
pub fn write_answer<W: Sink>(sink: &mut W, word: &[u8], a: u64, b: u64) -> Result<(), WriteFault>
    ensures text { Writes (W.written sink.old) (W.written sink.new) (answer_line word.now a b) result }
    ensures flushed { OnOk result (W.held sink.new ≡ []) }
    ensures counted { CountsFailure (W.failed sink.old) (W.failed sink.new) result }
{
    write_all(sink, word)?;
    write_number(sink, a)?;
    write_number(sink, b)?;
    write_all(sink, b"\n")?;
    sink.flush()
}

/// Answers an accepted edit: `linked`, the status and the length of the image.
///
/// # Errors
///
/// If a call of `sink` failed. A prefix of the answer is written then.
pub fn write_linked<W: Sink>(sink: &mut W, linked: LinkSummary) -> Result<(), WriteFault>
    ensures text { Writes (W.written sink.old) (W.written sink.new)
        (answer_line (codes "linked") linked.status linked.length) result }
    ensures flushed { OnOk result (W.held sink.new ≡ []) }
    ensures counted { CountsFailure (W.failed sink.old) (W.failed sink.new) result }
{
    write_answer(sink, b"linked", u64::from(linked.status), linked.length)
}

/// Answers a refused edit: `refused`, its number and the reader's own.
///
/// # Errors
///
/// If a call of `sink` failed. A prefix of the answer is written then.
pub fn write_refused<W: Sink>(sink: &mut W, refusal: EditRefusal) -> Result<(), WriteFault>
    ensures text { Writes (W.written sink.old) (W.written sink.new) (refused_line (refusal_of refusal)) result }
    ensures flushed { OnOk result (W.held sink.new ≡ []) }
    ensures counted { CountsFailure (W.failed sink.old) (W.failed sink.new) result }
{
    let number = u64::from(refusal.number());
    let inner = u64::from(refusal.inner_number());
    write_answer(sink, b"refused", number, inner)
}

/// Answers a query: `bytes` and their number in a line, and then the bytes.
///
/// # Errors
///
/// If a call of `sink` failed. A prefix of the answer is written then.
#[tactic(auto, unfolding(ldmodel::specs::Answers::bytes_answer))]
pub fn write_bytes<W: Sink>(sink: &mut W, bytes: &[u8]) -> Result<(), WriteFault>
    ensures text { Writes (W.written sink.old) (W.written sink.new) (bytes_answer bytes.now) result }
    ensures flushed { OnOk result (W.held sink.new ≡ []) }
    ensures counted { CountsFailure (W.failed sink.old) (W.failed sink.new) result }
{
    write_all(sink, b"bytes")?;
    write_number(sink, bytes.len() as u64)?;
    write_all(sink, b"\n")?;
    write_all(sink, bytes)?;
    sink.flush()
}

/// Answers bytes that no command begins: `stream`.
///
/// # Errors
///
/// If a call of `sink` failed. A prefix of the answer is written then.
pub fn write_malformed<W: Sink>(sink: &mut W) -> Result<(), WriteFault>
    ensures text { Writes (W.written sink.old) (W.written sink.new) stream_line result }
    ensures flushed { OnOk result (W.held sink.new ≡ []) }
    ensures counted { CountsFailure (W.failed sink.old) (W.failed sink.new) result }
{
    write_all(sink, b"stream\n")?;
    sink.flush()
}
