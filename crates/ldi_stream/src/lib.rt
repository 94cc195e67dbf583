//! The command stream: commands are read, edits made, and each command answered in turn, over any linker.
//!
//! - the root has `run`; `serve`: one command; `line`, `head`, `payload`: how it is read; `answer`: how it is answered;
//! - `devices`: the reader and the writer, with counts of their failed calls; `fault`: what a failed call gives.
#![tactic(auto)]

ghost use Rattle.std.specs.Prelude.{List, ℕ, IfOk, IfSome};
ghost use Rattle.std.specs.Io.KnownBytes.{Appends};
ghost use Rattle.ldmodel.specs.Answers.{Answers};
ghost use Rattle.ldi_stream.specs.Ran.{Ran, FaultsCounted, Flushed, status_of, world};

use crate::devices::{Sink, Source};
use crate::fault::RunFault;
use crate::serve::{ServeStep, serve_one};
use ldmodel::linker::Linker;
use std::alloc::Global;

pub mod answer;
pub mod devices;
pub mod fault;
pub mod head;
pub mod line;
pub mod payload;
pub mod serve;

/// How a run ends.
#[derive(Clone, Copy, Debug, PartialEq, Eq)]
pub enum Status {
    /// At the end of the stream, with the status of the link.
    Done(u8),
    /// At bytes that begin no command.
    Malformed,
}

/// Reads the commands of `source` to its end, makes their edits in `linker`, and writes an answer to each into `sink`.
/// An answer is flushed before a byte of the next command is read.
///
/// Bytes that begin no command are answered `stream`, and end the run with `Status::Malformed`. An edit without memory
/// for its payload is skipped and answered `refused 7 0`.
///
/// # Errors
///
/// `RunFault::Read` and `RunFault::Write` if a call of `source` or `sink` failed: nothing is read or written after it.
/// `RunFault::Long` past 2^64 - 1 commands.
pub fn run<R: Source, W: Sink, L: Linker>(
    alloc: Global,
    source: &mut R,
    sink: &mut W,
    linker: &mut L,
) -> Result<Status, RunFault>
    // The answers are those of the definition.
    ensures answers { IfOk result (λ status. IfSome (R.rest source.old) (λ stream. (out : List ℕ)
        × Appends (W.written sink.old) (W.written sink.new) out
        × Answers (L.project linker.old) stream out (L.project linker.new) (status_of status))) }
    // What holds after each outcome.
    ensures ran { Ran (world (R.rest source.old) (W.written sink.old) (L.project linker.old))
        (world (R.rest source.new) (W.written sink.new) (L.project linker.new)) result }
    // Nothing is still buffered when a read fails, as any might, and at the end.
    ensures flushed { Flushed (W.held sink.old) (W.held sink.new) result }
    // A fault is reported exactly if a device's count of failures rose.
    ensures counted { FaultsCounted (R.failed source.old) (R.failed source.new)
        (W.failed sink.old) (W.failed sink.new) result }
{
    for _turn in 0..u64::MAX {
        match serve_one(alloc, source, sink, linker)? {
            ServeStep::Next => {}
            ServeStep::End(status) => return Ok(status),
        }
    }
    Err(RunFault::Long)
}
