//! The command stream of a deferred session: edits are staged, linked when it is asked, and each command is answered in
//! turn, over any linker that links when it is asked.
//!
//! - the root has `run_deferred`; `serve`: one command; `head`: how its line is read; `answer`: how it is answered;
//! - `changed`: what has changed in an image; `remember`: the image that was answered last.
#![tactic(auto)]

ghost use Rattle.std.specs.Prelude.{List, [], ℕ, IfOk, IfSome};
ghost use Rattle.std.specs.Io.KnownBytes.{Appends};
ghost use Rattle.ldi_stream.specs.Ran.{FaultsCounted, Flushed, status_of};
ghost use Rattle.ldmodel_deferred.specs.Answers.{Answers, Holding, holding};
ghost use Rattle.ldi_deferred.specs.Ran.{Ran, world};

use crate::serve::serve_one;
use ldi_stream::Status;
use ldi_stream::devices::{Sink, Source};
use ldi_stream::fault::RunFault;
use ldi_stream::serve::ServeStep;
use ldmodel_deferred::linker::DeferredLinker;
use std::alloc::Global;

pub mod answer;
mod changed;
pub mod head;
mod remember;
pub mod serve;

/// Reads the commands of `source` to its end, makes their edits in `linker`, links it when it is asked, and writes an
/// answer to each command into `sink`. An answer is flushed before a byte of the next command is read.
///
/// Bytes that begin no command are answered `stream`, and end the run with `Status::Malformed`. An edit without memory
/// for its payload is skipped and answered `refused 7 0`.
///
/// # Errors
///
/// `RunFault::Read` and `RunFault::Write` if a call of `source` or `sink` failed: nothing is read or written after it.
/// `RunFault::Long` past 2^64 - 1 commands.
pub fn run_deferred<R: Source, W: Sink, L: DeferredLinker>(
    alloc: Global,
    source: &mut R,
    sink: &mut W,
    linker: &mut L,
) -> Result<Status, RunFault>
    // The answers are those of the definition; at first no image was answered.
    ensures answers { IfOk result (λ status. IfSome (R.rest source.old) (λ stream. (out sent : List ℕ)
        × Appends (W.written sink.old) (W.written sink.new) out
        × Answers (holding (L.project linker.old) (L.last linker.old) []) stream out
        (holding (L.project linker.new) (L.last linker.new) sent) (status_of status))) }
    // What holds after each outcome.
    ensures ran { (sent : List ℕ) × Ran
        (world (R.rest source.old) (W.written sink.old) (holding (L.project linker.old) (L.last linker.old) []))
        (world (R.rest source.new) (W.written sink.new) (holding (L.project linker.new) (L.last linker.new) sent))
        result }
    // Nothing is still buffered when a read fails, as any might, and at the end.
    ensures flushed { Flushed (W.held sink.old) (W.held sink.new) result }
    // A fault is reported exactly if a device's count of failures rose.
    ensures counted { FaultsCounted (R.failed source.old) (R.failed source.new)
        (W.failed sink.old) (W.failed sink.new) result }
{
    let mut sent = Vec::new(alloc);
    for _turn in 0..u64::MAX {
        match serve_one(alloc, source, sink, linker, &mut sent)? {
            ServeStep::Next => {}
            ServeStep::End(status) => return Ok(status),
        }
    }
    Err(RunFault::Long)
}
