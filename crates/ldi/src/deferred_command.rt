//! A deferred session: commands are read, edits made and linked when it is asked, and each command answered.

ghost use Rattle.std.specs.Prelude.{List, ℕ, IfOk, IfSome, []};
ghost use Rattle.std.specs.Io.KnownBytes.{Appends};
ghost use Rattle.ldmodel_deferred.specs.Answers.{Answers, Holding, at_first, holding};
ghost use Rattle.ldi_stream.specs.Ran.{FaultsCounted, status_of};
ghost use Rattle.ldi.specs.DeferredSession.{HasAnswered, Leaves};

use crate::session_command::SessionEnd;
use growth::NoMemory;
use ldi_deferred::run_deferred;
use ldi_stream::devices::{AnswerWriter, CommandReader};
use relink::{DeferredLinker, Options, Session};
use std::alloc::Global;
use std::hash::RandomState;
use std::io::{Read, Write};

/// Answers the commands of `reader` in `writer` by a linker, from the project and the link that it holds on.
///
/// # Errors
///
/// If there is no memory to begin. Nothing is read or written then.
fn answer<R: Read + Drop, W: Write + Drop, L: DeferredLinker>(
    alloc: Global,
    linker: &mut L,
    reader: R,
    writer: W,
) -> Result<SessionEnd<R, W>, NoMemory>
    ensures answers { IfOk result (λ ended. HasAnswered (holding (L.project linker.old) (L.last linker.old) [])
        (R.remaining reader) (W.contents writer) ended.sink ended.outcome) }
    ensures ran { IfOk result (λ ended. Leaves (holding (L.project linker.old) (L.last linker.old) [])
        (R.remaining reader) (W.contents writer) ended.source ended.sink ended.outcome) }
    ensures counted { IfOk result (λ ended. FaultsCounted 0 ended.source.failed 0 ended.sink.failed ended.outcome) }
{
    let mut source = CommandReader::new(alloc, reader)?;
    let mut sink = AnswerWriter::new(alloc, writer)?;
    let outcome = run_deferred(alloc, &mut source, &mut sink, linker);
    Ok(SessionEnd {
        outcome,
        source,
        sink,
    })
}

/// Answers the commands of `reader` in `writer`, from the empty project with these options on. `seed` is for hash
/// tables; no answer depends on it.
///
/// # Errors
///
/// If there is no memory to begin. Nothing is read or written then.
pub fn deferred_session<R: Read + Drop, W: Write + Drop>(
    alloc: Global,
    seed: RandomState,
    reader: R,
    writer: W,
    options: Options,
) -> Result<SessionEnd<R, W>, NoMemory>
    // The answers are those of the definition, from the empty project with these options, and the writer has got them.
    ensures answers { IfOk result (λ ended. IfOk ended.outcome (λ status. IfSome (R.remaining reader) (λ stream.
        (out : List ℕ) × (last : Holding)
        × Appends (W.contents writer) ended.sink.sent out
        × Answers (at_first options) stream out last (status_of status)))) }
    // What stands after each outcome.
    ensures ran { IfOk result (λ ended. Leaves (at_first options) (R.remaining reader)
        (W.contents writer) ended.source ended.sink ended.outcome) }
    // `Read` and `Write` come only if a call of that device failed.
    ensures counted { IfOk result (λ ended. FaultsCounted 0 ended.source.failed 0 ended.sink.failed ended.outcome) }
{
    let session = Session::new(alloc, seed, options)?;
    // the linker is made here and lent, so that few values are in hand at each end
    let mut linker = session.deferred(seed);
    let ended = answer(alloc, &mut linker, reader, writer);
    linker.close();
    ended
}
