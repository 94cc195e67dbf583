//! A session: commands are read, edits made and linked, and each command answered.

ghost use Rattle.std.specs.Prelude.{List, ℕ, IfOk, IfSome};
ghost use Rattle.std.specs.Io.KnownBytes.{Appends};
ghost use Rattle.ldmodel.specs.Answers.{Answers};
ghost use Rattle.ldmodel.specs.Project.{Project, empty_project};
ghost use Rattle.ldi_stream.specs.Ran.{FaultsCounted, status_of};
ghost use Rattle.ldi.specs.Session.{HasAnswered, Leaves};

use growth::NoMemory;
use ldi_stream::devices::{AnswerWriter, CommandReader};
use ldi_stream::fault::RunFault;
use ldi_stream::{Status, run};
use relink::{Linker, Options, Session};
use std::alloc::Global;
use std::hash::RandomState;
use std::io::{Read, Write};

/// What a session leaves. It gives back its devices and not their counts alone: a count of failed calls is raised by
/// such a call of this very reader or writer, and by nothing else.
#[derive(Drop)]
pub struct SessionEnd<R: Read + Drop, W: Write + Drop> {
    /// How it ended.
    pub outcome: Result<Status, RunFault>,
    /// The reader that the commands were read from, with the number of its calls that failed.
    pub source: CommandReader<R>,
    /// The writer that the answers were written to, with the number of its calls that failed.
    pub sink: AnswerWriter<W>,
}

/// Answers the commands of `reader` in `writer` by a linker, starting with the project that it holds.
///
/// # Errors
///
/// If there is no memory to begin. Nothing is read or written then.
fn answer<R: Read + Drop, W: Write + Drop, L: Linker>(
    alloc: Global,
    linker: &mut L,
    reader: R,
    writer: W,
) -> Result<SessionEnd<R, W>, NoMemory>
    ensures answers { IfOk result (λ ended. HasAnswered (L.project linker.old) (R.remaining reader)
        (W.contents writer) ended.sink ended.outcome) }
    ensures ran { IfOk result (λ ended. Leaves (L.project linker.old) (R.remaining reader)
        (W.contents writer) ended.source ended.sink ended.outcome) }
    ensures counted { IfOk result (λ ended. FaultsCounted 0 ended.source.failed 0 ended.sink.failed ended.outcome) }
{
    let mut source = CommandReader::new(alloc, reader)?;
    let mut sink = AnswerWriter::new(alloc, writer)?;
    let outcome = run(alloc, &mut source, &mut sink, linker);
    Ok(SessionEnd {
        outcome,
        source,
        sink,
    })
}

/// Answers the commands of `reader` in `writer`, from the empty project with these options on. `seed` is for hash
/// tables; no answer depends on it.
///
/// # Errors
///
/// If there is no memory to begin. Nothing is read or written then.
pub fn session<R: Read + Drop, W: Write + Drop>(
    alloc: Global,
    seed: RandomState,
    reader: R,
    writer: W,
    options: Options,
) -> Result<SessionEnd<R, W>, NoMemory>
    // The answers are those of the definition, from the empty project with these options, and the writer has got them.
    ensures answers { IfOk result (λ ended. IfOk ended.outcome (λ status. IfSome (R.remaining reader) (λ stream.
        (out : List ℕ) × (last : Project)
        × Appends (W.contents writer) ended.sink.sent out
        × Answers (empty_project options) stream out last (status_of status)))) }
    // What stands after each outcome.
    ensures ran { IfOk result (λ ended. Leaves (empty_project options) (R.remaining reader)
        (W.contents writer) ended.source ended.sink ended.outcome) }
    // `Read` and `Write` come only if a call of that device failed.
    ensures counted { IfOk result (λ ended. FaultsCounted 0 ended.source.failed 0 ended.sink.failed ended.outcome) }
{
    // the linker is made here and lent, so that few values are in hand at each end
    let mut linker = Session::new(alloc, seed, options)?;
    let ended = answer(alloc, &mut linker, reader, writer);
    linker.close();
    ended
}
