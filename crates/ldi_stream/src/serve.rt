//! One command of a stream: read, executed and answered.

ghost use Rattle.std.specs.Prelude.{◌≡◌, ℕ, List, [], Option, length, IfSome, OnOk};
ghost use Rattle.ldmodel.specs.Answers.{EditReply, asked};
ghost use Rattle.ldmodel.specs.Commands.{IsBad};
ghost use Rattle.ldmodel.specs.EditMeaning.{change_of};
ghost use Rattle.ldmodel.specs.Link.{link};
ghost use Rattle.ldmodel.specs.Project.{Project};
ghost use Rattle.ldi_stream.specs.Heads.{change_to, announced, edit_of, query_of};
ghost use Rattle.ldi_stream.specs.Ran.{FaultsCounted, Flushed, world};
ghost use Rattle.ldi_stream.specs.Stepped.{CountsFailure, EditStepped, Stepped, Writes};

use crate::Status;
use crate::answer::{write_bytes, write_linked, write_malformed, write_refused};
use crate::devices::{Sink, Source};
use crate::fault::{RunFault, WriteFault};
use crate::head::{CommandHead, EditHead, PayloadTarget, Query, read_head};
use crate::line::{LineEnd, MAX_LINE, read_line};
use crate::payload::{Payload, read_payload};
use ldmodel::edit::{Edit, EditRefusal};
use ldmodel::linker::Linker;
use ldmodel::meter::Meter;
use ldmodel_laws::streams::{lines_without_feed, one_first_command};
use std::alloc::Global;

/// The result of a step of a run.
#[derive(Clone, Copy, Debug, PartialEq, Eq)]
pub enum ServeStep {
    /// A command was answered.
    Next,
    /// The run has ended.
    End(Status),
}

/// Makes an edit and answers it.
fn make_edit<W: Sink, L: Linker>(
    sink: &mut W,
    linker: &mut L,
    edit: Edit<'_>,
) -> Result<(), WriteFault>
    ensures text { (answer : List ℕ) × Writes (W.written sink.old) (W.written sink.new) answer result
        × EditReply (L.project linker.old) (change_of edit.entry) answer (L.project linker.new) }
    ensures flushed { OnOk result (W.held sink.new ≡ []) }
    ensures counted { CountsFailure (W.failed sink.old) (W.failed sink.new) result }
{
    let mut meter = Meter::new();
    match linker.apply(edit, &mut meter) {
        Ok(linked) => write_linked(sink, linked),
        Err(refusal) => write_refused(sink, refusal),
    }
}

/// Makes the edit of a whole payload, and answers it.
fn use_payload<W: Sink, L: Linker>(
    sink: &mut W,
    linker: &mut L,
    target: PayloadTarget<'_>,
    bytes: Vec<u8>,
) -> Result<(), WriteFault>
    ensures text { (answer : List ℕ) × Writes (W.written sink.old) (W.written sink.new) answer result
        × EditReply (L.project linker.old) (change_to target.entry bytes.items) answer (L.project linker.new) }
    ensures flushed { OnOk result (W.held sink.new ≡ []) }
    ensures counted { CountsFailure (W.failed sink.old) (W.failed sink.new) result }
{
    match target {
        PayloadTarget::Add { name, at } => make_edit(sink, linker, Edit::Add { name, at, bytes }),
        PayloadTarget::Replace { name } => make_edit(sink, linker, Edit::Replace { name, bytes }),
        PayloadTarget::Script => {
            let text = bytes.as_slice();
            make_edit(sink, linker, Edit::Script { text })
        }
    }
}

/// Reads the payload of an edit, makes the edit and answers it.
fn serve_payload<R: Source, W: Sink, L: Linker>(
    alloc: Global,
    source: &mut R,
    sink: &mut W,
    linker: &mut L,
    target: PayloadTarget<'_>,
    count: usize,
) -> Result<ServeStep, RunFault>
    ensures stepped { EditStepped (change_to target.entry) count
        (world (R.rest source.old) (W.written sink.old) (L.project linker.old))
        (world (R.rest source.new) (W.written sink.new) (L.project linker.new)) result }
    ensures flushed { Flushed (W.held sink.old) (W.held sink.new) result }
    ensures counted { FaultsCounted (R.failed source.old) (R.failed source.new)
        (W.failed sink.old) (W.failed sink.new) result }
{
    match read_payload(alloc, source, count)? {
        Payload::Whole(bytes) => {
            use_payload(sink, linker, target, bytes)?;
            Ok(ServeStep::Next)
        }
        Payload::NoMemory(no_memory) => {
            write_refused(sink, EditRefusal::NoMemory(no_memory))?;
            Ok(ServeStep::Next)
        }
        Payload::Short => {
            write_malformed(sink)?;
            Ok(ServeStep::End(Status::Malformed))
        }
    }
}

/// Reads the payload of a line, if it has one, makes the edit and answers it.
fn serve_edit<R: Source, W: Sink, L: Linker>(
    alloc: Global,
    source: &mut R,
    sink: &mut W,
    linker: &mut L,
    head: EditHead<'_>,
) -> Result<ServeStep, RunFault>
    ensures stepped { EditStepped (edit_of head.entry) (announced head.entry)
        (world (R.rest source.old) (W.written sink.old) (L.project linker.old))
        (world (R.rest source.new) (W.written sink.new) (L.project linker.new)) result }
    ensures flushed { Flushed (W.held sink.old) (W.held sink.new) result }
    ensures counted { FaultsCounted (R.failed source.old) (R.failed source.new)
        (W.failed sink.old) (W.failed sink.new) result }
{
    match head {
        EditHead::WithPayload { target, count } => {
            serve_payload(alloc, source, sink, linker, target, count)
        }
        EditHead::Move { name, to } => {
            make_edit(sink, linker, Edit::Move { name, to })?;
            Ok(ServeStep::Next)
        }
        EditHead::Remove { name } => {
            make_edit(sink, linker, Edit::Remove { name })?;
            Ok(ServeStep::Next)
        }
    }
}

/// The answer of the link to a query.
fn asked<L: Linker>(linker: &L, query: Query) -> &[u8]
    ensures { result.now ≡ asked (query_of query) (link (L.project linker.now)) }
{
    match query {
        Query::Image => linker.image(),
        Query::Map => linker.map(),
        Query::Faults => linker.faults(),
    }
}

/// Answers bytes that begin no command.
fn serve_bad<W: Sink>(sink: &mut W) -> Result<ServeStep, RunFault>
    ensures stepped { (old new : Option (List ℕ)) (project : Project) → IfSome old IsBad
        → Stepped (world old (W.written sink.old) project) (world new (W.written sink.new) project) result }
    ensures flushed { Flushed (W.held sink.old) (W.held sink.new) result }
    ensures counted { (r : ℕ) → FaultsCounted r r (W.failed sink.old) (W.failed sink.new) result }
{
    write_malformed(sink)?;
    Ok(ServeStep::End(Status::Malformed))
}

/// Reads one command, executes it and answers it; or finds the end of the stream, or bytes that begin no command.
///
/// # Errors
///
/// If a call of `source` or `sink` failed.
pub fn serve_one<R: Source, W: Sink, L: Linker>(
    alloc: Global,
    source: &mut R,
    sink: &mut W,
    linker: &mut L,
) -> Result<ServeStep, RunFault>
    ensures stepped { Stepped (world (R.rest source.old) (W.written sink.old) (L.project linker.old))
        (world (R.rest source.new) (W.written sink.new) (L.project linker.new)) result }
    ensures flushed { Flushed (W.held sink.old) (W.held sink.new) result }
    ensures counted { FaultsCounted (R.failed source.old) (R.failed source.new)
        (W.failed sink.old) (W.failed sink.new) result }
{
    // for the prover: brings in the laws of the lines of commands
    one_first_command();
    lines_without_feed();
    let mut line = [0u8; MAX_LINE];
    match read_line(source, &mut line)? {
        LineEnd::Ended => Ok(ServeStep::End(Status::Done(linker.status()))),
        LineEnd::Broken => serve_bad(sink),
        LineEnd::Line(n) => match read_head(&line[..n]) {
            None => serve_bad(sink),
            Some(CommandHead::Ask(query)) => {
                write_bytes(sink, asked(linker, query))?;
                Ok(ServeStep::Next)
            }
            Some(CommandHead::Edit(head)) => serve_edit(alloc, source, sink, linker, head),
        },
    }
}
