//! One command of a deferred stream: read, executed and answered.

ghost use Rattle.std.specs.Prelude.{◌≡◌, ℕ, List, [], Option, length, IfSome, OnOk};
ghost use Rattle.ldmodel.specs.EditMeaning.{change_of};
ghost use Rattle.ldmodel_deferred.specs.Answers.{ChangesReply, Holding, LinkReply, QueryReply, StageReply};
ghost use Rattle.ldmodel_deferred.specs.Answers.{holding};
ghost use Rattle.ldmodel_deferred.specs.Commands.{IsBad};
ghost use Rattle.ldi_stream.specs.Heads.{change_to, announced, edit_of, query_of};
ghost use Rattle.ldi_stream.specs.Ran.{FaultsCounted, Flushed};
ghost use Rattle.ldi_stream.specs.Stepped.{CountsFailure, Writes};
ghost use Rattle.ldi_deferred.specs.Ran.{world};
ghost use Rattle.ldi_deferred.specs.Stepped.{EditStepped, Stepped};

use crate::answer::{write_accepted, write_changes};
use crate::changed::changed_ranges;
use crate::head::{DeferredHead, read_deferred_head};
use crate::remember::{remember, remember_changes};
use ldi_stream::Status;
use ldi_stream::answer::{write_bytes, write_linked, write_malformed, write_refused};
use ldi_stream::devices::{Sink, Source};
use ldi_stream::fault::{RunFault, WriteFault};
use ldi_stream::head::{EditHead, PayloadTarget, Query};
use ldi_stream::line::{LineEnd, MAX_LINE, read_line};
use ldi_stream::payload::{Payload, read_payload};
use ldi_stream::serve::ServeStep;
use ldmodel::edit::{Edit, EditRefusal};
use ldmodel::meter::Meter;
use ldmodel_deferred::changes::ByteRange;
use ldmodel_deferred::law::{deferred_lines_without_feed, one_first_deferred};
use ldmodel_deferred::linker::DeferredLinker;
use std::alloc::Global;

/// Makes an edit, which is not linked, and answers it.
fn make_edit<W: Sink, L: DeferredLinker>(
    sink: &mut W,
    linker: &mut L,
    edit: Edit<'_>,
) -> Result<(), WriteFault>
    ensures text { (answer : List ℕ) × Writes (W.written sink.old) (W.written sink.new) answer result
        × StageReply (L.project linker.old) (change_of edit.entry) answer (L.project linker.new) }
    ensures unlinked { L.last linker.new ≡ L.last linker.old }
    ensures flushed { OnOk result (W.held sink.new ≡ []) }
    ensures counted { CountsFailure (W.failed sink.old) (W.failed sink.new) result }
{
    let mut meter = Meter::new();
    match linker.stage(edit, &mut meter) {
        Ok(()) => write_accepted(sink),
        Err(refusal) => write_refused(sink, refusal),
    }
}

/// Makes the edit of a whole payload, and answers it.
fn use_payload<W: Sink, L: DeferredLinker>(
    sink: &mut W,
    linker: &mut L,
    target: PayloadTarget<'_>,
    bytes: Vec<u8>,
) -> Result<(), WriteFault>
    ensures text { (answer : List ℕ) × Writes (W.written sink.old) (W.written sink.new) answer result
        × StageReply (L.project linker.old) (change_to target.entry bytes.items) answer (L.project linker.new) }
    ensures unlinked { L.last linker.new ≡ L.last linker.old }
    ensures flushed { OnOk result (W.held sink.new ≡ []) }
    ensures counted { CountsFailure (W.failed sink.old) (W.failed sink.new) result }
{
    match target {
        PayloadTarget::Add { name, at } => make_edit(sink, linker, Edit::Add { name, at, bytes }),
        PayloadTarget::Replace { name } => make_edit(sink, linker, Edit::Replace { name, bytes }),
        PayloadTarget::Script => {
            let text = bytes.as_slice();
            make_edit(sink, linker, Edit::Script { text })
        }
    }
}

/// Reads the payload of an edit, makes the edit and answers it.
fn serve_payload<R: Source, W: Sink, L: DeferredLinker>(
    alloc: Global,
    source: &mut R,
    sink: &mut W,
    linker: &mut L,
    target: PayloadTarget<'_>,
    count: usize,
) -> Result<ServeStep, RunFault>
    ensures stepped { EditStepped (change_to target.entry) count (R.rest source.old) (R.rest source.new)
        (W.written sink.old) (W.written sink.new) (L.project linker.old) (L.project linker.new) result }
    ensures unlinked { L.last linker.new ≡ L.last linker.old }
    ensures flushed { Flushed (W.held sink.old) (W.held sink.new) result }
    ensures counted { FaultsCounted (R.failed source.old) (R.failed source.new)
        (W.failed sink.old) (W.failed sink.new) result }
{
    match read_payload(alloc, source, count)? {
        Payload::Whole(bytes) => {
            use_payload(sink, linker, target, bytes)?;
            Ok(ServeStep::Next)
        }
        Payload::NoMemory(no_memory) => {
            write_refused(sink, EditRefusal::NoMemory(no_memory))?;
            Ok(ServeStep::Next)
        }
        Payload::Short => {
            write_malformed(sink)?;
            Ok(ServeStep::End(Status::Malformed))
        }
    }
}

/// Reads the payload of a line, if it has one, makes the edit and answers it.
fn serve_edit<R: Source, W: Sink, L: DeferredLinker>(
    alloc: Global,
    source: &mut R,
    sink: &mut W,
    linker: &mut L,
    head: EditHead<'_>,
) -> Result<ServeStep, RunFault>
    ensures stepped { EditStepped (edit_of head.entry) (announced head.entry) (R.rest source.old) (R.rest source.new)
        (W.written sink.old) (W.written sink.new) (L.project linker.old) (L.project linker.new) result }
    ensures unlinked { L.last linker.new ≡ L.last linker.old }
    ensures flushed { Flushed (W.held sink.old) (W.held sink.new) result }
    ensures counted { FaultsCounted (R.failed source.old) (R.failed source.new)
        (W.failed sink.old) (W.failed sink.new) result }
{
    match head {
        EditHead::WithPayload { target, count } => {
            serve_payload(alloc, source, sink, linker, target, count)
        }
        EditHead::Move { name, to } => {
            make_edit(sink, linker, Edit::Move { name, to })?;
            Ok(ServeStep::Next)
        }
        EditHead::Remove { name } => {
            make_edit(sink, linker, Edit::Remove { name })?;
            Ok(ServeStep::Next)
        }
    }
}

/// Answers a query by the last link.
fn serve_query<W: Sink, L: DeferredLinker>(
    sink: &mut W,
    linker: &L,
    sent: &mut Vec<u8>,
    query: Query,
) -> Result<(), WriteFault>
    ensures text { (answer : List ℕ) × Writes (W.written sink.old) (W.written sink.new) answer result
        × QueryReply (holding (L.project linker.now) (L.last linker.now) sent.old.items) (query_of query) answer
        (holding (L.project linker.now) (L.last linker.now) sent.new.items) }
    ensures flushed { OnOk result (W.held sink.new ≡ []) }
    ensures counted { CountsFailure (W.failed sink.old) (W.failed sink.new) result }
{
    match query {
        Query::Image => {
            remember(sent, linker.image());
            write_bytes(sink, linker.image())
        }
        Query::Map => write_bytes(sink, linker.map()),
        Query::Faults => write_bytes(sink, linker.faults()),
    }
}

/// Links the project and answers its status and the length of its image, or that memory ran out.
fn serve_link<W: Sink, L: DeferredLinker>(sink: &mut W, linker: &mut L) -> Result<(), WriteFault>
    ensures text { (sent : List ℕ) → (answer : List ℕ)
        × Writes (W.written sink.old) (W.written sink.new) answer result
        × LinkReply (holding (L.project linker.old) (L.last linker.old) sent) answer
        (holding (L.project linker.new) (L.last linker.new) sent) }
    ensures flushed { OnOk result (W.held sink.new ≡ []) }
    ensures counted { CountsFailure (W.failed sink.old) (W.failed sink.new) result }
{
    let mut meter = Meter::new();
    match linker.make_link(&mut meter) {
        Ok(linked) => write_linked(sink, linked),
        Err(no_memory) => write_refused(sink, EditRefusal::NoMemory(no_memory)),
    }
}

/// Answers what has changed in the image of the last link since an image was answered: all of it if there is no memory
/// to say more.
fn serve_changes<W: Sink, L: DeferredLinker>(
    alloc: Global,
    sink: &mut W,
    linker: &L,
    sent: &mut Vec<u8>,
) -> Result<(), WriteFault>
    ensures text { (answer : List ℕ) × Writes (W.written sink.old) (W.written sink.new) answer result
        × ChangesReply (holding (L.project linker.now) (L.last linker.now) sent.old.items) answer
        (holding (L.project linker.now) (L.last linker.now) sent.new.items) }
    ensures flushed { OnOk result (W.held sink.new ≡ []) }
    ensures counted { CountsFailure (W.failed sink.old) (W.failed sink.new) result }
{
    let image = linker.image();
    match changed_ranges(alloc, sent, image) {
        Ok(ranges) => {
            remember_changes(sent, image, &ranges);
            write_changes(sink, image, &ranges)
        }
        Err(_) => {
            let all = [ByteRange {
                offset: 0,
                count: image.len(),
            }];
            remember(sent, image);
            write_changes(sink, image, &all)
        }
    }
}

/// Answers bytes that begin no command.
fn serve_bad<W: Sink>(sink: &mut W) -> Result<ServeStep, RunFault>
    ensures stepped { (old new : Option (List ℕ)) (h : Holding) → IfSome old IsBad
        → Stepped (world old (W.written sink.old) h) (world new (W.written sink.new) h) result }
    ensures flushed { Flushed (W.held sink.old) (W.held sink.new) result }
    ensures counted { (r : ℕ) → FaultsCounted r r (W.failed sink.old) (W.failed sink.new) result }
{
    write_malformed(sink)?;
    Ok(ServeStep::End(Status::Malformed))
}

/// Reads one command, executes it and answers it; or finds the end of the stream, or bytes that begin no command.
/// `sent` is the image that was answered last, or empty.
///
/// # Errors
///
/// If a call of `source` or `sink` failed.
pub fn serve_one<R: Source, W: Sink, L: DeferredLinker>(
    alloc: Global,
    source: &mut R,
    sink: &mut W,
    linker: &mut L,
    sent: &mut Vec<u8>,
) -> Result<ServeStep, RunFault>
    ensures stepped { Stepped
        (world (R.rest source.old) (W.written sink.old)
        (holding (L.project linker.old) (L.last linker.old) sent.old.items))
        (world (R.rest source.new) (W.written sink.new)
        (holding (L.project linker.new) (L.last linker.new) sent.new.items)) result }
    ensures flushed { Flushed (W.held sink.old) (W.held sink.new) result }
    ensures counted { FaultsCounted (R.failed source.old) (R.failed source.new)
        (W.failed sink.old) (W.failed sink.new) result }
{
    // for the prover: brings in the laws of the lines of commands
    one_first_deferred();
    deferred_lines_without_feed();
    let mut line = [0u8; MAX_LINE];
    match read_line(source, &mut line)? {
        LineEnd::Ended => Ok(ServeStep::End(Status::Done(linker.status()))),
        LineEnd::Broken => serve_bad(sink),
        LineEnd::Line(n) => match read_deferred_head(&line[..n]) {
            None => serve_bad(sink),
            Some(DeferredHead::Ask(query)) => {
                serve_query(sink, linker, sent, query)?;
                Ok(ServeStep::Next)
            }
            Some(DeferredHead::Link) => {
                serve_link(sink, linker)?;
                Ok(ServeStep::Next)
            }
            Some(DeferredHead::Changes) => {
                serve_changes(alloc, sink, linker, sent)?;
                Ok(ServeStep::Next)
            }
            Some(DeferredHead::Edit(head)) => serve_edit(alloc, source, sink, linker, head),
        },
    }
}
