//! The ways of linkers: a stream is run over the linker of `ldi session`, or over the plain one, which keeps nothing
//! from link to link.

use crate::answered::{Answered, MALFORMED};
use crate::devices::{ShortReader, ShortWriter};
use crate::task::Task;
use ldi_stream::devices::{AnswerWriter, CommandReader};
use ldi_stream::fault::RunFault;
use ldi_stream::{Status, run};
use relink::{Linker, Plain, Session};
use std::alloc::{AllocError, Global};

/// The status after a device failed.
const DEVICE: u8 = 3;

/// The status after a run.
pub fn status_of(outcome: Result<Status, RunFault>) -> u8 {
    match outcome {
        Ok(Status::Done(status)) => status,
        Ok(Status::Malformed) => MALFORMED,
        Err(_) => DEVICE,
    }
}

/// How a run ended, and what it had written.
#[derive(Drop)]
pub struct Ended {
    /// How it ended.
    pub outcome: Result<Status, RunFault>,
    /// What it had written.
    pub written: Vec<u8>,
}

impl Ended {
    /// The answers, and the status.
    fn answered(self) -> Answered {
        let status = status_of(self.outcome);
        Answered {
            answers: self.written,
            status,
        }
    }
}

/// The answers of a linker to the stream of a reader.
fn answer_by<L: Linker>(
    alloc: Global,
    linker: &mut L,
    reader: ShortReader<'_>,
    writer: ShortWriter,
) -> Result<Ended, AllocError> {
    let mut source = CommandReader::new(alloc, reader)?;
    let mut sink = AnswerWriter::new(alloc, writer)?;
    let outcome = run(alloc, &mut source, &mut sink, linker);
    let written = sink.into_writer().written;
    Ok(Ended { outcome, written })
}

/// The answers of a new session to the stream of a reader.
pub fn run_session(
    task: Task<'_>,
    reader: ShortReader<'_>,
    writer: ShortWriter,
) -> Result<Ended, AllocError> {
    let mut linker = Session::new(task.alloc, task.seed, task.own_options()?)?;
    answer_by(task.alloc, &mut linker, reader, writer)
}

/// The answers of a session to a stream.
pub fn answer_by_session(task: Task<'_>) -> Result<Answered, AllocError> {
    let reader = ShortReader::new(task.bytes, usize::MAX, 0);
    let writer = ShortWriter::new(task.alloc, usize::MAX, 0, 0);
    Ok(run_session(task, reader, writer)?.answered())
}

/// The answers of the plain linker to a stream.
pub fn answer_by_plain(task: Task<'_>) -> Result<Answered, AllocError> {
    let reader = ShortReader::new(task.bytes, usize::MAX, 0);
    let writer = ShortWriter::new(task.alloc, usize::MAX, 0, 0);
    let mut linker = Plain::new(task.alloc, task.seed, task.own_options()?)?;
    Ok(answer_by(task.alloc, &mut linker, reader, writer)?.answered())
}
