//! A session's answers through a reader and a writer that take a few bytes a call, and if one of their calls fails.

use crate::answer::checksum;
use crate::devices::{ShortReader, ShortWriter};
use crate::session_run::{Ended, run_session, status_of};
use crate::task::Task;
use ldi_stream::fault::RunFault;
use std::alloc::AllocError;

/// A call of a reader or of a writer.
#[derive(Clone, Copy)]
enum Call {
    Read,
    Write,
    Flush,
}

/// The greatest number of bytes that a read gives and a write takes.
#[derive(Clone, Copy)]
pub struct Longest {
    /// Of a read.
    pub read: usize,
    /// Of a write.
    pub write: usize,
}

/// The fault of a run in which such a call fails.
fn fault_of(call: Call) -> RunFault {
    match call {
        Call::Read => RunFault::Read,
        Call::Write | Call::Flush => RunFault::Write,
    }
}

/// Whether a run in which this call fails reports it and has written a prefix of all answers, or is complete.
fn is_right(call: Call, ended: &Ended, whole: &Ended) -> bool {
    if ended.outcome.is_ok() {
        ended.outcome == whole.outcome && ended.written.as_slice() == whole.written.as_slice()
    } else {
        ended.outcome == Err(fault_of(call)) && whole.written.starts_with(&ended.written)
    }
}

/// Answers the stream by a new session, in which the call with this number fails, from 1; none for 0.
fn answer(task: Task<'_>, longest: Longest, call: Call, number: u64) -> Result<Ended, AllocError> {
    let (read, write, flush) = match call {
        Call::Read => (number, 0, 0),
        Call::Write => (0, number, 0),
        Call::Flush => (0, 0, number),
    };
    let reader = ShortReader::new(task.bytes, longest.read, read);
    let writer = ShortWriter::new(task.alloc, longest.write, write, flush);
    run_session(task, reader, writer)
}

/// Answers the stream with the first call failing, with the second, and so on until none fails, and prints how many
/// failed, how many of these runs did wrong, and what all of them had written.
fn print_failing(
    task: Task<'_>,
    longest: Longest,
    call: Call,
    whole: &Ended,
    out: &mut String,
) -> Result<(), AllocError> {
    let mut failed = 0u64;
    let mut wrong = 0u64;
    let mut written = 0usize;
    for number in 1..u64::MAX {
        let ended = answer(task, longest, call, number)?;
        if !is_right(call, &ended, whole) {
            wrong = wrong.saturating_add(1);
        }
        if ended.outcome.is_ok() {
            break;
        }
        failed = number;
        written = written.saturating_add(ended.written.len());
    }
    let name = match call {
        Call::Read => "reads",
        Call::Write => "writes",
        Call::Flush => "flushes",
    };
    writeln!(
        out,
        "{name}: {failed} failed, {wrong} wrong, {written} bytes written"
    )
}

/// Prints a session's answers to the stream, and what happens if each call of a device fails in turn.
pub fn print_devices(task: Task<'_>, longest: Longest, out: &mut String) -> Result<(), AllocError> {
    let whole = answer(task, longest, Call::Read, 0)?;
    let (count, sum) = (whole.written.len(), checksum(&whole.written));
    let status = status_of(whole.outcome);
    writeln!(out, "bytes {count} sum {sum:016x}\nstatus {status}")?;
    print_failing(task, longest, Call::Read, &whole, out)?;
    print_failing(task, longest, Call::Write, &whole, out)?;
    print_failing(task, longest, Call::Flush, &whole, out)
}
