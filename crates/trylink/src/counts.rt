//! What each edit of a stream counts in a session.

use crate::answer::Answer;
use crate::command::{Command, split_command};
use crate::printing::print_command;
use crate::task::Task;
use ldmodel::meter::Meter;
use relink::{Edit, Linker, Session};
use std::alloc::{AllocError, Global};

/// Prints what a meter has counted.
pub fn print_meter(meter: &Meter, out: &mut String) -> Result<(), AllocError> {
    let (objects, names, pieces) = (meter.objects(), meter.names(), meter.pieces());
    let (fields, bytes) = (meter.fields(), meter.bytes());
    writeln!(
        out,
        "counted: objects {objects} names {names} pieces {pieces} relocations {fields} bytes {bytes}"
    )
}

/// Makes an edit, and prints its answer and, if it is accepted, its counts.
fn print_edit<L: Linker>(
    alloc: Global,
    linker: &mut L,
    edit: Edit<'_>,
    out: &mut String,
) -> Result<(), AllocError> {
    let mut meter = Meter::new();
    match linker.apply(edit, &mut meter) {
        Err(refusal) => Answer::Refused(refusal).print(alloc, out),
        Ok(linked) => {
            Answer::Linked(linked).print(alloc, out)?;
            print_meter(&meter, out)
        }
    }
}

/// Makes the edits of a stream, and prints the answer and the counts of each.
fn print_edits<L: Linker>(
    alloc: Global,
    linker: &mut L,
    stream: &[u8],
    out: &mut String,
) -> Result<(), AllocError> {
    let mut rest = stream;
    // a command takes a byte at least
    for _ in 0..=stream.len() {
        if rest.is_empty() {
            break;
        }
        let Some((command, others)) = split_command(alloc, rest)? else {
            return Answer::Malformed.print(alloc, out);
        };
        let bytes = &rest[..rest.len().saturating_sub(others.len())];
        rest = others;
        if let Command::Make(edit) = command {
            print_command(out, bytes)?;
            print_edit(alloc, linker, edit, out)?;
        }
    }
    Ok(())
}

/// Makes the edits of a stream in a session, and prints the answer and the counts of each.
pub fn print_counts(task: Task<'_>, out: &mut String) -> Result<(), AllocError> {
    let mut session = Session::new(task.alloc, task.seed, task.own_options()?)?;
    print_edits(task.alloc, &mut session, task.bytes, out)
}
