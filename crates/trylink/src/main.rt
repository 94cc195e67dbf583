//! `trylink`: answers whole streams of commands three times, and compares the answers: as `ldi session` does; over the
//! plain linker, which keeps nothing from link to link; and by the calls that `ldi link` makes (`Project::edit` and
//! `Output::of`).
//!
//! It reads frames from standard input, one after another:
//!
//!     stream NAME LEN WORDS..
//!
//! and a line feed, and then the LEN bytes of a stream. The WORDS, one space between each two, are those after
//! `ldi session`. `LEN+COUNT` in place of `LEN` says that the last byte of the stream is repeated COUNT times.
//!
//! `list` in place of `stream` asks for a checksum in place of the answers, `counts` for what each edit counts in a
//! session, `devices` for what happens if a reader or a writer fails, and `steps` for the same of readers and writers
//! that take one byte, seven, and all bytes a call. The bytes of a frame of `files` and of `surface` are files, the
//! script first: a line of a file's word and its length, and then what it holds. `files` asks what `ldi link` makes of
//! them, and `surface` what the public calls of single crates do (`surface`).
//!
//! For each frame it prints `stream NAME WORDS..`, and then each command (`printing::print_command`) and under it its
//! answer. That of a map or of fault lines has the text; that of an image goes on with a checksum (`answer::checksum`).
//! Then it prints `status S`, and `same` if all ways give one status and the same bytes, or else the place where they
//! differ.
//!
//! For a frame of `counts` it prints each edit, its answer, and how many objects it read, names it decided, input
//! sections it placed, relocations it evaluated and bytes of the image it wrote.
//!
//! For a frame of `devices` a session answers the stream through a reader that gives one byte a call and a writer that
//! takes at most 100. It prints `bytes LENGTH sum CHECKSUM` of all answers and `status S`. Then sessions answer it with
//! the first read failing, with the second, and so on until none fails; the same for writes and for flushes. It prints
//! for each of the three how many of these sessions had a call that failed, how many ended with another fault than the
//! device's or had written what is no beginning of the answers, and how many bytes all of them had written. A frame of
//! `steps` has these lines three times.
//!
//! For a frame of `files` it prints the word and the length of each file, `status S`, the text on standard error, and
//! after a link the image and the map as a stream answers them.
#![tactic(auto)]

mod answer;
mod answered;
mod calls;
mod command;
mod counts;
mod devices;
mod failing;
mod files;
mod frame;
mod printing;
mod session_run;
mod surface;
mod task;

use crate::answer::checksum;
use crate::answered::print_agreement;
use crate::calls::answer_by_calls;
use crate::counts::print_counts;
use crate::failing::{Longest, print_devices};
use crate::files::print_link;
use crate::frame::{Frame, Kind, split_frame};
use crate::session_run::{answer_by_plain, answer_by_session};
use crate::surface::print_surface;
use crate::task::Task;
use std::alloc::{AllocError, Global};
use std::hash::RandomState;
use std::io;
use std::io::{Read, Write};
use std::process::ExitCode;

/// All frames were answered.
const DONE: u8 = 0;
/// The input ends within a frame.
const CUT: u8 = 1;
/// A device failed, or memory was refused.
const FAILED: u8 = 3;

/// The number of bytes that the devices of a frame of `devices` take.
const DEVICES: Longest = Longest {
    read: 1,
    write: 100,
};

/// Answers a stream in all ways, and compares the answers. They are shown, or a checksum of them.
fn compare(task: Task<'_>, shows: bool, out: &mut String) -> Result<(), AllocError> {
    let mut shown = String::new(task.alloc);
    let by_calls = answer_by_calls(task, &mut shown)?;
    if shows {
        out.push_str(shown.as_str())?;
    } else {
        writeln!(out, "sum {:016x}", checksum(&by_calls.answers))?;
    }
    let by_session = answer_by_session(task)?;
    let by_plain = answer_by_plain(task)?;
    print_agreement(&by_session, &by_plain, &by_calls, out)
}

/// Prints what happens with a reader and a writer that take one byte a call, seven, and all.
fn print_steps(task: Task<'_>, out: &mut String) -> Result<(), AllocError> {
    for (step, name) in [
        (1, "one byte"),
        (7, "seven bytes"),
        (usize::MAX, "all bytes"),
    ] {
        writeln!(out, "{name} a call")?;
        let longest = Longest {
            read: step,
            write: step,
        };
        print_devices(task, longest, out)?;
    }
    Ok(())
}

/// Prints what a frame asks of its bytes.
fn answer_frame(kind: Kind, task: Task<'_>, out: &mut String) -> Result<(), AllocError> {
    match kind {
        Kind::Answers => compare(task, true, out),
        Kind::Sum => compare(task, false, out),
        Kind::Counts => print_counts(task, out),
        Kind::Devices => print_devices(task, DEVICES, out),
        Kind::Steps => print_steps(task, out),
        Kind::Files => print_link(task, out),
        Kind::Surface => print_surface(task, out),
    }
}

/// Prints the name of a frame, and what it asks.
fn try_frame(
    alloc: Global,
    seed: RandomState,
    frame: Frame<'_>,
    out: &mut String,
) -> Result<(), AllocError> {
    let (word, name) = frame.title;
    write!(out, "{word} {name}")?;
    if let Some(words) = frame.words {
        write!(out, " {words}")?;
    }
    out.push('\n')?;
    let Some(options) = frame.options(alloc)? else {
        return out.push_str("bad words\n");
    };
    let bytes = frame.bytes(alloc)?;
    let task = Task {
        alloc,
        seed,
        options: &options,
        bytes: &bytes,
    };
    answer_frame(frame.kind, task, out)
}

/// Tries all frames, and gives the status to end with.
fn try_frames(
    alloc: Global,
    seed: RandomState,
    input: &[u8],
    out: &mut String,
) -> Result<u8, AllocError> {
    let mut rest = input;
    // a frame takes a byte at least
    for _ in 0..input.len() {
        let Some((frame, others)) = split_frame(rest) else {
            break;
        };
        rest = others;
        try_frame(alloc, seed, frame, out)?;
    }
    Ok(if rest.is_empty() { DONE } else { CUT })
}

/// Reads standard input, prints, and gives the status to end with.
fn show(rt: &HostRuntime) -> io::Result<u8> {
    let alloc = rt.alloc();
    let mut input = Vec::new(alloc);
    rt.reader().read_to_end(&mut input)?;
    let mut out = String::new(alloc);
    let status = try_frames(alloc, RandomState::new(rt)?, &input, &mut out)?;
    io::writer(rt).write_all(out.as_bytes())?;
    Ok(status)
}

fn main(rt: HostRuntime) -> ExitCode {
    match show(&rt) {
        Ok(status) => ExitCode::from(status),
        Err(_) => ExitCode::from(FAILED),
    }
}
