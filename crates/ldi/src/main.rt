//! `ldi`: a static linker that links again after every edit.
//!
//! `ldi session` reads commands from standard input and answers them on standard output; with `--deferred` it links
//! only at the command `link`. The exit status is that of the link (0 or 1), 2 after bytes that begin no command, or if
//! the arguments are refused, 3 if a device failed or the system gives no seed for hash tables, and 4 if there is no
//! memory to begin.
//!
//! `ldi link` reads a script and objects, links once, and writes the image and the map. The exit status is 0 when they
//! are written, 1 after fault lines on standard error, 2 if a file or the arguments are refused, 3 if a file cannot be
//! read or written, which standard error names, and 4 if memory ran out.
#![tactic(auto)]

ghost use Rattle.std.specs.Prelude.{◌≡◌};
ghost use Rattle.ldi.specs.Exit.{exit_status};

use crate::link_command::{FileNames, link_files};
use growth::told;
use ldi_stream::Status;
use ldi_stream::fault::RunFault;
use ldi_words::call::Call;
use ldi_words::fault::WordsFault;
use ldi_words::{USAGE, words};
use relink::Options;
use std::hash::RandomState;
use std::process::ExitCode;
use std::{env, io};

mod deferred_command;
mod link_command;
mod session_command;

/// The arguments are refused.
const REFUSED: u8 = 2;
/// The system gives no seed, or a file cannot be read or written.
const SYSTEM_FAILED: u8 = 3;
/// Memory ran out.
const NO_MEMORY: u8 = 4;

/// The status of a run.
fn exit_status(outcome: Result<Status, RunFault>) -> u8
    ensures { result ≡ exit_status outcome }
{
    match outcome {
        Ok(Status::Done(status)) => status,
        Ok(Status::Malformed) => 2,
        Err(_) => 3,
    }
}

/// The arguments, with the program's name first.
fn arguments(rt: &HostRuntime) -> io::Result<Vec<String>> {
    Ok(env::args(rt)?.collect(rt.alloc())?)
}

/// Answers the commands of standard input on standard output, and returns the exit status.
fn answer_commands(rt: &HostRuntime, options: Options) -> u8 {
    let Ok(seed) = RandomState::new(rt) else {
        return SYSTEM_FAILED;
    };
    match session_command::session(rt.alloc(), seed, rt.reader(), io::writer(rt), options) {
        Ok(ended) => exit_status(ended.outcome),
        Err(_) => NO_MEMORY,
    }
}

/// Answers the commands of a deferred session on standard input, and returns the exit status.
fn answer_deferred_commands(rt: &HostRuntime, options: Options) -> u8 {
    let Ok(seed) = RandomState::new(rt) else {
        return SYSTEM_FAILED;
    };
    match deferred_command::deferred_session(
        rt.alloc(),
        seed,
        rt.reader(),
        io::writer(rt),
        options,
    ) {
        Ok(ended) => exit_status(ended.outcome),
        Err(_) => NO_MEMORY,
    }
}

/// Prints why the arguments are refused, and returns the exit status.
fn refuse(rt: &HostRuntime, reason: &str) -> u8 {
    let _ = eprintln!(rt; "{reason}");
    REFUSED
}

/// Prints what GNU ld's `-Map` is called here, if the refused arguments have it: the text of `clap` speaks of an option
/// `-M`.
fn say_map_option(rt: &HostRuntime, args: &[String]) {
    for word in args {
        if word.as_str() == "-Map" || word.as_str().starts_with("-Map=") {
            let _ = eprintln!(rt; "ldi: the file of the map is given by '--Map', with two dashes");
            return;
        }
    }
}

/// Prints why the arguments make no call, and returns the exit status.
fn report(rt: &HostRuntime, args: &[String], fault: &WordsFault) -> u8 {
    if fault.exit_status() == REFUSED {
        say_map_option(rt, args);
    }
    fault.report(rt)
}

/// Makes the call that the arguments ask for, and returns the exit status.
fn run_call(rt: &HostRuntime, args: &[String]) -> u8 {
    match words(rt.alloc(), args) {
        Ok(Call::Session(options)) => answer_commands(rt, options),
        Ok(Call::DeferredSession(options)) => answer_deferred_commands(rt, options),
        Ok(
            Call::Link {
                script,
                image,
                map,
                options,
                objects,
            },
        ) => {
            let names = FileNames {
                script,
                image,
                map,
                objects,
            };
            link_files(rt, &names, options)
        }
        Err(fault) => report(rt, args, &fault),
    }
}

fn main(rt: HostRuntime) -> ExitCode {
    let status = match arguments(&rt) {
        Ok(args) => run_call(&rt, args.as_slice()),
        Err(error) => match told::of_device(error) {
            Some(_) => NO_MEMORY,
            None => refuse(&rt, USAGE),
        },
    };
    ExitCode::from(status)
}
