//! `readwords`: prints what command lines of `ldi` come to.
//!
//! It reads command lines from standard input, one a line. Words are separated by one space, so an empty word is
//! between two spaces, or at the end after one. In a word `\s` stands for a space. The first word is the name of the
//! program; the empty line has no words.
//! For each line it prints the line after `> `, and then what the words come to:
//!
//!     session OPTIONS
//!     deferred session OPTIONS
//!     link [SCRIPT] [IMAGE] [map [MAP]] OPTIONS: [OBJECT] ..
//!     KIND, status N
//!     out of memory, status N
//!
//! OPTIONS are those that differ from the defaults: `gc`, `entry [SYMBOL]` and `discard`. KIND is `clap`'s kind of a
//! fault, and N the status that `ldi` ends with after it. Help and the version are printed before their line; of other
//! faults, `clap`'s text goes to standard error.
//!
//! It ends with status 1 if a device fails or memory runs out.
#![tactic(auto)]

use ldi_words::call::Call;
use ldi_words::fault::WordsFault;
use ldi_words::words;
use ldmodel::options::{Options, Orphans};
use std::alloc::Global;
use std::io;

/// The words of a line.
fn words_of(alloc: Global, line: &str) -> io::Result<Vec<String>> {
    let mut args = Vec::new(alloc);
    if !line.is_empty() {
        for word in line.split(' ') {
            args.push(word.replace(alloc, "\\s", " ")?)?;
        }
    }
    Ok(args)
}

/// Prints the options that differ from the defaults.
fn print_options(rt: &HostRuntime, options: &Options) -> io::Result<()> {
    if options.gc() {
        print!(rt; " gc")?;
    }
    if let Some(entry) = options.entry() {
        print!(rt; " entry [{}]", str::from_utf8(entry).unwrap_or("no text"))?;
    }
    if options.orphans() == Orphans::Discard {
        print!(rt; " discard")?;
    }
    Ok(())
}

/// Prints a call.
fn print_call(rt: &HostRuntime, call: &Call) -> io::Result<()> {
    match call {
        Call::Session(options) => {
            print!(rt; "session")?;
            print_options(rt, options)?;
        }
        Call::DeferredSession(options) => {
            print!(rt; "deferred session")?;
            print_options(rt, options)?;
        }
        Call::Link {
            script,
            image,
            map,
            options,
            objects,
        } => {
            print!(rt; "link [{script}] [{image}]")?;
            if let Some(map) = map {
                print!(rt; " map [{map}]")?;
            }
            print_options(rt, options)?;
            print!(rt; ":")?;
            for object in objects {
                print!(rt; " [{object}]")?;
            }
        }
    }
    println!(rt; "")
}

/// Prints a fault.
fn print_fault(rt: &HostRuntime, fault: &WordsFault) -> io::Result<()> {
    let status = fault.report(rt);
    match fault {
        WordsFault::Memory(_) => println!(rt; "out of memory, status {status}"),
        WordsFault::Refused(error) => println!(rt; "{:?}, status {status}", error.kind()),
    }
}

fn main(rt: HostRuntime) -> io::Result<()> {
    for line in rt.lines(rt.alloc()) {
        let line = line?;
        println!(rt; "> {line}")?;
        let args = words_of(rt.alloc(), line.as_str())?;
        match words(rt.alloc(), args.as_slice()) {
            Ok(call) => print_call(&rt, &call)?,
            Err(fault) => print_fault(&rt, &fault)?,
        }
    }
    Ok(())
}
