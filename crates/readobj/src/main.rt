//! `readobj`: prints what the object reader sees of objects.
//!
//! `readobj FILE` says of one file whether it is an object, by one of
//!
//!     FILE: an object with N sections, N symbols, N relocations
//!     FILE: refused 4 N
//!       PLACE (NAME): REASON
//!         to do: ADVICE
//!
//! on standard output, the last if there is advice. A line `warning: ..` says that an object has no code, as gcc made
//! it for link-time optimization alone. Sections and relocations are the linked ones, symbols the entries of the symbol
//! table from entry 0 on. N after `refused 4` is the reader's number; a file that is too long for `ldi` is
//! `refused 6 0`. It ends with status 0 if the file is an object, with 1 if it is refused, with 2 if there are more
//! words, with 3 if the file cannot be read or standard output cannot be written, and with 4 out of memory.
//!
//! Without a word it reads a stream of objects from standard input, each of which is a line `object LEN` or
//! `object LEN TITLE` and LEN bytes right after it. For each it prints a line `object TITLE`, then one line for each
//! linked section, then one for each entry of the symbol table from entry 0 on, then one for each relocation of each
//! linked section, all in table order:
//!
//!     section NUMBER KIND FLAGS SIZE ALIGNMENT NAME
//!     symbol NUMBER BINDING KIND PLACE VALUE SIZE [NAME]
//!     relocation SECTION OFFSET KIND SYMBOL ADDEND
//!
//! All numbers are decimal. FLAGS are letters, as `readelf` has them: W for write, A for alloc, X for code, M for
//! merge, S for strings. Kinds and bindings are the standards' names, without `SHT_`, `STB_` and `STT_`. PLACE is
//! `UND`, `ABS`, `COM` or the number of a section. SECTION is the number of the section that a relocation changes,
//! SYMBOL the number of the entry that it names. A local symbol has no NAME.
//!
//! Of bytes that are no object it prints `refused N` with the reader's number instead, and a line with two spaces and
//! the place and the reason, and perhaps one with advice, for people.
//!
//! `variants` in place of `object` asks what the reader says of all beginnings of the object, from the empty one to the
//! whole one, and of the object with one byte set to 00, 7F or FF, for every byte. It prints a line `variants TITLE`,
//! then `beginnings` and a line `  FROM..TO: ANSWER` for all lengths from FROM to TO, then for each value
//! `each byte VALUE` and the same for the places of the byte. ANSWER is `object`, or `refused N` if the bytes are
//! refused and came back unchanged, or `lost` if others came back.
//!
//! It ends with status 0 after the last object, with status 1 after bytes that begin no object, and with status 3 if a
//! device failed or memory was refused.
#![tactic(auto)]

mod file;
mod listing;
mod names;
mod stream;
mod variants;
mod why;

use crate::file::show_file;
use crate::listing::print_object;
use crate::stream::{Frame, Kind, split_frame};
use crate::variants::print_variants;
use crate::why::explain::explain;
use elfobj::{Meter, Object, ObjectRefusal};
use ldi_files::argument_fault::ArgumentFault;
use ldi_files::named_file::{NamedFile, named_file};
use std::alloc::Global;
use std::io;
use std::io::{BufWriter, Read, Write};
use std::process::ExitCode;

/// How the program is called.
const USAGE: &str = "usage: readobj [FILE], all words in UTF-8";

/// All objects were read.
const READ: u8 = 0;
/// The next bytes of the stream begin no object.
const MALFORMED: u8 = 1;
/// A device failed, or memory was refused.
const FAILED: u8 = 3;

/// The number of a refusal, and where and why it came.
fn print_refusal<W: Write>(
    alloc: Global,
    out: &mut W,
    bytes: &[u8],
    refusal: ObjectRefusal,
) -> io::Result<()> {
    writeln!(out, "refused {}", refusal.number())?;
    match explain(alloc, bytes, refusal)? {
        Some(explanation) => writeln!(out, "  {explanation}"),
        None => Ok(()),
    }
}

/// The lines of one object, or why it is refused.
fn show_object<W: Write>(alloc: Global, out: &mut W, bytes: &[u8]) -> io::Result<()> {
    let bytes = Vec::from_slice(alloc, bytes)?;
    let mut meter = Meter::new();
    match Object::read(alloc, bytes, &mut meter) {
        Ok(object) => print_object(out, &object),
        Err((bytes, refusal)) => print_refusal(alloc, out, &bytes, refusal),
    }
}

/// The word that begins a frame's line and what is printed of it.
fn word_of(kind: Kind) -> &'static str {
    match kind {
        Kind::Object => "object ",
        Kind::Variants => "variants ",
    }
}

/// What a frame asks of its object.
fn show_frame<W: Write>(alloc: Global, out: &mut W, frame: &Frame) -> io::Result<()> {
    out.write_all(word_of(frame.kind).as_bytes())?;
    out.write_all(frame.title)?;
    out.write_all(b"\n")?;
    match frame.kind {
        Kind::Object => show_object(alloc, out, frame.bytes),
        Kind::Variants => print_variants(alloc, out, frame.bytes),
    }
}

/// The lines of all objects of a stream, and the exit status.
fn show_objects<W: Write>(alloc: Global, out: &mut W, stream: &[u8]) -> io::Result<u8> {
    let mut rest = stream;
    for _ in 0..u64::MAX {
        if rest.is_empty() {
            break;
        }
        let Some((frame, others)) = split_frame(rest) else {
            return Ok(MALFORMED);
        };
        show_frame(alloc, out, &frame)?;
        rest = others;
    }
    Ok(READ)
}

/// Reads standard input, prints, and returns the exit status.
fn show_stream(rt: &HostRuntime) -> io::Result<u8> {
    let alloc = rt.alloc();
    let mut stream = Vec::new(alloc);
    rt.reader().read_to_end(&mut stream)?;
    let mut out = BufWriter::new(alloc, io::writer(rt))?;
    let status = show_objects(alloc, &mut out, &stream)?;
    out.flush()?;
    Ok(status)
}

/// Prints the lines of a file, and returns the exit status.
fn show_named(rt: &HostRuntime, file: NamedFile) -> io::Result<u8> {
    let mut out = BufWriter::new(rt.alloc(), io::writer(rt))?;
    let status = show_file(rt.alloc(), &mut out, file)?;
    out.flush()?;
    Ok(status)
}

fn main(rt: HostRuntime) -> ExitCode {
    let status = match named_file(&rt) {
        Ok(None) => show_stream(&rt).unwrap_or(FAILED),
        Ok(Some(file)) => match show_named(&rt, file) {
            Ok(status) => status,
            Err(error) => ArgumentFault::from(error).report(&rt, USAGE),
        },
        Err(fault) => fault.report(&rt, USAGE),
    };
    ExitCode::from(status)
}
