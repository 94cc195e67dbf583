//! `readscript`: prints what the script reader sees of texts.
//!
//! `readscript FILE` says of one file whether it is a script, by one of
//!
//!     FILE: a script of N statements
//!     FILE: refused 5 N
//!       SENTENCE
//!
//! on standard output. The statements are those at the top of the script. N after `refused 5` is the reader's number,
//! which the sentence explains; the front end's `ldi-adapt --check` finds the places. A file that is too long for `ldi`
//! is `refused 6 0`. It ends with status 0 if the file is a script, with 1 if it is refused, with 2 if there are more
//! words, with 3 if the file cannot be read or standard output cannot be written, and with 4 out of memory.
//!
//! Without a word it reads standard input to its end: frames, each a line and the bytes that it counts. White space
//! before a frame is skipped. All lengths are decimal.
//!
//!     script LENGTH           a script
//!     numbers LENGTH          a script, for the numbers of its statements
//!     tokens LENGTH           a text, to be cut into tokens
//!     match WORD NAME         lengths in bytes of a pattern and of a name, which follow one after the other
//!
//! For a `script` it prints an empty line, its line, the text with `| ` before each of its lines, and the tree, a line
//! for each statement:
//!
//!     1 entry NAME
//!     1 memory
//!     2   region NAME origin EXPR length EXPR
//!     3 sections
//!     4   section NAME address EXPR at EXPR align EXPR > REGION fill BYTES
//!     5     keep FILE(by name: PATTERN PATTERN)
//!     6     byte EXPR
//!     7   discard
//!     8     FILE(PATTERN)
//!     9 NAME = EXPR
//!
//! A number at the front of a line is the statement's line in the text. Of a section only the given parts are printed;
//! its load address is `at EXPR` or `at> REGION`, and BYTES are decimal. A section's statements are data (`byte`,
//! `short`, `long`, `quad`), input statements, and those that `sections` has too: `. = EXPR`, `. += EXPR`,
//! `NAME = EXPR`, `provide NAME = EXPR` and `assert EXPR "MESSAGE"`, of which the last three are at the top too. A sort
//! is `by name: ` or `by alignment: `. In an EXPR each operation has its parentheses, and numbers are decimal. A
//! PATTERN is `*` alone, which every name matches; or the one name that matches it, with `\` before each byte that
//! would not be plain in a pattern; or `~` for any other pattern. If an `EXCLUDE_FILE` belongs to a PATTERN,
//! `exclude(PATTERN PATTERN) ` is before it. A refused text has `refused N` in place of a tree, with the reader's
//! number.
//!
//! For `numbers` it prints the same of the text, the name of `ENTRY`, and then by their numbers, each with its line,
//! the memory regions, the output sections, the input statements with their places, and the assignments, `PROVIDE`s and
//! `ASSERT`s; after each name its entry in the script's tables.
//!
//! For `tokens` it prints the same of the text, the number of its tokens, and if these are 40 at most, the tokens of
//! each line of the text with their kinds. For a `match` it prints the word and the name in quotes, and whether the
//! name matches: `yes`, `no`, or `no pattern` if the word spells none.
//!
//! In a printed text a byte that is neither printable ASCII nor a line feed is `<XX>`, in hexadecimal. A text of more
//! than 4,096 bytes is not printed, and its tree isn't either: it is `accepted` or `refused N`.
//!
//! A malformed frame is answered by the line `malformed frame` and ends the program with status 2. It ends with status
//! 3 if a device failed or there is no memory.
#![tactic(auto)]

mod directive;
mod file;
mod frame;
mod input;
mod numbers;
mod pattern;
mod script;
mod section;
mod statement;
mod text;
mod tokens;

use crate::file::show_file;
use crate::frame::{Frame, Next, next_frame};
use crate::numbers::push_numbers;
use crate::pattern::push_match;
use crate::script::push_script;
use crate::tokens::push_tokens;
use ldi_files::argument_fault::ArgumentFault;
use ldi_files::named_file::{NamedFile, named_file};
use std::alloc::{AllocError, Global};
use std::io;
use std::io::{BufWriter, Read, Write};
use std::process::ExitCode;

/// How the program is called.
const USAGE: &str = "usage: readscript [FILE], all words in UTF-8";

/// A frame is malformed.
const MALFORMED: u8 = 2;
/// A device failed, or there is no memory.
const FAILED: u8 = 3;

/// What is printed for a frame.
fn answer(alloc: Global, frame: Frame<'_>) -> Result<String, AllocError> {
    let mut out = String::new(alloc);
    match frame {
        Frame::Script(text) => push_script(alloc, &mut out, text)?,
        Frame::Numbers(text) => push_numbers(alloc, &mut out, text)?,
        Frame::Tokens(text) => push_tokens(alloc, &mut out, text)?,
        Frame::Match(word, name) => push_match(alloc, &mut out, word, name)?,
    }
    Ok(out)
}

/// Prints the answers to all frames, and returns the exit status.
fn print_answers<W: Write>(alloc: Global, out: &mut W, input: &[u8]) -> io::Result<u8> {
    let mut rest = input;
    // a frame takes a byte at least
    for _ in 0..=input.len() {
        match next_frame(rest) {
            Next::Finished => return Ok(0),
            Next::Malformed => {
                out.write_all(b"malformed frame\n")?;
                return Ok(MALFORMED);
            }
            Next::Found(frame, more) => {
                let text = answer(alloc, frame)?;
                out.write_all(text.as_bytes())?;
                rest = more;
            }
        }
    }
    Ok(0)
}

/// Reads standard input, prints, and returns the exit status.
fn show_stream(rt: &HostRuntime) -> io::Result<u8> {
    let alloc = rt.alloc();
    let mut input = Vec::new(alloc);
    rt.reader().read_to_end(&mut input)?;
    let mut out = BufWriter::new(alloc, io::writer(rt))?;
    let status = print_answers(alloc, &mut out, &input)?;
    out.flush()?;
    Ok(status)
}

/// Prints the lines of a file, and returns the exit status.
fn show_named(rt: &HostRuntime, file: &NamedFile) -> io::Result<u8> {
    let mut out = BufWriter::new(rt.alloc(), io::writer(rt))?;
    let status = show_file(rt.alloc(), &mut out, file)?;
    out.flush()?;
    Ok(status)
}

fn main(rt: HostRuntime) -> ExitCode {
    let status = match named_file(&rt) {
        Ok(None) => show_stream(&rt).unwrap_or(FAILED),
        Ok(Some(file)) => match show_named(&rt, &file) {
            Ok(status) => status,
            Err(error) => ArgumentFault::from(error).report(&rt, USAGE),
        },
        Err(fault) => fault.report(&rt, USAGE),
    };
    ExitCode::from(status)
}
