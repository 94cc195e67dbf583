//! What is printed of a file that the command line names.

use ldi_files::named_file::{NamedFile, print_too_long};
use ldscript::{Script, ScriptRefusal};
use std::alloc::Global;
use std::io;
use std::io::{ErrorKind, Write};

/// The file is a script.
const READ: u8 = 0;
/// The file is refused.
const REFUSED: u8 = 1;

/// What the number of a refusal says, for people.
fn sentence(refusal: ScriptRefusal) -> &'static str {
    match refusal {
        ScriptRefusal::NotTokens => "somewhere no token begins, or a comment or string has no end",
        ScriptRefusal::NotAScript => "the text does not follow the grammar",
        ScriptRefusal::Repeated =>
            "something is given twice, or a region is named before it is declared",
        ScriptRefusal::MisplacedDot => "`.' is used where it may not be",
        ScriptRefusal::Limit => "a limit of scripts is passed",
        ScriptRefusal::NoMemory(_) => "out of memory",
    }
}

/// That a file is a script.
fn print_read<W: Write>(out: &mut W, file: &NamedFile, script: &Script) -> io::Result<()> {
    let count = script.statements().len();
    let noun = if count == 1 {
        "statement"
    } else {
        "statements"
    };
    writeln!(out, "{}: a script of {count} {noun}", file.name)
}

/// That a file is refused, with the numbers of `ldi`'s answer and what they say.
fn print_refused<W: Write>(
    out: &mut W,
    file: &NamedFile,
    refusal: ScriptRefusal,
) -> io::Result<()> {
    writeln!(out, "{}: refused 5 {}", file.name, refusal.number())?;
    writeln!(
        out,
        "  {}: `ldi-adapt --check {}` says where",
        sentence(refusal),
        file.name
    )
}

/// Prints whether a file is a script or refused, and returns the exit status.
///
/// # Errors
///
/// If the lines cannot be written; of kind `OutOfMemory` if memory runs out.
pub fn show_file<W: Write>(alloc: Global, out: &mut W, file: &NamedFile) -> io::Result<u8> {
    if file.is_too_long() {
        print_too_long(out, file.name.as_str())?;
        return Ok(REFUSED);
    }
    match Script::read(alloc, &file.bytes) {
        Ok(script) => {
            print_read(out, file, &script)?;
            Ok(READ)
        }
        Err(ScriptRefusal::NoMemory(_)) => Err(ErrorKind::OutOfMemory.into()),
        Err(refusal) => {
            print_refused(out, file, refusal)?;
            Ok(REFUSED)
        }
    }
}
