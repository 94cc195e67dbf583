//! What is printed of a file that the command line names.

use crate::why::explain::explain;
use crate::why::lto::is_slim;
use elfobj::section::LinkedIndex;
use elfobj::{Meter, Object, ObjectRefusal};
use ldi_files::named_file::{NamedFile, print_too_long};
use std::alloc::Global;
use std::io;
use std::io::{ErrorKind, Write};

/// The file is an object.
const READ: u8 = 0;
/// The file is refused.
const REFUSED: u8 = 1;

/// That a file is an object, and how much is in it, or that it has nothing to link.
fn print_read<W: Write>(out: &mut W, name: &str, object: &Object) -> io::Result<()> {
    let sections = object.sections().len();
    let symbols = object.symbols().len();
    let mut relocations: usize = 0;
    for i in 0..sections {
        relocations = relocations.saturating_add(object.relocations(LinkedIndex(i)).len());
    }
    writeln!(
        out,
        "{name}: an object with {sections} sections, {symbols} symbols, {relocations} relocations"
    )?;
    if is_slim(object) {
        writeln!(
            out,
            "  warning: it has neither code nor data, only what link-time optimization takes: compile without -flto"
        )?;
    }
    Ok(())
}

/// That a file is refused, with the numbers of `ldi`'s answer, and where and why.
fn print_refused<W: Write>(
    alloc: Global,
    out: &mut W,
    name: &str,
    bytes: &[u8],
    refusal: ObjectRefusal,
) -> io::Result<()> {
    writeln!(out, "{name}: refused 4 {}", refusal.number())?;
    match explain(alloc, bytes, refusal)? {
        Some(explanation) => writeln!(out, "  {explanation}"),
        None => Ok(()),
    }
}

/// Prints that a file is accepted, or where and why it is refused, and returns the exit status.
///
/// # Errors
///
/// If the lines cannot be written; of kind `OutOfMemory` if memory runs out.
pub fn show_file<W: Write>(alloc: Global, out: &mut W, file: NamedFile) -> io::Result<u8> {
    if file.is_too_long() {
        print_too_long(out, file.name.as_str())?;
        return Ok(REFUSED);
    }
    let NamedFile { name, bytes } = file;
    let mut meter = Meter::new();
    match Object::read(alloc, bytes, &mut meter) {
        Ok(object) => {
            print_read(out, name.as_str(), &object)?;
            Ok(READ)
        }
        Err((_, ObjectRefusal::NoMemory(_))) => Err(ErrorKind::OutOfMemory.into()),
        Err((bytes, refusal)) => {
            print_refused(alloc, out, name.as_str(), &bytes, refusal)?;
            Ok(REFUSED)
        }
    }
}
