//! The file that the command line of a program names, as `readobj` and `readscript` take it.

ghost use Rattle.std.specs.Prelude.{◌<◌, ◌^◌, ◌↔◌, IsTrue, length};

use crate::argument::file_word;
use crate::argument_fault::ArgumentFault;
use crate::fault::FileFault;
use crate::reading::FileReader;
use growth::{string, told};
use std::env::Env;
use std::io::Write;
use std::rt::Files;
use std::{env, io};

/// The most bytes that `ldi` takes of a file.
pub const MAX_FILE: usize = 1 << 26;

/// A file that a command line names.
#[derive(Debug, Drop)]
pub struct NamedFile {
    /// The name, as the command line has it.
    pub name: String,
    /// The bytes; of a file that is too long, the first ones, one more than `MAX_FILE`.
    pub bytes: Vec<u8>,
}

impl NamedFile {
    /// Whether it is longer than a file may be.
    pub fn is_too_long(&self) -> bool
        ensures { IsTrue result ↔ 2 ^ 26 < length self.now.bytes.items }
    {
        self.bytes.len() > MAX_FILE
    }
}

/// The words of the command line, with the program's name first.
fn arguments<R: Env + AllocGlobal>(rt: &R) -> io::Result<Vec<String>> {
    Ok(env::args(rt)?.collect(rt.alloc())?)
}

/// The file of this name.
fn read_named<R: Files + AllocGlobal>(rt: &R, name: &str) -> Result<NamedFile, ArgumentFault> {
    let mut reader = FileReader::new(rt.alloc(), MAX_FILE + 1)?;
    match reader.read(rt, name) {
        Ok(file) => Ok(NamedFile {
            name: string::from_str(rt.alloc(), name)?,
            bytes: file.bytes,
        }),
        Err(FileFault::Memory(refused)) => Err(ArgumentFault::Memory(refused)),
        Err(FileFault::Failed { error, .. }) => Err(ArgumentFault::of_file(
            rt.alloc(),
            name,
            error,
        )),
    }
}

/// The file that the program's command line names; `None` if it has no word.
///
/// # Errors
///
/// If there are more words, or one is not UTF-8; if the file cannot be read; if memory runs out.
pub fn named_file<R: Files + Env + AllocGlobal>(
    rt: &R,
) -> Result<Option<NamedFile>, ArgumentFault> {
    let args = match arguments(rt) {
        Ok(args) => args,
        Err(error) => {
            return Err(match told::of_device(error) {
                Some(refused) => ArgumentFault::Memory(refused),
                None => ArgumentFault::Words,
            });
        }
    };
    match file_word(&args)? {
        Some(name) => Ok(Some(read_named(rt, name.as_str())?)),
        None => Ok(None),
    }
}

/// The lines of a file that is too long, with the numbers that `ldi` says of it.
pub fn print_too_long<W: Write>(out: &mut W, name: &str) -> io::Result<()> {
    writeln!(out, "{name}: refused 6 0")?;
    writeln!(out, "  it has more than 67,108,864 bytes")
}
