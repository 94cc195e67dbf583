//! Why a file cannot be opened, read, written or replaced.

use growth::{NoMemory, told};
use std::error::Error;
use std::{fmt, io};

/// What cannot be done with a file.
#[derive(Clone, Copy, PartialEq, Eq, Debug)]
pub enum Action {
    /// To open it.
    Open,
    /// To read it.
    Read,
    /// To write it.
    Write,
    /// To rename the new file, which is written, to its name.
    Rename,
}

impl fmt::Display for Action {
    fn fmt<W: fmt::Write>(&self, f: &mut fmt::Formatter<W>) -> fmt::Result {
        f.write_str(match self {
            Action::Open => "opened",
            Action::Read => "read",
            Action::Write => "written",
            Action::Rename => "replaced",
        })
    }
}

/// Why the files of a link are not read, or not written.
#[derive(Clone, Copy, Debug)]
pub enum FileFault<'a> {
    /// Memory ran out.
    Memory(NoMemory),
    /// The system refuses an action on a file.
    Failed {
        /// What could not be done.
        action: Action,
        /// The file's name, as the caller has it.
        name: &'a str,
        /// The system's reason.
        error: io::Error,
    },
}

impl<'a> FileFault<'a> {
    ghost use Rattle.ldi_files.specs.Fault.{IsFaultOf};

    /// The fault of an action that failed by this error on the file of this name.
    pub fn of(action: Action, name: &'a str, error: io::Error) -> FileFault<'a>
        ensures { IsFaultOf action name.now error result }
    {
        match told::of_device(error) {
            Some(no_memory) => FileFault::Memory(no_memory),
            None => FileFault::Failed {
                action,
                name,
                error,
            },
        }
    }
}

/// Memory ran out.
impl From<NoMemory> for FileFault<'_> {
    ghost use Rattle.std.specs.Prelude.{◌≡◌};
    ghost use Rattle.ldi_files.specs.declared.fault.FileFault.TheVariants.{Memory};

    ghost from_gives = { λ no_memory fault. fault ≡ Memory no_memory };

    fn from(no_memory: NoMemory) -> Self {
        FileFault::Memory(no_memory)
    }
}

impl fmt::Display for FileFault<'_> {
    fn fmt<W: fmt::Write>(&self, f: &mut fmt::Formatter<W>) -> fmt::Result {
        match self {
            FileFault::Memory(_) => f.write_str("out of memory"),
            FileFault::Failed {
                action,
                name,
                error,
            } => write!(f, "{name}: cannot be {action}: {error}"),
        }
    }
}

impl Error for FileFault<'_> {}
