//! Why a file that a command line names is not shown.

ghost use Rattle.std.specs.Prelude.{◌≡◌};

use growth::{NoMemory, string, told};
use std::alloc::Global;
use std::io;

/// The status after words that are refused.
const REFUSED: u8 = 2;
/// The status after a device failed.
const DEVICE: u8 = 3;
/// The status if memory runs out.
const NO_MEMORY: u8 = 4;

/// Why a file that a command line names is not shown.
#[derive(Debug, Drop)]
pub enum ArgumentFault {
    /// There is more than one word after the program's name, or one that is not UTF-8.
    Words,
    /// The file of this name cannot be read.
    Unread(String, io::Error),
    /// Standard output cannot be written.
    Unwritten(io::Error),
    /// Out of memory.
    Memory(NoMemory),
}

/// A fault of standard output, or out of memory.
impl From<io::Error> for ArgumentFault {
    ghost use Rattle.ldi_files.specs.ArgumentFault.{IsOutputFault};

    ghost from_gives = { IsOutputFault };

    fn from(error: io::Error) -> ArgumentFault {
        match told::of_device(error) {
            Some(no_memory) => ArgumentFault::Memory(no_memory),
            None => ArgumentFault::Unwritten(error),
        }
    }
}

/// Memory ran out.
impl From<NoMemory> for ArgumentFault {
    ghost use Rattle.ldi_files.specs.declared.argument_fault.ArgumentFault.TheVariants.{Memory};

    ghost from_gives = { λ no_memory fault. fault ≡ Memory no_memory };

    fn from(no_memory: NoMemory) -> ArgumentFault {
        ArgumentFault::Memory(no_memory)
    }
}

impl ArgumentFault {
    ghost use Rattle.ldi_files.specs.ArgumentFault.{IsFaultOfFile, exit_status};

    /// The fault of a file that cannot be read, or out of memory.
    pub fn of_file(alloc: Global, name: &str, error: io::Error) -> ArgumentFault
        ensures { IsFaultOfFile name.now error result }
    {
        if let Some(no_memory) = told::of_device(error) {
            return ArgumentFault::Memory(no_memory);
        }
        match string::from_str(alloc, name) {
            Ok(name) => ArgumentFault::Unread(name, error),
            Err(no_memory) => ArgumentFault::Memory(no_memory),
        }
    }

    /// The status that a program ends with after this fault.
    pub fn exit_status(&self) -> u8
        ensures { result ≡ exit_status self.now }
    {
        match self {
            ArgumentFault::Words => REFUSED,
            ArgumentFault::Unread(_, _) | ArgumentFault::Unwritten(_) => DEVICE,
            ArgumentFault::Memory(_) => NO_MEMORY,
        }
    }

    /// Reports the fault on standard error, and gives the status that a program ends with. If the words are refused,
    /// `usage` is what is reported.
    pub fn report(&self, rt: &impl Eprint, usage: &str) -> u8
        ensures { result ≡ exit_status self.now }
    {
        // if standard error cannot be written either, the status alone says it
        let _ = match self {
            ArgumentFault::Words => eprintln!(rt; "{usage}"),
            ArgumentFault::Unread(name, error) => eprintln!(rt; "{name}: cannot be read: {error}"),
            ArgumentFault::Unwritten(error) => eprintln!(rt;
                "standard output cannot be written: {error}"
            ),
            ArgumentFault::Memory(_) => eprintln!(rt; "memory"),
        };
        self.exit_status()
    }
}
