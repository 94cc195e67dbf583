//! Why a command line makes no call.

ghost use Rattle.std.specs.Prelude.{◌≡◌, ◌⊎◌};

use clap::error::ErrorKind;
use growth::{NoMemory, words};

/// The status after help or the version.
const SHOWN: u8 = 0;
/// The status after words that are refused.
const REFUSED: u8 = 2;
/// The status after a device failed.
const DEVICE: u8 = 3;
/// The status if memory runs out.
const NO_MEMORY: u8 = 4;

/// Why a command line makes no call.
#[derive(Debug, Drop)]
pub enum WordsFault {
    /// Out of memory.
    Memory(NoMemory),
    /// `clap` refused the words, or they ask for help or the version. The error's text is for the user.
    Refused(clap::Error),
}

impl From<NoMemory> for WordsFault {
    ghost use Rattle.std.specs.Prelude.{◌≡◌};
    ghost use Rattle.ldi_words.specs.declared.fault.WordsFault.TheVariants.{Memory};

    ghost from_gives = { λ no_memory fault. fault ≡ Memory no_memory };

    fn from(no_memory: NoMemory) -> WordsFault {
        WordsFault::Memory(no_memory)
    }
}

impl From<clap::Error> for WordsFault {
    ghost use Rattle.ldi_words.specs.Fault.{IsFaultOf};

    ghost from_gives = { IsFaultOf };

    fn from(error: clap::Error) -> WordsFault {
        match words::of_words(&error) {
            Some(no_memory) => WordsFault::Memory(no_memory),
            None => WordsFault::Refused(error),
        }
    }
}

impl WordsFault {
    ghost use Rattle.ldi_words.specs.Fault.{exit_status};

    /// The status that a program ends with after this fault: 4 out of memory, 0 after help or the version, else 2.
    pub fn exit_status(&self) -> u8
        ensures { result ≡ exit_status self.now }
    {
        match self {
            WordsFault::Memory(_) => NO_MEMORY,
            WordsFault::Refused(error) => match error.kind() {
                ErrorKind::DisplayHelp | ErrorKind::DisplayVersion => SHOWN,
                _ => REFUSED,
            },
        }
    }

    /// Prints the fault and gives the status that a program ends with. Help and the version go to standard output, the
    /// text of a refusal to standard error; out of memory, nothing is printed. The status is 3 if help or the version
    /// cannot be written, else `exit_status`.
    pub fn report<R: Print + Eprint>(&self, rt: &R) -> u8
        ensures { (result ≡ exit_status self.now) ⊎ ((exit_status self.now ≡ 0) × (result ≡ 3)) }
    {
        let status = self.exit_status();
        let WordsFault::Refused(error) = self else {
            return status;
        };
        match error.print(rt) {
            Err(_) if status == SHOWN => DEVICE,
            _ => status,
        }
    }
}
