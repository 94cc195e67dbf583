//! The error for memory that was refused.

use std::alloc::AllocError;
use std::io;

/// The allocator refused memory. Only this crate makes one: after a call of std or of a ported crate failed, or by
/// `impossible`.
#[derive(Clone, Copy, Debug, PartialEq, Eq)]
pub struct NoMemory {
    refused: (),
}

/// For functions whose errors are those of devices.
impl From<NoMemory> for io::Error {
    ghost use Rattle.std.specs.Prelude.{◌≡◌};
    ghost use Rattle.std.specs.IoError.{error_kind};
    ghost use Rattle.std.specs.declared.io.ErrorKind.TheVariants.{OutOfMemory};

    ghost from_gives = { λ _ error. error_kind error ≡ OutOfMemory };

    fn from(_refused: NoMemory) -> io::Error {
        io::Error::from(io::ErrorKind::OutOfMemory)
    }
}

/// For tests, which call std as well.
impl From<NoMemory> for AllocError {
    fn from(_refused: NoMemory) -> AllocError {
        AllocError
    }
}

impl NoMemory {
    /// The error after a call of std was refused memory.
    pub(crate) fn refused() -> NoMemory {
        NoMemory { refused: () }
    }
}

/// The error of a case that cannot occur, though no contract rules it out: a list shorter than the one that it was made
/// from, or a count that no file is long enough for. It is the error for refused memory, after which every caller rolls
/// back. The comment beside the call says why the case cannot occur.
pub fn impossible() -> NoMemory {
    NoMemory::refused()
}
