//! The refused memory that errors of other kinds tell.

ghost use Rattle.std.specs.Prelude.{◌≡◌, ◌↔◌, IsSome};
ghost use Rattle.std.specs.declared.io.ErrorKind.TheVariants.{OutOfMemory};
ghost use Rattle.std.specs.IoError.{error_kind};

use crate::no_memory::NoMemory;
use std::io;
use std::io::ErrorKind;

/// The refused memory that an error of a device tells, if it tells that.
pub fn of_device(error: io::Error) -> Option<NoMemory>
    ensures { IsSome result ↔ error_kind error ≡ OutOfMemory }
{
    if error.kind() == ErrorKind::OutOfMemory {
        Some(NoMemory::refused())
    } else {
        None
    }
}
