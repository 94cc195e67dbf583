//! The calls of `clap`.

ghost use Rattle.std.specs.Prelude.{◌≡◌, ◌↔◌, IsSome, IfOk};
ghost use Rattle.clap.specs.Words.{kind_of};
ghost use Rattle.clap.specs.Built.{AddsArg, AddsSubcommand};
ghost use Rattle.clap.specs.declared.error.kind.ErrorKind.TheVariants.{OutOfMemory};

use crate::no_memory::NoMemory;
use clap::error::ErrorKind;
use clap::{Arg, Command, Error};

/// The refused memory that an error of `clap` tells, if it tells that.
pub fn of_words(error: &Error) -> Option<NoMemory>
    ensures { IsSome result ↔ kind_of error.now ≡ OutOfMemory }
{
    if error.kind() == ErrorKind::OutOfMemory {
        Some(NoMemory::refused())
    } else {
        None
    }
}

/// Adds an argument to a command.
pub fn arg<'a>(command: Command<'a>, arg: Arg<'a>) -> Result<Command<'a>, NoMemory>
    ensures { IfOk result (λ r. AddsArg command.entry arg.entry r) }
{
    match command.arg(arg) {
        Ok(command) => Ok(command),
        Err(_) => Err(NoMemory::refused()),
    }
}

/// Adds a subcommand to a command.
pub fn subcommand<'a>(
    command: Command<'a>,
    subcommand: Command<'a>,
) -> Result<Command<'a>, NoMemory>
    ensures { IfOk result (λ r. AddsSubcommand command.entry subcommand.entry r) }
{
    match command.subcommand(subcommand) {
        Ok(command) => Ok(command),
        Err(_) => Err(NoMemory::refused()),
    }
}
