//! The command lines of `ldi`, read with `clap`. Takes words; gives a `Call`, or what is wrong with them.
//!
//! - the root has `words`; `call`, `fault`: its results; `values`: what clap's matches hold;
//! - `command`: the command in clap's words.
#![tactic(auto)]

ghost use Rattle.std.specs.Prelude.{MatchResult, map, string_bytes};
ghost use Rattle.ldi_words.specs.Call.{IsCallAt};
ghost use Rattle.ldi_words.specs.Command.{Choices, ListsOrphans, ldi};
ghost use Rattle.ldi_words.specs.Fault.{IsFaultAt};

pub mod call;
mod command;
pub mod fault;
mod values;

use crate::call::Call;
use crate::command::ldi_command;
use crate::fault::WordsFault;
use crate::values::call_of;
use std::alloc::Global;

/// The line for a user whose arguments are not all UTF-8, so that there are no words to read.
pub const USAGE: &str = "usage: ldi <session|link> [OPTIONS], all words in UTF-8";

/// The call that the words of a command line ask for. The first word is the name of the program.
///
/// The call is the subcommand and the values that `clap` finds in the words. Words that `clap` accepts fail only out of
/// memory. Other words are refused with one of the kinds of `clap`'s errors, to which help and the version belong.
pub fn words(alloc: Global, args: &[String]) -> Result<Call, WordsFault>
    // `choices` is the reference to the two handlings of orphans in the command, which a clause cannot name.
    ensures { (choices : Choices) × ListsOrphans choices
        × MatchResult result (IsCallAt (ldi choices) (map string_bytes args.now))
        (IsFaultAt (ldi choices) (map string_bytes args.now)) }
{
    let matches = ldi_command(alloc)?.try_get_matches_from(args)?;
    Ok(call_of(alloc, &matches)?)
}
