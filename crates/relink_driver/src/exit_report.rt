//! How a link of files ends: the exit status, and the text on standard error.

ghost use Rattle.std.specs.Prelude.{◌≡◌, ◌++◌, IfOk, codes, map, string_bytes};
ghost use Rattle.ldmodel.specs.Answers.{refused_line};
ghost use Rattle.ldmodel.specs.EditMeaning.{refusal_of};
ghost use Rattle.ldmodel.specs.LinkCommand.{link_status};
ghost use Rattle.relink_driver.specs.Answer.{answer_of};
ghost use Rattle.relink_driver.specs.Message.{IsMessage, word_at};

use crate::fault::LinkFault;
use crate::output::Output;
use growth::{NoMemory, vec};
use itoa::Buffer;
use ldmodel::edit::EditRefusal;
use std::alloc::Global;

/// The status of the program: 0 after a good link, 1 after one with faults, 2 if an edit is refused, 4 if memory ran
/// out.
pub fn exit_status(outcome: &Result<Output, LinkFault>) -> u8
    ensures { result ≡ link_status (answer_of outcome.now) }
{
    match outcome {
        Ok(output) => output.status(),
        Err(LinkFault::Refused { .. }) => 2,
        Err(LinkFault::Memory(_)) => 4,
    }
}

/// The word of the file at a place among the edits of a link: `script`, or the word of an object.
fn word_at(words: &[String], input: usize) -> &[u8]
    ensures { result.now ≡ word_at (map string_bytes words.now) input }
{
    if input == 0 {
        return b"script";
    }
    match words.get(input - 1) {
        Some(word) => word.as_bytes(),
        None => &[],
    }
}

/// The line for a refused edit of a file.
#[tactic(auto, unfolding(ldmodel::specs::Answers::answer_line))]
fn refused_message(alloc: Global, word: &[u8], why: EditRefusal) -> Result<Vec<u8>, NoMemory>
    ensures { IfOk result (λ text. text.items ≡ word.now ++ codes ": " ++ refused_line (refusal_of why)) }
{
    let mut number = Buffer::new();
    let mut inner = Buffer::new();
    let mut text = vec::from_slice(alloc, word)?;
    vec::extend_from_slice(&mut text, b": refused ")?;
    vec::extend_from_slice(&mut text, number.format(why.number()).as_bytes())?;
    vec::extend_from_slice(&mut text, b" ")?;
    vec::extend_from_slice(&mut text, inner.format(why.inner_number()).as_bytes())?;
    vec::extend_from_slice(&mut text, b"\n")?;
    Ok(text)
}

/// The text on standard error after a link of objects with these words: the fault lines of the link, a line for the
/// refused edit, or `memory`.
///
/// # Errors
///
/// If there is no memory for the text.
pub fn message(
    alloc: Global,
    words: &[String],
    outcome: &Result<Output, LinkFault>,
) -> Result<Vec<u8>, NoMemory>
    ensures { IfOk result (λ text. IsMessage (map string_bytes words.now) (answer_of outcome.now) text.items) }
{
    match outcome {
        Ok(output) => vec::from_slice(alloc, output.faults()),
        Err(LinkFault::Refused { input, why }) => {
            refused_message(alloc, word_at(words, *input), *why)
        }
        Err(LinkFault::Memory(_)) => vec::from_slice(alloc, b"memory\n"),
    }
}
