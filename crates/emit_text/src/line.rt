//! Lines of words: one space between each two, and a line feed at the end.

ghost use Rattle.std.specs.Prelude.{◌≡◌, ◌++◌, OnOk, map};
ghost use Rattle.ldmodel.specs.Lines.{line_of};
ghost use Rattle.emit_text.specs.LineWords.{shown, spaced_words};

use crate::hex::hex_digits;
use growth::{NoMemory, vec};
use itoa::Buffer;

/// A word of a line.
#[derive(Clone, Copy, Debug)]
pub enum Word<'a> {
    /// These bytes.
    Bytes(&'a [u8]),
    /// A number in decimal.
    Decimal(u128),
    /// A number as 16 hex digits.
    Hex(u64),
}

/// Adds a word of a line.
fn put_word(text: &mut Vec<u8>, word: Word<'_>) -> Result<(), NoMemory>
    ensures { OnOk result (text.new.items ≡ text.old.items ++ shown word.entry) }
{
    match word {
        Word::Bytes(bytes) => vec::extend_from_slice(text, bytes),
        Word::Decimal(number) => {
            let mut buffer = Buffer::new();
            vec::extend_from_slice(text, buffer.format(number).as_bytes())
        }
        Word::Hex(number) => vec::extend_from_slice(text, &hex_digits(number)),
    }
}

/// Each word after a space.
fn put_others(text: &mut Vec<u8>, words: &[Word<'_>]) -> Result<(), NoMemory>
    ensures { OnOk result (text.new.items ≡ text.old.items ++ spaced_words words.now) }
{
    for word in words {
        vec::push(text, b' ')?;
        put_word(text, *word)?;
    }
    Ok(())
}

/// A line of these words.
#[tactic(auto, unfolding(ldmodel::specs::Lines::line_of))]
pub fn put_line(text: &mut Vec<u8>, words: &[Word<'_>]) -> Result<(), NoMemory>
    ensures { OnOk result (text.new.items ≡ text.old.items ++ line_of (map shown words.now)) }
{
    let Some((first, others)) = words.split_first() else {
        vec::push(text, b'\n')?;
        return Ok(());
    };
    put_word(text, *first)?;
    put_others(text, others)?;
    vec::push(text, b'\n')?;
    Ok(())
}
