//! The first part of a pattern's word.

ghost use Rattle.std.specs.Prelude.{◌≡◌, ◌<◌, ◌≤◌, ◌+◌, length, Some, take_while};
ghost use Rattle.ldscript_terms.specs.Spelling.{is_set_byte};
ghost use Rattle.ldscript_terms.specs.Front.{front, escape_front, set_front, set_length, front_of, IsWithin};

use crate::bytes::{byte_at, is_graphic, is_plain, is_set_byte};
use crate::part::CodePart;

/// The first part of a word. Its offsets count from the front of the word.
#[derive(Clone, Copy, Debug, PartialEq, Eq)]
pub struct Spelled {
    /// The part.
    pub part: CodePart,
    /// The length of its spelling.
    pub count: usize,
}

/// A part, whose spelling has this length.
fn found(part: CodePart, count: usize) -> Option<Spelled>
    ensures { result ≡ Some (record { part = part; count = count }) }
{
    Some(Spelled { part, count })
}

/// The number of bytes of a set at the front.
fn set_run(bytes: &[u8]) -> usize
    ensures value { result ≡ length (take_while is_set_byte bytes.now) }
    ensures within { result ≤ length bytes.now }
{
    bytes.iter().take_while(|b| is_set_byte(**b)).count()
}

/// The byte after a `\`.
#[tactic(auto, unfolding(crate::specs::Front::escape_front))]
fn escape_front(word: &[u8]) -> Option<Spelled>
    requires { 0 < length word.now }
    ensures value { front_of word.now result ≡ escape_front word.now }
    ensures within { IsWithin (length word.now) result }
{
    let b = byte_at(word, 1);
    if is_graphic(b) {
        found(CodePart::Byte(b), 2)
    } else {
        None
    }
}

/// The set after a `[`.
#[tactic(auto, unfolding(crate::specs::Front::set_front))]
fn set_front(word: &[u8]) -> Option<Spelled>
    requires { 0 < length word.now }
    ensures value { front_of word.now result ≡ set_front word.now }
    ensures within { IsWithin (length word.now) result }
{
    let length = set_run(&word[1..]);
    if length > 0 && byte_at(word, 1 + length) == b']' {
        found(CodePart::OneOf(1, 1 + length), 2 + length)
    } else {
        None
    }
}

/// The part at the front of a word, if there is one.
#[tactic(auto, unfolding(crate::specs::Front::front))]
pub fn front(word: &[u8]) -> Option<Spelled>
    requires { 0 < length word.now }
    ensures value { front_of word.now result ≡ front word.now }
    ensures within { IsWithin (length word.now) result }
{
    match word[0] {
        b'*' => found(CodePart::AnyRun, 1),
        b'?' => found(CodePart::AnyByte, 1),
        b'\\' => escape_front(word),
        b'[' => set_front(word),
        b if is_plain(b) => found(CodePart::Byte(b), 1),
        _ => None,
    }
}
