//! The line of a command, split into words.

ghost use Rattle.std.specs.Prelude.{◌≡◌, ◌<◌, ◌≤◌, ◌^◌, ◌↔◌, ◌∷◌, ◌++◌, ℕ, List, codes, decimal};
ghost use Rattle.std.specs.Prelude.{IfSome, IfNone, IsTrue};
ghost use Rattle.ldmodel.specs.Commands as commands;
ghost use Rattle.ldmodel.specs.Commands.{HasNo, IsWord, query_line};
ghost use Rattle.ldi_stream.specs.Heads.{IsNoEdit, IsRead, Says, SaysNothing, SplitsWord, numbers, query_of};

use crate::line::MAX_LINE;
use bstr::ByteSlice;
use itoa::Buffer;
use ldmodel::edit::MAX_PAYLOAD;

/// The edit that a payload is for.
#[derive(Clone, Copy, Debug)]
pub enum PayloadTarget<'a> {
    /// A new object.
    Add {
        /// The name of the object.
        name: &'a [u8],
        /// The position before which it is inserted.
        at: u64,
    },
    /// A new object in place of one.
    Replace {
        /// The name of both.
        name: &'a [u8],
    },
    /// The script.
    Script,
}

/// The line of an edit.
#[derive(Clone, Copy, Debug)]
pub enum EditHead<'a> {
    /// `add`, `replace` or `script`, with a payload.
    WithPayload {
        /// The edit that it is for.
        target: PayloadTarget<'a>,
        /// Its length in bytes.
        count: usize,
    },
    /// `move`: an object moves to another place.
    Move {
        /// The name of the object.
        name: &'a [u8],
        /// The position among the other objects before which it is inserted.
        to: u64,
    },
    /// `remove`: an object is removed.
    Remove {
        /// The name of the object.
        name: &'a [u8],
    },
}

/// A query.
#[derive(Clone, Copy, Debug, PartialEq, Eq)]
pub enum Query {
    /// `image`: the image.
    Image,
    /// `map`: the map.
    Map,
    /// `faults`: the fault lines.
    Faults,
}

/// The line of a command.
#[derive(Clone, Copy, Debug)]
pub enum CommandHead<'a> {
    /// An edit.
    Edit(EditHead<'a>),
    /// A query.
    Ask(Query),
}

/// The bytes before the first space, and those after it.
fn split_word(bytes: &[u8]) -> Option<(&[u8], &[u8])>
    ensures { SplitsWord bytes.now result }
{
    match bytes.find_byte(b' ') {
        None => None,
        Some(at) => Some((&bytes[..at], &bytes[at + 1..])),
    }
}

/// The number below 2^64 that a word spells in decimal, without leading zeros.
fn read_number(word: &[u8]) -> Option<u64>
    ensures found { IfSome result (λ n. (n < 2 ^ 64) × (word.now ≡ decimal n)) }
    ensures none { IfNone result ((n : ℕ) → n < 2 ^ 64 → word.now ≡ decimal n → ⊥) }
{
    match str::from_utf8(word) {
        Err(_) => None,
        Ok(text) => match text.parse::<u64>() {
            Err(_) => None,
            Ok(n) => {
                let mut buffer = Buffer::new();
                if buffer.format(n) == text {
                    Some(n)
                } else {
                    None
                }
            }
        },
    }
}

/// The length of a payload that a word spells: at most `MAX_PAYLOAD`.
fn read_count(word: &[u8]) -> Option<usize>
    ensures found { IfSome result (λ n. (n ≤ 2 ^ 26) × (word.now ≡ decimal n)) }
    ensures none { IfNone result ((n : ℕ) → n ≤ 2 ^ 26 → word.now ≡ decimal n → ⊥) }
{
    let n = read_number(word)?;
    if n <= MAX_PAYLOAD as u64 {
        Some(n as usize)
    } else {
        None
    }
}

/// Whether a byte is none of these.
fn has_no(byte: u8, bytes: &[u8]) -> bool
    ensures { IsTrue result ↔ HasNo byte bytes.now }
{
    match bytes.find_byte(byte) {
        None => true,
        Some(_) => false,
    }
}

/// Whether a word may be an object's name: it is not empty, and has no space and no line feed.
fn is_word(word: &[u8]) -> bool
    ensures { IsTrue result ↔ IsWord word.now }
{
    !word.is_empty() && has_no(b' ', word) && has_no(b'\n', word)
}

/// A name, and what follows the space after it.
fn read_name(words: &[u8]) -> Option<(&[u8], &[u8])>
    ensures found { IfSome result (λ p. IsWord p.0.now × (words.now ≡ p.0.now ++ 32 ∷ p.1.now)) }
    ensures none { IfNone result ((name rest : List ℕ) → IsWord name → words.now ≡ name ++ 32 ∷ rest → ⊥) }
{
    let (name, rest) = split_word(words)?;
    if is_word(name) {
        Some((name, rest))
    } else {
        None
    }
}

/// A position and the length of a payload.
fn read_numbers(words: &[u8]) -> Option<(u64, usize)>
    ensures found { IfSome result (λ p. (p.0 < 2 ^ 64) × (p.1 ≤ 2 ^ 26) × (words.now ≡ numbers p.0 p.1)) }
    ensures none { IfNone result ((at count : ℕ) → at < 2 ^ 64 → count ≤ 2 ^ 26 → words.now ≡ numbers at count → ⊥) }
{
    let (place, length) = split_word(words)?;
    let at = read_number(place)?;
    let count = read_count(length)?;
    Some((at, count))
}

/// What follows `add `: a name, a position and a length.
fn read_add(words: &[u8]) -> Option<EditHead<'_>>
    ensures found { IfSome result (λ h. IsRead (codes "add") words.now h) }
    ensures none { IfNone result (IsNoEdit (codes "add") words.now) }
{
    let (name, rest) = read_name(words)?;
    let (at, count) = read_numbers(rest)?;
    let target = PayloadTarget::Add { name, at };
    Some(EditHead::WithPayload { target, count })
}

/// What follows `replace `: a name and a length.
fn read_replace(words: &[u8]) -> Option<EditHead<'_>>
    ensures found { IfSome result (λ h. IsRead (codes "replace") words.now h) }
    ensures none { IfNone result (IsNoEdit (codes "replace") words.now) }
{
    let (name, rest) = read_name(words)?;
    let count = read_count(rest)?;
    let target = PayloadTarget::Replace { name };
    Some(EditHead::WithPayload { target, count })
}

/// What follows `move `: a name and a position.
fn read_move(words: &[u8]) -> Option<EditHead<'_>>
    ensures found { IfSome result (λ h. IsRead (codes "move") words.now h) }
    ensures none { IfNone result (IsNoEdit (codes "move") words.now) }
{
    let (name, rest) = read_name(words)?;
    let to = read_number(rest)?;
    Some(EditHead::Move { name, to })
}

/// What follows `remove `: a name.
fn read_remove(words: &[u8]) -> Option<EditHead<'_>>
    ensures found { IfSome result (λ h. IsRead (codes "remove") words.now h) }
    ensures none { IfNone result (IsNoEdit (codes "remove") words.now) }
{
    if is_word(words) {
        Some(EditHead::Remove { name: words })
    } else {
        None
    }
}

/// What follows `script `: a length.
fn read_script(words: &[u8]) -> Option<EditHead<'_>>
    ensures found { IfSome result (λ h. IsRead (codes "script") words.now h) }
    ensures none { IfNone result (IsNoEdit (codes "script") words.now) }
{
    let count = read_count(words)?;
    let target = PayloadTarget::Script;
    Some(EditHead::WithPayload { target, count })
}

/// The line of an edit, by its first word and the words after it.
fn read_edit<'a>(first: &[u8], words: &'a [u8]) -> Option<EditHead<'a>>
    ensures found { IfSome result (λ h. IsRead first.now words.now h) }
    ensures none { IfNone result (IsNoEdit first.now words.now) }
{
    if first == b"add".as_slice() {
        read_add(words)
    } else if first == b"replace".as_slice() {
        read_replace(words)
    } else if first == b"move".as_slice() {
        read_move(words)
    } else if first == b"remove".as_slice() {
        read_remove(words)
    } else if first == b"script".as_slice() {
        read_script(words)
    } else {
        None
    }
}

/// The query of a line of one word.
fn read_query(word: &[u8]) -> Option<Query>
    ensures found { IfSome result (λ q. query_line (query_of q) ≡ word.now) }
    ensures none { IfNone result ((q : commands.Query) → query_line q ≡ word.now → ⊥) }
{
    if word == b"image".as_slice() {
        Some(Query::Image)
    } else if word == b"map".as_slice() {
        Some(Query::Map)
    } else if word == b"faults".as_slice() {
        Some(Query::Faults)
    } else {
        None
    }
}

/// Parses a command's line, without its line feed; `None` if it is no command's.
pub fn read_head(line: &[u8]) -> Option<CommandHead<'_>>
    ensures found { IfSome result (λ head. Says line.now head) }
    ensures none { IfNone result (SaysNothing line.now) }
{
    if line.len() > MAX_LINE {
        return None;
    }
    match split_word(line) {
        None => {
            let query = read_query(line)?;
            Some(CommandHead::Ask(query))
        }
        Some((first, words)) => {
            let edit = read_edit(first, words)?;
            Some(CommandHead::Edit(edit))
        }
    }
}
