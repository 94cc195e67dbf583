//! The stream of objects that is read: each is a line `object LEN` or `object LEN TITLE`, perhaps with `variants` for
//! `object`, and LEN bytes right after it.

use std::str;

/// What is printed of an object.
#[derive(Clone, Copy)]
pub enum Kind {
    /// Its lines.
    Object,
    /// The reader's answers to its prefixes, and to it with a byte set to another value.
    Variants,
}

/// An object of the stream.
#[derive(Clone, Copy)]
pub struct Frame<'a> {
    /// What is printed of it.
    pub kind: Kind,
    /// Its title, perhaps empty.
    pub title: &'a [u8],
    /// Its bytes.
    pub bytes: &'a [u8],
}

/// A line, split at its first space.
fn split_at_space(line: &[u8]) -> (&[u8], &[u8]) {
    match line.iter().position(|b| *b == b' ') {
        Some(at) => (&line[..at], &line[at + 1..]),
        None => (line, &[]),
    }
}

/// What a word asks to be printed.
fn kind_of(word: &[u8]) -> Option<Kind> {
    if word == b"object".as_slice() {
        Some(Kind::Object)
    } else if word == b"variants".as_slice() {
        Some(Kind::Variants)
    } else {
        None
    }
}

/// The number that decimal digits spell.
fn number(digits: &[u8]) -> Option<usize> {
    str::from_utf8(digits).ok()?.parse().ok()
}

/// The first object of a stream, and the rest of the stream; `None` if it begins with no object.
pub fn split_frame(stream: &[u8]) -> Option<(Frame<'_>, &[u8])> {
    let end = stream.iter().position(|b| *b == b'\n')?;
    let (word, words) = split_at_space(&stream[..end]);
    let rest = &stream[end + 1..];
    let (digits, title) = split_at_space(words);
    let kind = kind_of(word)?;
    let (bytes, rest) = rest.split_at_checked(number(digits)?)?;
    Some((Frame { kind, title, bytes }, rest))
}
