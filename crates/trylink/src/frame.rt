//! Frames: bytes with a name, what is asked of them, and the words of a command line.

use crate::printing::split_line;
use ldi_words::call::Call;
use ldi_words::fault::WordsFault;
use ldi_words::words;
use relink::Options;
use std::alloc::{AllocError, Global};
use std::str;

/// What is asked of the bytes of a frame.
#[derive(Clone, Copy)]
pub enum Kind {
    /// Each answer to a stream of commands.
    Answers,
    /// A checksum of all answers.
    Sum,
    /// What each edit counts in a session.
    Counts,
    /// The answers if a call of a device fails; a read gives one byte, a write takes some.
    Devices,
    /// The same of devices that take a byte a call, a few, and all.
    Steps,
    /// What `ldi link` makes of files.
    Files,
    /// What the calls of single crates make of a script and an object.
    Surface,
}

/// Bytes, and what is asked of them.
#[derive(Clone, Copy)]
pub struct Frame<'a> {
    /// What is asked.
    pub kind: Kind,
    /// What the frame's line begins with: the word for that, and the name.
    pub title: (&'a str, &'a str),
    /// The words after `ldi session`, one space between each two; `None` if there is none.
    pub words: Option<&'a str>,
    /// The bytes, without those that `repeats` adds.
    stored: &'a [u8],
    /// How often the last byte is repeated.
    repeats: usize,
}

/// The words that a frame's line begins with, and what they ask.
const KINDS: [(&str, Kind); 7] = [
    ("stream", Kind::Answers),
    ("list", Kind::Sum),
    ("counts", Kind::Counts),
    ("devices", Kind::Devices),
    ("steps", Kind::Steps),
    ("files", Kind::Files),
    ("surface", Kind::Surface),
];

/// What the first word of a frame's line asks.
fn kind_of(word: &str) -> Option<Kind> {
    for (name, kind) in KINDS {
        if name == word {
            return Some(kind);
        }
    }
    None
}

/// The number of bytes, and how often the last of them is repeated.
fn read_length(word: &str) -> Option<(usize, usize)> {
    match word.split_once('+') {
        Some((length, repeats)) => Some((length.parse().ok()?, repeats.parse().ok()?)),
        None => Some((word.parse().ok()?, 0)),
    }
}

/// The first frame of these bytes, and the bytes after it; `None` if they begin with none.
pub fn split_frame(input: &[u8]) -> Option<(Frame<'_>, &[u8])> {
    let (line, rest) = split_line(input)?;
    let (word, line) = str::from_utf8(line).ok()?.split_once(' ')?;
    let (name, line) = line.split_once(' ')?;
    let (length, words) = match line.split_once(' ') {
        Some((length, words)) => (length, Some(words)),
        None => (line, None),
    };
    let (length, repeats) = read_length(length)?;
    let (stored, rest) = rest.split_at_checked(length)?;
    let frame = Frame {
        kind: kind_of(word)?,
        title: (word, name),
        words,
        stored,
        repeats,
    };
    Some((frame, rest))
}

impl Frame<'_> {
    /// The bytes.
    pub fn bytes(&self, alloc: Global) -> Result<Vec<u8>, AllocError> {
        let mut bytes = Vec::from_slice(alloc, self.stored)?;
        if let Some(last) = self.stored.last() {
            bytes.resize(bytes.len().saturating_add(self.repeats), *last)?;
        }
        Ok(bytes)
    }

    /// All words of the command line.
    fn command_line(&self, alloc: Global) -> Result<Vec<String>, AllocError> {
        let line = match self.words {
            Some(words) => format!(in alloc; "ldi session {words}")?,
            None => String::from_str(alloc, "ldi session")?,
        };
        let mut args = Vec::new(alloc);
        for word in line.as_str().split(' ') {
            args.push(String::from_str(alloc, word)?)?;
        }
        Ok(args)
    }

    /// The options that the words ask for; `None` if these are refused.
    pub fn options(&self, alloc: Global) -> Result<Option<Options>, AllocError> {
        let args = self.command_line(alloc)?;
        match words(alloc, &args) {
            Ok(Call::Session(options)) => Ok(Some(options)),
            Err(WordsFault::Memory(_)) => Err(AllocError),
            _ => Ok(None),
        }
    }
}
