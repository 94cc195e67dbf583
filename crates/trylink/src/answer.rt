//! Answers to commands, as a session writes them and as they are printed here.

use crate::printing::{AS_LINES, print_bytes};
use relink::{EditRefusal, LinkSummary};
use std::alloc::{AllocError, Global};

/// An answer.
#[derive(Clone, Copy)]
pub enum Answer<'a> {
    /// An edit was made.
    Linked(LinkSummary),
    /// An edit is refused.
    Refused(EditRefusal),
    /// The image.
    Image(&'a [u8]),
    /// The map, or the fault lines.
    Text(&'a [u8]),
    /// The bytes begin no command.
    Malformed,
}

/// A checksum of bytes in their order: the hash FNV-1a of 64 bits.
pub fn checksum(bytes: &[u8]) -> u64 {
    let mut sum = 0xcbf2_9ce4_8422_2325u64;
    for byte in bytes {
        sum = (sum ^ u64::from(*byte)).wrapping_mul(0x100_0000_01b3);
    }
    sum
}

impl<'a> Answer<'a> {
    /// The first line of the answer as `ldi session` writes it, without its line feed.
    fn line(self, alloc: Global) -> Result<String, AllocError> {
        match self {
            Answer::Linked(linked) => {
                format!(in alloc; "linked {} {}", linked.status, linked.length)
            }
            Answer::Refused(refusal) => {
                let (number, inner) = (refusal.number(), refusal.inner_number());
                format!(in alloc; "refused {number} {inner}")
            }
            Answer::Image(bytes) | Answer::Text(bytes) => {
                format!(in alloc; "bytes {}", bytes.len())
            }
            Answer::Malformed => String::from_str(alloc, "stream"),
        }
    }

    /// What follows that line.
    fn content(self) -> &'a [u8] {
        match self {
            Answer::Image(bytes) | Answer::Text(bytes) => bytes,
            _ => &[],
        }
    }

    /// Prints the answer: of an image its length and checksum.
    pub fn print(self, alloc: Global, out: &mut String) -> Result<(), AllocError> {
        out.push_str(self.line(alloc)?.as_str())?;
        if let Answer::Image(bytes) = self {
            return writeln!(out, " sum {:016x}", checksum(bytes));
        }
        out.push('\n')?;
        print_bytes(out, self.content(), AS_LINES)
    }

    /// Writes the answer as `ldi session` does.
    pub fn spell(self, alloc: Global, answers: &mut Vec<u8>) -> Result<(), AllocError> {
        answers.extend_from_slice(self.line(alloc)?.as_bytes())?;
        answers.push(b'\n')?;
        answers.extend_from_slice(self.content())
    }
}
