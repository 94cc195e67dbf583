//! The reader's answers to all prefixes of an object, and to the object with one byte set to another value.

use elfobj::{Meter, Object, ObjectRefusal};
use std::alloc::{AllocError, Global};
use std::io;
use std::io::Write;

/// The values that a byte is set to.
const VALUES: [u8; 3] = [0x00, 0x7f, 0xff];

/// The reader's answer to some bytes.
#[derive(Clone, Copy, PartialEq, Eq)]
enum Answer {
    /// They are an object.
    Object,
    /// They are refused, and came back unchanged.
    Refused(ObjectRefusal),
    /// They are refused, and others came back.
    Lost,
}

/// The reader's answer to these bytes.
fn answer_to(alloc: Global, bytes: &[u8]) -> Result<Answer, AllocError> {
    let given = Vec::from_slice(alloc, bytes)?;
    let mut meter = Meter::new();
    match Object::read(alloc, given, &mut meter) {
        Ok(_) => Ok(Answer::Object),
        Err((_, ObjectRefusal::NoMemory(_))) => Err(AllocError),
        Err((back, refusal)) => Ok(if back.as_slice() == bytes {
            Answer::Refused(refusal)
        } else {
            Answer::Lost
        }),
    }
}

/// The answers to all prefixes, the shortest first.
fn answers_to_beginnings(alloc: Global, bytes: &[u8]) -> Result<Vec<Answer>, AllocError> {
    let mut answers = Vec::new(alloc);
    for length in 0..=bytes.len() {
        answers.push(answer_to(alloc, &bytes[..length])?)?;
    }
    Ok(answers)
}

/// The answers with one byte set to a value, the first byte first.
fn answers_to_changes(alloc: Global, bytes: &[u8], value: u8) -> Result<Vec<Answer>, AllocError> {
    let mut answers = Vec::new(alloc);
    for at in 0..bytes.len() {
        let mut changed = Vec::from_slice(alloc, bytes)?;
        changed[at] = value;
        answers.push(answer_to(alloc, &changed)?)?;
    }
    Ok(answers)
}

/// Prints the answers by their numbers from 0 on, equal ones one after another in one line.
fn print_runs<W: Write>(out: &mut W, answers: &[Answer]) -> io::Result<()> {
    let mut from = 0;
    for (at, answer) in answers.iter().enumerate() {
        let next = at.saturating_add(1);
        if answers.get(next) == Some(answer) {
            continue;
        }
        write!(out, "  {from}..{at}: ")?;
        match answer {
            Answer::Object => writeln!(out, "object")?,
            Answer::Refused(refusal) => writeln!(out, "refused {}", refusal.number())?,
            Answer::Lost => writeln!(out, "lost")?,
        }
        from = next;
    }
    Ok(())
}

/// Prints the reader's answers to all prefixes of an object, and to it with a byte set to each of the values.
pub fn print_variants<W: Write>(alloc: Global, out: &mut W, bytes: &[u8]) -> io::Result<()> {
    writeln!(out, "beginnings")?;
    print_runs(out, &answers_to_beginnings(alloc, bytes)?)?;
    for value in VALUES {
        writeln!(out, "each byte {value:02x}")?;
        print_runs(out, &answers_to_changes(alloc, bytes, value)?)?;
    }
    Ok(())
}
