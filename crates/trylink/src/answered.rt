//! The answers to a whole stream, and whether the ways agree.

use crate::printing::{IN_LINE, print_bytes};
use std::alloc::AllocError;

/// The status after bytes that no command begins.
pub const MALFORMED: u8 = 2;
/// The number of bytes that are shown from the first difference on.
const SHOWN: usize = 64;

/// The answers to a stream, and the status of the run.
#[derive(Drop)]
pub struct Answered {
    /// All answers, as a session writes them.
    pub answers: Vec<u8>,
    /// The status.
    pub status: u8,
}

/// The length of the common prefix of two lists.
fn common_length(a: &[u8], b: &[u8]) -> usize {
    a.iter().zip(b).take_while(|(x, y)| x == y).count()
}

/// Prints the bytes from an index on, and the status.
fn print_from(label: &str, run: &Answered, at: usize, out: &mut String) -> Result<(), AllocError> {
    let (status, count) = (run.status, run.answers.len());
    write!(out, "  {label}: status {status}, {count} bytes\n    ")?;
    let end = run.answers.len().min(at.saturating_add(SHOWN));
    print_bytes(out, &run.answers[at.min(end)..end], IN_LINE)?;
    out.push('\n')
}

/// Whether two ways gave the same answers and one status.
fn are_same(a: &Answered, b: &Answered) -> bool {
    a.status == b.status && a.answers.as_slice() == b.answers.as_slice()
}

/// Prints where two ways differ.
fn print_difference(
    labels: [&str; 2],
    a: &Answered,
    b: &Answered,
    out: &mut String,
) -> Result<(), AllocError> {
    let at = common_length(&a.answers, &b.answers);
    writeln!(out, "DIFFERENT from byte {at} of the answers on")?;
    print_from(labels[0], a, at, out)?;
    print_from(labels[1], b, at, out)
}

/// Prints the status, and whether a session, the plain linker and the calls gave the same.
pub fn print_agreement(
    by_session: &Answered,
    by_plain: &Answered,
    by_calls: &Answered,
    out: &mut String,
) -> Result<(), AllocError> {
    writeln!(out, "status {}", by_session.status)?;
    if !are_same(by_session, by_calls) {
        return print_difference(["session", "calls"], by_session, by_calls, out);
    }
    if !are_same(by_session, by_plain) {
        return print_difference(["session", "plain"], by_session, by_plain, out);
    }
    out.push_str("same\n")
}
