//! Bytes of a text, as they are printed.

use std::alloc::AllocError;
use std::fmt::Write;

/// The greatest length of a text that is printed.
const LONGEST_SHOWN: usize = 4096;

/// Whether a text is printed, and its tree.
pub fn is_shown(text: &[u8]) -> bool {
    text.len() <= LONGEST_SHOWN
}

/// Printable ASCII as it is, any other byte as `<XX>`.
pub fn push_bytes(out: &mut String, bytes: &[u8]) -> Result<(), AllocError> {
    for byte in bytes {
        if matches!(*byte, b' '..=b'~') {
            out.push(char::from(*byte))?;
        } else {
            write!(out, "<{:02x}>", *byte)?;
        }
    }
    Ok(())
}

/// A text with `| ` before each of its lines.
pub fn push_text(out: &mut String, text: &[u8]) -> Result<(), AllocError> {
    let body = text.strip_suffix(b"\n").unwrap_or(text);
    for line in body.split(|b| *b == b'\n') {
        out.push_str("| ")?;
        push_bytes(out, line)?;
        out.push_str("\n")?;
    }
    Ok(())
}
