//! Bytes and commands, as they are printed, and lines, as they are read.

use std::alloc::AllocError;

/// How many bytes of a command's line are shown.
const LONGEST_LINE: usize = 100;
/// Of what length a script is shown at most.
const LONGEST_SCRIPT: usize = 2000;

/// A line feed, if bytes are shown in one line.
pub const IN_LINE: &str = "<0a>";
/// A line feed, if lines are shown as lines.
pub const AS_LINES: &str = "\n";
/// A line feed, if each line is shown after a bar.
const AFTER_BARS: &str = "\n| ";

/// The first line of these bytes, and what follows its line feed; `None` if they have none.
pub fn split_line(bytes: &[u8]) -> Option<(&[u8], &[u8])> {
    let end = bytes.iter().position(|b| *b == b'\n')?;
    Some((&bytes[..end], &bytes[end + 1..]))
}

/// Prints printable ASCII as it is, a line feed as `feed`, and any other byte as `<XX>`.
pub fn print_bytes(out: &mut String, bytes: &[u8], feed: &str) -> Result<(), AllocError> {
    for byte in bytes {
        match *byte {
            b' '..=b'~' => out.push(char::from(*byte))?,
            b'\n' => out.push_str(feed)?,
            other => write!(out, "<{other:02x}>")?,
        }
    }
    Ok(())
}

/// Prints a command: its line after `> `, of which at most 100 bytes are shown, and under it the text of a script of at
/// most 2,000 bytes. What is left of a stream that no command begins is shown in the same way.
pub fn print_command(out: &mut String, bytes: &[u8]) -> Result<(), AllocError> {
    let (line, text) = split_line(bytes).unwrap_or((bytes, &[]));
    out.push_str("> ")?;
    print_bytes(out, &line[..line.len().min(LONGEST_LINE)], IN_LINE)?;
    out.push_str(if line.len() > LONGEST_LINE {
        "..\n"
    } else {
        "\n"
    })?;
    if line.starts_with(b"script ") && !text.is_empty() && text.len() <= LONGEST_SCRIPT {
        out.push_str("| ")?;
        print_bytes(out, text, AFTER_BARS)?;
        out.push('\n')?;
    }
    Ok(())
}
