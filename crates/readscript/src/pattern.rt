//! Patterns of names, and what they match.

use crate::text::push_bytes;
use ldscript::{Pattern, matches};
use std::alloc::{AllocError, Global};

/// Whether a byte of a pattern is itself without a `\`.
fn is_plain(byte: u8) -> bool {
    byte.is_ascii_alphanumeric() || matches!(byte, b'_' | b'.' | b'$' | b'/' | b'-')
}

/// A pattern: `*`, the one name that it matches, or `~`.
pub fn push_pattern(out: &mut String, pattern: &Pattern) -> Result<(), AllocError> {
    if pattern.is_any() {
        return out.push_str("*");
    }
    let Some(name) = pattern.exact_name() else {
        return out.push_str("~");
    };
    for byte in name {
        if !is_plain(*byte) {
            out.push_str("\\")?;
        }
        out.push(char::from(*byte))?;
    }
    Ok(())
}

/// Patterns with a space between them.
pub fn push_patterns(out: &mut String, patterns: &[Pattern]) -> Result<(), AllocError> {
    let mut separator = "";
    for pattern in patterns {
        out.push_str(separator)?;
        push_pattern(out, pattern)?;
        separator = " ";
    }
    Ok(())
}

/// Whether a name matches the pattern that a word spells.
fn verdict(alloc: Global, word: &[u8], name: &[u8]) -> Result<&'static str, AllocError> {
    match Pattern::read(alloc, word)? {
        None => Ok("no pattern"),
        Some(pattern) if matches(&pattern, name) => Ok("yes"),
        Some(_) => Ok("no"),
    }
}

/// The answer to a `match`.
pub fn push_match(
    alloc: Global,
    out: &mut String,
    word: &[u8],
    name: &[u8],
) -> Result<(), AllocError> {
    out.push_str("match \"")?;
    push_bytes(out, word)?;
    out.push_str("\" \"")?;
    push_bytes(out, name)?;
    out.push_str("\": ")?;
    out.push_str(verdict(alloc, word, name)?)?;
    out.push_str("\n")
}
