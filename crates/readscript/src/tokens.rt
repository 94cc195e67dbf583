//! Tokens of a text.

use crate::text::{is_shown, push_bytes, push_text};
use ldscript::tokens::cursor::Cursor;
use ldscript::tokens::lexer::tokens;
use ldscript::tokens::token::TokenKind;
use std::alloc::{AllocError, Global};
use std::fmt::Write;

/// The greatest number of tokens that are printed.
const MOST_SHOWN: usize = 40;

/// The word for a kind of tokens.
fn kind_word(kind: TokenKind) -> &'static str {
    match kind {
        TokenKind::Name => "name",
        TokenKind::Number => "number",
        TokenKind::Text => "text",
        TokenKind::Discard => "discard",
        TokenKind::Word => "word",
        TokenKind::Punctuation(_) => "mark",
    }
}

/// Prints the tokens; those of one line of the script are on one line.
fn push_list(out: &mut String, cursor: Cursor<'_>) -> Result<(), AllocError> {
    let count = cursor.len();
    let mut rest = cursor;
    let mut last = 0;
    for _ in 0..count {
        let Some((kind, bytes, line, more)) = rest.next() else {
            break;
        };
        if line == last {
            out.push_str(", ")?;
        } else if last == 0 {
            write!(out, "{line} ")?;
        } else {
            write!(out, "\n{line} ")?;
        }
        out.push_str(kind_word(kind))?;
        out.push_str(" ")?;
        push_bytes(out, bytes)?;
        last = line;
        rest = more;
    }
    if last != 0 {
        out.push_str("\n")
    } else {
        Ok(())
    }
}

/// The answer to a `tokens`.
pub fn push_tokens(alloc: Global, out: &mut String, text: &[u8]) -> Result<(), AllocError> {
    let length = text.len();
    writeln!(out, "\ntokens {length}")?;
    if is_shown(text) {
        push_text(out, text)?;
    }
    match tokens(alloc, text) {
        Ok(found) => {
            let count = found.len();
            writeln!(out, "{count} tokens")?;
            if count <= MOST_SHOWN {
                push_list(out, Cursor::new(text, &found))?;
            }
        }
        Err(refusal) => {
            let number = refusal.number();
            writeln!(out, "refused {number}")?;
        }
    }
    Ok(())
}
