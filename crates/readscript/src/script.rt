//! Whole scripts.

use crate::statement::push_statement;
use crate::text::{is_shown, push_text};
use ldscript::Script;
use std::alloc::{AllocError, Global};
use std::fmt::Write;

/// The answer to a `script`.
pub fn push_script(alloc: Global, out: &mut String, text: &[u8]) -> Result<(), AllocError> {
    let length = text.len();
    writeln!(out, "\nscript {length}")?;
    if is_shown(text) {
        push_text(out, text)?;
    }
    match Script::read(alloc, text) {
        Ok(_) if !is_shown(text) => out.push_str("accepted\n")?,
        Ok(script) => {
            for statement in script.statements() {
                push_statement(out, statement)?;
            }
        }
        Err(refusal) => {
            let number = refusal.number();
            writeln!(out, "refused {number}")?;
        }
    }
    Ok(())
}
