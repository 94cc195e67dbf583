//! Input statements.

use crate::pattern::{push_pattern, push_patterns};
use ldscript::tree::{Input, SectionWord, Sort};
use std::alloc::AllocError;

/// A word, with the files that it excludes.
fn push_word(out: &mut String, word: &SectionWord) -> Result<(), AllocError> {
    let excluded = word.excluded.as_slice();
    if !excluded.is_empty() {
        out.push_str("exclude(")?;
        push_patterns(out, excluded)?;
        out.push_str(") ")?;
    }
    push_pattern(out, &word.pattern)
}

/// Words with a space between them.
fn push_words(out: &mut String, words: &[SectionWord]) -> Result<(), AllocError> {
    let mut separator = "";
    for word in words {
        out.push_str(separator)?;
        push_word(out, word)?;
        separator = " ";
    }
    Ok(())
}

/// The files and the sections that are taken.
pub fn push_input(out: &mut String, input: &Input) -> Result<(), AllocError> {
    if input.keep {
        out.push_str("keep ")?;
    }
    push_pattern(out, &input.file)?;
    match input.sort {
        None => out.push_str("(")?,
        Some(Sort::ByName) => out.push_str("(by name: ")?,
        Some(Sort::ByAlignment) => out.push_str("(by alignment: ")?,
    }
    push_words(out, input.sections.as_slice())?;
    out.push_str(")")
}
