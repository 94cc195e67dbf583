//! Readers of input statements.

ghost use Rattle.std.specs.Prelude.{◌≡◌, ◌<◌, ℕ, List, IfOk, IfSome, IsTrue, length};
ghost use Rattle.ldscript_tokens.specs.Tokens.{Lexeme};
ghost use Rattle.ldscript.specs.Steps.{◌▸◌, each, some, mark, statements, pattern as pattern_part};
ghost use Rattle.ldscript.specs.Grammar.{bare, one, sort as sort_part, plain as plain_part, input as input_part};
ghost use Rattle.ldscript.specs.Grammar.{input_statement};
ghost use Rattle.ldscript.specs.Readings.{Reads, Finds, excluded_files as excluded_files_part, selected, word_part};

use crate::steps::{after, after_key};
use ldscript_statements::input::{Input, InputStatement, SectionWord, Sort};
use ldscript_statements::sequence::Sequence;
use ldscript_terms::pattern::Pattern;
use ldscript_terms::reader::Parsed;
use ldscript_tokens::cursor::Cursor;
use ldscript_tokens::token::{Mark, Mode};
use ldscript_tokens::words::is_free_word;
use std::alloc::Global;

/// A word that spells a pattern.
fn pattern<'a>(alloc: Global, tokens: Cursor<'a>) -> Parsed<'a, Pattern>
    ensures { Reads pattern_part tokens.entry (λ x. x.0) (λ x. x.1) result }
{
    let Some((word, rest)) = tokens.word() else {
        return Ok(None);
    };
    if !is_free_word(word) {
        return Ok(None);
    }
    let Some(pattern) = Pattern::read(alloc, word)? else {
        return Ok(None);
    };
    Ok(Some((pattern, rest)))
}

/// {WORD} `)`
fn patterns<'a>(alloc: Global, tokens: Cursor<'a>) -> Parsed<'a, Sequence<Pattern>>
    ensures { Reads (λ ps. each pattern_part ps ▸ mark Mark.CloseParenthesis) tokens.entry (λ x. x.0)
        (λ x. x.1) result }
{
    let mut patterns = Sequence::new(alloc);
    let mut rest = tokens;
    'reading: loop {
        if let Some(behind) = after(Mark::CloseParenthesis, rest.copy()) {
            return Ok(Some((patterns, behind)));
        }
        let Some((pattern, more)) = pattern(alloc, rest)? else {
            return Ok(None);
        };
        patterns.push(pattern)?;
        rest = more;
    }
}

/// WORD {WORD} `)`
fn some_patterns<'a>(alloc: Global, tokens: Cursor<'a>) -> Parsed<'a, Sequence<Pattern>>
    ensures { Reads (λ ps. some pattern_part ps ▸ mark Mark.CloseParenthesis) tokens.entry (λ x. x.0)
        (λ x. x.1) result }
{
    let Some((patterns, rest)) = patterns(alloc, tokens)? else {
        return Ok(None);
    };
    if patterns.as_slice().is_empty() {
        return Ok(None);
    }
    Ok(Some((patterns, rest)))
}

/// `(` WORD {WORD} `)`
fn excluded_files<'a>(alloc: Global, tokens: Cursor<'a>) -> Parsed<'a, Sequence<Pattern>>
    ensures { Reads excluded_files_part tokens.entry (λ x. x.0) (λ x. x.1) result }
{
    match after(Mark::OpenParenthesis, tokens) {
        Some(rest) => some_patterns(alloc, rest),
        None => Ok(None),
    }
}

/// WORD
fn bare_word<'a>(alloc: Global, tokens: Cursor<'a>) -> Parsed<'a, SectionWord>
    ensures { Reads bare tokens.entry (λ x. x.0) (λ x. x.1) result }
{
    let Some((pattern, rest)) = pattern(alloc, tokens)? else {
        return Ok(None);
    };
    let excluded = Sequence::new(alloc);
    Ok(Some((SectionWord { pattern, excluded }, rest)))
}

/// [`EXCLUDE_FILE (` WORD {WORD} `)`] WORD
fn excluding_word<'a>(alloc: Global, tokens: Cursor<'a>) -> Parsed<'a, SectionWord>
    ensures { Reads one tokens.entry (λ x. x.0) (λ x. x.1) result }
{
    let Some(rest) = after_key(Mode::Pattern, b"EXCLUDE_FILE", tokens.copy()) else {
        return bare_word(alloc, tokens);
    };
    let Some((excluded, rest)) = excluded_files(alloc, rest)? else {
        return Ok(None);
    };
    let Some((pattern, rest)) = pattern(alloc, rest)? else {
        return Ok(None);
    };
    Ok(Some((SectionWord { pattern, excluded }, rest)))
}

/// A word of an input statement; some may not have `EXCLUDE_FILE` before it.
fn word<'a>(alloc: Global, may_exclude: bool, tokens: Cursor<'a>) -> Parsed<'a, SectionWord>
    ensures { Reads (word_part may_exclude) tokens.entry (λ x. x.0) (λ x. x.1) result }
{
    if may_exclude {
        excluding_word(alloc, tokens)
    } else {
        bare_word(alloc, tokens)
    }
}

/// Words of an input statement, and the `)` after them.
fn words<'a>(
    alloc: Global,
    may_exclude: bool,
    tokens: Cursor<'a>,
) -> Parsed<'a, Sequence<SectionWord>>
    ensures { Reads (λ ws. each (word_part may_exclude) ws ▸ mark Mark.CloseParenthesis) tokens.entry (λ x. x.0)
        (λ x. x.1) result }
{
    let mut words = Sequence::new(alloc);
    let mut rest = tokens;
    'reading: loop {
        if let Some(behind) = after(Mark::CloseParenthesis, rest.copy()) {
            return Ok(Some((words, behind)));
        }
        let Some((word, more)) = word(alloc, may_exclude, rest)? else {
            return Ok(None);
        };
        words.push(word)?;
        rest = more;
    }
}

/// One or more words of an input statement, and the `)` after them.
fn some_words<'a>(
    alloc: Global,
    may_exclude: bool,
    tokens: Cursor<'a>,
) -> Parsed<'a, Sequence<SectionWord>>
    ensures { Reads (λ ws. some (word_part may_exclude) ws ▸ mark Mark.CloseParenthesis) tokens.entry (λ x. x.0)
        (λ x. x.1) result }
{
    let Some((words, rest)) = words(alloc, may_exclude, tokens)? else {
        return Ok(None);
    };
    if words.as_slice().is_empty() {
        return Ok(None);
    }
    Ok(Some((words, rest)))
}

/// `SORT`, `SORT_BY_NAME` or `SORT_BY_ALIGNMENT`
fn sort_word<'a>(tokens: Cursor<'a>) -> Option<(Sort, Cursor<'a>)>
    ensures { Finds sort_part tokens.entry (λ x. x.0) (λ x. x.1) result }
{
    if let Some(rest) = after_key(Mode::Pattern, b"SORT_BY_ALIGNMENT", tokens.copy()) {
        return Some((Sort::ByAlignment, rest));
    }
    if let Some(rest) = after_key(Mode::Pattern, b"SORT_BY_NAME", tokens.copy()) {
        return Some((Sort::ByName, rest));
    }
    let rest = after_key(Mode::Pattern, b"SORT", tokens)?;
    Some((Sort::ByName, rest))
}

/// `SORT`, `SORT_BY_NAME` or `SORT_BY_ALIGNMENT`, and the `(` after it
fn sort<'a>(tokens: Cursor<'a>) -> Option<(Sort, Cursor<'a>)>
    ensures { Finds (λ s. sort_part s ▸ mark Mark.OpenParenthesis) tokens.entry (λ x. x.0) (λ x. x.1) result }
{
    let (sort, rest) = sort_word(tokens)?;
    let rest = after(Mark::OpenParenthesis, rest)?;
    Some((sort, rest))
}

/// The words in the parentheses of an input statement, and the `)` after them.
fn selection<'a>(
    alloc: Global,
    tokens: Cursor<'a>,
) -> Parsed<'a, (Option<Sort>, Sequence<SectionWord>)>
    ensures { Reads selected tokens.entry (λ x. x.0) (λ x. x.1) result }
{
    let Some((sort, rest)) = sort(tokens.copy()) else {
        let Some((sections, rest)) = some_words(alloc, true, tokens)? else {
            return Ok(None);
        };
        return Ok(Some(((None, sections), rest)));
    };
    let Some((sections, rest)) = some_words(alloc, false, rest)? else {
        return Ok(None);
    };
    match after(Mark::CloseParenthesis, rest) {
        Some(rest) => Ok(Some(((Some(sort), sections), rest))),
        None => Ok(None),
    }
}

/// An input statement, and whether it is under `KEEP`.
fn plain<'a>(alloc: Global, keep: bool, tokens: Cursor<'a>) -> Parsed<'a, Input>
    ensures read { Reads plain_part tokens.entry (λ x. x.0) (λ x. x.1) result }
    ensures keep { IfOk result (λ found. IfSome found (λ x. x.0.keep ≡ keep)) }
{
    let Some((file, rest)) = pattern(alloc, tokens)? else {
        return Ok(None);
    };
    let Some(rest) = after(Mark::OpenParenthesis, rest) else {
        return Ok(None);
    };
    let Some(((sort, sections), rest)) = selection(alloc, rest)? else {
        return Ok(None);
    };
    let input = Input {
        keep,
        file,
        sort,
        sections,
    };
    Ok(Some((input, rest)))
}

/// An input statement.
pub fn input<'a>(alloc: Global, tokens: Cursor<'a>) -> Parsed<'a, Input>
    ensures { Reads input_part tokens.entry (λ x. x.0) (λ x. x.1) result }
{
    let Some(rest) = after_key(Mode::Pattern, b"KEEP", tokens.copy()) else {
        return plain(alloc, false, tokens);
    };
    let Some(rest) = after(Mark::OpenParenthesis, rest) else {
        return Ok(None);
    };
    let Some((input, rest)) = plain(alloc, true, rest)? else {
        return Ok(None);
    };
    match after(Mark::CloseParenthesis, rest) {
        Some(rest) => Ok(Some((input, rest))),
        None => Ok(None),
    }
}

/// {`;` | input} `}`
pub fn inputs<'a>(alloc: Global, tokens: Cursor<'a>) -> Parsed<'a, Sequence<InputStatement>>
    ensures { Reads (λ inputs. statements input_statement inputs ▸ mark Mark.CloseBrace) tokens.entry (λ x. x.0)
        (λ x. x.1) result }
{
    let mut inputs = Sequence::new(alloc);
    let mut rest = tokens;
    'reading: loop {
        if let Some(more) = after(Mark::Semicolon, rest.copy()) {
            rest = more;
            continue;
        }
        if let Some(behind) = after(Mark::CloseBrace, rest.copy()) {
            return Ok(Some((inputs, behind)));
        }
        let line = rest.line();
        let Some((input, more)) = input(alloc, rest)? else {
            return Ok(None);
        };
        inputs.push(InputStatement { line, input })?;
        rest = more;
    }
}
