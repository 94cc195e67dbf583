//! Steps that the readers of statements share.

ghost use Rattle.std.specs.Prelude.{◌≡◌, ◌<◌, ◌∷◌, ◌==◌, ◌&&◌, ℕ, List, IsTrue, MatchOption, length, slice_index};
ghost use Rattle.std.specs.List.{list_all};
ghost use Rattle.ldscript_tokens.specs.Bytes.{is_name_byte};
ghost use Rattle.ldscript_tokens.specs.Tokens.{Lexeme};
ghost use Rattle.ldscript_terms.specs.Reading.{StopsAt};
ghost use Rattle.ldscript_terms.specs.Grammar.{Whole, Sign};
ghost use Rattle.ldscript.specs.Steps.{◌▸◌, key, mark as mark_part, token, word_in, is_name_in, is_name_spelling};
ghost use Rattle.ldscript.specs.Steps.{name_in, name as name_part, string, expression};
ghost use Rattle.ldscript.specs.Grammar.{ended as ended_part, in_parentheses as parenthesized};
ghost use Rattle.ldscript.specs.Readings.{Reads, Finds, Follows};

use ldscript_statements::formula::Formula;
use ldscript_terms::reader::{Parsed, expr};
use ldscript_tokens::bytes::{byte_at, is_name_byte, is_name_start};
use ldscript_tokens::cursor::Cursor;
use ldscript_tokens::token::{Mark, Mode};
use ldscript_tokens::words::is_free_name;
use std::alloc::Global;

/// Whether a word has only bytes that names may have.
fn has_name_bytes(word: &[u8]) -> bool
    ensures { result ≡ list_all is_name_byte word.now }
{
    word.iter().all(|b| is_name_byte(*b))
}

/// Whether a word is spelled as a name.
#[tactic(auto, unfolding(crate::specs::Steps::is_name_spelling))]
fn is_spelled_as_name(word: &[u8]) -> bool
    ensures { result ≡ is_name_spelling word.now }
{
    if !is_name_start(byte_at(word, 0)) {
        return false;
    }
    if byte_at(word, 0) == b'.' && byte_at(word, 1) == b'-' {
        return false;
    }
    has_name_bytes(word)
}

/// Whether a token of a mode is a word that may be assigned to.
fn may_be_given(mode: Mode, word: &[u8]) -> bool
    ensures { result ≡ is_name_in mode word.now }
{
    match mode {
        Mode::Expression => is_free_name(word),
        Mode::Pattern => is_free_name(word) && is_spelled_as_name(word),
    }
}

/// The word at the front of a statement, and the cursor after it.
fn front_word<'a>(mode: Mode, tokens: Cursor<'a>) -> Option<(&'a [u8], Cursor<'a>)>
    ensures { Finds (λ w. token (word_in mode w)) tokens.entry (λ x. x.0.now) (λ x. x.1) result }
{
    match mode {
        Mode::Expression => tokens.name(),
        Mode::Pattern => tokens.word(),
    }
}

/// The cursor after this word at the front of a statement.
pub fn after_key<'a>(mode: Mode, word: &[u8], tokens: Cursor<'a>) -> Option<Cursor<'a>>
    ensures { Follows (key mode word.now) tokens.entry (λ x. x) result }
{
    match mode {
        Mode::Expression => tokens.this_name(word),
        Mode::Pattern => tokens.this_word(word),
    }
}

/// A name at the front of a statement, and the cursor after it.
pub fn front_name<'a>(mode: Mode, tokens: Cursor<'a>) -> Option<(&'a [u8], Cursor<'a>)>
    ensures { Finds (name_in mode) tokens.entry (λ x. x.0.now) (λ x. x.1) result }
{
    let (word, rest) = front_word(mode, tokens)?;
    if may_be_given(mode, word) {
        Some((word, rest))
    } else {
        None
    }
}

/// A name in expression mode, and the cursor after it.
pub fn plain_name<'a>(tokens: Cursor<'a>) -> Option<(&'a [u8], Cursor<'a>)>
    ensures { Finds name_part tokens.entry (λ x. x.0.now) (λ x. x.1) result }
{
    front_name(Mode::Expression, tokens)
}

/// The cursor after a mark.
pub fn after(mark: Mark, tokens: Cursor<'_>) -> Option<Cursor<'_>>
    ensures { Follows (mark_part mark) tokens.entry (λ x. x) result }
{
    tokens.mark(mark)
}

/// `(` NAME `)`
pub fn name_in_parentheses<'a>(tokens: Cursor<'a>) -> Option<(&'a [u8], Cursor<'a>)>
    ensures { Finds (λ n. mark_part Mark.OpenParenthesis ▸ name_part n ▸ mark_part Mark.CloseParenthesis) tokens.entry
        (λ x. x.0.now) (λ x. x.1) result }
{
    let rest = after(Mark::OpenParenthesis, tokens)?;
    let (name, rest) = plain_name(rest)?;
    let rest = after(Mark::CloseParenthesis, rest)?;
    Some((name, rest))
}

/// An expression, and after it a mark that cannot continue it.
pub fn ended<'a>(alloc: Global, tokens: Cursor<'a>, mark: Mark) -> Parsed<'a, Formula>
    requires { StopsAt Whole (Sign mark) }
    ensures { Reads (ended_part mark) tokens.entry (λ x. x.0) (λ x. x.1) result }
{
    let Some((expr, rest)) = expr(alloc, tokens)? else {
        return Ok(None);
    };
    match after(mark, rest) {
        Some(rest) => Ok(Some((Formula::new(expr), rest))),
        None => Ok(None),
    }
}

/// `( e )`
pub fn in_parentheses<'a>(alloc: Global, tokens: Cursor<'a>) -> Parsed<'a, Formula>
    ensures { Reads parenthesized tokens.entry (λ x. x.0) (λ x. x.1) result }
{
    match after(Mark::OpenParenthesis, tokens) {
        Some(rest) => ended(alloc, rest, Mark::CloseParenthesis),
        None => Ok(None),
    }
}
