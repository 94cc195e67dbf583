//! The first token or tokens of an expression.

ghost use Rattle.std.specs.Prelude.{◌≡◌, ◌<◌, ℕ, suc, List, MatchOption};
ghost use Rattle.ldscript_tokens.specs.Tokens.{Lexeme};
ghost use Rattle.ldscript_terms.specs.Grammar.{Begins, BeginsUnary, BeginsBinary, BeginsNamed, Sign, Worded, Free};
ghost use Rattle.ldscript_terms.specs.Grammar.{word_of, Reserved, Primary};
ghost use Rattle.ldscript_terms.specs.Reading.{NoReading};
ghost use Rattle.ldscript_terms.specs.Openings.{IsWord, HasOpening};

use crate::expression::{RegionQuery, SectionQuery};
use crate::operator::{BinaryOperator, UnaryOperator, binary_operator, unary_operator};
use ldscript_tokens::cursor::Cursor;
use ldscript_tokens::number::number_value;
use ldscript_tokens::token::{Mark, TokenKind};
use ldscript_tokens::words::is_free_name;

/// The beginning of a primary expression.
#[derive(Clone, Copy)]
pub enum Opening<'a> {
    /// A number of this value, which is all of it.
    Number(u64),
    /// `.`, which is all of it.
    Dot,
    /// A name, which is all of it.
    Name(&'a [u8]),
    /// A function of a memory region.
    OfRegion(RegionQuery),
    /// A function of an output section.
    OfSection(SectionQuery),
    /// `ALIGN`
    Align,
    /// `(`
    Group,
}

/// The primary expression that a name begins, or `None` for a reserved word that begins none.
#[tactic(auto, unfolding(crate::specs::Grammar::word_of))]
fn word<'a>(name: &'a [u8]) -> Option<Opening<'a>>
    ensures { MatchOption result (word_of name.now ≡ Reserved) (λ h. IsWord h (word_of name.now)) }
{
    if name == b".".as_slice() {
        Some(Opening::Dot)
    } else if name == b"ORIGIN".as_slice() {
        Some(Opening::OfRegion(RegionQuery::Origin))
    } else if name == b"LENGTH".as_slice() {
        Some(Opening::OfRegion(RegionQuery::Length))
    } else if name == b"ADDR".as_slice() {
        Some(Opening::OfSection(SectionQuery::Address))
    } else if name == b"LOADADDR".as_slice() {
        Some(Opening::OfSection(SectionQuery::LoadAddress))
    } else if name == b"SIZEOF".as_slice() {
        Some(Opening::OfSection(SectionQuery::Size))
    } else if name == b"ALIGN".as_slice() {
        Some(Opening::Align)
    } else if is_free_name(name) {
        Some(Opening::Name(name))
    } else {
        None
    }
}

/// The beginning of a primary expression and the cursor after it, or `None` if none begins here.
pub fn read_opening<'a>(tokens: &Cursor<'a>) -> Option<(Opening<'a>, Cursor<'a>)>
    ensures { MatchOption result (NoReading Primary tokens.now) (λ x. HasOpening tokens.now x.0 x.1) }
{
    let (kind, bytes, _, rest) = tokens.copy().next()?;
    match kind {
        TokenKind::Number => Some((Opening::Number(number_value(bytes)?), rest)),
        TokenKind::Name => Some((word(bytes)?, rest)),
        TokenKind::Punctuation(mark) => {
            if mark == Mark::OpenParenthesis {
                Some((Opening::Group, rest))
            } else {
                None
            }
        }
        _ => None,
    }
}

/// The mark that comes next, and the cursor after it.
pub fn sign<'a>(tokens: &Cursor<'a>) -> Option<(Mark, Cursor<'a>)>
    ensures { MatchOption result ((mark : Mark) (rest : List Lexeme) → Begins tokens.now (Sign mark) rest → ⊥)
        (λ x. Begins tokens.now (Sign x.0) x.1) }
{
    let (kind, _, _, rest) = tokens.copy().next()?;
    match kind {
        TokenKind::Punctuation(mark) => Some((mark, rest)),
        _ => None,
    }
}

/// The cursor after this mark, if it comes next.
pub fn after<'a>(tokens: &Cursor<'a>, wanted: Mark) -> Option<Cursor<'a>>
    ensures { MatchOption result ((rest : List Lexeme) → Begins tokens.now (Sign wanted) rest → ⊥)
        (λ rest. Begins tokens.now (Sign wanted) rest) }
{
    let (mark, rest) = sign(tokens)?;
    if mark == wanted { Some(rest) } else { None }
}

/// The unary operator that comes next, and the cursor after it.
pub fn unary_ahead<'a>(tokens: &Cursor<'a>) -> Option<(UnaryOperator, Cursor<'a>)>
    ensures { MatchOption result
        ((operator : UnaryOperator) (rest : List Lexeme) → BeginsUnary tokens.now operator rest → ⊥)
        (λ x. BeginsUnary tokens.now x.0 x.1) }
{
    let (mark, rest) = sign(tokens)?;
    Some((unary_operator(mark)?, rest))
}

/// The binary operator of the level above `below` that comes next, and the cursor after it.
pub fn binary_ahead<'a>(below: u8, tokens: &Cursor<'a>) -> Option<(BinaryOperator, Cursor<'a>)>
    requires { below < 9 }
    ensures { MatchOption result
        ((operator : BinaryOperator) (rest : List Lexeme) → BeginsBinary (suc below) tokens.now operator rest → ⊥)
        (λ x. BeginsBinary (suc below) tokens.now x.0 x.1) }
{
    let (mark, rest) = sign(tokens)?;
    let operator = binary_operator(mark)?;
    if operator.level() == below + 1 {
        Some((operator, rest))
    } else {
        None
    }
}

/// The name that comes next, if it is no reserved word and not `.`, and the cursor after it.
fn free_name<'a>(tokens: &Cursor<'a>) -> Option<(&'a [u8], Cursor<'a>)>
    ensures { MatchOption result ((n : List ℕ) (r : List Lexeme) → Begins tokens.now (Worded (Free n)) r → ⊥)
        (λ x. Begins tokens.now (Worded (Free x.0.now)) x.1) }
{
    let (opening, rest) = read_opening(tokens)?;
    match opening {
        Opening::Name(name) => Some((name, rest)),
        _ => None,
    }
}

/// The name in parentheses that comes next, and the cursor after it.
pub fn name_in_parentheses<'a>(tokens: &Cursor<'a>) -> Option<(&'a [u8], Cursor<'a>)>
    ensures { MatchOption result ((name : List ℕ) (rest : List Lexeme) → BeginsNamed tokens.now name rest → ⊥)
        (λ x. BeginsNamed tokens.now x.0.now x.1) }
{
    let inner = after(tokens, Mark::OpenParenthesis)?;
    let (name, outer) = free_name(&inner)?;
    let rest = after(&outer, Mark::CloseParenthesis)?;
    Some((name, rest))
}
