//! The token at the front of a text.

ghost use Rattle.std.specs.Prelude.{◌≡◌, ◌<◌, ◌≤◌, ◌+◌, true, length, drop, slice_index, IfSome, ◌==◌};
ghost use Rattle.ldscript_tokens.specs.Bytes.{is_name_start, is_name_byte, is_octal_digit, is_decimal_digit};
ghost use Rattle.ldscript_tokens.specs.Bytes.{is_hex_digit};
ghost use Rattle.ldscript_tokens.specs.Bytes.{is_text_byte, run_length};
ghost use Rattle.ldscript_tokens.specs.CodeTokens.{front_of, IsAdvance};
ghost use Rattle.ldscript_tokens.specs.Tokens.{is_hex, digits_length, number_length, name_length, name_front};
ghost use Rattle.ldscript_tokens.specs.Tokens.{number_front, text_front, star_slash, comment_front, mark_front};
ghost use Rattle.ldscript_tokens.specs.Tokens.{expression_front, word_length, word_front, pattern_front, front};

use super::bytes::{
    byte_at, is_decimal_digit, is_graphic, is_hex_digit, is_name_byte, is_name_start,
    is_octal_digit, is_space, is_text_byte, is_word_byte,
};
use super::marks::longest_mark;
use super::token::{Mode, TokenKind};

/// `/DISCARD/`, a token by itself.
const DISCARD: &[u8] = b"/DISCARD/";

/// A token at the front of a text. Indices count from there.
#[derive(Clone, Copy, Debug, PartialEq, Eq)]
pub struct FrontToken {
    /// What it is.
    pub kind: TokenKind,
    /// The index of its first byte; for a text in double quotes, that of the first byte between them.
    pub start: usize,
    /// The index after its last byte, and at least `start`.
    pub end: usize,
}

/// What is at the front of a text. Indices count from there.
#[derive(Clone, Copy, Debug, PartialEq, Eq)]
pub enum Ahead {
    /// The end of the text.
    Finished,
    /// White space or a comment, of this many bytes.
    Space(usize),
    /// A token, and its length with its quotes.
    Found(FrontToken, usize),
    /// Bytes that begin no token.
    Unknown,
}

/// A token of the first `length` bytes.
fn whole(kind: TokenKind, length: usize) -> Ahead
    ensures { result ≡ Ahead.Found (record { kind = kind; start = 0; end = length }) length }
{
    Ahead::Found(
        FrontToken {
            kind,
            start: 0,
            end: length,
        },
        length,
    )
}

/// The length of the run of bytes of a name at the front.
fn name_run(text: &[u8]) -> usize
    ensures value { result ≡ run_length is_name_byte text.now }
    ensures within { result ≤ length text.now }
{
    text.iter().take_while(|b| is_name_byte(**b)).count()
}

/// The length of the run of hex digits at the front.
fn hex_run(text: &[u8]) -> usize
    ensures value { result ≡ run_length is_hex_digit text.now }
    ensures within { result ≤ length text.now }
{
    text.iter().take_while(|b| is_hex_digit(**b)).count()
}

/// The length of the run of octal digits at the front.
fn octal_run(text: &[u8]) -> usize
    ensures value { result ≡ run_length is_octal_digit text.now }
    ensures within { result ≤ length text.now }
{
    text.iter().take_while(|b| is_octal_digit(**b)).count()
}

/// The length of the run of decimal digits at the front.
fn decimal_run(text: &[u8]) -> usize
    ensures value { result ≡ run_length is_decimal_digit text.now }
    ensures within { result ≤ length text.now }
{
    text.iter().take_while(|b| is_decimal_digit(**b)).count()
}

/// The length of the run of bytes at the front that may occur between quotes.
fn text_run(text: &[u8]) -> usize
    ensures value { result ≡ run_length is_text_byte text.now }
    ensures within { result ≤ length text.now }
{
    text.iter().take_while(|b| is_text_byte(**b)).count()
}

/// The length of the name at the front: no name begins with `.-`.
fn name_length(text: &[u8]) -> usize
    requires { 0 < length text.now }
    ensures value { result ≡ name_length text.now }
    ensures within { result ≤ length text.now }
{
    if text.len() > 1 && text[0] == b'.' && text[1] == b'-' {
        1
    } else {
        name_run(text)
    }
}

/// A name, if the first byte begins one.
#[tactic(auto, unfolding(crate::specs::Tokens::name_front))]
fn name_front(text: &[u8]) -> Ahead
    requires { is_name_start (slice_index text.now 0) ≡ true }
    ensures value { front_of text.now result ≡ name_front text.now }
    ensures advance { IsAdvance (length text.now) result }
{
    whole(TokenKind::Name, name_length(text))
}

/// Whether `0x` or `0X` and a hex digit are at the front.
pub fn is_hex(text: &[u8]) -> bool
    ensures value { result ≡ is_hex text.now }
    ensures within { result ≡ true → 2 < length text.now }
{
    byte_at(text, 0) == b'0'
        && matches!(byte_at(text, 1), b'x' | b'X')
        && is_hex_digit(byte_at(text, 2))
}

/// The length of a number's digits, with a `0x` before them.
#[tactic(auto, unfolding(crate::specs::Tokens::digits_length))]
pub fn digits_length(text: &[u8]) -> usize
    ensures value { result ≡ digits_length text.now }
    ensures within { result ≤ length text.now }
    ensures hex { is_hex text.now ≡ true → 2 ≤ result }
{
    if is_hex(text) {
        2 + hex_run(&text[2..])
    } else if byte_at(text, 0) == b'0' {
        octal_run(text)
    } else {
        decimal_run(text)
    }
}

/// The length of a number with its suffix.
fn number_length(text: &[u8]) -> usize
    ensures value { result ≡ number_length text.now }
    ensures within { result ≤ length text.now }
{
    let digits = digits_length(text);
    if matches!(byte_at(text, digits), b'K' | b'M') {
        digits + 1
    } else {
        digits
    }
}

/// A number, if a digit is first: no byte of a name other than `-` may follow it.
#[tactic(auto, unfolding(crate::specs::Tokens::number_front))]
fn number_front(text: &[u8]) -> Ahead
    requires { is_decimal_digit (slice_index text.now 0) ≡ true }
    ensures value { front_of text.now result ≡ number_front text.now }
    ensures advance { IsAdvance (length text.now) result }
{
    let length = number_length(text);
    let after = byte_at(text, length);
    if is_name_byte(after) && after != b'-' {
        Ahead::Unknown
    } else {
        whole(TokenKind::Number, length)
    }
}

/// A string, if a double quote is first.
#[tactic(auto, unfolding(crate::specs::Tokens::text_front))]
fn text_front(text: &[u8]) -> Ahead
    requires { 0 < length text.now }
    ensures value { front_of text.now result ≡ text_front text.now }
    ensures advance { IsAdvance (length text.now) result }
{
    let length = text_run(&text[1..]);
    if byte_at(text, length + 1) == b'"' {
        let content = FrontToken {
            kind: TokenKind::Text,
            start: 1,
            end: length + 1,
        };
        Ahead::Found(content, length + 2)
    } else {
        Ahead::Unknown
    }
}

/// The number of bytes before the first `*/`.
fn star_slash(text: &[u8]) -> Option<usize>
    ensures value { result ≡ star_slash text.now }
    ensures within { IfSome result (λ n. n + 2 ≤ length text.now) }
{
    for (i, b) in text.iter().enumerate() {
        if *b == b'*' && byte_at(text, i + 1) == b'/' {
            return Some(i);
        }
    }
    None
}

/// A comment, if `/*` is first.
#[tactic(auto, unfolding(crate::specs::Tokens::comment_front))]
fn comment_front(text: &[u8]) -> Ahead
    requires { 2 ≤ length text.now }
    ensures value { front_of text.now result ≡ comment_front text.now }
    ensures advance { IsAdvance (length text.now) result }
{
    match star_slash(&text[2..]) {
        Some(n) => Ahead::Space(n + 4),
        None => Ahead::Unknown,
    }
}

/// A mark of expression mode.
#[tactic(auto, unfolding(crate::specs::Tokens::mark_front))]
fn mark_front(text: &[u8]) -> Ahead
    requires { 0 < length text.now }
    ensures value { front_of text.now result ≡ mark_front text.now }
    ensures advance { IsAdvance (length text.now) result }
{
    match longest_mark(Mode::Expression, text) {
        Some(ahead) => whole(TokenKind::Punctuation(ahead.mark), ahead.length),
        None => Ahead::Unknown,
    }
}

/// What is at the front in expression mode, but for white space and comments.
#[tactic(auto, unfolding(crate::specs::Tokens::expression_front))]
fn expression_front(text: &[u8]) -> Ahead
    requires { 0 < length text.now }
    ensures value { front_of text.now result ≡ expression_front text.now }
    ensures advance { IsAdvance (length text.now) result }
{
    let first = byte_at(text, 0);
    if is_name_start(first) {
        name_front(text)
    } else if is_decimal_digit(first) {
        number_front(text)
    } else if first == b'"' {
        text_front(text)
    } else if text.starts_with(DISCARD) {
        whole(TokenKind::Discard, DISCARD.len())
    } else {
        mark_front(text)
    }
}

/// The length of the first byte or pair of a word; 0 if there is none.
fn word_step(text: &[u8]) -> usize
    ensures none { result ≡ 0 → word_length text.now ≡ 0 }
    ensures some { 0 < result → word_length text.now ≡ result + word_length (drop result text.now) }
    ensures within { result ≤ length text.now }
{
    if is_word_byte(byte_at(text, 0)) {
        1
    } else if byte_at(text, 0) == b'\\' && is_graphic(byte_at(text, 1)) {
        2
    } else {
        0
    }
}

/// The length of the word at the front; 0 if there is none.
fn word_length(text: &[u8]) -> usize
    ensures value { result ≡ word_length text.now }
    ensures within { result ≤ length text.now }
{
    let mut length = 0;
    loop {
        let step = word_step(&text[length..]);
        if step == 0 {
            return length;
        }
        length += step;
    }
}

/// A word.
#[tactic(auto, unfolding(crate::specs::Tokens::word_front))]
fn word_front(text: &[u8]) -> Ahead
    ensures value { front_of text.now result ≡ word_front text.now }
    ensures advance { IsAdvance (length text.now) result }
{
    match word_length(text) {
        0 => Ahead::Unknown,
        length => whole(TokenKind::Word, length),
    }
}

/// What is at the front in pattern mode, but for white space and comments.
#[tactic(auto, unfolding(crate::specs::Tokens::pattern_front))]
fn pattern_front(text: &[u8]) -> Ahead
    requires { 0 < length text.now }
    ensures value { front_of text.now result ≡ pattern_front text.now }
    ensures advance { IsAdvance (length text.now) result }
{
    match longest_mark(Mode::Pattern, text) {
        Some(ahead) => whole(TokenKind::Punctuation(ahead.mark), ahead.length),
        None => word_front(text),
    }
}

/// What is at the front of a text that is read in a mode.
#[tactic(auto, unfolding(crate::specs::Tokens::front))]
pub fn front(mode: Mode, text: &[u8]) -> Ahead
    ensures value { front_of text.now result ≡ front mode text.now }
    ensures advance { IsAdvance (length text.now) result }
{
    if text.is_empty() {
        return Ahead::Finished;
    }
    let first = byte_at(text, 0);
    if is_space(first) {
        Ahead::Space(1)
    } else if first == b'/' && byte_at(text, 1) == b'*' {
        comment_front(text)
    } else {
        match mode {
            Mode::Expression => expression_front(text),
            Mode::Pattern => pattern_front(text),
        }
    }
}
