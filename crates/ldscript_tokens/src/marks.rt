//! The marks of the script language, as in the definition's table.

ghost use Rattle.std.specs.Prelude.{◌≡◌, ◌<◌, ◌≤◌, ◌∷◌, [], length, take, IfSome};
ghost use Rattle.std.specs.Option.{option_map};
ghost use Rattle.ldscript_tokens.specs.Marks.{mark_row, spelled_row, is_mark_in, longest_mark};

use super::bytes::byte_at;
use super::token::{Mark, Mode};

/// A mark at the front of a text.
#[derive(Clone, Copy, Debug, PartialEq, Eq)]
pub struct MarkAhead {
    /// Which it is.
    pub mark: Mark,
    /// Its length in bytes.
    pub length: usize,
}

/// The mark that is spelled by these two bytes.
#[tactic(auto, unfolding(crate::specs::Marks::spelled_row))]
fn mark_of_two(first: u8, second: u8) -> Option<Mark>
    ensures value { spelled_row (first ∷ second ∷ []) ≡ option_map (mark_row (first ∷ second ∷ [])) result }
    ensures within { IfSome result (λ m. 0 < second) }
{
    match (first, second) {
        (b'+', b'=') => Some(Mark::AddAssign),
        (b'<', b'<') => Some(Mark::ShiftLeft),
        (b'>', b'>') => Some(Mark::ShiftRight),
        (b'<', b'=') => Some(Mark::LessOrEqual),
        (b'>', b'=') => Some(Mark::GreaterOrEqual),
        (b'=', b'=') => Some(Mark::Equal),
        (b'!', b'=') => Some(Mark::NotEqual),
        (b'&', b'&') => Some(Mark::AndAnd),
        (b'|', b'|') => Some(Mark::OrOr),
        _ => None,
    }
}

/// The mark that is spelled by this byte.
#[tactic(auto, unfolding(crate::specs::Marks::spelled_row))]
fn mark_of_one(byte: u8) -> Option<Mark>
    ensures { spelled_row (byte ∷ []) ≡ option_map (mark_row (byte ∷ [])) result }
{
    match byte {
        b'(' => Some(Mark::OpenParenthesis),
        b')' => Some(Mark::CloseParenthesis),
        b'{' => Some(Mark::OpenBrace),
        b'}' => Some(Mark::CloseBrace),
        b';' => Some(Mark::Semicolon),
        b':' => Some(Mark::Colon),
        b',' => Some(Mark::Comma),
        b'=' => Some(Mark::Assign),
        b'!' => Some(Mark::Not),
        b'-' => Some(Mark::Minus),
        b'~' => Some(Mark::Complement),
        b'*' => Some(Mark::Star),
        b'/' => Some(Mark::Slash),
        b'%' => Some(Mark::Percent),
        b'+' => Some(Mark::Plus),
        b'<' => Some(Mark::Less),
        b'>' => Some(Mark::Greater),
        b'&' => Some(Mark::And),
        b'|' => Some(Mark::Or),
        b'?' => Some(Mark::Question),
        _ => None,
    }
}

/// Whether it is a mark in this mode.
fn is_mark_in(mode: Mode, mark: Mark) -> bool
    ensures { result ≡ is_mark_in mode mark }
{
    match mode {
        Mode::Expression => true,
        Mode::Pattern => matches!(
            mark,
            Mark::OpenParenthesis
                | Mark::CloseParenthesis
                | Mark::OpenBrace
                | Mark::CloseBrace
                | Mark::Semicolon
                | Mark::Assign
                | Mark::AddAssign
        ),
    }
}

/// The longest mark of a mode at the front of a text.
#[tactic(auto, using(crate::proofs::Longest::longest_by_bytes))]
pub fn longest_mark(mode: Mode, text: &[u8]) -> Option<MarkAhead>
    requires { 0 < length text.now }
    ensures value { longest_mark mode text.now
        ≡ option_map (λ found. mark_row (take found.length text.now) found.mark) result }
    ensures within { IfSome result (λ found. (0 < found.length) × (found.length ≤ length text.now)) }
{
    let first = byte_at(text, 0);
    if let Some(mark) = mark_of_two(first, byte_at(text, 1)) {
        if is_mark_in(mode, mark) {
            return Some(MarkAhead { mark, length: 2 });
        }
    }
    match mark_of_one(first) {
        Some(mark) if is_mark_in(mode, mark) => Some(MarkAhead { mark, length: 1 }),
        _ => None,
    }
}
