//! The limits on the tokens of a text.

ghost use Rattle.std.specs.Prelude.{◌≡◌, ◌+◌, ◌≤◌, ◌^◌, ◌↔◌, IsTrue, length, map, All, count_by, cond, if◌then◌else◌};
ghost use Rattle.ldscript_tokens.specs.CodeTokens.{spelled_token, token_of, IsInText};
ghost use Rattle.ldscript_tokens.specs.Modes.{at_start};
ghost use Rattle.ldscript_tokens.specs.Limits.{HasShortSpelling, is_open_brace, counted_mode, moded, is_break, is_sign};
ghost use Rattle.ldscript_tokens.specs.Limits.{is_sign_mark, HasShortRuns, IsWithinLimits};

use super::number::number_value;
use super::token::{CodeToken, ExpressionStretch, LexState, Mark, Mode, TokenKind};

/// The greatest length of a name or word, in bytes.
pub const MAX_WORD: usize = 255;

/// The greatest number of `{` in a text.
pub const MAX_BRACES: usize = 4096;

/// The greatest number of signs in a run.
pub const MAX_SIGNS: usize = 64;

/// Whether a number token is below 2^64, and a name or word no longer than the limit.
fn has_short_spelling(kind: TokenKind, spelled: &[u8]) -> bool
    ensures { IsTrue result ↔ HasShortSpelling (spelled_token kind spelled.now) }
{
    match kind {
        TokenKind::Number => number_value(spelled).is_some(),
        TokenKind::Name | TokenKind::Word => spelled.len() <= MAX_WORD,
        _ => true,
    }
}

/// Whether each number is below 2^64, and each name and word no longer than the limit.
fn have_short_spellings(text: &[u8], tokens: &[CodeToken]) -> bool
    requires { All (IsInText (length text.now)) tokens.now }
    ensures { IsTrue result ↔ All HasShortSpelling (map (token_of text.now) tokens.now) }
{
    for token in tokens {
        if !has_short_spelling(token.kind, token.bytes(text)) {
            return false;
        }
    }
    true
}

/// The number of `{` among these tokens.
fn open_braces(text: &[u8], tokens: &[CodeToken]) -> usize
    ensures { result ≡ count_by is_open_brace (map (token_of text.now) tokens.now) }
{
    let mut count = 0;
    for token in tokens {
        if token.kind == TokenKind::Punctuation(Mark::OpenBrace) {
            count += 1;
        }
    }
    count
}

/// The mode in which a token counts: the `(` that begins a stretch counts in expression mode.
pub fn counted_mode(state: LexState, kind: TokenKind, spelled: &[u8]) -> Mode
    ensures { result ≡ counted_mode state (spelled_token kind spelled.now) }
{
    match (state.stretch, kind) {
        (ExpressionStretch::Awaited, TokenKind::Punctuation(Mark::OpenParenthesis)) =>
            Mode::Expression,
        _ => state.mode(),
    }
}

/// Whether a token that counts in this mode belongs to no run.
pub fn is_break(mode: Mode, kind: TokenKind, spelled: &[u8]) -> bool
    ensures { result ≡ is_break mode (spelled_token kind spelled.now) }
{
    match (mode, kind) {
        (Mode::Pattern, _) => true,
        (Mode::Expression, TokenKind::Punctuation(mark)) => {
            matches!(mark, Mark::Semicolon | Mark::OpenBrace | Mark::CloseBrace)
        }
        _ => false,
    }
}

/// Whether a mark is a sign: `(`, or an operator other than an assignment.
pub fn is_sign_mark(mark: Mark) -> bool
    ensures { result ≡ is_sign_mark mark }
{
    !matches!(
        mark,
        Mark::CloseParenthesis
            | Mark::OpenBrace
            | Mark::CloseBrace
            | Mark::Semicolon
            | Mark::Colon
            | Mark::Comma
            | Mark::Assign
            | Mark::AddAssign
    )
}

/// The number of signs of the run after a token, if it had `signs` before.
fn signs_after(signs: usize, mode: Mode, kind: TokenKind, spelled: &[u8]) -> usize
    requires { signs ≤ 64 }
    ensures { result ≡ (let t = spelled_token kind spelled.now in
        if is_break mode t then 0 else signs + cond (is_sign t) 1 0) }
{
    if is_break(mode, kind, spelled) {
        return 0;
    }
    match kind {
        TokenKind::Punctuation(mark) if is_sign_mark(mark) => signs + 1,
        _ => signs,
    }
}

/// Whether no run has too many signs.
fn have_short_runs(text: &[u8], tokens: &[CodeToken]) -> bool
    requires few { length tokens.now ≤ 2 ^ 20 }
    requires places { All (IsInText (length text.now)) tokens.now }
    ensures { IsTrue result ↔ HasShortRuns (moded at_start (map (token_of text.now) tokens.now)) }
{
    let mut state = LexState::start();
    let mut signs = 0;
    for token in tokens {
        let spelled = token.bytes(text);
        let mode = counted_mode(state, token.kind, spelled);
        signs = signs_after(signs, mode, token.kind, spelled);
        if signs > MAX_SIGNS {
            return false;
        }
        state = state.after(token.kind, spelled);
    }
    true
}

/// Whether the tokens of a text are within the limits.
pub(crate) fn are_within_limits(text: &[u8], tokens: &[CodeToken]) -> bool
    requires few { length tokens.now ≤ 2 ^ 20 }
    requires places { All (IsInText (length text.now)) tokens.now }
    ensures { IsTrue result ↔ IsWithinLimits (map (token_of text.now) tokens.now) }
{
    have_short_spellings(text, tokens)
        && open_braces(text, tokens) <= MAX_BRACES
        && have_short_runs(text, tokens)
}
