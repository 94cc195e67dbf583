//! In which mode each token is read.

ghost use Rattle.std.specs.Prelude.{◌≡◌, ◌<◌, ◌≤◌, ◌^◌, ℕ};
ghost use Rattle.ldscript_tokens.specs.CodeTokens.{spelled_token};
ghost use Rattle.ldscript_tokens.specs.Modes.{mode_of, is_stretch_word, depth_after, stretch_opened, stretch_closed};
ghost use Rattle.ldscript_tokens.specs.Modes.{state_after, at_start};
ghost use Rattle.ldscript_tokens.specs.CodeTokens.{IsShallow, IsShortStretch};

use super::token::{ExpressionStretch, LexState, Mark, Mode, TokenKind};
use super::words::is_one_of;

/// The words whose parentheses hold an expression.
const STRETCH_WORDS: [&[u8]; 6] = [b"BYTE", b"SHORT", b"LONG", b"QUAD", b"PROVIDE", b"ASSERT"];

/// Whether a `(` right after this word begins a stretch.
#[tactic(auto, unfolding(crate::specs::Modes::is_stretch_word))]
fn is_stretch_word(word: &[u8]) -> bool
    ensures { result ≡ is_stretch_word word.now }
{
    is_one_of(&STRETCH_WORDS, word)
}

/// The stretch after a token that was read in pattern mode.
fn opened(stretch: ExpressionStretch, kind: TokenKind, spelled: &[u8]) -> ExpressionStretch
    ensures value { result ≡ stretch_opened stretch (spelled_token kind spelled.now) }
    ensures short { (m : ℕ) → 0 < m → IsShortStretch m result }
{
    match kind {
        TokenKind::Punctuation(Mark::Assign) => ExpressionStretch::ToSemicolon,
        TokenKind::Punctuation(Mark::AddAssign) => ExpressionStretch::ToSemicolon,
        TokenKind::Punctuation(Mark::OpenParenthesis) => match stretch {
            ExpressionStretch::Awaited => ExpressionStretch::ToParenthesis(1),
            _ => ExpressionStretch::Closed,
        },
        TokenKind::Word => {
            if is_stretch_word(spelled) {
                ExpressionStretch::Awaited
            } else {
                ExpressionStretch::Closed
            }
        }
        _ => ExpressionStretch::Closed,
    }
}

/// The stretch after a token that was read in expression mode.
fn closed(stretch: ExpressionStretch, kind: TokenKind, spelled: &[u8]) -> ExpressionStretch
    requires { IsShortStretch (2 ^ 32) stretch }
    ensures value { result ≡ stretch_closed stretch (spelled_token kind spelled.now) }
    ensures short { (n m : ℕ) → IsShortStretch n stretch → n < m → IsShortStretch m result }
{
    match (stretch, kind) {
        (ExpressionStretch::ToSemicolon, TokenKind::Punctuation(Mark::Semicolon)) =>
            ExpressionStretch::Closed,
        (ExpressionStretch::ToSemicolon, _) => ExpressionStretch::ToSemicolon,
        (ExpressionStretch::ToParenthesis(n), TokenKind::Punctuation(Mark::OpenParenthesis)) =>
            ExpressionStretch::ToParenthesis(n + 1),
        (ExpressionStretch::ToParenthesis(1), TokenKind::Punctuation(Mark::CloseParenthesis)) =>
            ExpressionStretch::Closed,
        (ExpressionStretch::ToParenthesis(n), TokenKind::Punctuation(Mark::CloseParenthesis)) =>
            ExpressionStretch::ToParenthesis(n.saturating_sub(1)),
        (ExpressionStretch::ToParenthesis(n), _) => ExpressionStretch::ToParenthesis(n),
        _ => ExpressionStretch::Closed,
    }
}

/// The number of braces that are open after a token.
fn depth_after(depth: usize, kind: TokenKind, spelled: &[u8]) -> usize
    requires { depth ≤ 2 ^ 32 }
    ensures value { result ≡ depth_after depth (spelled_token kind spelled.now) }
    ensures shallow { (n m : ℕ) → depth ≤ n → n < m → result ≤ m }
{
    match kind {
        TokenKind::Punctuation(Mark::OpenBrace) => depth + 1,
        TokenKind::Punctuation(Mark::CloseBrace) => depth.saturating_sub(1),
        _ => depth,
    }
}

impl LexState {
    /// The state at the beginning of a text.
    pub fn start() -> LexState
        ensures { result ≡ at_start }
    {
        LexState {
            depth: 0,
            stretch: ExpressionStretch::Closed,
        }
    }

    /// The mode in which a token is read here.
    pub fn mode(self) -> Mode
        ensures { result ≡ mode_of self }
    {
        match self.stretch {
            ExpressionStretch::Closed | ExpressionStretch::Awaited if self.depth == 2 =>
                Mode::Pattern,
            _ => Mode::Expression,
        }
    }

    /// The state after a token of this kind with these bytes. So few braces and parentheses are open that their counts
    /// cannot overflow.
    #[tactic(auto, unfolding(crate::specs::Modes::state_after))]
    pub fn after(self, kind: TokenKind, spelled: &[u8]) -> LexState
        requires { IsShallow (2 ^ 32) self }
        ensures value { result ≡ state_after self (spelled_token kind spelled.now) }
        ensures shallow { (n m : ℕ) → IsShallow n self → n < m → IsShallow m result }
    {
        let depth = depth_after(self.depth, kind, spelled);
        let stretch = match self.mode() {
            Mode::Expression => closed(self.stretch, kind, spelled),
            Mode::Pattern => opened(self.stretch, kind, spelled),
        };
        LexState { depth, stretch }
    }
}
