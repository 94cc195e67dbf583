//! The tokenization of a text.

ghost use Rattle.std.specs.Prelude.{◌≡◌, ◌≤◌, ◌^◌, ◌+◌, ◌-◌, length, drop, map, All, IfOk, IfErr};
ghost use Rattle.ldscript_tokens.specs.CodeTokens.{lexeme_of, front_of, IsAdvance};
ghost use Rattle.ldscript_tokens.specs.Tokens.{front};
ghost use Rattle.ldscript_tokens.specs.Modes.{mode_of, line_feeds, IsCut};
ghost use Rattle.ldscript_tokens.specs.CodeTokens.{IsInText};
ghost use Rattle.ldscript_tokens.specs.Limits.{IsTokens, IsTokenRefusal};

use super::front::{Ahead, FrontToken, front};
use super::limits::are_within_limits;
use super::refusal::TokenRefusal;
use super::token::{CodeToken, LexState};
use growth::vec;
use std::alloc::Global;

/// The greatest length of a text, in bytes.
pub const MAX_TEXT: usize = 1 << 20;

impl FrontToken {
    /// The same token in the whole text, where it begins `before` bytes further on, on this line.
    fn behind(self, before: usize, line: u32) -> CodeToken
        requires room { before + self.end ≤ 2 ^ 20 }
        requires order { self.start ≤ self.end }
        ensures { result ≡ record {
          kind = self.kind;
          start = before + self.start;
          end = before + self.end;
          line = line;
        } }
    {
        CodeToken {
            kind: self.kind,
            start: (before + self.start) as u32,
            end: (before + self.end) as u32,
            line,
        }
    }
}

/// What is at an index of a text.
fn ahead(state: LexState, text: &[u8], at: usize) -> Ahead
    requires { at ≤ length text.now }
    ensures value { front_of (drop at text.now) result ≡ front (mode_of state) (drop at text.now) }
    ensures advance { IsAdvance (length text.now - at) result }
{
    front(state.mode(), &text[at..])
}

/// The number of line feeds among these bytes.
fn line_feeds(bytes: &[u8]) -> u32
    requires { length bytes.now ≤ 2 ^ 20 }
    ensures value { result ≡ line_feeds bytes.now }
    ensures few { result ≤ length bytes.now }
{
    let mut count = 0;
    for byte in bytes {
        if *byte == b'\n' {
            count += 1;
        }
    }
    count
}

/// The tokens of a whole text, in one pass.
fn cut(alloc: Global, text: &[u8]) -> Result<Vec<CodeToken>, TokenRefusal>
    requires { length text.now ≤ 2 ^ 20 }
    ensures cut { IfOk result (λ v. IsCut text.now (map (lexeme_of text.now) v.items)) }
    ensures places { IfOk result (λ v. All (IsInText (length text.now)) v.items) }
    ensures few { IfOk result (λ v. length v.items ≤ length text.now) }
    ensures refused { IfErr result (IsTokenRefusal text.now) }
{
    let mut tokens = Vec::new(alloc);
    let mut state = LexState::start();
    let mut at = 0;
    let mut line = 1;
    loop {
        match ahead(state, text, at) {
            Ahead::Finished => return Ok(tokens),
            Ahead::Space(n) => {
                line += line_feeds(&text[at..at + n]);
                at += n;
                continue;
            }
            Ahead::Found(piece, n) => {
                let token = piece.behind(at, line);
                if let Err(no_memory) = vec::push(&mut tokens, token) {
                    return Err(TokenRefusal::NoMemory(no_memory));
                }
                state = state.after(token.kind, token.bytes(text));
                line += line_feeds(&text[at..at + n]);
                at += n;
            }
            Ahead::Unknown => return Err(TokenRefusal::NotAToken),
        }
    }
}

/// The tokens of a text, or its refusal: `Limit` over 2^20 bytes; then `NotAToken` if it has no tokens; then `Limit` if
/// the tokens are past a limit: a number of 2^64 or more, a name or word over 255 bytes, more than 4,096 `{`, or a run
/// with more than 64 signs.
pub fn tokens(alloc: Global, text: &[u8]) -> Result<Vec<CodeToken>, TokenRefusal>
    ensures tokens { IfOk result (λ tokens. IsTokens text.now (map (lexeme_of text.now) tokens.items)) }
    ensures places { IfOk result (λ tokens. All (IsInText (length text.now)) tokens.items) }
    ensures few { IfOk result (λ tokens. length tokens.items ≤ length text.now) }
    ensures refused { IfErr result (IsTokenRefusal text.now) }
{
    if text.len() > MAX_TEXT {
        return Err(TokenRefusal::Limit);
    }
    let tokens = cut(alloc, text)?;
    if are_within_limits(text, &tokens) {
        Ok(tokens)
    } else {
        Err(TokenRefusal::Limit)
    }
}
