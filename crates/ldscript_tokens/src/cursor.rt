//! A cursor over the tokens of a text.

ghost use Rattle.std.specs.Prelude.{◌≡◌, ◌∷◌, ◌↔◌, [], ℕ, IsTrue, List, length, map, All, MatchOption};
ghost use Rattle.ldscript_tokens.specs.Tokens.{Lexeme, lexeme, first_line, Name, Number, Text, Word, Punctuation};
ghost use Rattle.ldscript_tokens.specs.CodeTokens.{spelled_token, lexeme_of, IsInText};

use super::token::{CodeToken, Mark, TokenKind};
use std::marker::Model;

/// The first of these tokens, and the others.
fn split(tokens: &[CodeToken]) -> Option<(CodeToken, &[CodeToken])>
    ensures { MatchOption result (tokens.now ≡ []) (λ x. tokens.now ≡ x.0 ∷ x.1.now) }
{
    let (first, rest) = tokens.split_first()?;
    Some((*first, rest))
}

/// The tokens of a text that are not yet read.
#[derive(Drop)]
pub struct Cursor<'a> {
    text: &'a [u8],
    rest: &'a [CodeToken],
}

impl<'a> Model for Cursor<'a> {
    ghost use Rattle.std.specs.Prelude.{List, length, map, All};
    ghost use Rattle.ldscript_tokens.specs.Tokens.{Lexeme};
    ghost use Rattle.ldscript_tokens.specs.CodeTokens.{lexeme_of, IsInText};

    ghost Value = { List Lexeme };

    ghost view = { λ cursor. map (lexeme_of cursor.text.now) cursor.rest.now };

    ghost invariant = { λ cursor. All (IsInText (length cursor.text.now)) cursor.rest.now };
}

impl<'a> Cursor<'a> {
    /// All these tokens of a text.
    pub fn new(text: &'a [u8], tokens: &'a [CodeToken]) -> Cursor<'a>
        requires { All (IsInText (length text.now)) tokens.now }
        ensures { result ≡ map (lexeme_of text.now) tokens.now }
    {
        Cursor { text, rest: tokens }
    }

    /// Another cursor at the same tokens.
    pub fn copy(&self) -> Cursor<'a>
        ensures { result ≡ self.now }
    {
        Cursor {
            text: self.text,
            rest: self.rest,
        }
    }

    /// The next token's kind, bytes and line, and the cursor after it.
    pub fn next(self) -> Option<(TokenKind, &'a [u8], u32, Cursor<'a>)>
        ensures { MatchOption result (self.entry ≡ [])
            (λ x. self.entry ≡ lexeme (spelled_token x.0 x.1.now) x.2 ∷ x.3) }
    {
        let (first, rest) = split(self.rest)?;
        Some((
            first.kind,
            first.bytes(self.text),
            first.line,
            Cursor {
                text: self.text,
                rest,
            },
        ))
    }

    /// The number of tokens that are left.
    pub fn len(&self) -> usize
        ensures { result ≡ length self.now }
    {
        self.rest.len()
    }

    /// Whether no token is left.
    pub fn is_empty(&self) -> bool
        ensures { IsTrue result ↔ self.now ≡ [] }
    {
        self.rest.is_empty()
    }

    /// The line of the next token, or 0 if none is left.
    pub fn line(&self) -> u32
        ensures { result ≡ first_line self.now }
    {
        match self.rest.first() {
            Some(token) => token.line,
            None => 0,
        }
    }

    /// The cursor after a mark, if that comes next.
    pub fn mark(self, mark: Mark) -> Option<Cursor<'a>>
        ensures { MatchOption result
            ((line : ℕ) (rest : List Lexeme) → self.entry ≡ lexeme (Punctuation mark) line ∷ rest → ⊥)
            (λ rest. (line : ℕ) × (self.entry ≡ lexeme (Punctuation mark) line ∷ rest)) }
    {
        let (kind, _, _, rest) = self.next()?;
        if kind == TokenKind::Punctuation(mark) {
            Some(rest)
        } else {
            None
        }
    }

    /// The spelling of a number, and the cursor after it, if one comes next.
    pub fn number(self) -> Option<(&'a [u8], Cursor<'a>)>
        ensures { MatchOption result
            ((spelled : List ℕ) (line : ℕ) (rest : List Lexeme) → self.entry ≡ lexeme (Number spelled) line ∷ rest → ⊥)
            (λ x. (line : ℕ) × (self.entry ≡ lexeme (Number x.0.now) line ∷ x.1)) }
    {
        match self.next()? {
            (TokenKind::Number, number, _, rest) => Some((number, rest)),
            _ => None,
        }
    }

    /// A name or `.`, and the cursor after it, if one comes next.
    pub fn name(self) -> Option<(&'a [u8], Cursor<'a>)>
        ensures { MatchOption result
            ((spelled : List ℕ) (line : ℕ) (rest : List Lexeme) → self.entry ≡ lexeme (Name spelled) line ∷ rest → ⊥)
            (λ x. (line : ℕ) × (self.entry ≡ lexeme (Name x.0.now) line ∷ x.1)) }
    {
        match self.next()? {
            (TokenKind::Name, name, _, rest) => Some((name, rest)),
            _ => None,
        }
    }

    /// A word, and the cursor after it, if one comes next.
    pub fn word(self) -> Option<(&'a [u8], Cursor<'a>)>
        ensures { MatchOption result
            ((spelled : List ℕ) (line : ℕ) (rest : List Lexeme) → self.entry ≡ lexeme (Word spelled) line ∷ rest → ⊥)
            (λ x. (line : ℕ) × (self.entry ≡ lexeme (Word x.0.now) line ∷ x.1)) }
    {
        match self.next()? {
            (TokenKind::Word, word, _, rest) => Some((word, rest)),
            _ => None,
        }
    }

    /// The bytes between double quotes, and the cursor after them, if a string comes next.
    pub fn text_in_quotes(self) -> Option<(&'a [u8], Cursor<'a>)>
        ensures { MatchOption result
            ((content : List ℕ) (line : ℕ) (rest : List Lexeme) → self.entry ≡ lexeme (Text content) line ∷ rest → ⊥)
            (λ x. (line : ℕ) × (self.entry ≡ lexeme (Text x.0.now) line ∷ x.1)) }
    {
        match self.next()? {
            (TokenKind::Text, text, _, rest) => Some((text, rest)),
            _ => None,
        }
    }

    /// The cursor after this name, if it comes next.
    pub fn this_name(self, wanted: &[u8]) -> Option<Cursor<'a>>
        ensures { MatchOption result
            ((line : ℕ) (rest : List Lexeme) → self.entry ≡ lexeme (Name wanted.now) line ∷ rest → ⊥)
            (λ rest. (line : ℕ) × (self.entry ≡ lexeme (Name wanted.now) line ∷ rest)) }
    {
        let (name, rest) = self.name()?;
        if name == wanted { Some(rest) } else { None }
    }

    /// The cursor after this word, if it comes next.
    pub fn this_word(self, wanted: &[u8]) -> Option<Cursor<'a>>
        ensures { MatchOption result
            ((line : ℕ) (rest : List Lexeme) → self.entry ≡ lexeme (Word wanted.now) line ∷ rest → ⊥)
            (λ rest. (line : ℕ) × (self.entry ≡ lexeme (Word wanted.now) line ∷ rest)) }
    {
        let (word, rest) = self.word()?;
        if word == wanted { Some(rest) } else { None }
    }
}
