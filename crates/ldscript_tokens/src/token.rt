//! Tokens of a script, as ranges of its text.

ghost use Rattle.std.specs.Prelude.{◌≡◌, length, slice_range};
ghost use Rattle.ldscript_tokens.specs.CodeTokens.{IsInText};

/// The mode in which a token is read: as part of an expression, or of patterns of names.
#[derive(Clone, Copy, Debug, PartialEq, Eq)]
pub enum Mode {
    /// Names, numbers, texts and operators.
    Expression,
    /// Words that may have pattern signs, as inside an output section.
    Pattern,
}

/// The marks of the script language.
#[derive(Clone, Copy, Debug, PartialEq, Eq)]
pub enum Mark {
    /// `(`
    OpenParenthesis,
    /// `)`
    CloseParenthesis,
    /// `{`
    OpenBrace,
    /// `}`
    CloseBrace,
    /// `;`
    Semicolon,
    /// `:`
    Colon,
    /// `,`
    Comma,
    /// `=`
    Assign,
    /// `+=`
    AddAssign,
    /// `!`
    Not,
    /// `-`
    Minus,
    /// `~`
    Complement,
    /// `*`
    Star,
    /// `/`
    Slash,
    /// `%`
    Percent,
    /// `+`
    Plus,
    /// `<<`
    ShiftLeft,
    /// `>>`
    ShiftRight,
    /// `<`
    Less,
    /// `<=`
    LessOrEqual,
    /// `>`
    Greater,
    /// `>=`
    GreaterOrEqual,
    /// `==`
    Equal,
    /// `!=`
    NotEqual,
    /// `&`
    And,
    /// `&&`
    AndAnd,
    /// `|`
    Or,
    /// `||`
    OrOr,
    /// `?`
    Question,
}

/// What kind of token it is.
#[derive(Clone, Copy, Debug, PartialEq, Eq)]
pub enum TokenKind {
    /// A name, or `.`.
    Name,
    /// A number with its suffix.
    Number,
    /// Bytes in double quotes.
    Text,
    /// `/DISCARD/` outside a pattern.
    Discard,
    /// A word, in which there may be pattern signs.
    Word,
    /// A mark.
    Punctuation(Mark),
}

/// A token as a range of the text. A text may have as many tokens as bytes, so it takes only 16 bytes.
#[derive(Clone, Copy, Debug, PartialEq, Eq)]
pub struct CodeToken {
    /// What it is.
    pub kind: TokenKind,
    /// The index of its first byte; for a text in double quotes, that of the first byte between them.
    pub start: u32,
    /// The index after its last byte, and at least `start`.
    pub end: u32,
    /// The line in the text, from 1.
    pub line: u32,
}

impl CodeToken {
    /// The bytes of the token.
    pub fn bytes<'a>(&self, text: &'a [u8]) -> &'a [u8]
        requires { IsInText (length text.now) self.now }
        ensures { result.now ≡ slice_range text.now self.now.start self.now.end }
    {
        &text[self.start as usize..self.end as usize]
    }
}

/// A stretch of an output section's body that is read as an expression.
#[derive(Clone, Copy, Debug, PartialEq, Eq)]
pub enum ExpressionStretch {
    /// None.
    Closed,
    /// None yet, but one begins if a `(` comes next.
    Awaited,
    /// Through the next `;`.
    ToSemicolon,
    /// Through the `)` that closes the last of this many open parentheses.
    ToParenthesis(usize),
}

/// What the mode depends on: the number of open braces, and the stretch.
#[derive(Clone, Copy, Debug, PartialEq, Eq)]
pub struct LexState {
    /// The number of `{` minus that of `}` so far; a `}` at 0 leaves it at 0.
    pub depth: usize,
    /// The stretch that is open here.
    pub stretch: ExpressionStretch,
}
