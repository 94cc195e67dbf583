//! Laws of the grammar.

ghost use Rattle.std.specs.Prelude.{ℕ, List, []};
ghost use Rattle.ldscript_tokens.specs.Tokens.{Lexeme, Name, Number, Text, Discard, Word, Punctuation};
ghost use Rattle.ldscript_tokens.specs.declared.token.Mark.TheVariants.{OpenParenthesis, CloseParenthesis, OpenBrace};
ghost use Rattle.ldscript_tokens.specs.declared.token.Mark.TheVariants.{CloseBrace, Semicolon, Colon, Comma, Assign};
ghost use Rattle.ldscript_tokens.specs.declared.token.Mark.TheVariants.{AddAssign};
ghost use Rattle.ldscript_terms.specs.Reading.{OneTree, OneReading, Stops, EndsAt};
ghost use Rattle.ldscript_terms.specs.Grammar.{Whole};

/// No tokens have two trees: if the tokens after an expression cannot continue it, then its tree and these tokens are
/// the only ones.
pub fn one_tree()
    ensures trees { (tokens : List Lexeme) → OneTree tokens }
    ensures readings { (tokens : List Lexeme) → OneReading tokens }
{}

/// An expression cannot continue at the end of the tokens, at a mark of a statement, or at a token that is no mark.
pub fn ends()
    ensures tokens { Stops Whole [] }
    ensures names { (name : List ℕ) → EndsAt (Name name) }
    ensures numbers { (spelled : List ℕ) → EndsAt (Number spelled) }
    ensures texts { (content : List ℕ) → EndsAt (Text content) }
    ensures words { (word : List ℕ) → EndsAt (Word word) }
    ensures discard { EndsAt Discard }
    ensures parentheses { EndsAt (Punctuation OpenParenthesis) × EndsAt (Punctuation CloseParenthesis) }
    ensures braces { EndsAt (Punctuation OpenBrace) × EndsAt (Punctuation CloseBrace) }
    ensures parts { EndsAt (Punctuation Semicolon) × EndsAt (Punctuation Colon) × EndsAt (Punctuation Comma) }
    ensures assignments { EndsAt (Punctuation Assign) × EndsAt (Punctuation AddAssign) }
{}
