//! The parts of a pattern.

ghost use Rattle.std.specs.Prelude.{◌≡◌, ◌↔◌, ◌∷◌, [], IsTrue, MatchBool, length};
ghost use Rattle.ldscript_terms.specs.CodeTerms.{IsInText, IsSingle, code_byte, part_of};
ghost use Rattle.ldscript_terms.specs.Matching.{Meets};

use crate::set::set_has;

/// A part of a pattern, beside the word that spells the pattern.
#[derive(Clone, Copy, Debug, PartialEq, Eq)]
pub enum CodePart {
    /// `*`: any run of bytes, also an empty one.
    AnyRun,
    /// `?`: any one byte.
    AnyByte,
    /// This byte.
    Byte(u8),
    /// One byte of the set that the word spells from the first offset up to the second.
    OneOf(usize, usize),
}

impl CodePart {
    /// Whether it is `*`.
    pub fn is_any_run(self) -> bool
        ensures { MatchBool result (self ≡ CodePart.AnyRun) (IsSingle self) }
    {
        matches!(self, CodePart::AnyRun)
    }

    /// Whether a part other than `*` matches this byte.
    pub fn is_met_by(self, word: &[u8], byte: u8) -> bool
        requires { IsInText (length word.now) self }
        ensures { IsTrue result ↔ Meets (part_of word.now self) (byte ∷ []) }
    {
        match self {
            CodePart::AnyRun | CodePart::AnyByte => true,
            CodePart::Byte(b) => b == byte,
            CodePart::OneOf(start, end) => set_has(&word[start..end], byte),
        }
    }

    /// The byte, if the part is a single byte.
    pub fn byte(self) -> Option<u8>
        ensures { result ≡ code_byte self }
    {
        match self {
            CodePart::Byte(b) => Some(b),
            _ => None,
        }
    }
}
