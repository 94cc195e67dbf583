//! Laws of the definitions.

ghost use Rattle.std.specs.Prelude.{◌≡◌, ℕ, List};
ghost use Rattle.ldscript_tokens.specs.Tokens.{Lexeme};
ghost use Rattle.ldscript_tokens.specs.Modes.{IsCut};

/// No text has two lists of tokens.
#[tactic(auto, using(crate::proofs::Cut::one_cut))]
pub fn one_cut()
    ensures { (text : List ℕ) (one other : List Lexeme) → IsCut text one → IsCut text other → one ≡ other }
{}
