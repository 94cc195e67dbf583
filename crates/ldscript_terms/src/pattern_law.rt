//! Laws of the definitions.

ghost use Rattle.std.specs.Prelude.{◌≡◌, ◌↔◌, ℕ, List, true};
ghost use Rattle.ldscript_terms.specs.Parts.{Part};
ghost use Rattle.ldscript_terms.specs.Spelling.{SpellsPattern};
ghost use Rattle.ldscript_terms.specs.Matching.{Matches, is_match};

/// The test of a name says exactly whether the name can be split among the pattern's parts.
#[tactic(auto, using(crate::proofs::Testing::match_by_splitting))]
pub fn match_by_splitting()
    ensures { (pattern : List Part) (name : List ℕ) → (is_match pattern name ≡ true) ↔ Matches pattern name }
{}

/// No word spells two patterns.
#[tactic(auto, using(crate::proofs::Reading::one_pattern))]
pub fn one_pattern()
    ensures { (pattern other : List Part) (word : List ℕ) → SpellsPattern pattern word → SpellsPattern other word
        → pattern ≡ other }
{}
