//! The parts of a word, one after the other.

ghost use Rattle.std.specs.Prelude.{◌≡◌, ◌↔◌, ◌<◌, ◌≤◌, ◌∷◌, [], IfOk, IfSome, IsTrue, List, MatchOption, drop, length};
ghost use Rattle.std.specs.Option.{option_map};
ghost use Rattle.ldscript_terms.specs.CodeTerms.{exact_name, IsInText, part_of};
ghost use Rattle.ldscript_terms.specs.Parts.{Part};
ghost use Rattle.ldscript_terms.specs.Spelling.{SpellsPattern};
ghost use Rattle.ldscript_terms.specs.Trying.{BeginsWith, EndsHere, IsSpelled};

use crate::front::front;
use crate::part::CodePart;
use growth::{NoMemory, vec};
use std::alloc::Global;

/// The rest of a word.
fn word_from(word: &[u8], at: usize) -> &[u8]
    requires { at ≤ length word.now }
    ensures { result.now ≡ drop at word.now }
{
    &word[at..]
}

/// The first part of a word, and the rest after it; `None` if the word has ended, or spells no pattern.
pub fn first_part(word: &[u8]) -> Option<(CodePart, &[u8])>
    ensures value { MatchOption result (EndsHere word.now) (λ x. BeginsWith word.now (part_of word.now x.0) x.1.now) }
    ensures within { IfSome result (λ x. IsInText (length word.now) x.0 × (length x.1.now < length word.now)) }
{
    if word.is_empty() {
        return None;
    }
    let spelled = front(word)?;
    Some((spelled.part, word_from(word, spelled.count)))
}

/// Whether a word has ended.
#[tactic(auto, using(crate::proofs::Reading::empty_test))]
pub fn is_at_end(word: &[u8]) -> bool
    ensures { IsTrue result → word.now ≡ [] }
{
    word.is_empty()
}

/// Whether two words have the same bytes.
pub fn is_same(left: &[u8], right: &[u8]) -> bool
    ensures { IsTrue result ↔ left.now ≡ right.now }
{
    left == right
}

/// Whether a word is `*` alone.
pub fn is_star(word: &[u8]) -> bool
    ensures { IsTrue result ↔ word.now ≡ 42 ∷ [] }
{
    matches!(word, [b'*'])
}

/// Whether a word spells a pattern.
pub fn is_spelled(word: &[u8]) -> bool
    ensures { IsTrue result ↔ IsSpelled word.now }
{
    let mut rest = word;
    while let Some((_, more)) = first_part(rest) {
        rest = more;
    }
    rest.is_empty()
}

/// The bytes of the pattern that a word spells, if it has no wildcard.
pub fn exact_bytes(alloc: Global, word: &[u8]) -> Result<Option<Vec<u8>>, NoMemory>
    ensures { IfOk result (λ found. (parts : List Part) → SpellsPattern parts word.now
        → option_map (λ bytes. bytes.items) found ≡ exact_name parts) }
{
    let mut bytes = Vec::new(alloc);
    let mut rest = word;
    while let Some((part, more)) = first_part(rest) {
        match part.byte() {
            Some(b) => vec::push(&mut bytes, b)?,
            None => return Ok(None),
        }
        rest = more;
    }
    Ok(Some(bytes))
}
