//! Matching of a name.

ghost use Rattle.std.specs.Prelude.{◌≡◌, ◌≢◌, ◌↔◌, ◌≤◌, ◌<◌, ◌∷◌, [], IsTrue, List, MatchOption, drop, length, true};
ghost use Rattle.std.specs.Prelude.{slice_index};
ghost use Rattle.ldscript_terms.specs.Parts.{AnyRun, Part};
ghost use Rattle.ldscript_terms.specs.Matching.{Matches};
ghost use Rattle.ldscript_terms.specs.Spelling.{SpellsPattern, is_plain};
ghost use Rattle.ldscript_terms.specs.Trying.{IsWithin, Passed, TriedAs};

use crate::bytes::is_plain;
use crate::word::{first_part, is_at_end};

/// The result of matching parts at the front of a name.
#[derive(Clone, Copy)]
pub enum Tried<'w, 'n> {
    /// Each part took one byte, and the name ends with the last.
    Whole,
    /// Each part before a `*` took one byte. These are the rest of the word after the `*`, and of the name.
    Star(&'w [u8], &'n [u8]),
    /// No match from here: a part does not match, or the name is too short or too long.
    Missed,
}

/// The first of these bytes, and the others.
fn split(bytes: &[u8]) -> Option<(u8, &[u8])>
    ensures { MatchOption result (bytes.now ≡ []) (λ x. bytes.now ≡ x.0 ∷ x.1.now) }
{
    let (first, rest) = bytes.split_first()?;
    Some((*first, rest))
}

/// The number of bytes at the front of a word that spell themselves and are those at the front of a name.
fn plain_run(word: &[u8], name: &[u8]) -> usize
    ensures word { result ≤ length word.now }
    ensures name { result ≤ length name.now }
    ensures passed { (ps : List Part) → SpellsPattern ps word.now → (qs : List Part) × SpellsPattern qs
        (drop result word.now)
        × Passed ps qs name.now (drop result name.now) }
    ensures apart { result < length word.now → result < length name.now
        → is_plain (slice_index word.now result) ≡ true
        → slice_index word.now result ≢ slice_index name.now result }
{
    let mut count = 0;
    while count < word.len() && count < name.len() {
        let byte = word[count];
        if byte != name[count] || !is_plain(byte) {
            return count;
        }
        count += 1;
    }
    count
}

/// Matches each part of a word with a byte at the front of the name, up to the first `*`.
fn try_front<'w, 'n>(word: &'w [u8], name: &'n [u8]) -> Tried<'w, 'n>
    ensures value { (ps : List Part) → SpellsPattern ps word.now → TriedAs ps name.now result }
    ensures within { IsWithin (length word.now) (length name.now) result }
{
    let count = plain_run(word, name);
    // most words that do not match end here, so that none of their parts is made
    if count < word.len() && is_plain(word[count]) {
        return Tried::Missed;
    }
    let mut rest = &word[count..];
    let mut left = &name[count..];
    while let Some((part, more)) = first_part(rest) {
        if part.is_any_run() {
            return Tried::Star(more, left);
        }
        let Some((byte, others)) = split(left) else {
            return Tried::Missed;
        };
        if !part.is_met_by(rest, byte) {
            return Tried::Missed;
        }
        rest = more;
        left = others;
    }
    match split(left) {
        None => Tried::Whole,
        Some(_) => Tried::Missed,
    }
}

/// Whether a name is matched by `*` and then the parts of a word. A `*` at the end of a word takes all that is left.
fn matches_behind_star(word: &[u8], name: &[u8]) -> bool
    ensures { (ps : List Part) → SpellsPattern ps word.now → IsTrue result ↔ Matches (AnyRun ∷ ps) name.now }
{
    let mut after = word;
    let mut left = name;
    loop {
        if is_at_end(after) {
            return true;
        }
        match try_front(after, left) {
            Tried::Whole => return true,
            Tried::Star(rest, behind) => {
                after = rest;
                left = behind;
            }
            Tried::Missed => match split(left) {
                None => return false,
                Some((_, others)) => left = others,
            },
        }
    }
}

/// Whether the parts that a word spells match the whole name.
pub fn matches_word(word: &[u8], name: &[u8]) -> bool
    ensures { (parts : List Part) → SpellsPattern parts word.now → IsTrue result ↔ Matches parts name.now }
{
    match try_front(word, name) {
        Tried::Whole => true,
        Tried::Star(rest, left) => matches_behind_star(rest, left),
        Tried::Missed => false,
    }
}
