//! A word of an input statement.

ghost use Rattle.std.specs.Prelude.{◌≡◌, ◌<◌, length};
ghost use Rattle.ldmodel.specs.FirstMatch.{is_any_match};
ghost use Rattle.ldscript.specs.terms.Matching.{is_match};
ghost use Rattle.gather.specs.Known.{AreKnown, SaysFrom, SaysTaken};
ghost use Rattle.gather.specs.Matches.{number_of};
ghost use Rattle.gather.specs.Words.{first_taker, shown_word, shown_words, takes_from};

use ldmodel::rows::InputIndex;
use ldscript::terms::pattern_law::match_by_splitting;
use ldscript::tree::{Input, Pattern, SectionWord, matches};

/// A word of an input statement, with the statement.
#[derive(Clone, Copy)]
pub struct WordAt<'a> {
    /// The number of the statement.
    pub statement: InputIndex,
    /// The statement.
    pub input: &'a Input,
    /// The word.
    pub word: &'a SectionWord,
}

/// Whether a pattern matches the name. A lone `*` does so without a look at the name.
fn is_match(pattern: &Pattern, name: &[u8]) -> bool
    ensures { result ≡ is_match pattern.now name.now }
{
    // for the prover: brings in this law
    match_by_splitting();
    pattern.is_any() || matches(pattern, name)
}

/// Whether some pattern matches the name.
fn is_any_match(patterns: &[Pattern], name: &[u8]) -> bool
    ensures { result ≡ is_any_match patterns.now name.now }
{
    patterns.iter().any(|pattern| is_match(pattern, name))
}

impl WordAt<'_> {
    /// Whether its statement takes sections from the file of this name by this word, those whose names match it.
    fn takes_from(&self, file: &[u8]) -> bool
        ensures { result ≡ takes_from file.now (shown_word self.now) }
    {
        is_match(&self.input.file, file) && !is_any_match(self.word.excluded.as_slice(), file)
    }
}

/// Finds out whether the word at this place takes sections from the file of this name, and notes it in `known`.
fn find_out(words: &[WordAt<'_>], known: &mut [Option<bool>], place: usize, file: &[u8]) -> bool
    requires place { place < length words.now }
    requires known { AreKnown file.now words.now known.old }
    ensures found { SaysFrom file.now words.now place result }
    ensures known { AreKnown file.now words.now known.new }
{
    let found = words[place].takes_from(file);
    if place < known.len() {
        known[place] = Some(found);
    }
    found
}

/// Whether the word at this place takes the sections of this name in the file of this name.
fn takes(
    words: &[WordAt<'_>],
    known: &mut [Option<bool>],
    place: usize,
    file: &[u8],
    section: &[u8],
) -> bool
    requires place { place < length words.now }
    requires known { AreKnown file.now words.now known.old }
    ensures taken { SaysTaken file.now section.now words.now place result }
    ensures known { AreKnown file.now words.now known.new }
{
    let word: &SectionWord = words[place].word;
    match known.get(place) {
        Some(Some(found)) => *found && is_match(&word.pattern, section),
        Some(None) | None => is_match(&word.pattern, section)
            && find_out(words, known, place, file),
    }
}

/// The statement of the first of these words that takes the section. `known` says of each of the first words, as many
/// as it has entries, whether it takes sections from the file, if that was found out.
pub fn first_taker(
    words: &[WordAt<'_>],
    known: &mut [Option<bool>],
    file: &[u8],
    section: &[u8],
) -> Option<InputIndex>
    requires { AreKnown file.now words.now known.old }
    ensures taker { number_of result ≡ first_taker file.now section.now (shown_words words.now) }
    ensures known { AreKnown file.now words.now known.new }
{
    for (place, word) in words.iter().enumerate() {
        if takes(words, known, place, file, section) {
            return Some(word.statement);
        }
    }
    None
}
