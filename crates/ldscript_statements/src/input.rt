//! Input statements: which sections of which files go here.

ghost use Rattle.std.specs.Prelude.{◌≡◌, true};

use crate::sequence::Sequence;
use ldscript_terms::pattern::Pattern;

/// The order of the sections that a statement takes.
#[derive(Clone, Copy, Debug, PartialEq, Eq)]
pub enum Sort {
    /// By their names: `SORT` or `SORT_BY_NAME`.
    ByName,
    /// By alignment, the greatest first: `SORT_BY_ALIGNMENT`.
    ByAlignment,
}

/// A pattern of section names, with the files that it excludes.
#[derive(Drop)]
pub struct SectionWord {
    /// The pattern of the section's name.
    pub pattern: Pattern,
    /// `EXCLUDE_FILE(..)` before it: no section is taken from a file whose name matches one of these. Empty without it.
    pub excluded: Sequence<Pattern>,
}

/// The files and the sections that an input statement takes.
#[derive(Drop)]
pub struct Input {
    /// Whether it is under `KEEP`.
    pub keep: bool,
    /// The pattern of the file's name.
    pub file: Pattern,
    /// The sort, if any; else sections are in the order of the files.
    pub sort: Option<Sort>,
    /// One or more words; a section is taken if it matches one of them. Under a `sort` none excludes a file.
    pub sections: Sequence<SectionWord>,
}

/// An input statement.
#[derive(Drop)]
pub struct InputStatement {
    /// The line of the first token, which is `KEEP` if the statement has it.
    pub line: u32,
    /// What it takes.
    pub input: Input,
}

/// Whether two lists have the same patterns, one by one.
fn are_same_patterns(one: &[Pattern], other: &[Pattern]) -> bool
    ensures { result ≡ true → one.now ≡ other.now }
{
    if one.len() != other.len() {
        return false;
    }
    for number in 0..one.len() {
        if !one[number].is_same(&other[number]) {
            return false;
        }
    }
    true
}

/// Whether two words are written with the same patterns.
fn is_same_word(one: &SectionWord, other: &SectionWord) -> bool
    ensures { result ≡ true → one.now ≡ other.now }
{
    one.pattern.is_same(&other.pattern)
        && are_same_patterns(one.excluded.as_slice(), other.excluded.as_slice())
}

/// Whether two lists have the same words, one by one.
fn are_same_words(one: &[SectionWord], other: &[SectionWord]) -> bool
    ensures { result ≡ true → one.now ≡ other.now }
{
    if one.len() != other.len() {
        return false;
    }
    for number in 0..one.len() {
        if !is_same_word(&one[number], &other[number]) {
            return false;
        }
    }
    true
}

impl Input {
    /// Whether another statement takes the same sections of the same files in the same order, written with the same
    /// patterns. It takes no memory.
    pub fn is_same(&self, other: &Input) -> bool
        ensures { result ≡ true → self.now ≡ other.now }
    {
        self.keep == other.keep
            && self.sort == other.sort
            && self.file.is_same(&other.file)
            && are_same_words(self.sections.as_slice(), other.sections.as_slice())
    }
}
