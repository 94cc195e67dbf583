//! The words of a script, by what their patterns match.

ghost use Rattle.std.specs.Prelude.{◌≡◌, ◌++◌, ◌∷◌, [], ℕ, List, IfOk, MatchOption, Option, OnOk, bytes_eq, is_some};
ghost use Rattle.std.specs.Prelude.{if◌then◌else◌};
ghost use Rattle.std.specs.BTreeMap.{get_by};
ghost use Rattle.std.specs.Cmp.Lexicographic.{slice_cmp};
ghost use Rattle.std.specs.List.{filter};
ghost use Rattle.std.specs.Ordering.{nat_cmp};
ghost use Rattle.ldscript.specs.statements.NameKinds.{AreKindsOf};
ghost use Rattle.gather.specs.Known.{AreKnown};
ghost use Rattle.gather.specs.Matches.{number_of};
ghost use Rattle.gather.specs.Words.{first_taker, is_named, is_wild, lesser, shown_word, shown_words, words_of};

use crate::word::{WordAt, first_taker};
use growth::{NoMemory, btree_map, vec};
use ldmodel::rows::InputIndex;
use ldscript::statements::name_kinds::NameKinds;
use ldscript::tree::{Input, SectionWord};
use std::alloc::Global;
use std::collections::BTreeMap;

/// From this many excluded file patterns on a word costs more than to look for an earlier section of the same name.
const MANY: usize = 16;

/// The words of a script in the order of the text: those that match one name under that name, and the others in a list.
#[derive(Drop)]
pub struct WordTable<'a> {
    named: BTreeMap<&'a [u8], Vec<WordAt<'a>>>,
    /// The kinds of these names: most sections have a name of none of them.
    kinds: NameKinds,
    wild: Vec<WordAt<'a>>,
    /// The greatest number of file patterns that a word under a name excludes.
    excluded: usize,
    ghost known: { AreKindsOf kinds (λ name. is_some (get_by (λ k. slice_cmp nat_cmp name k.now) named)) },
}

/// The one of two statements that comes first.
pub fn lesser(a: Option<InputIndex>, b: Option<InputIndex>) -> Option<InputIndex>
    ensures { number_of result ≡ lesser (number_of a) (number_of b) }
{
    match (a, b) {
        (Some(m), Some(n)) => Some(InputIndex(m.0.min(n.0))),
        (None, found) | (found, None) => found,
    }
}

impl<'a> WordTable<'a> {
    ghost use Rattle.gather.specs.WordTables.{AddsWords, listed, shown_listed};

    /// The table of no words.
    pub fn new(alloc: Global) -> WordTable<'a>
        ensures named { (name : List ℕ) → shown_listed result name ≡ [] }
        ensures wild { shown_words result.wild.items ≡ [] }
    {
        WordTable {
            named: BTreeMap::new(alloc),
            kinds: NameKinds::none(),
            wild: Vec::new(alloc),
            excluded: 0,
        }
    }

    /// Adds a word that matches this name alone.
    fn add_named(&mut self, alloc: Global, name: &'a [u8], word: WordAt<'a>) -> Result<(), NoMemory>
        ensures named { OnOk result ((q : List ℕ) → listed self.new q
            ≡ (if bytes_eq name.now q then listed self.old q ++ word.entry ∷ [] else listed self.old q)) }
        ensures wild { self.new.wild ≡ self.old.wild }
    {
        self.kinds.note(name);
        match self.named.get_mut(name) {
            Some(words) => {
                vec::push(words, word)?;
                Ok(())
            }
            None => {
                let mut words = Vec::new(alloc);
                vec::push(&mut words, word)?;
                btree_map::insert(&mut self.named, name, words)?;
                Ok(())
            }
        }
    }

    /// Adds a word.
    fn add(&mut self, alloc: Global, word: WordAt<'a>) -> Result<(), NoMemory>
        ensures { OnOk result (AddsWords self.old self.new (shown_word word.entry ∷ [])) }
    {
        match word.word.pattern.exact_name() {
            Some(name) => {
                self.excluded = self.excluded.max(word.word.excluded.as_slice().len());
                self.add_named(alloc, name, word)
            }
            None => {
                vec::push(&mut self.wild, word)?;
                Ok(())
            }
        }
    }

    /// Adds the words of a statement.
    pub fn add_statement(
        &mut self,
        alloc: Global,
        statement: InputIndex,
        input: &'a Input,
    ) -> Result<(), NoMemory>
        ensures { OnOk result (AddsWords self.old self.new (words_of statement.0 input.now input.now.sections)) }
    {
        for word in input.sections.as_slice() {
            self.add(
                alloc,
                WordAt {
                    statement,
                    input,
                    word,
                },
            )?;
        }
        Ok(())
    }

    /// The words that match this name alone.
    fn words_named(&self, name: &[u8]) -> Option<&[WordAt<'a>]>
        ensures { MatchOption result (listed self.now name.now ≡ []) (λ words. words.now ≡ listed self.now name.now) }
    {
        if !self.kinds.has_kind_of(name) {
            return None;
        }
        let words = self.named.get(name)?;
        Some(words.as_slice())
    }

    /// What `first_taker` takes as `known` for a file of which nothing is known yet.
    ///
    /// # Errors
    ///
    /// If memory runs out.
    pub fn nothing_known(&self, alloc: Global) -> Result<Vec<Option<bool>>, NoMemory>
        ensures { IfOk result (λ known. (file : List ℕ) → AreKnown file self.now.wild.items known.items) }
    {
        vec::from_elem(alloc, None, self.wild.len())
    }

    /// Whether a word under a name excludes many file patterns.
    pub fn excludes_many(&self) -> bool {
        self.excluded >= MANY
    }

    /// The first statement that takes the sections of this name in the file of this name, by a word of the table.
    /// `known` says of each word in the list of others whether it takes sections from the file, if that was found out.
    pub fn first_taker(
        &self,
        known: &mut [Option<bool>],
        file: &[u8],
        section: &[u8],
    ) -> Option<InputIndex>
        requires { AreKnown file.now self.now.wild.items known.old }
        ensures taker { number_of result
            ≡ lesser (first_taker file.now section.now (shown_listed self.now section.now))
            (first_taker file.now section.now (shown_words self.now.wild.items)) }
        ensures known { AreKnown file.now self.now.wild.items known.new }
    {
        let wild = first_taker(&self.wild, known, file, section);
        match self.words_named(section) {
            Some(words) => lesser(first_taker(words, &mut [], file, section), wild),
            None => wild,
        }
    }
}
