//! The words of a script, by the files that their statements are for.

ghost use Rattle.std.specs.Prelude.{◌≡◌, [], ℕ, IfOk, List, OnOk};
ghost use Rattle.gather.specs.FileTables.{AddsOf, AddsOwn, first_in, own_listed, own_wild};
ghost use Rattle.gather.specs.Known.{AreKnown};
ghost use Rattle.gather.specs.Matches.{number_of};
ghost use Rattle.gather.specs.WordTables.{shown_listed};
ghost use Rattle.gather.specs.Words.{shown_words, words_of};

use crate::word_table::{WordTable, lesser};
use growth::{NoMemory, btree_map};
use ldmodel::rows::InputIndex;
use ldscript::tree::Input;
use std::alloc::Global;
use std::collections::BTreeMap;

/// The words of a script: those of statements for one file under the name of the file, and the others in a table of
/// their own.
#[derive(Drop)]
pub struct FileTables<'a> {
    own: BTreeMap<&'a [u8], WordTable<'a>>,
    others: WordTable<'a>,
}

impl<'a> FileTables<'a> {
    /// The tables of no words.
    pub fn new(alloc: Global) -> FileTables<'a>
        ensures own { (file name : List ℕ) → own_listed result file name ≡ [] }
        ensures own_wild { (file : List ℕ) → own_wild result file ≡ [] }
        ensures others { (name : List ℕ) → shown_listed result.others name ≡ [] }
        ensures others_wild { shown_words result.others.wild.items ≡ [] }
    {
        FileTables {
            own: BTreeMap::new(alloc),
            others: WordTable::new(alloc),
        }
    }

    /// Adds the words of a statement for the file of this name alone.
    fn add_own(
        &mut self,
        alloc: Global,
        file: &'a [u8],
        statement: InputIndex,
        input: &'a Input,
    ) -> Result<(), NoMemory>
        ensures own { OnOk result (AddsOwn self.old self.new file.now
            (words_of statement.0 input.now input.now.sections)) }
        ensures others { self.new.others ≡ self.old.others }
    {
        match self.own.get_mut(file) {
            Some(own) => own.add_statement(alloc, statement, input),
            None => {
                let mut own = WordTable::new(alloc);
                own.add_statement(alloc, statement, input)?;
                btree_map::insert(&mut self.own, file, own)?;
                Ok(())
            }
        }
    }

    /// Adds the words of a statement.
    pub fn add_statement(
        &mut self,
        alloc: Global,
        statement: InputIndex,
        input: &'a Input,
    ) -> Result<(), NoMemory>
        ensures { OnOk result (AddsOf self.old self.new (words_of statement.0 input.now input.now.sections)) }
    {
        match input.file.exact_name() {
            Some(file) => self.add_own(alloc, file, statement, input),
            None => self.others.add_statement(alloc, statement, input),
        }
    }

    /// What `first_taker` takes as `known` for a file of which nothing is known yet.
    ///
    /// # Errors
    ///
    /// If memory runs out.
    pub fn nothing_known(&self, alloc: Global) -> Result<Vec<Option<bool>>, NoMemory>
        ensures { IfOk result (λ known. (file : List ℕ) → AreKnown file self.now.others.wild.items known.items) }
    {
        self.others.nothing_known(alloc)
    }

    /// Whether a word that can take sections of the file of this name, and that matches one name, excludes many file
    /// patterns.
    pub fn excludes_many(&self, file: &[u8]) -> bool {
        match self.own.get(file) {
            Some(own) => own.excludes_many() || self.others.excludes_many(),
            None => self.others.excludes_many(),
        }
    }

    /// The first statement that takes the sections of this name in the file of this name. `known` is `nothing_known` or
    /// what an earlier call for the same file left of it, or empty.
    pub fn first_taker(
        &self,
        known: &mut [Option<bool>],
        file: &[u8],
        section: &[u8],
    ) -> Option<InputIndex>
        requires { AreKnown file.now self.now.others.wild.items known.old }
        ensures taker { number_of result ≡ first_in self.now file.now section.now }
        ensures known { AreKnown file.now self.now.others.wild.items known.new }
    {
        let own = match self.own.get(file) {
            Some(own) => own.first_taker(&mut [], file, section),
            None => None,
        };
        lesser(own, self.others.first_taker(known, file, section))
    }
}
