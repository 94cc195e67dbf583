//! A search for the statements that take the sections of one file.

ghost use Rattle.std.specs.Prelude.{◌≡◌, ◌<◌, IfOk, Some, length, map, slice_get, take};
ghost use Rattle.elfobj.specs.Sections.{LinkedSection};
ghost use Rattle.gather.specs.FileSearches.{GoesOn, IsSearch, matches_by};
ghost use Rattle.gather.specs.FileTables.{first_in};
ghost use Rattle.gather.specs.Matches.{number_of};

use crate::file_tables::FileTables;
use crate::name_places::NamePlaces;
use elfobj::Object;
use elfobj::section::LinkedIndex;
use growth::{NoMemory, vec};
use ldmodel::rows::InputIndex;
use std::alloc::Global;

/// A search among the words of a script for those that take the sections of one file. It notes which words with
/// wildcards take sections from the file.
#[derive(Drop)]
struct FileSearch<'t, 'a> {
    words: &'t FileTables<'a>,
    file: &'t [u8],
    known: Vec<Option<bool>>,
}

impl<'t, 'a> FileSearch<'t, 'a> {
    /// A search that knows nothing yet.
    ///
    /// # Errors
    ///
    /// If memory runs out.
    fn new(
        alloc: Global,
        words: &'t FileTables<'a>,
        file: &'t [u8],
    ) -> Result<FileSearch<'t, 'a>, NoMemory>
        ensures words { IfOk result (λ s. s.words.now ≡ words.now) }
        ensures file { IfOk result (λ s. s.file.now ≡ file.now) }
        ensures search { IfOk result IsSearch }
    {
        let known = words.nothing_known(alloc)?;
        Ok(FileSearch { words, file, known })
    }

    /// The first statement that takes the sections of this name.
    fn first_taker(&mut self, section: &[u8]) -> Option<InputIndex>
        requires { IsSearch self.old }
        ensures taker { number_of result ≡ first_in self.old.words.now self.old.file.now section.now }
        ensures goes_on { GoesOn self.old self.new }
    {
        self.words.first_taker(&mut self.known, self.file, section)
    }

    /// The statement that takes the section of an object at this place. `found` are those of the sections before, and
    /// `places` has sections before it.
    fn match_at(
        &mut self,
        object: &Object,
        places: &NamePlaces<'_>,
        found: &[Option<InputIndex>],
        place: usize,
    ) -> Option<InputIndex>
        requires search { IsSearch self.old }
        requires place { place < length object.now.sections }
        requires found { map number_of found.now
            ≡ take place (matches_by self.old.words.now self.old.file.now object.now.sections) }
        ensures found { slice_get (matches_by self.old.words.now self.old.file.now object.now.sections) place
            ≡ Some (number_of result) }
        ensures goes_on { GoesOn self.old self.new }
    {
        match places.earlier(object, place) {
            Some(other) => found[other],
            None => self.first_taker(object.section_name(LinkedIndex(place))),
        }
    }
}

/// The statements that take the sections of an object of this name, in their order.
///
/// # Errors
///
/// If memory runs out.
pub fn matches_by(
    alloc: Global,
    words: &FileTables<'_>,
    file: &[u8],
    object: &Object,
) -> Result<Vec<Option<InputIndex>>, NoMemory>
    ensures { IfOk result (λ found. map number_of found.items ≡ matches_by words.now file.now object.now.sections) }
{
    let count = object.sections().len();
    let mut found = vec::with_capacity(alloc, count)?;
    let mut places = NamePlaces::new(alloc, words.excludes_many(file));
    let mut search = FileSearch::new(alloc, words, file)?;
    for place in 0..count {
        let statement = search.match_at(object, &places, &found, place);
        vec::push(&mut found, statement)?;
        places.add(object, place)?;
    }
    Ok(found)
}
