//! Where input sections stand in a list, by their numbers.

ghost use Rattle.std.specs.Prelude.{◌≡◌, ◌<◌, IfOk, IfSome, length, option_and_then};
ghost use Rattle.gather.specs.GatheredSections.{AreGathered};
ghost use Rattle.gather.specs.SectionPlaces.{AreProjectPlaces, place_in, place_under, with_place};
ghost use Rattle.gather.specs.SectionTable.{IsTableOf};

use crate::gathered_section::GatheredSection;
use crate::input_section_table::{InputSectionTable, SectionNumber};
use crate::law::sections_apart;
use growth::{NoMemory, vec};
use ldmodel::sections::SectionRef;
use ldmodel_project::view::ProjectView;
use std::alloc::Global;

/// The places of the input sections of a project, from 0 in their order: a column of their table.
#[derive(Drop)]
pub(crate) struct Places<'a> {
    /// The numbers of the input sections.
    pub(crate) table: &'a InputSectionTable,
    /// For each number the place of the section that has it, if one does.
    pub(crate) places: &'a [Option<usize>],
}

/// Puts the place of the section of a number, if there is one.
fn put(places: &mut Vec<Option<usize>>, id: Option<SectionNumber>, place: usize)
    requires { IfSome id (λ i. i.0 < length places.old.items) }
    ensures { places.new.items ≡ with_place id place places.old.items }
{
    if let Some(id) = id {
        places[id.0 as usize] = Some(place);
    }
}

/// For each number of a table the place of the section that has it, among these sections.
///
/// # Errors
///
/// If memory runs out.
pub(crate) fn places_of(
    alloc: Global,
    project: &ProjectView<'_>,
    table: &InputSectionTable,
    sections: &[GatheredSection],
) -> Result<Vec<Option<usize>>, NoMemory>
    requires table { IsTableOf project.now table.now }
    requires sections { AreGathered project.now sections.now }
    ensures { IfOk result (λ v. AreProjectPlaces project.now (place_under table.now v.items)) }
{
    // for the prover: brings in this law
    sections_apart();
    let mut places = vec::from_elem(alloc, None, table.len() as usize)?;
    for (place, section) in sections.iter().enumerate() {
        let key = section.section;
        put(&mut places, table.find(key.object, key.part), place);
    }
    Ok(places)
}

impl Places<'_> {
    /// The place of the section of a key, if it has one. For a section the time is constant, for a common block it is
    /// logarithmic in the number of common blocks.
    pub(crate) fn find(&self, key: Option<SectionRef>) -> Option<usize>
        ensures { result ≡ option_and_then (place_in self.now) key }
    {
        let key = key?;
        let id = self.table.find(key.object, key.part)?;
        self.places.get(id.0 as usize).copied().unwrap_or(None)
    }
}
