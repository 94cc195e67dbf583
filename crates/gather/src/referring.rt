//! The input sections that relocations refer to, by their places.

ghost use Rattle.std.specs.Prelude.{◌≡◌, ◌==◌, ◌++◌, OnOk, length, option_to_list, []};
ghost use Rattle.std.specs.List.{find};
ghost use Rattle.std.specs.Option.{option_map_or};
ghost use Rattle.elfobj.specs.Sections.{LinkedSection};
ghost use Rattle.gather.specs.Found.{relocations_of};
ghost use Rattle.gather.specs.Referring.{CanRefer};
ghost use Rattle.gather.specs.SectionPlaces.{AddsTargets, IsPlaceOf, Refers, place_at};
ghost use Rattle.gather.specs.Symbols.{IsObjectAt};
ghost use Rattle.ldmodel.specs.InputSections.{input_sections};
ghost use Rattle.ldmodel.specs.Live.{target_section};

use crate::gathered_section::GatheredSection;
use crate::places::Places;
use crate::references::References;
use crate::targets::section_at;
use elfobj::relocation::SymbolIndex;
use elfobj::section::SectionIndex;
use elfobj::{Object, Relocation};
use growth::{NoMemory, vec};
use ldmodel::names::{NameKey, ObjectPlace};
use ldmodel::sections::Part;
use ldmodel_project::view::ProjectView;
use symres::SymbolTable;
use symres::declaring::declares;

/// Adds the number of a section, if there is one.
fn add_number(targets: &mut Vec<usize>, number: Option<usize>) -> Result<(), NoMemory>
    ensures { OnOk result (targets.new.items ≡ targets.old.items ++ option_to_list number) }
{
    match number {
        Some(number) => {
            vec::push(targets, number)?;
            Ok(())
        }
        None => Ok(()),
    }
}

/// The relocations of the section of this header number; none if it is no linked one.
fn relocations_at(object: &Object, number: SectionIndex) -> &[Relocation]
    ensures { result.now ≡ option_map_or (λ (section : LinkedSection). section.relocations)
        (find (λ (section : LinkedSection). section.number.0 == number.0) object.now.sections) [] }
{
    // for the prover: brings in the invariant of `object`, of its sections
    let _sections = object.sections();
    match object.section_at(number) {
        Some(place) => object.relocations(place),
        None => &[],
    }
}

/// The place under the key of a name in a column, if there is one.
fn place_of_name(by_key: &[Option<usize>], key: NameKey) -> Option<usize>
    ensures { result ≡ place_at by_key.now key.0 }
{
    by_key.get(key.0).copied().unwrap_or(None)
}

/// The references between the input sections of a project, by the relocations of these. They are found anew for each
/// section that is asked for, and nothing is kept of them. The time for a section grows with its relocations.
#[derive(Drop)]
pub(crate) struct ProjectReferences<'a, 'p> {
    pub(crate) project: &'a ProjectView<'p>,
    pub(crate) symbol_table: &'a SymbolTable,
    pub(crate) places: &'a Places<'a>,
    /// For each key of a name the place of the section that the name is defined in.
    pub(crate) by_key: &'a [Option<usize>],
    pub(crate) sections: &'a [GatheredSection],
}

impl<'a, 'p> ProjectReferences<'a, 'p> {
    /// The place of the section that a relocation of the object at a place refers to, if its target is in one. What
    /// names stand for was looked up before, once for each. The time is constant.
    fn target_place(&self, place: usize, object: &Object, relocation: &Relocation) -> Option<usize>
        requires references { CanRefer self.now }
        requires object { IsObjectAt self.now.project.now place object.now }
        ensures { IsPlaceOf self.now.project.now (target_section self.now.project.now place relocation.now) result }
    {
        let number = relocation.symbol.0 as usize;
        let symbols = object.symbols();
        if number >= symbols.len() {
            return None;
        }
        if declares(symbols[number].binding) {
            let key = self
                .symbol_table
                .key_of(ObjectPlace(place), SymbolIndex(number as u32));
            return place_of_name(self.by_key, key);
        }
        self.places
            .find(section_at(ObjectPlace(place), symbols[number].place))
    }

    /// Adds the places of the sections that these relocations of the object at a place refer to.
    fn add_targets(
        &self,
        place: usize,
        object: &Object,
        relocations: &[Relocation],
        targets: &mut Vec<usize>,
    ) -> Result<(), NoMemory>
        requires references { CanRefer self.now }
        requires object { IsObjectAt self.now.project.now place object.now }
        ensures { OnOk result (AddsTargets self.now.project.now place relocations.now
            targets.old.items targets.new.items) }
    {
        for relocation in relocations {
            let target = self.target_place(place, object, relocation);
            add_number(targets, target)?;
        }
        Ok(())
    }

    /// Adds the places of the sections that an input section refers to.
    fn add_row(&self, section: &GatheredSection, targets: &mut Vec<usize>) -> Result<(), NoMemory>
        requires references { CanRefer self.now }
        ensures { OnOk result (AddsTargets self.now.project.now section.now.section.object.0
            (relocations_of self.now.project.now section.now.section.object.0 section.now.section.part)
            targets.old.items targets.new.items) }
    {
        let key = section.section;
        match key.part {
            Part::InTable(number) => match self.project.object(key.object) {
                Some(object) => {
                    let relocations = relocations_at(object, number);
                    self.add_targets(key.object.0, object, relocations, targets)
                }
                None => Ok(()),
            },
            Part::InCommon(_) => Ok(()),
        }
    }
}

impl<'a, 'p> References for ProjectReferences<'a, 'p> {
    ghost can_find = { CanRefer };

    ghost count = { λ r. length (input_sections r.project.now) };

    ghost refers = { λ r. Refers r.project.now };

    fn find_targets(&self, section: usize, targets: &mut Vec<usize>) -> Result<(), NoMemory> {
        targets.clear();
        self.add_row(&self.sections[section], targets)
    }
}
