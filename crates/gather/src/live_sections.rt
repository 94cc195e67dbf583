//! What becomes of the live sections: statements take them, or they are orphans.

ghost use Rattle.std.specs.Prelude.{◌≡◌, ◌++◌, ◌∷◌, [], IfOk, OnOk, false, map, slice_index_or, if◌then◌else◌};
ghost use Rattle.ldmodel.specs.CodeValues.{section_id};
ghost use Rattle.ldmodel.specs.InputSections.{input_sections};
ghost use Rattle.ldmodel.specs.Live.{live, orphans};
ghost use Rattle.ldmodel.specs.Project.{Project};
ghost use Rattle.ldmodel.specs.Sections.{InputSection};
ghost use Rattle.std.specs.List.{filter_map};
ghost use Rattle.gather.specs.GatheredSections.{AreGathered, untaken};
ghost use Rattle.gather.specs.LiveMarks.{marked};

use crate::gathered_section::GatheredSection;
use growth::{NoMemory, vec};
use ldmodel::sections::SectionRef;
use std::alloc::Global;

/// Whether the section of this number is marked as live; one past the marks is not.
pub(crate) fn is_marked(marks: &[bool], number: usize) -> bool
    ensures { result ≡ slice_index_or marks.now number false }
{
    marks.get(number).copied().unwrap_or(false)
}

/// Adds a section, if it is live and no statement takes it.
fn add_untaken(
    found: &mut Vec<SectionRef>,
    section: &GatheredSection,
    is_live: bool,
) -> Result<(), NoMemory>
    ensures { OnOk result (found.new.items ≡ found.old.items
        ++ filter_map untaken (if is_live then section.now ∷ [] else [])) }
{
    match section.statement {
        None if is_live => {
            vec::push(found, section.section)?;
            Ok(())
        }
        _ => Ok(()),
    }
}

/// The live sections that no statement takes, each of them a fault, in their order. `marks` says of each section
/// whether it is live.
///
/// # Errors
///
/// If memory runs out.
pub fn orphans(
    alloc: Global,
    sections: &[GatheredSection],
    marks: &[bool],
) -> Result<Vec<SectionRef>, NoMemory>
    ensures { IfOk result (λ found. (project : Project) → AreGathered project sections.now
        → marked marks.now (input_sections project) ≡ live project → map (section_id (λ key. key)) found.items
        ≡ map (λ (section : InputSection). section.id) (orphans project)) }
{
    let mut found = Vec::new(alloc);
    for (place, section) in sections.iter().enumerate() {
        add_untaken(&mut found, section, is_marked(marks, place))?;
    }
    Ok(found)
}
