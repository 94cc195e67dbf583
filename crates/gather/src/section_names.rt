//! The names of input sections.

ghost use Rattle.std.specs.Prelude.{◌≡◌, ◌==◌, []};
ghost use Rattle.std.specs.List.{find};
ghost use Rattle.std.specs.Option.{option_map_or};
ghost use Rattle.elfobj.specs.Sections.{LinkedSection};
ghost use Rattle.ldmodel_project.specs.ByPlace.{name_of_section};

use elfobj::Object;
use elfobj::section::SectionIndex;
use ldmodel::sections::{Part, SectionRef};
use ldmodel_project::view::ProjectView;

/// The name of the section of this header number; no bytes if it is no linked one.
fn name_at(object: &Object, number: SectionIndex) -> &[u8]
    ensures { result.now ≡ option_map_or (λ (section : LinkedSection). section.name)
        (find (λ (section : LinkedSection). section.number.0 == number.0) object.now.sections) [] }
{
    // for the prover: brings in the invariant of `object`, of its sections
    let _sections = object.sections();
    match object.section_at(number) {
        Some(place) => object.section_name(place),
        None => &[],
    }
}

/// The name of an input section, by binary search among the sections of its object; that of a common block is
/// `COMMON`.
pub(crate) fn section_name<'a>(project: &ProjectView<'a>, section: SectionRef) -> &'a [u8]
    ensures { result.now ≡ name_of_section project.now section }
{
    match section.part {
        Part::InTable(number) => match project.object(section.object) {
            Some(object) => name_at(object, number),
            None => &[],
        },
        Part::InCommon(_) => b"COMMON",
    }
}
