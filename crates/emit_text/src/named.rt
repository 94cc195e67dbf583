//! The names that an object has under numbers.

ghost use Rattle.std.specs.Prelude.{◌≡◌, ◌<◌, slice_get, None, Some, IfSome, length, MatchOption};
ghost use Rattle.ldmodel.specs.FaultCode.{name_of_part, name_of_section, name_of_symbol, place_of, relocation_at};
ghost use Rattle.emit_text.specs.Naming.{numbered};

use elfobj::Object;
use elfobj::relocation::{Relocation, SymbolIndex};
use elfobj::section::{LinkedIndex, SectionIndex};
use ldmodel::fault::SiteRef;
use ldmodel::names::ObjectPlace;
use ldmodel::sections::{Part, SectionRef};
use ldmodel_project::view::ProjectView;

/// The place of a section among those of an object.
fn find_section(object: &Object, number: SectionIndex) -> Option<LinkedIndex>
    ensures found { IfSome result (λ i. i.0 < length object.now.sections) }
    ensures is { MatchOption result (numbered object.now.sections number ≡ None) (λ i.
        numbered object.now.sections number ≡ slice_get object.now.sections i.0) }
{
    // for the prover: brings in the invariant of `object`, of its sections
    let _in_order = object.sections();
    object.section_at(number)
}

/// The place of a section among those of an object, looked for at one place before all others.
fn find_section_near(object: &Object, number: SectionIndex, likely: usize) -> Option<LinkedIndex>
    ensures found { IfSome result (λ i. i.0 < length object.now.sections) }
    ensures is { MatchOption result (numbered object.now.sections number ≡ None) (λ i.
        numbered object.now.sections number ≡ slice_get object.now.sections i.0) }
{
    let Some(section) = object.sections().get(likely) else {
        return find_section(object, number);
    };
    if section.number.0 == number.0 {
        return Some(LinkedIndex(likely));
    }
    find_section(object, number)
}

/// The name of a section of an object; no bytes where there is none.
pub fn section_name<'a>(
    project: &ProjectView<'a>,
    object: ObjectPlace,
    section: SectionIndex,
) -> &'a [u8]
    ensures { result.now ≡ name_of_section project.now object.0 section }
{
    let Some(found) = project.object(object) else {
        return &[];
    };
    match find_section(found, section) {
        Some(index) => found.section_name(index),
        None => &[],
    }
}

/// The name of a part of an object; that of a common block is `COMMON`.
pub fn part_name<'a>(project: &ProjectView<'a>, section: SectionRef) -> &'a [u8]
    ensures { result.now ≡ name_of_part project.now section.object.0 section.part }
{
    match section.part {
        Part::InTable(number) => section_name(project, section.object, number),
        Part::InCommon(_) => b"COMMON",
    }
}

/// The name of a part, and the place of its section. That place is looked for first after the place of the section
/// before it, where the sections of most rows are.
pub fn next_part_name<'a>(
    project: &ProjectView<'a>,
    section: SectionRef,
    last: usize,
) -> (&'a [u8], usize)
    ensures { result.0.now ≡ name_of_part project.now section.object.0 section.part }
{
    let Part::InTable(number) = section.part else {
        return (b"COMMON", last);
    };
    let Some(object) = project.object(section.object) else {
        return (&[], last);
    };
    match find_section_near(object, number, last.wrapping_add(1)) {
        Some(index) => (object.section_name(index), index.0),
        None => (&[], last),
    }
}

/// The name of an entry of an object's symbol table; no bytes where there is none, and for a local symbol.
pub fn symbol_name<'a>(
    project: &ProjectView<'a>,
    object: ObjectPlace,
    symbol: SymbolIndex,
) -> &'a [u8]
    ensures { result.now ≡ name_of_symbol project.now object.0 symbol.0 }
{
    let Some(found) = project.object(object) else {
        return &[];
    };
    if (symbol.0 as usize) < found.symbols().len() {
        found.name_of(symbol)
    } else {
        &[]
    }
}

/// The relocation of a site.
pub fn relocation(project: &ProjectView<'_>, site: SiteRef) -> Option<Relocation>
    ensures { result ≡ relocation_at project.now (place_of (λ key. key) site) }
{
    let Some(object) = project.object(site.object) else {
        return None;
    };
    let Some(index) = find_section(object, site.section) else {
        return None;
    };
    object.relocations(index).get(site.entry as usize).copied()
}
