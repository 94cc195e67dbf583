//! The linked sections of an object, from its section headers.

ghost use Rattle.std.specs.Prelude.{◌≡◌, [], ◌∷◌, ◌++◌, IfOk, IfSome, OnOk, false, length, unwrap_or};
ghost use Rattle.elfobj.specs.Linkable.{IsLinkable, IsNameTable, IsPlaced, PassesTests};
ghost use Rattle.elfobj.specs.PartSpans.{AreRead, IsFileWithin};
ghost use Rattle.elfobj_file.specs.Refusal.{holds};
ghost use Rattle.elfobj_file.specs.SectionHeaders.{headers as headers_of};
ghost use Rattle.elfobj_file.specs.Sections.{linked_as, name_of, sections_of};
ghost use Rattle.elfobj_file.specs.SectionTable.{HasSectionTable};
ghost use Rattle.elfobj_file.specs.Spans.{IsInside, bytes_at};
ghost use Rattle.elfobj_file.specs.declared.refusal.ObjectRefusal.TheVariants.{SectionBounds, SectionProfile};

use crate::part_spans::{PartSpans, spans_of};
use crate::section::{Section, SectionIndex, SectionKind};
use elfobj_file::names::StringTable;
use elfobj_file::section_header::SectionHeader;
use elfobj_file::span::Span;
use growth::{NoMemory, vec};
use std::alloc::Global;

/// The linked sections in table order, with the spans of their parts.
#[derive(Drop)]
pub struct LinkedSections {
    /// The sections.
    pub sections: Vec<Section>,
    /// The spans of the parts of each.
    pub part_spans: Vec<PartSpans>,
}

/// The section of a header, with this number, kind and name, and the spans of its parts.
fn section_at(
    bytes: &[u8],
    number: u16,
    header: &SectionHeader,
    kind: SectionKind,
    name: Span,
) -> (Section, PartSpans)
    requires within { IsInside (length bytes.now) name }
    requires name { bytes_at bytes.now name ≡ unwrap_or (name_of bytes.now header.now) [] }
    requires file { IsFileWithin (length bytes.now) header.now kind }
    ensures { IsPlaced bytes.now (linked_as bytes.now number header.now kind) result.0 result.1 }
{
    let section = Section {
        number: SectionIndex(number),
        kind,
        flags: header.sh_flags,
        size: header.sh_size,
        alignment: header.sh_addralign,
    };
    (section, spans_of(name, header, kind, bytes.len()))
}

/// The section of a header, with this number and kind and its name in this table, and the spans of its parts.
#[tactic(auto, unfolding(elfobj_file::specs::Sections::name_table))]
fn section_and_spans(
    bytes: &[u8],
    names: &StringTable,
    number: u16,
    header: &SectionHeader,
    kind: SectionKind,
) -> (Section, PartSpans)
    requires names { IsNameTable bytes.now names.now.header }
    requires file { names.now.file.now ≡ bytes.now }
    requires linkable { IsLinkable bytes.now header.now kind }
    ensures { IsPlaced bytes.now (linked_as bytes.now number header.now kind) result.0 result.1 }
{
    let name = names.file_range(header.sh_name);
    section_at(bytes, number, header, kind, name)
}

impl LinkedSections {
    /// No sections, with room for `count`.
    fn with_room(alloc: Global, count: usize) -> Result<LinkedSections, NoMemory>
        ensures sections { IfOk result (λ l. l.sections.items ≡ []) }
        ensures part_spans { IfOk result (λ l. l.part_spans.items ≡ []) }
    {
        Ok(LinkedSections {
            sections: vec::with_capacity(alloc, count)?,
            part_spans: vec::with_capacity(alloc, count)?,
        })
    }

    /// Adds a section and the spans of its parts.
    fn push(&mut self, section: Section, parts: PartSpans) -> Result<(), NoMemory>
        ensures sections { OnOk result (self.new.sections.items ≡ self.old.sections.items ++ section ∷ []) }
        ensures part_spans { OnOk result (self.new.part_spans.items ≡ self.old.part_spans.items ++ parts ∷ []) }
    {
        vec::push(&mut self.sections, section)?;
        vec::push(&mut self.part_spans, parts)?;
        Ok(())
    }
}

/// How many of these headers are those of linked sections.
fn linked_count(headers: &[SectionHeader]) -> usize {
    headers.iter().filter(|h| h.linked_kind().is_some()).count()
}

/// The linked sections of a file whose section headers have passed their tests, in lists that have no spare room.
pub fn linked_sections(
    alloc: Global,
    bytes: &[u8],
    names: &StringTable,
    headers: &[SectionHeader],
) -> Result<LinkedSections, NoMemory>
    requires table { HasSectionTable bytes.now }
    requires names { IsNameTable bytes.now names.now.header }
    requires file { names.now.file.now ≡ bytes.now }
    requires headers { headers.now ≡ headers_of bytes.now }
    requires tests { PassesTests bytes.now }
    ensures { IfOk result
        (λ linked. AreRead bytes.now (sections_of bytes.now) linked.sections.items linked.part_spans.items) }
{
    let mut linked = LinkedSections::with_room(alloc, linked_count(headers))?;
    for (number, header) in headers.iter().enumerate() {
        if let Some(kind) = header.linked_kind() {
            let (section, parts) = section_and_spans(bytes, names, number as u16, header, kind);
            linked.push(section, parts)?;
        }
    }
    Ok(linked)
}

/// The linked sections of a file whose section headers are in bounds, with names in the table of this header. `None` if
/// a header is outside the profile, or the names are together longer than the file, which compilers do not write. Each
/// name is scanned when it is needed.
#[inline(never)]
pub fn passing_sections(
    alloc: Global,
    bytes: &[u8],
    names: &SectionHeader,
    headers: &[SectionHeader],
) -> Result<Option<LinkedSections>, NoMemory>
    requires table { HasSectionTable bytes.now }
    requires names { IsNameTable bytes.now names.now }
    requires headers { headers.now ≡ headers_of bytes.now }
    requires bounds { holds bytes.now SectionBounds ≡ false }
    ensures passes { IfOk result (λ found. IfSome found (λ linked. holds bytes.now SectionProfile ≡ false)) }
    ensures read { IfOk result
        (λ found. IfSome found (λ linked. AreRead bytes.now (sections_of bytes.now) linked.sections.items
        linked.part_spans.items)) }
{
    let mut linked = LinkedSections::with_room(alloc, linked_count(headers))?;
    let mut left = bytes.len();
    for (number, header) in headers.iter().enumerate() {
        if header.is_alloc() {
            let Some((kind, name)) = header.looked_section(bytes, names) else {
                return Ok(None);
            };
            let length = name.end - name.start;
            if left < length {
                return Ok(None);
            }
            left -= length;
            let (section, parts) = section_at(bytes, number as u16, header, kind, name);
            linked.push(section, parts)?;
        }
    }
    Ok(Some(linked))
}
