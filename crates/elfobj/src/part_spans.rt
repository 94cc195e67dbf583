//! The spans of the parts of a linked section in the file: its name, its bytes and its relocations.

ghost use Rattle.std.specs.Prelude.{◌≡◌, ℕ, IfOk, List, length, map};
ghost use Rattle.elfobj_file.specs.Sections.{contents};
ghost use Rattle.elfobj_file.specs.Spans.{IsInside, bytes_at};
ghost use Rattle.elfobj.specs.PartSpans.{IsWithin, IsFileWithin, bytes_in, is_relocated};

use crate::section::SectionKind;
use elfobj_file::section_header::SectionHeader;
use elfobj_file::span::{EMPTY_SPAN, Span};
use growth::{NoMemory, iterator};
use std::alloc::Global;

/// The spans of the parts of a section.
#[derive(Clone, Copy)]
pub struct PartSpans {
    /// Its name in the file, without the zero byte.
    pub name: Span,
    /// Its bytes in the file.
    pub bytes: Span,
    /// The range of its relocations among all of the object.
    pub relocations: Span,
}

/// The range of a section's bytes in a file of `len` bytes; empty for one without bytes in the file.
fn contents_range(header: &SectionHeader, kind: SectionKind, len: usize) -> Span
    requires { IsFileWithin len header.now kind }
    ensures within { IsInside len result }
    ensures bytes { (bytes : List ℕ) → bytes_at bytes result ≡ contents bytes header.now kind }
{
    match kind {
        SectionKind::Nobits => EMPTY_SPAN,
        _ => Span {
            start: header.sh_offset as usize,
            end: (header.sh_offset + header.sh_size) as usize,
        },
    }
}

/// The spans of a section's parts in a file of `len` bytes, with its name there, before its relocations are read.
pub fn spans_of(name: Span, header: &SectionHeader, kind: SectionKind, len: usize) -> PartSpans
    requires name { IsInside len name }
    requires file { IsFileWithin len header.now kind }
    ensures within { IsWithin len result }
    ensures name { result.name ≡ name }
    ensures bytes { (file : List ℕ) → bytes_in file result ≡ contents file header.now kind }
{
    PartSpans {
        name,
        bytes: contents_range(header, kind, len),
        relocations: EMPTY_SPAN,
    }
}

/// Gives each section the range of its relocations.
pub fn set_relocation_ranges(part_spans: &mut [PartSpans], spans: &[Span])
    requires { length spans.now ≡ length part_spans.old }
    ensures relocations { map (λ place. place.relocations) part_spans.new ≡ spans.now }
    ensures names { map (λ place. place.name) part_spans.new ≡ map (λ place. place.name) part_spans.old }
    ensures bytes { map (λ place. place.bytes) part_spans.new ≡ map (λ place. place.bytes) part_spans.old }
{
    for (at, place) in part_spans.iter_mut().enumerate() {
        place.relocations = spans[at];
    }
}

impl PartSpans {
    /// Whether the section has relocations.
    pub fn is_relocated(&self) -> bool
        ensures { result ≡ is_relocated self.now }
    {
        self.relocations.start < self.relocations.end
    }
}

/// For each section whether it has relocations.
pub fn relocated_sections(alloc: Global, part_spans: &[PartSpans]) -> Result<Vec<bool>, NoMemory>
    ensures { IfOk result (λ list. list.items ≡ map is_relocated part_spans.now) }
{
    iterator::collect(part_spans.iter().map(|place| place.is_relocated()), alloc)
}
