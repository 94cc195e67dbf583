//! An object: its bytes, and what was read of them.

ghost use Rattle.std.specs.Prelude.{◌≡◌, ◌≢◌, ◌<◌, ◌≤◌, ◌^◌, ◌⊎◌, IfErr, IfNone, IfOk, IfSome, None, Some};
ghost use Rattle.std.specs.Prelude.{find, length, map, nat_lt};
ghost use Rattle.std.specs.List.{All, AllPairs, slice_get};
ghost use Rattle.elfobj.specs.Raised.{raised};
ghost use Rattle.elfobj.specs.declared.meter.Count.TheVariants.{Objects};
ghost use Rattle.elfobj_file.specs.declared.refusal.ObjectRefusal.TheVariants.{NoMemory};
ghost use Rattle.growth.specs.Memory.{no_memory};

use crate::meter::{Count, Meter};
use crate::part_spans::PartSpans;
use crate::refusal::ObjectRefusal;
use crate::relocation::{Relocation, SymbolIndex};
use crate::section::{LinkedIndex, Section, SectionIndex, find_number};
use crate::section_table::{Parts, read_parts};
use crate::span::Span;
use crate::symbol::Symbol;
use std::alloc::Global;
use std::marker::Model;

/// A relocatable ELF-64 object for x86-64, which only `Object::read` makes. It owns the bytes that it was read from,
/// and lends names and contents of sections as slices of them. Sections and symbols are lists of public types; the
/// ranges of their names and contents are in lists beside these.
#[derive(Drop)]
pub struct Object {
    bytes: Vec<u8>,
    sections: Vec<Section>,
    part_spans: Vec<PartSpans>,
    symbols: Vec<Symbol>,
    names: Vec<Span>,
    relocations: Vec<Relocation>,
    /// For each section whether it has relocations: a byte, instead of a look at its spans.
    relocated: Vec<bool>,
}

impl Model for Object {
    ghost use Rattle.elfobj.specs.Object.{ObjectData, object_of};
    ghost use Rattle.elfobj.specs.Linkable.{IsObject};

    ghost Value = { ObjectData };

    ghost view = { λ object. object_of object.bytes.items };

    ghost invariant = { λ object. IsObject object.bytes.items object.sections.items object.part_spans.items
        object.symbols.items object.names.items object.relocations.items object.relocated.items };
}

impl Object {
    ghost use Rattle.elfobj_file.specs.ElfHeader.{e_shnum};
    ghost use Rattle.elfobj.specs.Numbering.{IsNumberedAt};
    ghost use Rattle.elfobj.specs.Object.{object_of};
    ghost use Rattle.elfobj.specs.Profile.{HasRelocationsOfProfile, IsSectionBelow, IsSectionOfProfile};
    ghost use Rattle.elfobj.specs.Profile.{IsSymbolOfProfile};
    ghost use Rattle.elfobj_file.specs.Refusal.{header_refusals, holds, object_refusal};
    ghost use Rattle.elfobj_file.specs.Sections.{section_of};
    ghost use Rattle.elfobj_file.specs.Spans.{bytes_at};

    /// Reads an object, and counts it, also if it is refused. Refused bytes come back, with the lowest refusal whose
    /// condition holds, or with `NoMemory`. What the ELF header alone refuses needs no memory.
    pub fn read(
        alloc: Global,
        bytes: Vec<u8>,
        meter: &mut Meter,
    ) -> Result<Object, (Vec<u8>, ObjectRefusal)>
        ensures ok { IfOk result (λ object. (object_refusal bytes.items ≡ None) × (object ≡ object_of bytes.items)) }
        ensures refused { IfErr result (λ error.
            (error.1 ≡ NoMemory no_memory) ⊎ (object_refusal bytes.items ≡ Some error.1)) }
        ensures memory { IfErr result (λ error.
            error.1 ≡ NoMemory no_memory → find (holds bytes.items) header_refusals ≡ None) }
        ensures bytes { IfErr result (λ error. error.0.items ≡ bytes.items) }
        ensures counted { meter.new ≡ raised meter.old Objects 1 }
    {
        meter.raise(Count::Objects, 1);
        match read_parts(alloc, &bytes) {
            Ok(parts) => {
                let Parts {
                    linked,
                    symbols,
                    relocations,
                    relocated,
                } = parts;
                Ok(Object {
                    bytes,
                    sections: linked.sections,
                    part_spans: linked.part_spans,
                    symbols: symbols.symbols,
                    names: symbols.names,
                    relocations,
                    relocated,
                })
            }
            Err(refusal) => Err((bytes, refusal)),
        }
    }

    /// The bytes that it was read from.
    pub fn data(&self) -> &[u8]
        ensures value { result.now ≡ self.now.text }
        ensures accepted { object_refusal self.now.text ≡ None }
        ensures read { self.now ≡ object_of self.now.text }
    {
        self.bytes.as_slice()
    }

    /// Its linked sections, in the order of their header numbers.
    pub fn sections(&self) -> &[Section]
        ensures value { result.now ≡ map section_of self.now.sections }
        ensures limits { All IsSectionOfProfile self.now.sections }
        ensures ascending { AllPairs (λ earlier later. earlier.number.0 < later.number.0) result.now }
    {
        &self.sections
    }

    /// The index in `sections` of the section with this header number, if it is linked.
    pub fn section_at(&self, number: SectionIndex) -> Option<LinkedIndex>
        ensures found { IfSome result (λ i. IsNumberedAt (map section_of self.now.sections) number i.0) }
        ensures absent { IfNone result
            (All (λ section. section.number.0 ≢ number.0) (map section_of self.now.sections)) }
    {
        find_number(self.sections(), number)
    }

    /// The name of a section, 1 to 65,535 bytes from `!` to `~`.
    pub fn section_name(&self, section: LinkedIndex) -> &[u8]
        requires { section.0 < length self.now.sections }
        ensures { slice_get (map (λ entry. entry.name) self.now.sections) section.0 ≡ Some result.now }
    {
        let parts = self.part_spans[section.0];
        &self.bytes[parts.name.start..parts.name.end]
    }

    /// The range of a section's name in the bytes that the object was read from. Sections may share it.
    pub fn section_name_place(&self, section: LinkedIndex) -> Span
        requires { section.0 < length self.now.sections }
        ensures { slice_get (map (λ entry. entry.name) self.now.sections) section.0
            ≡ Some (bytes_at self.now.text result) }
    {
        self.part_spans[section.0].name
    }

    /// The bytes of a section; none if it has no bytes in the file (NOBITS).
    pub fn section_bytes(&self, section: LinkedIndex) -> &[u8]
        requires { section.0 < length self.now.sections }
        ensures { slice_get (map (λ entry. entry.bytes) self.now.sections) section.0 ≡ Some result.now }
    {
        let parts = self.part_spans[section.0];
        &self.bytes[parts.bytes.start..parts.bytes.end]
    }

    /// The entries of its symbol table, in the table's order; none without a symbol table. The first is the null entry,
    /// so that indices are those that relocations have.
    pub fn symbols(&self) -> &[Symbol]
        ensures value { result.now ≡ map (λ symbol. symbol.symbol) self.now.symbols }
        ensures limits { All IsSymbolOfProfile self.now.symbols }
        ensures sections { All (λ symbol. IsSectionBelow (e_shnum self.now.text) symbol.symbol.place) self.now.symbols }
        ensures few { length self.now.symbols < 2 ^ 32 }
    {
        &self.symbols
    }

    /// The name of a symbol: 1 to 65,535 bytes from `!` to `~`, or no byte for a local one.
    pub fn name_of(&self, symbol: SymbolIndex) -> &[u8]
        requires { symbol.0 < length self.now.symbols }
        ensures { slice_get (map (λ entry. entry.name) self.now.symbols) symbol.0 ≡ Some result.now }
    {
        let name = self.names[symbol.0 as usize];
        &self.bytes[name.start..name.end]
    }

    /// The range of a symbol's name in the bytes that the object was read from; empty for a local one. Symbols may
    /// share it.
    pub fn name_place(&self, symbol: SymbolIndex) -> Span
        requires { symbol.0 < length self.now.symbols }
        ensures { slice_get (map (λ entry. entry.name) self.now.symbols) symbol.0
            ≡ Some (bytes_at self.now.text result) }
    {
        self.names[symbol.0 as usize]
    }

    /// How many relocations there are in all, those that tables share in the file counted once: no section has more.
    pub fn count_relocations(&self) -> usize
        ensures { All (λ section. length section.relocations ≤ result) self.now.sections }
    {
        self.relocations.len()
    }

    /// Whether a section has relocations. It costs less than `relocations`.
    pub fn has_relocations(&self, section: LinkedIndex) -> bool
        requires { section.0 < length self.now.sections }
        ensures { slice_get (map (λ entry. nat_lt 0 (length entry.relocations)) self.now.sections) section.0
            ≡ Some result }
    {
        self.relocated[section.0]
    }

    /// The relocations of a section, in the order of their table. Each is of one of `symbols` and lies in its section,
    /// and no two share a byte; a section without bytes has none.
    pub fn relocations(&self, section: LinkedIndex) -> &[Relocation]
        requires { section.0 < length self.now.sections }
        ensures value { slice_get (map (λ entry. entry.relocations) self.now.sections) section.0 ≡ Some result.now }
        ensures limits { All (HasRelocationsOfProfile (length self.now.symbols)) self.now.sections }
    {
        let span = self.part_spans[section.0].relocations;
        &self.relocations[span.start..span.end]
    }
}
