//! The tests of the section headers, and the reading of the rest of the file.

ghost use Rattle.std.specs.Prelude.{◌≡◌, ◌⊎◌, ◌++◌, IfErr, IfNone, IfOk, IfSome, None, OnOk, Some, false, find, map};
ghost use Rattle.std.specs.Prelude.{true};
ghost use Rattle.std.specs.List.{list_any};
ghost use Rattle.elfobj.specs.Linkable.{ArePartsOf, IsNameTable, PassesTests};
ghost use Rattle.elfobj_file.specs.ElfHeader.{e_shstrndx};
ghost use Rattle.elfobj_file.specs.Refusal.{holds, is_out_of_bounds, is_outside_profile_by, header_refusals};
ghost use Rattle.elfobj_file.specs.Refusal.{object_refusal, relocation_refusals, symbol_refusals};
ghost use Rattle.elfobj_file.specs.SectionHeaders.{header, headers as headers_of};
ghost use Rattle.elfobj_file.specs.SectionTable.{HasSectionTable};
ghost use Rattle.elfobj.specs.PartSpans.{AreRead, is_relocated};
ghost use Rattle.elfobj_file.specs.Sections.{sections_of};
ghost use Rattle.elfobj_file.specs.TableOf.{table_of};
ghost use Rattle.elfobj_file.specs.declared.refusal.ObjectRefusal.TheVariants.{NoMemory as OutOfMemory};
ghost use Rattle.elfobj_file.specs.declared.refusal.ObjectRefusal.TheVariants.{SectionBounds, SectionProfile};
ghost use Rattle.growth.specs.Memory.{no_memory};

use crate::linked::{LinkedSections, linked_sections, passing_sections};
use crate::part_spans::{relocated_sections, set_relocation_ranges};
use crate::refusal::ObjectRefusal;
use crate::relocation::Relocation;
use crate::relocation_run::Relocations;
use crate::relocation_table::read_relocations;
use crate::symbol_table::read_symbols;
use crate::symbols::Symbols;
use elfobj_file::constants::SHT_STRTAB;
use elfobj_file::elf_header::{header_refusal, name_table_number};
use elfobj_file::names::StringTable;
use elfobj_file::section_header::{SectionHeader, read_headers};
use growth::NoMemory;
use std::alloc::Global;

/// The header of the section name table.
#[tactic(auto, using(elfobj_file::proofs::Headers::count_of, elfobj_file::proofs::Headers::header_of))]
fn name_table_header(bytes: &[u8], headers: &[SectionHeader]) -> SectionHeader
    requires table { HasSectionTable bytes.now }
    requires headers { headers.now ≡ headers_of bytes.now }
    ensures { result ≡ header bytes.now (e_shstrndx bytes.now) }
{
    headers[usize::from(name_table_number(bytes))]
}

/// Whether a header's section is out of bounds.
fn is_any_out_of_bounds(headers: &[SectionHeader], len: u64) -> bool
    ensures { result ≡ list_any (is_out_of_bounds len) headers.now }
{
    headers.iter().any(|h| h.is_out_of_bounds(len))
}

/// Whether a header is outside the profile.
fn is_any_outside_profile(headers: &[SectionHeader], names: &StringTable) -> bool
    ensures { result ≡ list_any (is_outside_profile_by (table_of names.now)) headers.now }
{
    headers.iter().any(|h| h.is_outside_profile(names))
}

/// Whether the table of names is no string table, or a section is out of bounds.
#[tactic(auto, using(crate::proofs::Passing::names_within), unfolding(elfobj_file::specs::Refusal::holds))]
fn has_wrong_bounds(bytes: &[u8], names: &SectionHeader, headers: &[SectionHeader]) -> bool
    requires table { HasSectionTable bytes.now }
    requires names { names.now ≡ header bytes.now (e_shstrndx bytes.now) }
    requires headers { headers.now ≡ headers_of bytes.now }
    ensures value { result ≡ holds bytes.now SectionBounds }
    ensures names { result ≡ false → IsNameTable bytes.now names.now }
{
    names.sh_type != SHT_STRTAB || is_any_out_of_bounds(headers, bytes.len() as u64)
}

/// The linked sections of a file whose section headers are in bounds, or `SectionProfile` if one of them is outside the
/// profile. The table of names is scanned once.
#[cold]
#[inline(never)]
fn looked_sections(
    alloc: Global,
    bytes: &[u8],
    names: &SectionHeader,
    headers: &[SectionHeader],
) -> Result<LinkedSections, ObjectRefusal>
    requires table { HasSectionTable bytes.now }
    requires names { IsNameTable bytes.now names.now }
    requires headers { headers.now ≡ headers_of bytes.now }
    requires bounds { holds bytes.now SectionBounds ≡ false }
    ensures passes { OnOk result (holds bytes.now SectionProfile ≡ false) }
    ensures read { IfOk result (λ l. AreRead bytes.now (sections_of bytes.now) l.sections.items l.part_spans.items) }
    ensures refused { IfErr result (λ e. (e ≡ OutOfMemory no_memory)
        ⊎ ((holds bytes.now SectionProfile ≡ true) × (e ≡ SectionProfile))) }
{
    let table = StringTable::of_header(alloc, bytes, names)?;
    if is_any_outside_profile(headers, &table) {
        return Err(ObjectRefusal::SectionProfile);
    }
    Ok(linked_sections(alloc, bytes, &table, headers)?)
}

/// The linked sections of a file whose section headers are in bounds, or `SectionProfile` if one of them is outside the
/// profile.
fn read_sections(
    alloc: Global,
    bytes: &[u8],
    names: &SectionHeader,
    headers: &[SectionHeader],
) -> Result<LinkedSections, ObjectRefusal>
    requires table { HasSectionTable bytes.now }
    requires names { IsNameTable bytes.now names.now }
    requires headers { headers.now ≡ headers_of bytes.now }
    requires bounds { holds bytes.now SectionBounds ≡ false }
    ensures passes { OnOk result (holds bytes.now SectionProfile ≡ false) }
    ensures read { IfOk result (λ l. AreRead bytes.now (sections_of bytes.now) l.sections.items l.part_spans.items) }
    ensures refused { IfErr result (λ e. (e ≡ OutOfMemory no_memory)
        ⊎ ((holds bytes.now SectionProfile ≡ true) × (e ≡ SectionProfile))) }
{
    match passing_sections(alloc, bytes, names, headers)? {
        Some(linked) => Ok(linked),
        None => looked_sections(alloc, bytes, names, headers),
    }
}

/// All that is read of an object.
#[derive(Drop)]
pub struct Parts {
    /// Its linked sections.
    pub linked: LinkedSections,
    /// Its symbols.
    pub symbols: Symbols,
    /// The relocations of all linked sections.
    pub relocations: Vec<Relocation>,
    /// For each linked section whether it has relocations.
    pub relocated: Vec<bool>,
}

/// Reads the other parts of a file whose section headers have passed their tests, or returns its refusal.
fn read_tables(
    alloc: Global,
    bytes: &[u8],
    mut linked: LinkedSections,
    headers: &[SectionHeader],
) -> Result<Parts, ObjectRefusal>
    requires table { HasSectionTable bytes.now }
    requires linked { AreRead bytes.now (sections_of bytes.now) linked.sections.items linked.part_spans.items }
    requires headers { headers.now ≡ headers_of bytes.now }
    requires tests { PassesTests bytes.now }
    ensures ok { IfOk result (λ p. find (holds bytes.now) (symbol_refusals ++ relocation_refusals) ≡ None) }
    ensures read { IfOk result
        (λ p. ArePartsOf bytes.now p.linked.sections.items p.linked.part_spans.items p.symbols.symbols.items
        p.symbols.names.items p.relocations.items) }
    ensures relocated { IfOk result (λ p. p.relocated.items ≡ map is_relocated p.linked.part_spans.items) }
    ensures refused { IfErr result
        (λ e. (e ≡ OutOfMemory no_memory) ⊎
        (find (holds bytes.now) (symbol_refusals ++ relocation_refusals) ≡ Some e)) }
{
    let symbols = read_symbols(alloc, bytes, headers)?;
    let count = symbols.symbols.len();
    let Relocations { all, spans } = read_relocations(
        alloc,
        bytes,
        headers,
        &linked.sections,
        count,
    )?;
    set_relocation_ranges(&mut linked.part_spans, &spans);
    let relocated = relocated_sections(alloc, &linked.part_spans)?;
    Ok(Parts {
        linked,
        symbols,
        relocations: all,
        relocated,
    })
}

/// Reads the parts of a file, or returns its refusal.
pub fn read_parts(alloc: Global, bytes: &[u8]) -> Result<Parts, ObjectRefusal>
    ensures ok { IfOk result (λ parts. object_refusal bytes.now ≡ None) }
    ensures read { IfOk result
        (λ parts. ArePartsOf bytes.now parts.linked.sections.items parts.linked.part_spans.items
        parts.symbols.symbols.items
        parts.symbols.names.items parts.relocations.items) }
    ensures relocated { IfOk result (λ parts. parts.relocated.items ≡ map is_relocated parts.linked.part_spans.items) }
    ensures refused { IfErr result (λ refusal. (refusal ≡ OutOfMemory no_memory) ⊎
        (object_refusal bytes.now ≡ Some refusal)) }
    ensures memory { IfErr result (λ refusal.
        refusal ≡ OutOfMemory no_memory → find (holds bytes.now) header_refusals ≡ None) }
{
    if let Some(refusal) = header_refusal(bytes) {
        return Err(refusal);
    }
    let headers = read_headers(alloc, bytes)?;
    let names = name_table_header(bytes, &headers);
    if has_wrong_bounds(bytes, &names, &headers) {
        return Err(ObjectRefusal::SectionBounds);
    }
    let linked = read_sections(alloc, bytes, &names, &headers)?;
    read_tables(alloc, bytes, linked, &headers)
}
