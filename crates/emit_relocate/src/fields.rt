//! The fields of whole input sections, in one flat list, and the faults of their relocations.

ghost use Rattle.std.specs.Prelude.{◌≡◌, ◌++◌, ◌+◌, ◌<◌, ◌^◌, All, OnOk, Some, [], ◌∷◌, length, slice_get, true};
ghost use Rattle.std.specs.Prelude.{vec_capacity, vec_len};
ghost use Rattle.std.specs.List.Sorted.{IsNonDecreasingBy};
ghost use Rattle.elfobj.specs.Profile.{AreApart};
ghost use Rattle.elfobj.specs.Relocations.{field_end};
ghost use Rattle.elfobj.specs.Sections.{LinkedSection};
ghost use Rattle.ldmodel.specs.Project.{NamedObject};
ghost use Rattle.emit_relocate.specs.Fields.{AreAdded, IsAdded, IsNext, IsTried, sites_among};
ghost use Rattle.emit_relocate.specs.KnownLink.{KnownLink};
ghost use Rattle.emit_relocate.specs.Sites.{AreEntriesFrom, IsPlaced, fault_with};

use crate::site::{NoField, PlacedInput, evaluate, fault_of, is_evaluated};
use elfobj::Relocation;
use emit_fields::patch::{Patch, in_order};
use growth::{NoMemory, impossible, vec};
use ldmodel::fault::Fault;
use ldmodel::meter::Meter;
use std::alloc::Global;

/// Adds the fault of the relocation of number `entry`, which has no field.
#[cold]
#[inline(never)]
pub(crate) fn add_fault(
    section: &PlacedInput<'_>,
    entry: u32,
    reason: NoField,
    faults: &mut Vec<Fault>,
) -> Result<(), NoMemory>
    ensures { OnOk result (faults.new.items ≡ faults.old.items ++ fault_with section.now entry reason ∷ []) }
{
    vec::push(faults, fault_of(section, entry, reason))?;
    Ok(())
}

/// Evaluates the relocation of number `entry`: adds its field, for which there is room, or its fault.
#[inline(always)]
fn add_site(
    section: &PlacedInput<'_>,
    entry: u32,
    relocation: &Relocation,
    fields: &mut Vec<Patch>,
    faults: &mut Vec<Fault>,
    meter: &mut Meter,
) -> Result<(), NoMemory>
    requires entry_is { slice_get section.now.relocations.now entry ≡ Some relocation.now }
    requires below { section.now.start + relocation.now.offset < 2 ^ 64 }
    requires room { vec_len fields.old < vec_capacity fields.old }
    ensures capacity { vec_capacity fields.new ≡ vec_capacity fields.old }
    ensures len { vec_len fields.new < vec_len fields.old + 2 }
    ensures next { OnOk result (IsNext relocation.now fields.old.items fields.new.items) }
    ensures tried { OnOk result ((link : KnownLink) (object : NamedObject) (x : LinkedSection)
        → IsPlaced link section.now object x
        → IsTried link (sites_among object x section.now.start (relocation.now ∷ [])) fields.old.items fields.new.items
        faults.old.items faults.new.items meter.old meter.new) }
{
    // for the prover: brings in that the count of fields fits a u64
    let _fields = meter.fields();
    if !is_evaluated(relocation.kind) {
        return Ok(());
    }
    match evaluate(section, relocation, meter) {
        Ok(field) => {
            fields.push_reserved(field);
            Ok(())
        }
        Err(reason) => {
            add_fault(section, entry, reason, faults)?;
            Ok(())
        }
    }
}

/// Tests that the number of each relocation of a section fits 32 bits.
#[inline(always)]
pub(crate) fn check_numbers(relocations: &[Relocation]) -> Result<(), NoMemory>
    ensures { OnOk result (length relocations.now < 2 ^ 32) }
{
    if relocations.len() > u32::MAX as usize {
        // No section has 2^32 relocations
        return Err(impossible());
    }
    Ok(())
}

/// Evaluates relocations of a section, of which the first has the number `first`, in the order of their table.
#[inline(never)]
pub(crate) fn add_sites(
    section: &PlacedInput<'_>,
    first: usize,
    relocations: &[Relocation],
    fields: &mut Vec<Patch>,
    faults: &mut Vec<Fault>,
    meter: &mut Meter,
) -> Result<(), NoMemory>
    requires entries { AreEntriesFrom section.now first relocations.now }
    requires below { All (λ r. section.now.start + r.offset < 2 ^ 64) relocations.now }
    ensures fields { OnOk result
        (AreAdded relocations.now (length relocations.now) fields.old.items fields.new.items) }
    ensures tried { OnOk result ((link : KnownLink) (object : NamedObject) (x : LinkedSection)
        → IsPlaced link section.now object x
        → IsTried link (sites_among object x section.now.start relocations.now) fields.old.items fields.new.items
        faults.old.items faults.new.items meter.old meter.new) }
{
    // for the prover: brings in that the count of fields fits a u64
    let _fields = meter.fields();
    check_numbers(section.relocations)?;
    vec::reserve(fields, relocations.len())?;
    for entry in 0..relocations.len() {
        let number = (first + entry) as u32;
        add_site(section, number, &relocations[entry], fields, faults, meter)?;
    }
    Ok(())
}

/// Whether relocations are in the order of their offsets, as assemblers write them.
fn is_ascending(relocations: &[Relocation]) -> bool
    ensures { result ≡ true → IsNonDecreasingBy (λ r. r.offset) relocations.now }
{
    let mut last = 0;
    for relocation in relocations {
        if relocation.offset < last {
            return false;
        }
        last = relocation.offset;
    }
    true
}

/// Adds the fields of a section whose relocations may be in any order, in the order of their offsets.
#[cold]
#[inline(never)]
fn add_unordered(
    alloc: Global,
    section: &PlacedInput<'_>,
    fields: &mut Vec<Patch>,
    faults: &mut Vec<Fault>,
    meter: &mut Meter,
) -> Result<(), NoMemory>
    requires apart { AreApart section.now.relocations.now }
    requires below { All (λ r. section.now.start + r.offset < 2 ^ 64) section.now.relocations.now }
    ensures { OnOk result ((link : KnownLink) (object : NamedObject) (x : LinkedSection)
        → IsPlaced link section.now object x
        → IsAdded link object x section.now.start fields.old.items fields.new.items faults.old.items faults.new.items
        meter.old
        meter.new) }
{
    let mut own = Vec::new(alloc);
    add_sites(section, 0, section.relocations, &mut own, faults, meter)?;
    let mut own = in_order(own)?;
    vec::append(fields, &mut own)?;
    Ok(())
}

/// Evaluates the relocations of an input section in the output, each of which counts as one. Adds the fields to
/// `fields`, in the order of their offsets, and the faults to `faults`, in the order of their table.
///
/// # Errors
///
/// If memory runs out; a table of 2^32 relocations or more, which no object has whose length is within the limit,
/// counts as that.
pub fn add_fields(
    alloc: Global,
    section: &PlacedInput<'_>,
    fields: &mut Vec<Patch>,
    faults: &mut Vec<Fault>,
    meter: &mut Meter,
) -> Result<(), NoMemory>
    requires apart { AreApart section.now.relocations.now }
    requires below { All (λ relocation. section.now.start + relocation.offset < 2 ^ 64) section.now.relocations.now }
    ensures { OnOk result ((link : KnownLink) (object : NamedObject) (x : LinkedSection)
        → IsPlaced link section.now object x
        → IsAdded link object x section.now.start fields.old.items fields.new.items faults.old.items faults.new.items
        meter.old
        meter.new) }
{
    if !is_ascending(section.relocations) {
        return add_unordered(alloc, section, fields, faults, meter);
    }
    add_sites(section, 0, section.relocations, fields, faults, meter)?;
    Ok(())
}
