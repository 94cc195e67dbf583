//! Relocations of input sections that stayed: the fields, in their places in the file, of those whose symbol has
//! another value than in the previous link.

ghost use Rattle.std.specs.Prelude.{◌≡◌, ◌++◌, ◌+◌, ◌<◌, ◌^◌, All, OnOk, Some, [], ◌∷◌, nat_le, option_to_list};
ghost use Rattle.std.specs.Prelude.{slice_get, slice_index_or, true};
ghost use Rattle.elfobj.specs.declared.relocation.Relocation.{Relocation as RelocationOf};
ghost use Rattle.emit_fields.specs.Patches.{patch_end};
ghost use Rattle.ldmodel.specs.Relocations.{is_evaluated};
ghost use Rattle.ldmodel.specs.Stayed.{GoodLink};
ghost use Rattle.emit_relocate.specs.Changes.{IsFiled, AreRetargetedFiled, in_file};
ghost use Rattle.emit_relocate.specs.PreviousLinkInfo.{has_new_value, is_same_value};
ghost use Rattle.emit_relocate.specs.Filled.{ObjectSection};
ghost use Rattle.emit_relocate.specs.KnownLink.{KnownLink};
ghost use Rattle.emit_relocate.specs.Links.{IsStayedAt, site_at_hand, sites_at_hand};
ghost use Rattle.emit_relocate.specs.Sites.{IsPlaced};
ghost use Rattle.emit_relocate.specs.Values.{value_of};
ghost use Rattle.emit_relocate.specs.declared.value.SymbolValue.TheVariants.{NotDefined};

use crate::fields::{add_fault, check_numbers};
use crate::previous_link_info::FileRange;
use crate::site::{PlacedInput, evaluate, is_evaluated, site_value};
use crate::value::SymbolValue;
use elfobj::relocation::{Relocation, SymbolIndex};
use emit_fields::patch::Patch;
use growth::{NoMemory, impossible, vec};
use ldmodel::fault::Fault;
use ldmodel::meter::Meter;

/// Whether two values are the same. A number is never the same as a missing value.
fn is_same_value(one: SymbolValue, other: SymbolValue) -> bool
    ensures { result ≡ is_same_value (value_of one) (value_of other) }
{
    match (one, other) {
        (SymbolValue::Number(a), SymbolValue::Number(b)) => a == b,
        (SymbolValue::NotDefined, SymbolValue::NotDefined) => true,
        (SymbolValue::NotInOutput, SymbolValue::NotInOutput) => true,
        _ => false,
    }
}

/// Whether a field of a section ends within the section's bytes in the file.
fn is_within(range: FileRange, field: &Patch) -> bool
    ensures { result ≡ nat_le (patch_end field.now) range.length }
{
    let offset = field.offset as u64;
    let length = field.field.bytes().len() as u64;
    offset <= range.length && length <= range.length - offset
}

/// Adds a field of a section in its place in the file, if it lies within the section's bytes there. Fails if memory
/// runs out; a place past 2^64 counts as that.
fn add_in_file(range: FileRange, field: Patch, patches: &mut Vec<Patch>) -> Result<(), NoMemory>
    ensures { OnOk result (patches.new.items ≡ patches.old.items ++ option_to_list (in_file range field)) }
{
    if !is_within(range, &field) {
        return Ok(());
    }
    let Some(offset) = range.offset.checked_add(field.offset as u64) else {
        // No file is longer than 2^64 bytes
        return Err(impossible());
    };
    vec::push(
        patches,
        Patch {
            offset: offset as usize,
            field: field.field,
        },
    )?;
    Ok(())
}

/// A section that stayed, with the values that the symbols of its object had.
#[derive(Clone, Copy)]
pub struct StayedSection<'a> {
    /// The values in the previous link of the object's symbols, by their numbers.
    pub before: &'a [SymbolValue],
    /// The section in its place.
    pub section: PlacedInput<'a>,
    /// Its file range.
    pub range: FileRange,
}

impl<'a> StayedSection<'a> {
    /// The value that a symbol of the object had, by its number.
    #[inline(always)]
    fn value_before(&self, symbol: SymbolIndex) -> SymbolValue
        ensures { result ≡ slice_index_or self.now.before.now symbol.0 NotDefined }
    {
        self.before
            .get(symbol.0 as usize)
            .copied()
            .unwrap_or(SymbolValue::NotDefined)
    }

    /// Whether the symbol that a relocation of the section names has another value than it had.
    fn has_new_value(&self, symbol: SymbolIndex) -> bool
        ensures { (old : GoodLink) (link : KnownLink) (s : ObjectSection) (r : RelocationOf)
            → IsStayedAt self.now old link s → r.symbol ≡ symbol
            → result ≡ has_new_value old link (site_at_hand self.now.section s r) }
    {
        !is_same_value(self.value_before(symbol), site_value(&self.section, symbol))
    }

    /// Evaluates the relocation of number `entry`: adds its field in its place in the file, or its fault.
    #[inline(never)]
    fn add_site_in_file(
        &self,
        entry: usize,
        relocation: &Relocation,
        patches: &mut Vec<Patch>,
        faults: &mut Vec<Fault>,
        meter: &mut Meter,
    ) -> Result<(), NoMemory>
        requires entry_is { slice_get self.now.section.relocations.now entry ≡ Some relocation.now }
        requires evaluated { is_evaluated relocation.now.kind ≡ true }
        requires below { self.now.section.start + relocation.now.offset < 2 ^ 64 }
        ensures { OnOk result ((link : KnownLink) (s : ObjectSection)
            → IsPlaced link self.now.section s.object s.section
            → IsFiled link self.now.range (sites_at_hand self.now.section s (relocation.now ∷ []))
            patches.old.items patches.new.items faults.old.items faults.new.items meter.old meter.new) }
    {
        check_numbers(self.section.relocations)?;
        match evaluate(&self.section, relocation, meter) {
            Ok(field) => {
                add_in_file(self.range, field, patches)?;
                Ok(())
            }
            Err(reason) => {
                add_fault(&self.section, entry as u32, reason, faults)?;
                Ok(())
            }
        }
    }

    /// Evaluates the relocation of number `entry`, if its symbol has another value: adds its field in its place in the
    /// file, or its fault.
    #[inline(always)]
    fn add_retargeted_site(
        &self,
        entry: usize,
        relocation: &Relocation,
        patches: &mut Vec<Patch>,
        faults: &mut Vec<Fault>,
        meter: &mut Meter,
    ) -> Result<(), NoMemory>
        requires entry_is { slice_get self.now.section.relocations.now entry ≡ Some relocation.now }
        requires below { self.now.section.start + relocation.now.offset < 2 ^ 64 }
        ensures { OnOk result ((old : GoodLink) (link : KnownLink) (s : ObjectSection)
            → IsStayedAt self.now old link s
            → AreRetargetedFiled old link self.now.range
            (sites_at_hand self.now.section s (relocation.now ∷ [])) patches.old.items
            patches.new.items faults.old.items faults.new.items meter.old meter.new) }
    {
        // for the prover: brings in that the count of fields fits a u64
        let _fields = meter.fields();
        if !is_evaluated(relocation.kind) {
            return Ok(());
        }
        if !self.has_new_value(relocation.symbol) {
            return Ok(());
        }
        self.add_site_in_file(entry, relocation, patches, faults, meter)?;
        Ok(())
    }

    /// Evaluates the relocations whose symbol has another value, each of which counts as one, in the order of their
    /// table. Adds their fields, in their places in the file, to `patches`, and their faults to `faults`.
    ///
    /// # Errors
    ///
    /// If memory runs out; a table of 2^32 relocations or more, which no object has whose length is within the limit,
    /// counts as that.
    pub fn add_retargeted(
        &self,
        patches: &mut Vec<Patch>,
        faults: &mut Vec<Fault>,
        meter: &mut Meter,
    ) -> Result<(), NoMemory>
        requires { All (λ relocation. self.now.section.start + relocation.offset < 2 ^ 64)
            self.now.section.relocations.now }
        ensures { OnOk result ((old : GoodLink) (link : KnownLink) (section : ObjectSection)
            → IsStayedAt self.now old link section
            → AreRetargetedFiled old link self.now.range
            (sites_at_hand self.now.section section self.now.section.relocations.now) patches.old.items
            patches.new.items faults.old.items faults.new.items meter.old meter.new) }
    {
        // for the prover: brings in that the count of fields fits a u64
        let _fields = meter.fields();
        for entry in 0..self.section.relocations.len() {
            let relocation = &self.section.relocations[entry];
            self.add_retargeted_site(entry, relocation, patches, faults, meter)?;
        }
        Ok(())
    }
}
