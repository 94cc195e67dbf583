//! Relocations of an input section in the output: each one's field, or its fault.

ghost use Rattle.std.specs.Prelude.{◌≡◌, ◌≤◌, All, IfOk, ◌+◌, ◌<◌, ◌^◌, Some, ℕ, [], ◌∷◌, length, option_copied};
ghost use Rattle.std.specs.Prelude.{slice_get};
ghost use Rattle.std.specs.Prelude.{true};
ghost use Rattle.elfobj.specs.Raised.{raised};
ghost use Rattle.elfobj.specs.declared.meter.Count.TheVariants.{Fields};
ghost use Rattle.elfobj.specs.Profile.{AreApart};
ghost use Rattle.elfobj.specs.Relocations.{field_end};
ghost use Rattle.elfobj.specs.Sections.{LinkedSection};
ghost use Rattle.ldmodel.specs.Relocations.{Site, is_evaluated, site_value};
ghost use Rattle.emit_relocate.specs.Fields.{evaluations, work_of};
ghost use Rattle.emit_relocate.specs.KnownLink.{KnownLink};
ghost use Rattle.emit_relocate.specs.Sites.{IsEvaluated, IsFieldOf, IsSectionOf, IsOutcome, IsSite, IsSiteAt};
ghost use Rattle.emit_relocate.specs.Sites.{fault_with, with_fault};
ghost use Rattle.emit_relocate.specs.Values.{value_of};

use crate::value::SymbolValue;
use elfobj::relocation::{Relocation, RelocationKind, SymbolIndex};
use elfobj::section::{LinkedIndex, SectionIndex};
use elfobj::{Object, Symbol};
use emit_fields::field::evaluate::field;
use emit_fields::patch::Patch;
use ldmodel::fault::{Fault, SiteRef};
use ldmodel::meter::Meter;
use ldmodel::names::ObjectPlace;

/// An input section in the output, with what its relocations need.
#[derive(Clone, Copy, Debug)]
pub struct PlacedInput<'a> {
    /// The object of the section.
    pub object: ObjectPlace,
    /// The number of the section among the section headers.
    pub section: SectionIndex,
    /// The address that it starts at.
    pub start: u64,
    /// The symbols of the object.
    pub symbols: &'a [Symbol],
    /// Their values, by their numbers.
    pub values: &'a [SymbolValue],
    /// The relocations of the section, in the order of their table.
    pub relocations: &'a [Relocation],
}

impl<'a> PlacedInput<'a> {
    /// A section of an object that starts at an address. `values` are the values of the object's symbols.
    pub fn new(
        place: ObjectPlace,
        object: &'a Object,
        index: LinkedIndex,
        start: u64,
        values: &'a [SymbolValue],
    ) -> PlacedInput<'a>
        requires { index.0 < length object.now.sections }
        ensures start { result.start ≡ start }
        ensures values { result.values.now ≡ values.now }
        ensures section { (section : LinkedSection) → slice_get object.now.sections index.0 ≡ Some section
            → IsSectionOf object.now section place result }
        ensures apart { AreApart result.relocations.now }
        ensures ends { (section : LinkedSection) → slice_get object.now.sections index.0 ≡ Some section
            → All (λ relocation. field_end relocation ≤ section.size) result.relocations.now }
    {
        let section = object.sections()[index.0];
        PlacedInput {
            object: place,
            section: section.number,
            start,
            symbols: object.symbols(),
            values,
            relocations: object.relocations(index),
        }
    }
}

/// Whether a relocation of this kind is evaluated: `NONE` is not.
pub fn is_evaluated(kind: RelocationKind) -> bool
    ensures { result ≡ is_evaluated kind }
{
    !matches!(kind, RelocationKind::None)
}

/// The value of the symbol that a relocation of a section names.
pub fn site_value(section: &PlacedInput<'_>, symbol: SymbolIndex) -> SymbolValue
    ensures { (link : KnownLink) (site : Site) → IsSite link section.now site → site.relocation.symbol ≡ symbol
        → value_of result ≡ site_value link.project link.layout site }
{
    section
        .values
        .get(symbol.0 as usize)
        .copied()
        .unwrap_or(SymbolValue::NotDefined)
}

/// Why a relocation has no field.
#[derive(Clone, Copy, Debug)]
pub enum NoField {
    /// Nothing defines its symbol.
    UndefinedSymbol,
    /// The section of its symbol is not in the output.
    TargetNotInOutput,
    /// Its value, modulo 2^64, is out of its range.
    Overflow(u64),
}

/// The fault of a relocation of number `entry` of a section that has no field.
pub fn fault_of(section: &PlacedInput<'_>, entry: u32, reason: NoField) -> Fault
    ensures { result ≡ fault_with section.now entry reason }
{
    let site = SiteRef {
        object: section.object,
        section: section.section,
        entry,
    };
    match reason {
        NoField::UndefinedSymbol => Fault::UndefinedSymbol(site),
        NoField::TargetNotInOutput => Fault::TargetNotInOutput(site),
        NoField::Overflow(value) => Fault::FieldOverflow { site, value },
    }
}

/// The field of a relocation against a symbol of a value, if it has one.
#[inline(always)]
fn field_with(
    section: &PlacedInput<'_>,
    relocation: &Relocation,
    value: SymbolValue,
    meter: &mut Meter,
) -> Result<Patch, NoField>
    requires evaluated { is_evaluated relocation.now.kind ≡ true }
    requires below { section.now.start + relocation.now.offset < 2 ^ 64 }
    ensures field { IfOk result (IsFieldOf relocation.now) }
    ensures outcome { (link : KnownLink) (entry : ℕ) (site : Site) → IsSiteAt link section.now entry site
        → site.relocation ≡ relocation.now
        → IsOutcome link site (value_of value) (with_fault section.now entry result) }
    ensures counted { meter.new ≡ raised meter.old Fields (work_of (value_of value)) }
{
    // for the prover: brings in that the count of fields fits a u64
    let _fields = meter.fields();
    match value {
        SymbolValue::NotDefined => Err(NoField::UndefinedSymbol),
        SymbolValue::NotInOutput => Err(NoField::TargetNotInOutput),
        SymbolValue::Number(value) => {
            let place = section.start + relocation.offset;
            match field(relocation, value, place, meter) {
                Ok(field) => Ok(Patch {
                    offset: relocation.offset as usize,
                    field,
                }),
                Err(overflow) => Err(NoField::Overflow(overflow.value)),
            }
        }
    }
}

/// The field of a relocation, in its place, if it has one. The call counts one relocation if the symbol has a value.
#[inline(always)]
pub fn evaluate(
    section: &PlacedInput<'_>,
    relocation: &Relocation,
    meter: &mut Meter,
) -> Result<Patch, NoField>
    requires evaluated { is_evaluated relocation.now.kind ≡ true }
    requires below { section.now.start + relocation.now.offset < 2 ^ 64 }
    ensures field { IfOk result (IsFieldOf relocation.now) }
    ensures evaluated { (link : KnownLink) (entry : ℕ) (site : Site) → IsSiteAt link section.now entry site
        → site.relocation ≡ relocation.now
        → IsEvaluated link site (with_fault section.now entry result) }
    ensures counted { (link : KnownLink) (site : Site) → IsSite link section.now site → site.relocation
        ≡ relocation.now
        → meter.new ≡ raised meter.old Fields (evaluations link (site ∷ [])) }
{
    let value = site_value(section, relocation.symbol);
    field_with(section, relocation, value, meter)
}
