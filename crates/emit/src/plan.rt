//! What is written of each section of an object: its bytes, with its fields in them.

ghost use Rattle.std.specs.Prelude.{◌≡◌, ◌+◌, ◌<◌, ◌^◌, ◌⊎◌, [], ℕ, All, IfNone, IfOk, IfSome, Some, length};
ghost use Rattle.std.specs.Prelude.{false, slice_get, sum_by, true};
ghost use Rattle.std.specs.List.{AllZip};
ghost use Rattle.elfobj.specs.Raised.{raised};
ghost use Rattle.elfobj.specs.Sections.{LinkedSection};
ghost use Rattle.elfobj.specs.declared.meter.Count.TheVariants.{Bytes, Fields};
ghost use Rattle.elfobj.specs.declared.section.SectionKind.TheVariants.{Nobits};
ghost use Rattle.emit_fields.specs.Patches.{AreInOrder};
ghost use Rattle.ldmodel.specs.Project.{NamedObject};
ghost use Rattle.ldmodel.specs.Relocations.{sites_at};
ghost use Rattle.emit_relocate.specs.Fields.{evaluations};
ghost use Rattle.emit_relocate.specs.KnownLink.{KnownLink};
ghost use Rattle.emit.specs.Plan.{AreWritten, CanStand, HasBytes, IsAtHand, IsFaultlessRun, IsInFile};
ghost use Rattle.emit.specs.Plan.{IsPlanned, IsPlannedAt, IsRefused, IsWithin, count_of, sites_in_all};
ghost use Rattle.emit.specs.Plan.{sites_there, written, written_all};

use crate::located_section::LocatedSection;
use elfobj::Object;
use elfobj::section::{LinkedIndex, SectionKind};
use emit_fields::canvas::Canvas;
use emit_fields::patch::{Patch, write_patched};
use emit_relocate::fields::add_fields;
use emit_relocate::previous_link_info::FileRange;
use emit_relocate::site::PlacedInput;
use emit_relocate::value::SymbolValue;
use growth::{NoMemory, impossible, vec};
use ldmodel::meter::Meter;
use ldmodel::names::ObjectPlace;
use std::alloc::Global;

/// The bytes of a section, where they begin in the file, and the fields that lie in them.
#[derive(Drop)]
pub struct PlannedSection<'a> {
    /// Where they begin.
    pub at: usize,
    /// The bytes of the section itself.
    pub bytes: &'a [u8],
    /// Its fields, in the order of their offsets.
    pub fields: Vec<Patch>,
}

/// Whether nothing is written of a section of this kind, which has no bytes in this range of the file.
fn is_empty(kind: SectionKind, range: FileRange) -> bool
    ensures empty { result ≡ true → (range.length ≡ 0) ⊎ (kind ≡ Nobits) }
    ensures some { result ≡ false → HasBytes kind range }
{
    range.length == 0 || matches!(kind, SectionKind::Nobits)
}

/// Whether nothing is written of a section of this kind, or `bytes` is as long as `range`, which ends at `limit` or
/// before.
fn fits(kind: SectionKind, bytes: &[u8], range: FileRange, limit: usize) -> bool
    ensures fits { result ≡ true → HasBytes kind range → IsInFile limit bytes.now range }
    ensures none { result ≡ false → (HasBytes kind range → IsInFile limit bytes.now range) → ⊥ }
{
    if is_empty(kind, range) {
        return true;
    }
    let length = bytes.len();
    range.length == length as u64 && length <= limit && range.offset as usize <= limit - length
}

/// Whether `spot` is a section of `object` that ends below 2^64 and whose bytes in the file end at `limit` or before.
/// The time is constant.
fn can_stand(object: &Object, limit: usize, spot: LocatedSection) -> bool
    ensures stands { result ≡ true → CanStand object.now limit spot }
    ensures refused { result ≡ false → CanStand object.now limit spot → ⊥ }
{
    if spot.index.0 >= object.sections().len() {
        return false;
    }
    let section = object.sections()[spot.index.0];
    let bytes = object.section_bytes(spot.index);
    section.size <= u64::MAX - spot.start && fits(section.kind, bytes, spot.range, limit)
}

/// Whether fields lie one after another, and end at a limit at the latest.
fn are_in_order(fields: &[Patch], limit: usize) -> bool
    ensures order { result ≡ true → AreInOrder 0 limit fields.now }
    ensures none { result ≡ false → AreInOrder 0 limit fields.now → ⊥ }
{
    let mut end: usize = 0;
    for patch in fields {
        if patch.offset < end {
            return false;
        }
        match patch.offset.checked_add(patch.field.bytes().len()) {
            None => return false,
            Some(next) => end = next,
        }
    }
    end <= limit
}

/// The fields of a section of an object that starts at an address; `None` exactly if a relocation has a fault.
fn evaluate_fields(
    alloc: Global,
    place: ObjectPlace,
    object: &Object,
    values: &[SymbolValue],
    index: LinkedIndex,
    start: u64,
    meter: &mut Meter,
) -> Result<Option<Vec<Patch>>, NoMemory>
    requires index { index.0 < length object.now.sections }
    requires end { (section : LinkedSection) → slice_get object.now.sections index.0 ≡ Some section
        → start + section.size < 2 ^ 64 }
    ensures some { IfOk result (λ r. IfSome r (λ run. (link : KnownLink) (o : NamedObject) (section : LinkedSection)
        → IsAtHand link place object.now values.now o → slice_get o.object.sections index.0 ≡ Some section
        → IsFaultlessRun link o section start run.items
        × (meter.new ≡ raised meter.old Fields (evaluations link (sites_at o section start))))) }
    ensures none { IfOk result (λ r. IfNone r ((link : KnownLink) (o : NamedObject) (section : LinkedSection)
        → IsAtHand link place object.now values.now o → slice_get o.object.sections index.0 ≡ Some section
        → IsRefused link (sites_at o section start) meter.old meter.new)) }
{
    // for the prover: brings in that the count of fields fits a u64
    let _fields = meter.fields();
    let section = PlacedInput::new(place, object, index, start, values);
    let mut fields = Vec::new(alloc);
    let mut faults = Vec::new(alloc);
    add_fields(alloc, &section, &mut fields, &mut faults, meter)?;
    if faults.is_empty() {
        Ok(Some(fields))
    } else {
        Ok(None)
    }
}

/// Nothing at all.
fn nothing<'a>(alloc: Global) -> PlannedSection<'a>
    ensures { written result ≡ record { at = 0; bytes = []; run = [] } }
{
    PlannedSection {
        at: 0,
        bytes: &[],
        fields: Vec::new(alloc),
    }
}

/// What is written of a section of this kind with these bytes and fields, if the fields are in order, as those of a
/// link are; nothing else.
fn planned_section<'a>(
    alloc: Global,
    kind: SectionKind,
    bytes: &'a [u8],
    fields: Vec<Patch>,
    range: FileRange,
    limit: usize,
) -> PlannedSection<'a>
    requires { HasBytes kind range → IsInFile limit bytes.now range }
    ensures within { IsWithin limit (written result) }
    ensures planned { AreInOrder 0 (length bytes.now) fields.items
        → IsPlanned kind bytes.now range fields.items (written result) }
{
    if is_empty(kind, range) {
        return nothing(alloc);
    }
    let at = range.offset as usize;
    // No fields of a section meet, and each ends within the section's bytes; but `add_fields` says so only if the
    // symbols have their values in a link
    if !are_in_order(&fields, bytes.len()) {
        return nothing(alloc);
    }
    PlannedSection { at, bytes, fields }
}

/// What is written of a section of an object; `None` exactly if a relocation has a fault.
fn plan_section<'a>(
    alloc: Global,
    limit: usize,
    place: ObjectPlace,
    object: &'a Object,
    values: &[SymbolValue],
    spot: LocatedSection,
    meter: &mut Meter,
) -> Result<Option<PlannedSection<'a>>, NoMemory>
    ensures within { IfOk result (λ r. IfSome r (λ w. IsWithin limit (written w))) }
    ensures planned { IfOk result (λ r. IfSome r (λ w. (link : KnownLink) (o : NamedObject)
        → IsAtHand link place object.now values.now o → IsPlannedAt link o spot (written w)
        × (meter.new ≡ raised meter.old Fields (evaluations link (sites_there o spot))))) }
    ensures none { IfOk result (λ r. IfNone r ((link : KnownLink) (o : NamedObject)
        → IsAtHand link place object.now values.now o → IsRefused link (sites_there o spot) meter.old meter.new)) }
{
    // for the prover: brings in that the count of fields fits a u64
    let _fields = meter.fields();
    if !can_stand(object, limit, spot) {
        // no link has such a spot; no contract rules it out, so `rewrite_in_place` refuses it
        return Err(impossible());
    }
    let kind = object.sections()[spot.index.0].kind;
    let bytes = object.section_bytes(spot.index);
    // for the prover: brings in the invariant of `object`, of its relocations
    let _relocations = object.relocations(spot.index);
    match evaluate_fields(alloc, place, object, values, spot.index, spot.start, meter)? {
        None => Ok(None),
        Some(fields) => {
            let planned = planned_section(alloc, kind, bytes, fields, spot.range, limit);
            Ok(Some(planned))
        }
    }
}

/// Plans the writes of an object's sections onto a canvas of length `limit`; `None` exactly if a relocation has a
/// fault. Each relocation whose symbol has a value counts as one.
///
/// # Errors
///
/// If memory runs out.
pub(crate) fn plan<'a>(
    alloc: Global,
    limit: usize,
    place: ObjectPlace,
    object: &'a Object,
    values: &[SymbolValue],
    located: &[LocatedSection],
    meter: &mut Meter,
) -> Result<Option<Vec<PlannedSection<'a>>>, NoMemory>
    ensures within { IfOk result (λ r. IfSome r (λ ws. All (IsWithin limit) (written_all ws.items))) }
    ensures planned { IfOk result (λ r. IfSome r (λ ws. (link : KnownLink) (o : NamedObject)
        → IsAtHand link place object.now values.now o → AllZip (IsPlannedAt link o) located.now (written_all ws.items)
        × (meter.new ≡ raised meter.old Fields (evaluations link (sites_in_all o located.now))))) }
    ensures none { IfOk result (λ r. IfNone r ((link : KnownLink) (o : NamedObject)
        → IsAtHand link place object.now values.now o
        → IsRefused link (sites_in_all o located.now) meter.old meter.new)) }
{
    // for the prover: brings in that the count of fields fits a u64
    let _fields = meter.fields();
    let mut sections = vec::with_capacity(alloc, located.len())?;
    for spot in located {
        match plan_section(alloc, limit, place, object, values, *spot, meter)? {
            None => return Ok(None),
            Some(section) => vec::push(&mut sections, section)?,
        }
    }
    Ok(Some(sections))
}

/// Writes what was planned, each byte once. It takes no memory.
pub(crate) fn write_plan(canvas: &mut Canvas, sections: &[PlannedSection<'_>], meter: &mut Meter)
    requires { All (IsWithin (length canvas.old.bytes)) (written_all sections.now) }
    ensures written { AreWritten (written_all sections.now) canvas.old.bytes canvas.new.bytes }
    ensures room { canvas.new.room ≡ canvas.old.room }
    ensures counted { meter.new ≡ raised meter.old Bytes (sum_by count_of (written_all sections.now)) }
{
    // for the prover: brings in that the count of bytes fits a u64
    let _bytes = meter.bytes();
    for section in sections {
        write_patched(canvas, section.at, section.bytes, &section.fields, meter);
    }
}
