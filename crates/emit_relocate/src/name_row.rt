//! What a name is in the output: its value, and what the symbol table says of it.

ghost use Rattle.std.specs.Prelude.{◌≡◌, ◌+◌, ℕ, IfOk, List, Some};
ghost use Rattle.std.specs.Option.{option_map};
ghost use Rattle.elfobj.specs.file.declared.constants.TheConstants.{SHN_ABS};
ghost use Rattle.ldmodel.specs.CodeValues.{decision_of, entry_of};
ghost use Rattle.ldmodel.specs.Layout.{Layout, PlacedPiece};
ghost use Rattle.ldmodel.specs.NameFaults.{object_name};
ghost use Rattle.ldmodel.specs.Project.{Project};
ghost use Rattle.ldmodel.specs.SymbolValues.{placed_part, value_or_undefined};
ghost use Rattle.ldmodel.specs.Tail.{header_of_part};
ghost use Rattle.ldmodel.specs.declared.sections.SectionRef.{SectionRef as SectionKeyOf};
ghost use Rattle.place.specs.IndexedLayout.{IsIndexedLayout, IsSectionAddress};
ghost use Rattle.place.specs.declared.indexed_layout.IndexedLayout.{IndexedLayout as IndexedLayoutOf};
ghost use Rattle.emit_relocate.specs.KnownLink.{KnownLink};
ghost use Rattle.emit_relocate.specs.Values.{value_of};
ghost use Rattle.emit_relocate.specs.LinkView.{IsLinkView};
ghost use Rattle.emit_text.specs.Definer.{definer_of};
ghost use Rattle.emit_relocate.specs.NameRows.{bare_row, block_row, decided_row, entry_row, shown_in, shown_row};
ghost use Rattle.emit_relocate.specs.SymbolRows.{definer_in};
ghost use Rattle.emit_relocate.specs.NameRows.{IsPlaceIn, IsPlaceOf};
ghost use Rattle.emit_relocate.specs.ObjectParts.{AreAddresses, AreSymbols};
ghost use Rattle.emit_relocate.specs.ObjectTable.{IsObjectTable};

use crate::link_view::LinkView;
use crate::object_parts::ObjectParts;
use crate::object_table::ObjectTable;
use crate::symbol_row::SymbolRow;
use crate::value::{SymbolValue, address_from};
use elfobj::file::constants::SHN_ABS;
use elfobj::relocation::SymbolIndex;
use elfobj::symbol::{Symbol, SymbolKind, SymbolPlace};
use emit_text::definer::Definer;
use growth::{NoMemory, impossible};
use ldmodel::names::{Case, Entry, NameKey, ObjectPlace};
use ldmodel::placed::OutputIndex;
use ldmodel::sections::{Part, SectionRef};
use place::indexed_layout::{IndexedLayout, SectionAddress};

/// What the symbol table says of a symbol of the output, beside its name, its binding and its value.
#[derive(Clone, Copy, Debug)]
pub struct SymbolFacts {
    /// The type of the object's symbol that defines it, `Object` for a common block, or `NoType` for the script's.
    pub kind: SymbolKind,
    /// `st_shndx`: the number of the header of its output section, or `SHN_ABS`.
    pub section: u32,
    /// The size of the object's symbol or of the common block, else 0.
    pub size: u64,
}

/// What a name is in the output.
#[derive(Clone, Copy, Debug)]
pub(crate) struct NameRow {
    /// Its value.
    pub value: SymbolValue,
    /// What the symbol table says of it.
    pub facts: SymbolFacts,
}

/// The place of a symbol: its value, and the number of the header of its output section, or `SHN_ABS`.
#[derive(Clone, Copy)]
struct Standing {
    value: SymbolValue,
    section: u32,
}

/// The number for no section header.
const NO_HEADER: u32 = SHN_ABS as u32;

/// The facts of a name that the script gives a number.
pub(crate) const OF_SCRIPT: SymbolFacts = SymbolFacts {
    kind: SymbolKind::NoType,
    section: NO_HEADER,
    size: 0,
};

/// The number of the header of an output section: the null header comes first. Fails if there is none.
fn header_of(section: OutputIndex) -> Result<u32, NoMemory>
    ensures { IfOk result (λ n. n ≡ section.0 + 1) }
{
    section.0.checked_add(1).ok_or(impossible())
}

/// The number of the header of the output section that holds this place of an input section. Fails if there are 2^32
/// output sections.
fn header_at(place: Option<SectionAddress>) -> Result<u32, NoMemory>
    ensures { IfOk result (λ n. (project : Project) (layout : Layout) (key : SectionKeyOf)
        → IsSectionAddress project layout key place
        → n ≡ header_of_part layout (object_name project key.object.0) key.part) }
{
    match place {
        Some(address) => header_of(address.section),
        None => Ok(NO_HEADER),
    }
}

/// Where an input section in this place starts, if it is in the output.
pub(crate) fn start_at(place: Option<SectionAddress>) -> Option<u64>
    ensures { (project : Project) (layout : Layout) (key : SectionKeyOf) → IsSectionAddress project layout key place
        → result ≡ option_map (λ (placed : PlacedPiece). placed.start)
        (placed_part layout (object_name project key.object.0) key.part) }
{
    match place {
        Some(address) => Some(address.start),
        None => None,
    }
}

/// The place of a symbol at an offset in an input section in this place.
#[inline(always)]
fn standing_at(place: Option<SectionAddress>, offset: u64) -> Result<Standing, NoMemory>
    ensures { IfOk result (λ x. (project : Project) (layout : Layout) (key : SectionKeyOf)
        → IsSectionAddress project layout key place
        → IsPlaceIn layout (object_name project key.object.0) key.part offset x) }
{
    let section = header_at(place)?;
    Ok(Standing {
        value: address_from(start_at(place), offset),
        section,
    })
}

/// The place of a symbol that is in no section.
fn standing_nowhere(value: SymbolValue) -> Standing
    ensures value { result.value ≡ value }
    ensures section { result.section ≡ SHN_ABS }
{
    Standing {
        value,
        section: NO_HEADER,
    }
}

/// The place of a symbol of an object.
#[inline(always)]
fn standing_of(parts: ObjectParts<'_>, symbol: &Symbol) -> Result<Standing, NoMemory>
    ensures { IfOk result (λ x. (project : Project) (layout : Layout) (indexed : IndexedLayoutOf)
        → IsIndexedLayout project layout indexed → AreAddresses indexed parts.entry
        → IsPlaceOf layout (object_name project parts.entry.place.0) symbol.now x) }
{
    match symbol.place {
        SymbolPlace::Section(number) => standing_at(parts.address(number), symbol.value),
        SymbolPlace::Absolute => Ok(standing_nowhere(SymbolValue::Number(symbol.value))),
        SymbolPlace::Undefined => Ok(standing_nowhere(SymbolValue::Number(0))),
        SymbolPlace::Common => Ok(standing_nowhere(SymbolValue::NotDefined)),
    }
}

/// The row of a name that no object defines.
pub(crate) fn bare_row(value: SymbolValue) -> NameRow
    ensures { shown_row result ≡ bare_row (value_of value) }
{
    NameRow {
        value,
        facts: OF_SCRIPT,
    }
}

/// The row of a name that a symbol of this object defines.
#[inline(always)]
fn entry_row(parts: ObjectParts<'_>, symbol: SymbolIndex) -> Result<NameRow, NoMemory>
    ensures { IfOk result (λ x. (project : Project) (layout : Layout) (indexed : IndexedLayoutOf)
        → IsIndexedLayout project layout indexed → AreSymbols project parts.entry → AreAddresses indexed parts.entry
        → shown_row x ≡ entry_row project layout (record { object = parts.entry.place.0; symbol = symbol.0 })) }
{
    match parts.symbols.get(symbol.0 as usize) {
        None => Ok(bare_row(SymbolValue::NotDefined)),
        Some(found) => {
            let standing = standing_of(parts, found)?;
            Ok(NameRow {
                value: standing.value,
                facts: SymbolFacts {
                    kind: found.kind,
                    section: standing.section,
                    size: found.size,
                },
            })
        }
    }
}

/// The row of a name that is a common block of this size.
fn block_row(
    indexed_layout: &IndexedLayout,
    owner: Entry<ObjectPlace>,
    size: u64,
) -> Result<NameRow, NoMemory>
    ensures { IfOk result (λ x. (project : Project) (layout : Layout)
        → IsIndexedLayout project layout indexed_layout.now
        → shown_row x ≡ block_row project layout (entry_of (λ key. key) owner) size) }
{
    let object = owner.object;
    let part = Part::InCommon(owner.symbol);
    let standing = standing_at(indexed_layout.find(SectionRef { object, part }), 0)?;
    Ok(NameRow {
        value: standing.value,
        facts: SymbolFacts {
            kind: SymbolKind::Object,
            section: standing.section,
            size,
        },
    })
}

/// The number that the script gives a name, if it gives one.
pub(crate) fn given_value(given: Option<u64>) -> SymbolValue
    ensures { value_of result ≡ value_or_undefined given }
{
    match given {
        None => SymbolValue::NotDefined,
        Some(value) => SymbolValue::Number(value),
    }
}

/// The row of the name of a key, by its resolution. The value that the script gives the name is looked up only if the
/// script defines it. What defines the name is told apart here too: so the cases are told apart once.
#[inline(always)]
pub(crate) fn name_row<'a>(
    link: &LinkView<'a, '_>,
    objects: &ObjectTable<'a>,
    case: Case<ObjectPlace>,
    key: NameKey,
) -> Result<SymbolRow, NoMemory>
    requires { IsObjectTable link.now.project.now link.now.indexed_layout.now objects.now }
    ensures definer { IfOk result (λ x. definer_in x ≡ definer_of (decision_of (λ key. key) case)) }
    ensures row { IfOk result (λ x. (l : KnownLink) (name : List ℕ) → IsLinkView l link.now → l.name key.0 ≡ Some name
        → shown_in x ≡ decided_row l.project l.layout name (decision_of (λ key. key) case)) }
{
    match case {
        Case::Strong(entry) => {
            let row = entry_row(objects.parts(link, entry.object), entry.symbol)?;
            Ok(SymbolRow::of(Definer::Object(entry.object), row))
        }
        Case::Weak(entry) => {
            let row = entry_row(objects.parts(link, entry.object), entry.symbol)?;
            Ok(SymbolRow::of(Definer::WeakOf(entry.object), row))
        }
        Case::Common { owner, size, .. } => {
            let row = block_row(link.indexed_layout, owner, size)?;
            Ok(SymbolRow::of(Definer::Object(owner.object), row))
        }
        Case::Script | Case::Provided => {
            let row = bare_row(given_value(link.script_value(key)));
            Ok(SymbolRow::of(Definer::Script, row))
        }
        Case::Undefined | Case::Duplicate => {
            let row = bare_row(SymbolValue::NotDefined);
            Ok(SymbolRow::of(Definer::Nothing, row))
        }
    }
}
