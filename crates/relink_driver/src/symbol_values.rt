//! The value of each symbol of each object of a link.

ghost use Rattle.std.specs.Prelude.{◌≡◌, ◌+◌, ◌++◌, IfOk, None, OnOk, Some, false, length, map, slice_index_or};
ghost use Rattle.std.specs.Option.{option_map};
ghost use Rattle.elfobj.specs.Symbols.{NamedSymbol};
ghost use Rattle.ldmodel.specs.Layout.{Layout};
ghost use Rattle.ldmodel.specs.NameFaults.{object_name};
ghost use Rattle.ldmodel.specs.Names.{is_local, is_weak_binding};
ghost use Rattle.ldmodel.specs.Project.{NamedObject};
ghost use Rattle.ldmodel.specs.SymbolValues.{own_value};
ghost use Rattle.ldmodel.specs.Targets.{referenced_value};
ghost use Rattle.symres.specs.SymbolTable.{IsSeenAt, IsSymbolTable, SymbolTableState};
ghost use Rattle.emit.specs.relocate.KnownLink.{IsSymbolOf, KnownLink, named_object, value_under};
ghost use Rattle.emit.specs.relocate.Values.{value_of};
ghost use Rattle.emit.specs.relocate.LinkView.{known_link};
ghost use Rattle.emit.specs.relocate.SymbolValues.{AreSymbolValues};
ghost use Rattle.relink_driver.specs.ValueSources.{AreAddressesOf, AreSeenIn, AreValueSources};

use elfobj::Object;
use elfobj::relocation::SymbolIndex;
use elfobj::section::SectionIndex;
use elfobj::symbol::{Binding, Symbol, SymbolPlace};
pub use emit::relocate::symbol_values::SymbolValues;
use emit::relocate::value::{SymbolValue, address_from};
use growth::{NoMemory, vec};
use ldmodel::names::{NameKey, ObjectPlace};
use ldmodel_project::input::InputObject;
use ldmodel_project::view::ProjectView;
use place::indexed_layout::{IndexedLayout, SectionAddress};
use std::alloc::Global;
use symres::SymbolTable;

/// What the values of symbols are read from.
#[derive(Clone, Copy)]
pub(crate) struct ValueSources<'a> {
    /// The keys of names.
    pub symbol_table: &'a SymbolTable,
    /// Where input sections are.
    pub indexed_layout: &'a IndexedLayout,
    /// The values of names, under their keys.
    pub names: &'a [SymbolValue],
}

/// How many symbols these objects have, at most the greatest `usize`: for so many no memory is granted.
fn count_symbols(inputs: &[InputObject<'_>]) -> usize {
    let mut count: usize = 0;
    for input in inputs {
        count = count.saturating_add(input.object.symbols().len());
    }
    count
}

/// Whether a symbol is seen in its own object alone.
#[inline(always)]
fn is_local(binding: Binding) -> bool
    ensures { result ≡ is_local binding }
{
    matches!(binding, Binding::Local)
}

/// Whether a reference needs no definition.
#[inline(always)]
fn is_weak(binding: Binding) -> bool
    ensures { result ≡ is_weak_binding binding }
{
    matches!(binding, Binding::Weak)
}

/// The value of the name of a key, in a table of the values of all names.
#[inline(always)]
fn value_under(names: &[SymbolValue], key: NameKey) -> SymbolValue
    ensures { result ≡ value_under names.now key }
{
    match names.get(key.0) {
        None => SymbolValue::NotDefined,
        Some(value) => *value,
    }
}

/// Where a section starts, by the addresses of the sections of its object.
#[inline(always)]
fn start_at(addresses: &[Option<SectionAddress>], section: SectionIndex) -> Option<u64>
    ensures { result ≡ option_map (λ (x : SectionAddress). x.start) (slice_index_or addresses.now section.0 None) }
{
    let address = addresses
        .get(usize::from(section.0))
        .copied()
        .unwrap_or(None);
    match address {
        None => None,
        Some(address) => Some(address.start),
    }
}

/// The value of a symbol by its own entry, by the addresses of the sections of its object.
#[inline(always)]
fn own_value(addresses: &[Option<SectionAddress>], symbol: &Symbol) -> SymbolValue
    ensures { (l : KnownLink) (key : ObjectPlace) → AreAddressesOf l key addresses.now → value_of result
        ≡ own_value l.layout (object_name l.project key.0) symbol.now.place symbol.now.value }
{
    match symbol.place {
        SymbolPlace::Section(section) => address_from(start_at(addresses, section), symbol.value),
        SymbolPlace::Absolute => SymbolValue::Number(symbol.value),
        SymbolPlace::Undefined => SymbolValue::Number(0),
        SymbolPlace::Common => SymbolValue::NotDefined,
    }
}

/// S, the value of a symbol to relocations of its object. What is the same for all symbols of the object, the addresses
/// of its sections, was looked up before.
#[inline(always)]
fn symbol_value(
    sources: ValueSources<'_>,
    addresses: &[Option<SectionAddress>],
    place: ObjectPlace,
    index: SymbolIndex,
    symbol: &Symbol,
) -> SymbolValue
    requires seen { is_local symbol.now.binding ≡ false
        → IsSeenAt sources.symbol_table.now.objects place.0 index.0 }
    ensures { (l : KnownLink) (o : NamedObject) (x : NamedSymbol) → AreValueSources l sources.entry
        → AreAddressesOf l place addresses.now → IsSymbolOf l place index symbol.now o x
        → value_of result ≡ referenced_value l.project l.layout o x }
{
    if is_local(symbol.binding) {
        return own_value(addresses, symbol);
    }
    let key = sources.symbol_table.key_of(place, index);
    value_under(sources.names, key).or_weak(is_weak(symbol.binding))
}

/// Adds the values of the symbols of an object, for which there is room.
fn add_object(
    sources: ValueSources<'_>,
    place: ObjectPlace,
    object: &Object,
    values: &mut Vec<SymbolValue>,
) -> Result<(), NoMemory>
    requires seen { AreSeenIn sources.symbol_table.now place object.now.symbols }
    ensures long { OnOk result (length values.new.items ≡ length values.old.items + length object.now.symbols) }
    ensures values { OnOk result ((l : KnownLink) (o : NamedObject) → AreValueSources l sources.entry
        → named_object l place ≡ Some o → o.object ≡ object.now
        → map value_of values.new.items
        ≡ map value_of values.old.items ++ map (referenced_value l.project l.layout o) o.object.symbols) }
{
    let addresses = sources.indexed_layout.addresses_of(place);
    let symbols = object.symbols();
    let count = symbols.len();
    vec::reserve(values, count)?;
    for number in 0..count {
        let symbol = &symbols[number];
        let index = SymbolIndex(number as u32);
        values.push_reserved(symbol_value(sources, addresses, place, index, symbol));
    }
    Ok(())
}

/// The values of all symbols of a link.
///
/// # Errors
///
/// If memory runs out.
pub(crate) fn symbol_values(
    alloc: Global,
    project: &ProjectView<'_>,
    sources: ValueSources<'_>,
) -> Result<SymbolValues, NoMemory>
    requires { IsSymbolTable project.now sources.symbol_table.now }
    ensures { IfOk result (λ values. (layout : Layout) (table : SymbolTableState)
        → AreValueSources (known_link project.now layout table) sources.entry
        → AreSymbolValues project.now layout values) }
{
    let inputs = project.inputs();
    let count = count_symbols(inputs);
    let mut starts = vec::with_capacity(alloc, inputs.len())?;
    let mut values = vec::with_capacity(alloc, count)?;
    for (place, input) in inputs.iter().enumerate() {
        vec::push(&mut starts, values.len())?;
        add_object(sources, ObjectPlace(place), input.object, &mut values)?;
    }
    Ok(SymbolValues { starts, values })
}
