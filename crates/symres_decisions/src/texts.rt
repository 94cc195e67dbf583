//! The names that the symbol table of an object declares, and their cases.

ghost use Rattle.std.specs.Prelude.{◌≡◌, ◌<◌, ◌++◌, ◌∷◌, ℕ, List, Option, [], false, length, true};
ghost use Rattle.std.specs.Prelude.{slice_index_or};
ghost use Rattle.elfobj.specs.Symbols.{NamedSymbol};
ghost use Rattle.elfobj.specs.Counts.{Counts};
ghost use Rattle.ldmodel.specs.Names.{is_local};
ghost use Rattle.ldmodel.specs.declared.names.Case.{Case};
ghost use Rattle.ldmodel.specs.declared.names.ObjectKey.{ObjectKey};
ghost use Rattle.symres_decisions.specs.Decided.{AreCases};
ghost use Rattle.symres_decisions.specs.Room.{HaveEntries};
ghost use Rattle.symres_decisions.specs.Counted.{declared_in};
ghost use Rattle.symres_decisions.specs.Texts.{AreDone, AreFound, AreKnown, AreNoted, AreOpen, DecidedFor, DecidesOnce};
ghost use Rattle.symres_decisions.specs.Texts.{HasPlaces, IsCleared, IsKeyOf};
ghost use Rattle.symres_table.specs.State.{AreDistinct, HasName};

use crate::cases::Cases;
use elfobj::relocation::SymbolIndex;
use elfobj::{Meter, Object};
use ldmodel::names::{NameKey, ObjectPlace};
use ldscript::Script;
use symres_table::names::Names;
use symres_table::symbol::is_visible;

/// Where the keys of the names that an object declares stand, so that the names need not be hashed.
#[derive(Clone, Copy)]
pub enum KeySource<'a> {
    /// The object is entered at this place.
    Entered(ObjectPlace),
    /// The object isn't entered. These are the keys of its first symbols; what stands for a local one is not read.
    Noted(&'a [NameKey]),
}

/// The key of the name of a symbol that isn't local. The name is hashed if no key is noted for the symbol.
fn key_noted(
    names: &Names,
    keys: &[NameKey],
    object: &Object,
    symbol: SymbolIndex,
) -> Option<NameKey>
    requires known { AreKnown names.now.names object.now.symbols }
    requires noted { AreNoted names.now.names object.now.symbols keys.now }
    requires number { symbol.0 < length object.now.symbols }
    requires seen { (d : NamedSymbol) → is_local (slice_index_or object.now.symbols symbol.0 d).symbol.binding ≡ false }
    ensures { (d : NamedSymbol) → IsKeyOf names.now.names (slice_index_or object.now.symbols symbol.0 d) result }
{
    let number = symbol.0 as usize;
    if number < keys.len() {
        return Some(keys[number]);
    }
    names.key_named(object.name_of(symbol))
}

/// The key of the name of a symbol that isn't local.
fn key_of_seen(
    names: &Names,
    source: KeySource<'_>,
    object: &Object,
    symbol: SymbolIndex,
) -> Option<NameKey>
    requires found { AreFound names.now source object.now.symbols }
    requires number { symbol.0 < length object.now.symbols }
    requires seen { (d : NamedSymbol) → is_local (slice_index_or object.now.symbols symbol.0 d).symbol.binding ≡ false }
    ensures { (d : NamedSymbol) → IsKeyOf names.now.names (slice_index_or object.now.symbols symbol.0 d) result }
{
    match source {
        KeySource::Entered(place) => Some(names.key_at(place, symbol)),
        KeySource::Noted(keys) => key_noted(names, keys, object, symbol),
    }
}

/// The key of the name of a symbol, if it isn't local.
pub fn key_of(
    names: &Names,
    source: KeySource<'_>,
    object: &Object,
    number: usize,
) -> Option<NameKey>
    requires found { AreFound names.now source object.now.symbols }
    requires number { number < length object.now.symbols }
    ensures { (d : NamedSymbol) → IsKeyOf names.now.names (slice_index_or object.now.symbols number d) result }
{
    let symbols = object.symbols();
    if is_visible(&symbols[number]) {
        return key_of_seen(names, source, object, SymbolIndex(number as u32));
    }
    None
}

/// Clears the case of the name of a symbol.
fn clear_name(
    names: &Names,
    source: KeySource<'_>,
    object: &Object,
    number: usize,
    cases: &mut Cases,
)
    requires found { AreFound names.now source object.now.symbols }
    requires number { number < length object.now.symbols }
    requires distinct { AreDistinct names.now.names }
    requires room { HasPlaces names.now.names cases.old }
    ensures { (start : List (Option (Case ObjectKey))) (before : List NamedSymbol) (d : NamedSymbol)
        → IsCleared names.now.names before start cases.old
        → IsCleared names.now.names (before ++ slice_index_or object.now.symbols number d ∷ []) start cases.new }
{
    match key_of(names, source, object, number) {
        Some(key) => cases.set(key, None),
        None => {}
    }
}

/// Clears the cases of the names that an object declares.
pub fn clear_names(names: &Names, source: KeySource<'_>, object: &Object, cases: &mut Cases)
    requires found { AreFound names.now source object.now.symbols }
    requires distinct { AreDistinct names.now.names }
    requires room { HasPlaces names.now.names cases.old }
    ensures { IsCleared names.now.names object.now.symbols cases.old cases.new }
{
    for number in 0..object.symbols().len() {
        clear_name(names, source, object, number, cases);
    }
}

/// Decides the name of a key, if it has no case.
fn decide_once(names: &Names, script: &Script, key: NameKey, cases: &mut Cases, meter: &mut Meter)
    requires named { HasName names.now.names key.0 }
    requires room { key.0 < length cases.old }
    ensures long { length cases.new ≡ length cases.old }
    ensures decided { DecidesOnce script.now names.now key.0 cases.old cases.new meter.old meter.new }
{
    if cases.get(key).is_some() {
        return;
    }
    let decision = names.decide_key(script, key, meter);
    cases.set(key, Some(*decision.case()));
}

/// Decides the name of a symbol that isn't local, unless it has a case.
fn decide_name(
    names: &Names,
    script: &Script,
    source: KeySource<'_>,
    object: &Object,
    number: usize,
    cases: &mut Cases,
    meter: &mut Meter,
)
    requires found { AreFound names.now source object.now.symbols }
    requires number { number < length object.now.symbols }
    requires distinct { AreDistinct names.now.names }
    requires room { HasPlaces names.now.names cases.old }
    ensures long { length cases.new ≡ length cases.old }
    ensures decided { (start : List (Option (Case ObjectKey))) (m : Counts) (seen : List (List ℕ))
        (before : List NamedSymbol) (d : NamedSymbol)
        → AreOpen names.now.names start (declared_in object.now.symbols) seen
        → DecidedFor script.now names.now start cases.old m meter.old seen before
        → DecidedFor script.now names.now start cases.new m meter.new seen
        (before ++ slice_index_or object.now.symbols number d ∷ []) }
{
    match key_of(names, source, object, number) {
        Some(key) => decide_once(names, script, key, cases, meter),
        None => {}
    }
}

/// Decides the names that an object declares, those that have no case, each once.
pub fn decide_names(
    names: &Names,
    script: &Script,
    source: KeySource<'_>,
    object: &Object,
    cases: &mut Cases,
    meter: &mut Meter,
)
    requires found { AreFound names.now source object.now.symbols }
    requires distinct { AreDistinct names.now.names }
    requires room { HasPlaces names.now.names cases.old }
    ensures long { length cases.new ≡ length cases.old }
    ensures decided { (seen : List (List ℕ)) → AreCases script.now names.now cases.old
        → AreDone names.now.names cases.old seen
        → AreOpen names.now.names cases.old (declared_in object.now.symbols) seen
        → DecidedFor script.now names.now cases.old cases.new meter.old meter.new seen object.now.symbols }
{
    // for the prover: brings in that the count of names fits a u64
    let _names = meter.names();
    for number in 0..object.symbols().len() {
        decide_name(names, script, source, object, number, cases, meter);
    }
}

/// Whether the name of a symbol has an entry, unless the symbol is local.
fn has_entry(names: &Names, source: KeySource<'_>, object: &Object, number: usize) -> bool
    requires found { AreFound names.now source object.now.symbols }
    requires number { number < length object.now.symbols }
    ensures { result ≡ true → (before : List NamedSymbol) (d : NamedSymbol) → HaveEntries names.now.objects before
        → HaveEntries names.now.objects (before ++ slice_index_or object.now.symbols number d ∷ []) }
{
    match key_of(names, source, object, number) {
        Some(key) => !names.entries(key).is_empty(),
        None => true,
    }
}

/// Whether each name that an object declares has an entry.
pub fn have_entries(names: &Names, source: KeySource<'_>, object: &Object) -> bool
    requires found { AreFound names.now source object.now.symbols }
    ensures { result ≡ true → HaveEntries names.now.objects object.now.symbols }
{
    for number in 0..object.symbols().len() {
        if !has_entry(names, source, object, number) {
            return false;
        }
    }
    true
}
