//! The names of entered objects, and how each is resolved.

ghost use Rattle.std.specs.Prelude.{◌≡◌, ◌≤◌, ◌<◌, ◌+◌, ◌==◌, ℕ, List, [], length, insert, map, true, false, not};
ghost use Rattle.std.specs.Prelude.{vec_len, vec_capacity, OnOk, OnErr, MatchOption, IfSome, IfNone, slice_get, drop};
ghost use Rattle.std.specs.Prelude.{is_some, slice_index_or};
ghost use Rattle.std.specs.List.{All};
ghost use Rattle.std.specs.Option.{option_map};
ghost use Rattle.elfobj.specs.Raised.{raised};
ghost use Rattle.elfobj.specs.declared.meter.Count.TheVariants as counts;
ghost use Rattle.elfobj.specs.Symbols.{NamedSymbol};
ghost use Rattle.ldmodel.specs.CodeValues.{decision_under_keys};
ghost use Rattle.ldmodel.specs.Names.{decided, is_local};
ghost use Rattle.ldmodel.specs.ScriptNames.{is_assigned, is_provided};
ghost use Rattle.symres_table.specs.Changes.{IsRefused, Joins};
ghost use Rattle.symres_table.specs.Known.{AddsNames, entry_spelled};
ghost use Rattle.symres_table.specs.Lists.{rooms, Adds};
ghost use Rattle.symres_table.specs.Objects.{GrowsRoom};
ghost use Rattle.symres_table.specs.Spelled.{IsReady, SpellsSeen};
ghost use Rattle.symres_table.specs.State.{entries_of, Forgets, HasList, HasName, HasObject, HasSymbol, IsFresh};
ghost use Rattle.symres_table.specs.State.{IsListing, IsMore, IsNamed, IsNameOfSymbol, IsSameBut};
ghost use Rattle.symres_table.specs.State.{KeepsNames};
ghost use Rattle.symres_table.specs.State.{IsNameAt, IsSeenAt, MayEnter, object_key, ParksList, SameNames, TakesList};
ghost use Rattle.symres_table.specs.State.{slot, without};
ghost use Rattle.symres_table.specs.declared.symbol.Numbered.{Numbered};
ghost use Rattle.symres_table.specs.Tally.{declaration_of};

use crate::hints::Hints;
use crate::lists::{number_all, number_new, number_seen, park, take_list};
use crate::name_table::NameTable;
use crate::objects::Objects;
use crate::repeats::Repeats;
use crate::symbol::{Declared, Numbered};
use crate::tally::decide;
use elfobj::relocation::SymbolIndex;
use elfobj::{Count, Meter, Object};
use growth::{NoMemory, vec};
use indexmap::map::Iter;
use ldmodel::names::{Case, NameKey, ObjectKey, ObjectPlace};
use ldscript::Script;
use std::alloc::Global;
use std::hash::RandomState;
use std::marker::Model;

/// The resolution of a name. Only `Names` makes one, and counts it.
#[derive(Drop)]
pub struct Decision {
    case: Case<ObjectKey>,
}

impl Model for Decision {
    ghost use Rattle.ldmodel.specs.declared.names.Case.{Case};
    ghost use Rattle.ldmodel.specs.declared.names.ObjectKey.{ObjectKey};

    ghost Value = { Case ObjectKey };

    ghost view = { λ d. d.case };
}

impl Decision {
    /// The case, with the caller's keys of objects.
    pub fn case(&self) -> &Case<ObjectKey>
        ensures { result.now ≡ self.now }
    {
        &self.case
    }
}

/// The names of entered objects. Each has a key while it is known, and its entries are in object order, so that it is
/// resolved in one pass over them.
#[derive(Drop)]
pub struct Names {
    known: NameTable,
    objects: Objects,
    spare: Vec<Vec<Numbered>>,
    // the symbols of the object that was reserved last, as others see them: it is likely to be entered next
    guesses: Vec<Numbered>,
    // the places in `guesses` of symbols with long names
    repeats: Repeats,
    hints: Hints,
}

impl Model for Names {
    ghost use Rattle.std.specs.Prelude.{map, vec_len, vec_capacity};
    ghost use Rattle.symres_table.specs.Lists.{rooms};
    ghost use Rattle.symres_table.specs.Numbers.{Entered};
    ghost use Rattle.symres_table.specs.Spelled.{spell, IsJoined};
    ghost use Rattle.symres_table.specs.State.{State};

    ghost Value = { State };

    ghost view = { λ a. record {
      objects = map (spell a.known.slots) a.objects.objects;
      names = a.known.slots;
      room = a.objects.room;
      order_room = a.objects.order_room;
      place_room = a.objects.place_room;
      spare = rooms a.spare.items;
      held = map (λ (o : Entered). o.room) a.objects.objects;
      order = a.known.order;
    } };

    ghost invariant = { λ a. IsJoined a.known.slots a.objects.objects (vec_len a.spare) (vec_capacity a.spare) };
}

/// Makes a row for the name of a symbol, with room for the entries that it is likely to get. `symbol` is the number of
/// non-local symbols of its object before it.
#[tactic(auto, using(crate::proofs::RowsOnlyGrow::grows_refl, crate::proofs::RowsOnlyGrow::grows_trans))]
fn grow_row(
    objects: &mut Objects,
    name: usize,
    symbol: usize,
    hints: &mut Hints,
) -> Result<(), NoMemory>
    ensures same { GrowsRoom objects.old objects.new }
    ensures ok { OnOk result (name < length objects.new.room) }
{
    objects.grow(name)?;
    if objects.is_bare(name) {
        objects.widen(name, hints.take_entries(symbol));
    }
    Ok(())
}

/// Makes rows for the names of these symbols.
#[tactic(auto, using(crate::proofs::RowsOnlyGrow::grows_refl, crate::proofs::RowsOnlyGrow::grows_trans))]
fn grow_rows(objects: &mut Objects, symbols: &[Numbered], hints: &mut Hints) -> Result<(), NoMemory>
    ensures same { GrowsRoom objects.old objects.new }
    ensures ok { OnOk result (All (λ (s : Numbered). s.name < length objects.new.room) symbols.now) }
{
    for (at, symbol) in symbols.iter().enumerate() {
        grow_row(objects, symbol.name, at, hints)?;
    }
    Ok(())
}

/// Makes the names of an object known, and room for its entries. `list` is left with its symbols that others see.
#[tactic(auto, using(crate::proofs::RowsOnlyGrow::grows_refl, crate::proofs::RowsOnlyGrow::grows_trans))]
fn make_ready(
    known: &mut NameTable,
    objects: &mut Objects,
    object: &Object,
    list: &mut Vec<Numbered>,
    repeats: &mut Repeats,
    hints: &mut Hints,
) -> Result<(), NoMemory>
    ensures kept { KeepsNames known.old.slots known.new.slots }
    ensures added { AddsNames known.old known.new }
    ensures same { GrowsRoom objects.old objects.new }
    ensures ok { OnOk result (IsReady known.new.slots objects.new object.now.symbols) }
    ensures seen { OnOk result (SpellsSeen known.new.slots list.new.items object.now.symbols) }
{
    list.clear();
    vec::reserve(list, object.symbols().len())?;
    number_new(known, object, list, repeats, hints)?;
    grow_rows(objects, list, hints)?;
    objects.reserve(list)
}

/// Makes ready for an object; names that it made known are dropped again if memory is refused.
#[tactic(auto, using(crate::proofs::RowsOnlyGrow::grows_refl))]
fn make_ready_or_not(
    known: &mut NameTable,
    objects: &mut Objects,
    object: &Object,
    list: &mut Vec<Numbered>,
    repeats: &mut Repeats,
    hints: &mut Hints,
) -> Result<(), NoMemory>
    ensures kept { KeepsNames known.old.slots known.new.slots }
    ensures refused { OnErr result (SameNames known.old.slots known.new.slots) }
    ensures order { OnErr result (known.new.order ≡ known.old.order) }
    ensures added { AddsNames known.old known.new }
    ensures same { GrowsRoom objects.old objects.new }
    ensures ok { OnOk result (IsReady known.new.slots objects.new object.now.symbols) }
    ensures seen { OnOk result (SpellsSeen known.new.slots list.new.items object.now.symbols) }
{
    let count = known.len();
    match make_ready(known, objects, object, list, repeats, hints) {
        Ok(()) => Ok(()),
        Err(no_memory) => {
            known.drop_newer(count);
            // for the prover: brings in the invariant of `known`
            let _known = known.len();
            Err(no_memory)
        }
    }
}

#[tactic(auto, using(crate::proofs::RowsOnlyGrow::grows_refl))]
fn reserve_fields(
    known: &mut NameTable,
    objects: &mut Objects,
    spare: &mut Vec<Vec<Numbered>>,
    object: &Object,
    list: &mut Vec<Numbered>,
    repeats: &mut Repeats,
    hints: &mut Hints,
) -> Result<(), NoMemory>
    requires { vec_len spare.old + length objects.old.objects ≤ vec_capacity spare.old }
    ensures kept { KeepsNames known.old.slots known.new.slots }
    ensures refused { OnErr result (SameNames known.old.slots known.new.slots) }
    ensures order { OnErr result (known.new.order ≡ known.old.order) }
    ensures added { AddsNames known.old known.new }
    ensures same { GrowsRoom objects.old objects.new }
    ensures ok { OnOk result (IsReady known.new.slots objects.new object.now.symbols) }
    ensures seen { OnOk result (SpellsSeen known.new.slots list.new.items object.now.symbols) }
    ensures room { vec_len spare.new + length objects.old.objects ≤ vec_capacity spare.new }
    ensures lists { Adds (rooms spare.old.items) (rooms spare.new.items) }
    ensures list { OnOk result (HasList (rooms spare.new.items) (length object.now.symbols)) }
{
    park(spare, object.symbols().len(), objects.len())?;
    make_ready_or_not(known, objects, object, list, repeats, hints)
}

impl Names {
    /// A table of no objects, which hashes names by `seed`: whoever picks names can't make them collide.
    pub fn new(alloc: Global, seed: RandomState) -> Names
        ensures objects { result.objects ≡ [] }
        ensures names { result.names ≡ [] }
    {
        Names {
            known: NameTable::new(alloc, seed),
            objects: Objects::new(alloc),
            spare: Vec::new(alloc),
            guesses: Vec::new(alloc),
            repeats: Repeats::new(alloc),
            hints: Hints::new(alloc),
        }
    }

    /// How many objects are entered.
    pub fn len(&self) -> usize
        ensures { result ≡ length self.now.objects }
    {
        self.objects.len()
    }

    /// Whether the object of a key is entered.
    pub fn contains(&self, object: ObjectKey) -> bool
        ensures entered { result ≡ true → HasObject object.0 self.now.objects }
        ensures fresh { result ≡ false → IsFresh object.0 self.now.objects }
    {
        self.objects.contains(object)
    }

    /// Decides a name over the entries of all entered objects and the script, and counts it. It takes no memory.
    pub fn decide(&self, script: &Script, name: &[u8], meter: &mut Meter) -> Decision
        ensures case { decision_under_keys result
            ≡ decided (is_assigned script.now name.now) (is_provided script.now name.now)
            (entries_of name.now self.now.objects) }
        ensures counted { meter.new ≡ raised meter.old counts.Names 1 }
    {
        meter.raise(Count::Names, 1);
        let given = script.given(name);
        match self.known.number_of(name) {
            Some(number) => Decision {
                case: decide(given, self.objects.row(number)),
            },
            None => Decision {
                case: decide(given, &[]),
            },
        }
    }

    /// Decides the name of a key, without hashing.
    pub fn decide_key(&self, script: &Script, name: NameKey, meter: &mut Meter) -> Decision
        requires { HasName self.now.names name.0 }
        ensures case { (bytes : List ℕ) → IsNamed self.now.names name.0 bytes → decision_under_keys result
            ≡ decided (is_assigned script.now bytes) (is_provided script.now bytes)
            (entries_of bytes self.now.objects) }
        ensures counted { meter.new ≡ raised meter.old counts.Names 1 }
    {
        meter.raise(Count::Names, 1);
        // for the prover: brings in the invariant of `self.known`
        let _known = self.known.len();
        let given = script.given(self.known.name_of(name.0).unwrap());
        Decision {
            case: decide(given, self.objects.row(name.0)),
        }
    }

    /// How many names are known, those without entries too.
    pub fn known(&self) -> usize
        ensures len { result ≡ length self.now.order }
        ensures listing { IsListing self.now.names self.now.order }
        ensures unknown { (name : List ℕ) → ((k : ℕ) → IsNamed self.now.names k name → ⊥)
            → entries_of name self.now.objects ≡ [] }
    {
        self.known.len()
    }

    /// The key of a name, while it is known. It is hashed.
    pub fn key_named(&self, name: &[u8]) -> Option<NameKey>
        ensures known { IfSome result (λ k. IsNamed self.now.names k.0 name.now) }
        ensures unknown { IfNone result (entries_of name.now self.now.objects ≡ []) }
        ensures none { IfNone result ((k : ℕ) → IsNamed self.now.names k name.now → ⊥) }
    {
        match self.known.number_of(name) {
            Some(number) => Some(NameKey(number)),
            None => None,
        }
    }

    /// The key of the known name at an index of the list of names.
    pub fn key_listed(&self, place: usize) -> NameKey
        requires { place < length self.now.order }
        ensures { (e : List ℕ × ℕ) → (slice_index_or self.now.order place e).1 ≡ result.0 }
    {
        NameKey(self.known.number_listed(place))
    }

    /// The entries of the name of a key, in object order and then symbol order, with the caller's keys of objects.
    pub fn entries(&self, name: NameKey) -> &[Declared]
        ensures { (bytes : List ℕ) → IsNamed self.now.names name.0 bytes
            → map (declaration_of bytes) result.now ≡ entries_of bytes self.now.objects }
    {
        // for the prover: brings in the invariant of `self.known`
        let _known = self.known.len();
        self.objects.row(name.0)
    }

    /// The name of a key, while it is known.
    pub fn name_of(&self, name: NameKey) -> Option<&[u8]>
        ensures { MatchOption result ((bytes : List ℕ) → IsNamed self.now.names name.0 bytes → ⊥) (λ bytes.
            IsNamed self.now.names name.0 bytes.now) }
    {
        self.known.name_of(name.0)
    }

    /// Whether a key has a name, which is not read.
    #[inline(always)]
    pub fn has_name(&self, name: NameKey) -> bool
        ensures { result ≡ is_some (slot self.now.names name.0) }
    {
        self.known.has_name(name.0)
    }

    /// Every known name once, with the number of its key, in the order of the list of names. It takes no memory.
    pub fn listed(&self) -> Iter<'_, Vec<u8>, usize>
        ensures names { map entry_spelled result ≡ self.now.order }
        ensures listing { IsListing self.now.names self.now.order }
    {
        self.known.iter()
    }

    /// The key of the name of a symbol that isn't local, of an entered object. Nothing is hashed: the time is
    /// logarithmic in the number of objects.
    pub fn key_of(&self, object: ObjectKey, symbol: SymbolIndex) -> NameKey
        requires entered { HasObject object.0 self.now.objects }
        requires symbol { HasSymbol object.0 symbol.0 self.now.objects }
        ensures { IsNameOfSymbol self.now.names object.0 symbol.0 self.now.objects result.0 }
    {
        match self.objects.symbol(object, symbol.0 as usize) {
            Some(symbol) => NameKey(symbol.name),
            None => unreachable!(),
        }
    }

    /// The key of a symbol's name, of the object at a place among the entered ones, from 0. The time is constant.
    pub fn key_at(&self, place: ObjectPlace, symbol: SymbolIndex) -> NameKey
        requires { IsSeenAt self.now.objects place.0 symbol.0 }
        ensures { IsNameAt self.now.names self.now.objects place.0 symbol.0 result.0 }
    {
        NameKey(self.objects.symbol_in(place, symbol.0 as usize).name)
    }

    /// The key of the object at a place among the entered ones, from 0. The time is constant.
    pub fn object_at(&self, place: ObjectPlace) -> Option<ObjectKey>
        ensures { result ≡ option_map object_key (slice_get self.now.objects place.0) }
    {
        self.objects.key_at(place)
    }

    /// Makes room for this many more names, as far as there is memory for it, so that entering objects is quicker.
    pub fn expect(&mut self, names: usize)
        ensures { self.new ≡ self.old }
    {
        self.known.expect(names);
        self.objects.expect(names);
        self.hints.expect(names);
    }

    /// Counts the entries that the names of an object are going to have, so that there is room for all at once when it
    /// and others are entered. The names of all of them were expected.
    pub fn expect_entries(&mut self, object: &Object)
        ensures { self.new ≡ self.old }
    {
        self.hints.expect_entries(object);
    }

    /// Gives the memory back that serves to enter many objects one after the other.
    pub fn end_entering(&mut self)
        ensures { self.new ≡ self.old }
    {
        self.hints.clear();
    }

    /// Takes all memory that entering an object needs: its names are known from then on, and there is room for its
    /// entries. If memory is refused, the names that it made known are dropped again.
    pub fn reserve(&mut self, object: &Object) -> Result<(), NoMemory>
        ensures objects { self.new.objects ≡ self.old.objects }
        ensures ok { OnOk result (MayEnter self.new object.now.symbols) }
        ensures more { IsMore self.old self.new }
        ensures unused { All (λ (e : List ℕ × ℕ). entries_of e.0 self.old.objects ≡ [])
            (drop (length self.old.order) self.new.order) }
        ensures refused { OnErr result (SameNames self.old.names self.new.names) }
        ensures order { OnErr result (self.new.order ≡ self.old.order) }
    {
        // for the prover: brings in the invariant of `self.known`
        let _before = self.known.len();
        let reserved = reserve_fields(
            &mut self.known,
            &mut self.objects,
            &mut self.spare,
            object,
            &mut self.guesses,
            &mut self.repeats,
            &mut self.hints,
        );
        // for the prover: brings in the invariant of `self.known`
        let _known = self.known.len();
        reserved
    }

    /// Enters an object at a place among the entered ones, from 0. It takes no memory.
    pub fn enter(&mut self, key: ObjectKey, at: usize, object: &Object)
        requires at { at ≤ length self.old.objects }
        requires fresh { IsFresh key.0 self.old.objects }
        requires room { MayEnter self.old object.now.symbols }
        ensures objects { self.new.objects ≡ insert self.old.objects at (key.0, object.now.symbols) }
        ensures same { IsSameBut self.old self.new }
        ensures order { self.new.order_room + 1 ≡ self.old.order_room }
        ensures places { self.new.place_room + 1 ≡ self.old.place_room }
        ensures list { TakesList self.old self.new at (length object.now.symbols) }
    {
        // for the prover: brings in the invariant of `self.known`
        let _known = self.known.len();
        let mut list = take_list(&mut self.spare, object.symbols().len());
        number_all(&self.known, object, &self.guesses, &self.repeats, &mut list);
        self.objects.enter(key, at, list);
    }

    /// Enters an object at a place among the entered ones, from 0. It does what `reserve` and `enter` do one after the
    /// other, in about half the time, as each name is read once.
    ///
    /// # Errors
    ///
    /// If memory runs out. Then the objects are as before, and names that it made known are dropped again.
    pub fn add(&mut self, key: ObjectKey, at: usize, object: &Object) -> Result<(), NoMemory>
        requires at { at ≤ length self.old.objects }
        requires fresh { IsFresh key.0 self.old.objects }
        ensures objects { OnOk result (self.new.objects ≡ insert self.old.objects at (key.0, object.now.symbols)) }
        ensures joins { OnOk result (Joins self.old self.new key.0 at object.now.symbols) }
        ensures refused { OnErr result (IsRefused self.old self.new) }
    {
        // for the prover: brings in the invariant of `self.known`
        let _before = self.known.len();
        reserve_fields(
            &mut self.known,
            &mut self.objects,
            &mut self.spare,
            object,
            &mut self.guesses,
            &mut self.repeats,
            &mut self.hints,
        )?;
        // for the prover: brings in the invariant of `self.known`
        let _known = self.known.len();
        let mut list = take_list(&mut self.spare, object.symbols().len());
        number_seen(object, &self.guesses, &mut list);
        self.objects.enter(key, at, list);
        Ok(())
    }

    /// Takes an object out. Its names stay known and its room reserved. It takes no memory.
    pub fn withdraw(&mut self, key: ObjectKey)
        requires { HasObject key.0 self.old.objects }
        ensures objects { self.new.objects ≡ without key.0 self.old.objects }
        ensures same { IsSameBut self.old self.new }
        ensures order { self.new.order_room ≡ self.old.order_room + 1 }
        ensures places { self.new.place_room ≡ self.old.place_room + 1 }
        ensures list { ParksList self.old self.new key.0 }
        ensures again { All (λ (t : ℕ × List NamedSymbol). (t.0 == key.0) ≡ true → MayEnter self.new t.1)
            self.old.objects }
        ensures others { (symbols : List NamedSymbol) → MayEnter self.old symbols → MayEnter self.new symbols }
    {
        // for the prover: brings in the invariant of `self.known`
        let _known = self.known.len();
        let list = self.objects.withdraw(key);
        self.spare.push_reserved(list);
    }

    /// Forgets the names that have no entries. The others keep their keys. It takes no memory.
    pub fn forget(&mut self)
        ensures { Forgets self.old self.new }
    {
        // for the prover: brings in the invariant of `self.known`
        let _known = self.known.len();
        self.hints.clear();
        self.known.forget_unused(&self.objects);
    }
}
