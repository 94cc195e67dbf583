//! The entered objects in their order, with the entries that they give the names.

ghost use Rattle.std.specs.Prelude.{◌≡◌, ◌<◌, ◌≤◌, ◌+◌, ◌==◌, ◌∷◌, ◌++◌, ℕ, List, [], length, insert, true, false, not};
ghost use Rattle.std.specs.Prelude.{slice_index_or, slice_get, vec_len, vec_capacity, OnOk};
ghost use Rattle.std.specs.Option.{option_map};
ghost use Rattle.std.specs.List.{All};
ghost use Rattle.ldmodel.specs.Names.{is_local};
ghost use Rattle.symres_table.specs.Objects.{CanEnter, GrowsRoom, HasKey, key_of};
ghost use Rattle.symres_table.specs.Numbers.{Entered, entries, HasRoom, HasRow, HasSymbols, is_used, Leaves, RowsGrow};
ghost use Rattle.symres_table.specs.Numbers.{without};
ghost use Rattle.symres_table.specs.declared.symbol.Declared.{Declared};
ghost use Rattle.symres_table.specs.declared.symbol.Numbered.{Numbered};

use crate::places::{PlacedKey, count_below, find, make_gap, move_down};
use crate::rows::{add_all, grow_to, remove_all, reserve_all, widen};
use crate::symbol::{Declared, Numbered};
use growth::{NoMemory, vec};
use ldmodel::names::{ObjectKey, ObjectPlace};
use std::alloc::Global;
use std::marker::Model;

/// An entered object: its key, and its symbols by the numbers of their names.
#[derive(Drop)]
struct EnteredObject {
    key: ObjectKey,
    symbols: Vec<Numbered>,
}

impl Model for EnteredObject {
    ghost use Rattle.std.specs.Prelude.{vec_capacity};
    ghost use Rattle.symres_table.specs.Numbers.{Entered};

    ghost Value = { Entered };

    ghost view = { λ p. record { key = p.key.0; symbols = p.symbols.items; room = vec_capacity p.symbols } };
}

/// The entered objects, the rows of names under their numbers, and the places of keys.
#[derive(Drop)]
pub struct Objects {
    order: Vec<EnteredObject>,
    rows: Vec<Vec<Declared>>,
    places: Vec<PlacedKey>,
}

impl Model for Objects {
    ghost use Rattle.std.specs.Prelude.{◌-◌, map, length, vec_len, vec_capacity};
    ghost use Rattle.symres_table.specs.Objects.{ObjectsState, IsObjectTable};

    ghost Value = { ObjectsState };

    ghost view = { λ a. record {
      objects = a.order.items;
      room = map (λ row. vec_capacity row) a.rows.items;
      order_room = vec_capacity a.order - vec_len a.order;
      place_room = vec_capacity a.places - vec_len a.places;
    } };

    ghost invariant = { λ a. IsObjectTable a.order.items a.rows.items a.places.items };
}

fn reserve_fields(
    rows: &mut Vec<Vec<Declared>>,
    order: &mut Vec<EnteredObject>,
    places: &mut Vec<PlacedKey>,
    symbols: &[Numbered],
) -> Result<(), NoMemory>
    requires visible { All (λ (s : Numbered). not (is_local s.symbol.binding) ≡ true) symbols.now }
    requires known { All (HasRow (length rows.old.items)) symbols.now }
    ensures rows { RowsGrow rows.old.items rows.new.items }
    ensures room { OnOk result (HasRoom rows.new.items symbols.now) }
    ensures order { order.new.items ≡ order.old.items }
    ensures order_grows { vec_capacity order.old ≤ vec_capacity order.new }
    ensures order_room { OnOk result (vec_len order.new < vec_capacity order.new) }
    ensures places { places.new.items ≡ places.old.items }
    ensures places_grow { vec_capacity places.old ≤ vec_capacity places.new }
    ensures place_room { OnOk result (vec_len places.new < vec_capacity places.new) }
{
    reserve_all(rows, symbols)?;
    vec::reserve(order, 1)?;
    vec::reserve(places, 1)
}

impl Objects {
    /// No objects.
    pub fn new(alloc: Global) -> Objects
        ensures objects { result.objects ≡ [] }
        ensures room { result.room ≡ [] }
    {
        Objects {
            order: Vec::new(alloc),
            rows: Vec::new(alloc),
            places: Vec::new(alloc),
        }
    }

    /// How many objects are entered.
    pub fn len(&self) -> usize
        ensures { result ≡ length self.now.objects }
    {
        self.order.len()
    }

    /// Whether the object of a key is entered.
    pub fn contains(&self, key: ObjectKey) -> bool
        ensures entered { result ≡ true → HasKey key.0 self.now.objects }
        ensures fresh { result ≡ false → All (λ (o : Entered). (o.key == key.0) ≡ false) self.now.objects }
    {
        match find(&self.places, key) {
            Some(_) => true,
            None => false,
        }
    }

    /// The entries of a name, in object order and then symbol order. A number past the rows has none.
    pub fn row(&self, name: usize) -> &[Declared]
        ensures { result.now ≡ entries name self.now.objects }
    {
        match self.rows.get(name) {
            Some(row) => row.as_slice(),
            None => &[],
        }
    }

    /// Whether a name has an entry.
    pub fn is_used(&self, name: usize) -> bool
        ensures { result ≡ is_used name self.now.objects }
    {
        self.row(name).len() > 0
    }

    /// A symbol of an entered object.
    pub fn symbol(&self, key: ObjectKey, number: usize) -> Option<Numbered>
        requires { HasKey key.0 self.now.objects }
        ensures { All (λ (o : Entered). (o.key == key.0) ≡ true → result ≡ slice_get o.symbols number)
            self.now.objects }
    {
        let at = find(&self.places, key).unwrap();
        symbol_at(&self.order[at].symbols, number)
    }

    /// A symbol of the object at a place.
    pub fn symbol_in(&self, place: ObjectPlace, number: usize) -> Numbered
        requires place { place.0 < length self.now.objects }
        requires number { (o : Entered) → number < length (slice_index_or self.now.objects place.0 o).symbols }
        ensures { (o : Entered) (s : Numbered) → result
            ≡ slice_index_or (slice_index_or self.now.objects place.0 o).symbols number s }
    {
        self.order[place.0].symbols[number]
    }

    /// The key of the object at a place.
    pub fn key_at(&self, place: ObjectPlace) -> Option<ObjectKey>
        ensures { result ≡ option_map key_of (slice_get self.now.objects place.0) }
    {
        match self.order.get(place.0) {
            Some(placed) => Some(placed.key),
            None => None,
        }
    }

    /// Makes room for the rows of this many more names, if there is memory for it.
    pub fn expect(&mut self, names: usize)
        ensures { self.new ≡ self.old }
    {
        match self.rows.reserve(names) {
            Ok(()) => {}
            Err(_refused) => {}
        }
    }

    /// Makes rows for the names up to a number.
    pub fn grow(&mut self, name: usize) -> Result<(), NoMemory>
        ensures ok { OnOk result (name < length self.new.room) }
        ensures same { GrowsRoom self.old self.new }
    {
        grow_to(&mut self.rows, name)
    }

    /// Whether no entry of a name has room yet.
    pub fn is_bare(&self, name: usize) -> bool {
        match self.rows.get(name) {
            Some(row) => row.capacity() == 0,
            None => true,
        }
    }

    /// Makes room for this many more entries of a name, if there is memory for it.
    pub fn widen(&mut self, name: usize, entries: usize)
        requires { name < length self.old.room }
        ensures { GrowsRoom self.old self.new }
    {
        widen(&mut self.rows, name, entries);
    }

    /// Makes room for an object with these symbols, none of them local.
    pub fn reserve(&mut self, symbols: &[Numbered]) -> Result<(), NoMemory>
        requires visible { All (λ (s : Numbered). not (is_local s.symbol.binding) ≡ true) symbols.now }
        requires known { All (HasRow (length self.old.room)) symbols.now }
        ensures ok { OnOk result (CanEnter self.new symbols.now) }
        ensures same { GrowsRoom self.old self.new }
    {
        reserve_fields(&mut self.rows, &mut self.order, &mut self.places, symbols)
    }

    /// Enters an object at a place. It takes no memory.
    pub fn enter(&mut self, key: ObjectKey, at: usize, symbols: Vec<Numbered>)
        requires at { at ≤ length self.old.objects }
        requires fresh { All (λ (o : Entered). (o.key == key.0) ≡ false) self.old.objects }
        requires room { CanEnter self.old symbols.items }
        ensures objects { self.new.objects
            ≡ insert self.old.objects at
            (record { key = key.0; symbols = symbols.items; room = vec_capacity symbols }) }
        ensures room { self.new.room ≡ self.old.room }
        ensures order { self.new.order_room + 1 ≡ self.old.order_room }
        ensures places { self.new.place_room + 1 ≡ self.old.place_room }
    {
        let count = self.order.len();
        add_all(&mut self.rows, &self.places, at, count, key, &symbols);
        let number = count_below(&self.places, key);
        make_gap(&mut self.places, at, count);
        self.places.insert(number, PlacedKey { key, at }).unwrap();
        self.order
            .insert(at, EnteredObject { key, symbols })
            .unwrap();
    }

    /// Removes an object, and returns its list. It takes no memory.
    pub fn withdraw(&mut self, key: ObjectKey) -> Vec<Numbered>
        requires { HasKey key.0 self.old.objects }
        ensures objects { self.new.objects ≡ without key.0 self.old.objects }
        ensures leaves { Leaves self.old.objects self.new.objects
            (record { key = key.0; symbols = result.items; room = vec_capacity result }) }
        ensures room { self.new.room ≡ self.old.room }
        ensures order { self.new.order_room ≡ self.old.order_room + 1 }
        ensures places { self.new.place_room ≡ self.old.place_room + 1 }
        ensures symbols { HasSymbols key.0 result.items self.old.objects }
        ensures again { CanEnter self.new result.items }
    {
        let number = count_below(&self.places, key);
        let place = self.places.remove(number);
        move_down(&mut self.places, place.at);
        let placed = self.order.remove(place.at);
        remove_all(&mut self.rows, key, &placed.symbols);
        let EnteredObject { key: _key, symbols } = placed;
        symbols
    }
}

fn symbol_at(symbols: &[Numbered], number: usize) -> Option<Numbered>
    ensures { result ≡ slice_get symbols.now number }
{
    symbols.get(number).copied()
}
