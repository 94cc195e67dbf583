//! The rows of names: the entries of each, in object order and then symbol order.

ghost use Rattle.std.specs.Prelude.{OnErr, OnOk, ◌≡◌, ◌<◌, ◌≤◌, ◌+◌, ◌++◌, ◌∷◌, []};
ghost use Rattle.std.specs.Prelude.{ℕ, List, length, not, take, vec_len, vec_capacity, true, false, ◌⊎◌};
ghost use Rattle.std.specs.List.{All, insert_slice};
ghost use Rattle.std.proofs.Common.{Vec, Global};
ghost use Rattle.ldmodel.specs.Names.{is_local};
ghost use Rattle.symres_table.specs.declared.symbol.Declared.{Declared};
ghost use Rattle.symres_table.specs.declared.symbol.Numbered.{Numbered};
ghost use Rattle.symres_table.specs.Numbers.{before, declared, Entered, Grows, HasRoom, HasRow, HasSymbols, IsPlace};
ghost use Rattle.symres_table.specs.Numbers.{IsSplit};
ghost use Rattle.symres_table.specs.Numbers.{IsTable, KeepsRoom, others, RowsGrow, without};
ghost use Rattle.symres_table.specs.Places.{AreSorted};
ghost use Rattle.symres_table.specs.Steps.{AllMarkedLast, Appended, AreParts, ClearedWhere, ends_in, ends_with};
ghost use Rattle.symres_table.specs.Steps.{HasRoomForOne, Holds, IsMarkedLast, IsOwnStart, MarksLast, Settling};

use crate::places::{PlacedKey, is_in_front};
use crate::symbol::{Declared, Numbered, is_visible};
use elfobj::relocation::SymbolIndex;
use elfobj::symbol::SymbolPlace;
use growth::{NoMemory, vec};
use ldmodel::names::{Entry, ObjectKey};

fn is_before(places: &[PlacedKey], at: usize, key: ObjectKey, declared: &Declared) -> bool
    requires { AreSorted places.now }
    ensures { result ≡ before places.now at key.0 declared.now }
{
    declared.entry.object == key || is_in_front(places, at, declared.entry.object)
}

fn place_for(row: &[Declared], places: &[PlacedKey], at: usize, key: ObjectKey) -> usize
    requires { AreSorted places.now }
    ensures { IsPlace places.now at key.0 row.now result }
{
    let mut number = row.len();
    while number > 0 && !is_before(places, at, key, &row[number - 1]) {
        number -= 1;
    }
    number
}

fn declaration(key: ObjectKey, symbol: Numbered) -> Declared
    ensures { result ≡ declared key.0 symbol }
{
    Declared {
        entry: Entry {
            object: key,
            symbol: SymbolIndex(symbol.number),
        },
        symbol: symbol.symbol,
    }
}

/// Puts a declaration of a symbol of any binding at the end of its row. A local one declares nothing.
fn append_visible(table: &mut Vec<Vec<Declared>>, key: ObjectKey, symbol: Numbered)
    requires known { HasRow (length table.old.items) symbol }
    requires room { HasRoomForOne table.old.items symbol }
    ensures { (ss : List Numbered) (was : List (Vec Declared Global)) → Appended key.0 ss was table.old.items
        → Appended key.0 (ss ++ symbol ∷ []) was table.new.items }
{
    if is_visible(&symbol.symbol) {
        table[symbol.name].push_reserved(declaration(key, symbol));
    }
}

/// Puts what an object declares at the ends of the rows. It takes no memory.
fn append_all(table: &mut Vec<Vec<Declared>>, key: ObjectKey, symbols: &[Numbered])
    requires known { All (HasRow (length table.old.items)) symbols.now }
    requires room { HasRoom table.old.items symbols.now }
    ensures { Appended key.0 symbols.now table.old.items table.new.items }
{
    for symbol in symbols {
        append_visible(table, key, *symbol);
    }
}

/// Where the declarations of a key at the end of a row begin.
fn start_of_own(row: &[Declared], key: ObjectKey) -> usize
    ensures { IsOwnStart key.0 row.now result }
{
    let mut start = row.len();
    while start > 0 && row[start - 1].entry.object == key {
        start -= 1;
    }
    start
}

/// Moves the items from `tail` on to `at`, in front of those that were there.
fn move_tail_to(row: &mut [Declared], tail: usize, at: usize)
    requires at_le_tail { at ≤ tail }
    requires within { tail ≤ length row.old }
    ensures { (front back : List Declared) → row.old ≡ front ++ back → length front ≡ tail
        → row.new ≡ insert_slice front at back }
{
    row[at..].rotate_left(tail - at);
}

/// Moves the declarations of a key from the end of a row to those of the objects in front, in one rotation.
fn settle(row: &mut [Declared], places: &[PlacedKey], at: usize, key: ObjectKey)
    requires { AreSorted places.now }
    ensures { (fs bs os : List Declared) → AreParts places.now at key.0 fs bs os → row.old ≡ fs ++ (bs ++ os)
        → row.new ≡ fs ++ (os ++ bs) }
{
    let tail = start_of_own(row, key);
    let number = place_for(&row[..tail], places, at, key);
    move_tail_to(row, tail, number);
}

/// Whether a row ends with the declaration of this symbol by the object under `key`.
fn ends_with(row: &[Declared], key: ObjectKey, symbol: Numbered) -> bool
    ensures { result ≡ ends_with key.0 symbol.number row.now }
{
    match row.last() {
        Some(declared) => declared.entry.object == key && declared.entry.symbol.0 == symbol.number,
        None => false,
    }
}

/// Settles a row if it ends with the declaration of this symbol. Of the symbols of a name only the last one finds
/// that, so that a row is gone through once.
fn settle_last(
    row: &mut [Declared],
    places: &[PlacedKey],
    at: usize,
    key: ObjectKey,
    symbol: Numbered,
)
    requires { AreSorted places.now }
    ensures last { (fs bs os : List Declared) → AreParts places.now at key.0 fs bs (os ++ declared key.0 symbol ∷ [])
        → row.old ≡ fs ++ (bs ++ (os ++ declared key.0 symbol ∷ []))
        → row.new ≡ fs ++ ((os ++ declared key.0 symbol ∷ []) ++ bs) }
    ensures either { (fs bs os : List Declared) → AreParts places.now at key.0 fs bs os
        → row.old ≡ fs ++ (bs ++ os) → (row.new ≡ row.old) ⊎ (row.new ≡ fs ++ (os ++ bs)) }
    ensures settled { (fs bs os : List Declared) → AreParts places.now at key.0 fs bs os
        → row.old ≡ fs ++ (os ++ bs) → row.new ≡ row.old }
{
    if ends_with(row, key, symbol) {
        settle(row, places, at, key);
    }
}

/// Settles the row of a symbol of any binding: a local one has none.
fn settle_visible(
    table: &mut Vec<Vec<Declared>>,
    places: &[PlacedKey],
    at: usize,
    key: ObjectKey,
    symbol: Numbered,
)
    requires sorted { AreSorted places.now }
    requires known { HasRow (length table.old.items) symbol }
    ensures { (ss left : List Numbered) (was : List (Vec Declared Global))
        → Settling places.now at key.0 (ss ++ symbol ∷ left) (symbol ∷ left) was table.old.items
        → Settling places.now at key.0 (ss ++ symbol ∷ left) left was table.new.items }
{
    if is_visible(&symbol.symbol) {
        settle_last(&mut table[symbol.name], places, at, key, symbol);
    }
}

/// Moves what an object declares from the ends of the rows to its place. It takes no memory.
fn settle_all(
    table: &mut Vec<Vec<Declared>>,
    places: &[PlacedKey],
    at: usize,
    key: ObjectKey,
    symbols: &[Numbered],
)
    requires sorted { AreSorted places.now }
    requires known { All (HasRow (length table.old.items)) symbols.now }
    ensures { Settling places.now at key.0 symbols.now [] table.old.items table.new.items }
{
    for symbol in symbols {
        settle_visible(table, places, at, key, *symbol);
    }
}

/// Adds what an object declares, after the objects in front. It takes no memory. Each row is gone through once, however
/// many of the symbols have its name, and not at all if the object comes after all `count` that are there.
pub fn add_all(
    table: &mut Vec<Vec<Declared>>,
    places: &[PlacedKey],
    at: usize,
    count: usize,
    key: ObjectKey,
    symbols: &[Numbered],
)
    requires sorted { AreSorted places.now }
    requires known { All (HasRow (length table.old.items)) symbols.now }
    requires room { HasRoom table.old.items symbols.now }
    ensures table { (xs ys : List Entered) → IsSplit places.now at key.0 xs ys → (count ≤ at → ys ≡ [])
        → IsTable table.old.items (xs ++ ys)
        → (room : ℕ) → IsTable table.new.items (xs ++ record { key = key.0; symbols = symbols.now; room = room } ∷ ys) }
    ensures grows { Grows table.old.items table.new.items symbols.now }
{
    append_all(table, key, symbols);
    if at < count {
        settle_all(table, places, at, key, symbols);
    }
}

fn drop_key(row: &mut Vec<Declared>, key: ObjectKey)
    ensures items { row.new.items ≡ others key.0 row.old.items }
    ensures capacity { vec_capacity row.new ≡ vec_capacity row.old }
{
    row.retain(|declared| declared.entry.object != key);
}

fn ends_in(row: &[Declared], key: ObjectKey) -> bool
    ensures { result ≡ ends_in key.0 row.now }
{
    match row.last() {
        Some(declared) => declared.entry.object == key,
        None => false,
    }
}

/// Takes the declarations of a key out of a row. If there were any, puts this one at the end of the row, which shows
/// that the row is done.
fn mark_last(row: &mut Vec<Declared>, key: ObjectKey, symbol: Numbered)
    ensures { MarksLast key.0 row.old row.new }
{
    let count = row.len();
    drop_key(row, key);
    if row.len() < count {
        row.push_reserved(declaration(key, symbol));
    }
}

/// Does what `mark_last` does, unless the row ends in a declaration of the key.
fn mark_last_once(row: &mut Vec<Declared>, key: ObjectKey, symbol: Numbered)
    ensures { MarksLast key.0 row.old row.new }
{
    if !ends_in(row, key) {
        mark_last(row, key, symbol);
    }
}

/// Makes the row of a symbol end in a declaration of the key, or have none. A local symbol has no row.
fn mark_last_visible(table: &mut Vec<Vec<Declared>>, key: ObjectKey, symbol: Numbered)
    requires { HasRow (length table.old.items) symbol }
    ensures { (ss : List Numbered) (was : List (Vec Declared Global)) → AllMarkedLast key.0 ss was table.old.items
        → AllMarkedLast key.0 (ss ++ symbol ∷ []) was table.new.items }
{
    if is_visible(&symbol.symbol) {
        mark_last_once(&mut table[symbol.name], key, symbol);
    }
}

/// Makes the rows of these symbols end in a declaration of the key, or have none.
fn mark_last_all(table: &mut Vec<Vec<Declared>>, key: ObjectKey, symbols: &[Numbered])
    requires { All (HasRow (length table.old.items)) symbols.now }
    ensures { AllMarkedLast key.0 symbols.now table.old.items table.new.items }
{
    for symbol in symbols {
        mark_last_visible(table, key, *symbol);
    }
}

/// Takes the declarations of a key out of a row, if it ends in one of them.
fn clear_once(row: &mut Vec<Declared>, key: ObjectKey)
    ensures items { IsMarkedLast key.0 row.old.items → row.new.items ≡ others key.0 row.old.items }
    ensures capacity { vec_capacity row.new ≡ vec_capacity row.old }
{
    if ends_in(row, key) {
        drop_key(row, key);
    }
}

/// Takes what an object declares out of the row of one of its symbols.
fn clear_visible(table: &mut Vec<Vec<Declared>>, key: ObjectKey, symbol: Numbered)
    requires { HasRow (length table.old.items) symbol }
    ensures { (ss : List Numbered) (was : List (Vec Declared Global)) → ClearedWhere key.0 ss was table.old.items
        → ClearedWhere key.0 (ss ++ symbol ∷ []) was table.new.items }
{
    if is_visible(&symbol.symbol) {
        clear_once(&mut table[symbol.name], key);
    }
}

fn clear_all(table: &mut Vec<Vec<Declared>>, key: ObjectKey, symbols: &[Numbered])
    requires { All (HasRow (length table.old.items)) symbols.now }
    ensures { ClearedWhere key.0 symbols.now table.old.items table.new.items }
{
    for symbol in symbols {
        clear_visible(table, key, *symbol);
    }
}

/// Takes out what an object declares. Each row is gone through twice at most, however many of the symbols have its
/// name: once a row ends in a declaration of the key, the others of them are passed over.
pub fn remove_all(table: &mut Vec<Vec<Declared>>, key: ObjectKey, symbols: &[Numbered])
    requires known { All (HasRow (length table.old.items)) symbols.now }
    ensures table { (os : List Entered) → HasSymbols key.0 symbols.now os → IsTable table.old.items os
        → IsTable table.new.items (without key.0 os) }
    ensures room { KeepsRoom table.old.items table.new.items }
{
    mark_last_all(table, key, symbols);
    clear_all(table, key, symbols);
}

/// For how many entries a row has room once it has more than one.
const SEVERAL: usize = 2;

/// Makes room for one more entry of a name. The first entry has room for itself alone if it defines the name, since
/// many names have no other. Else, and once there is a second, there is room for `SEVERAL` entries, and then for twice
/// as many each time.
fn reserve_row(row: &mut Vec<Declared>, place: SymbolPlace) -> Result<(), NoMemory>
    ensures items { row.new.items ≡ row.old.items }
    ensures capacity { vec_capacity row.old ≤ vec_capacity row.new }
    ensures ok { OnOk result (vec_len row.new < vec_capacity row.new) }
{
    if row.len() < row.capacity() {
        return Ok(());
    }
    if row.len() == 0 && place != SymbolPlace::Undefined {
        return vec::reserve_exact(row, 1);
    }
    if row.len() < SEVERAL {
        return vec::reserve_exact(row, SEVERAL - row.len());
    }
    vec::reserve(row, 1)
}

/// Puts an entry at the end of a row, to hold room for a symbol that comes.
fn hold_row(row: &mut Vec<Declared>, symbol: Numbered) -> Result<(), NoMemory>
    ensures capacity { vec_capacity row.old ≤ vec_capacity row.new }
    ensures ok { OnOk result (row.new.items ≡ row.old.items ++ declared 0 symbol ∷ []) }
    ensures refused { OnErr result (row.new.items ≡ row.old.items) }
{
    reserve_row(row, symbol.symbol.place)?;
    row.push_reserved(declaration(ObjectKey(0), symbol));
    Ok(())
}

fn hold(table: &mut Vec<Vec<Declared>>, symbol: Numbered) -> Result<(), NoMemory>
    requires known { symbol.name < length table.old.items }
    requires visible { is_local symbol.symbol.binding ≡ false }
    ensures ok { OnOk result ((ss : List Numbered) (was : List (Vec Declared Global)) → Holds ss was table.old.items
        → Holds (ss ++ symbol ∷ []) was table.new.items) }
    ensures refused { OnErr result ((ss : List Numbered) (was : List (Vec Declared Global))
        → Holds ss was table.old.items → Holds ss was table.new.items) }
{
    hold_row(&mut table[symbol.name], symbol)
}

/// Holds room for the symbols, and gives for how many of them there was memory, with the growth that was refused.
fn hold_all(table: &mut Vec<Vec<Declared>>, symbols: &[Numbered]) -> (usize, Result<(), NoMemory>)
    requires visible { All (λ (s : Numbered). not (is_local s.symbol.binding) ≡ true) symbols.now }
    requires known { All (HasRow (length table.old.items)) symbols.now }
    ensures within { result.0 ≤ length symbols.now }
    ensures held { Holds (take result.0 symbols.now) table.old.items table.new.items }
    ensures all { OnOk result.1 (result.0 ≡ length symbols.now) }
{
    for (at, symbol) in symbols.iter().enumerate() {
        match hold(table, *symbol) {
            Ok(()) => {}
            Err(no_memory) => return (at, Err(no_memory)),
        }
    }
    (symbols.len(), Ok(()))
}

/// Takes the last entry out of the row of a symbol. Its room stays.
fn release(table: &mut Vec<Vec<Declared>>, symbol: Numbered)
    requires known { symbol.name < length table.old.items }
    requires visible { is_local symbol.symbol.binding ≡ false }
    ensures held { (left : List Numbered) (was : List (Vec Declared Global))
        → Holds (symbol ∷ left) was table.old.items → Holds left was table.new.items }
    ensures room { KeepsRoom table.old.items table.new.items }
{
    table[symbol.name].pop();
}

fn release_all(table: &mut Vec<Vec<Declared>>, symbols: &[Numbered])
    requires visible { All (λ (s : Numbered). not (is_local s.symbol.binding) ≡ true) symbols.now }
    requires known { All (HasRow (length table.old.items)) symbols.now }
    ensures held { (was : List (Vec Declared Global)) → Holds symbols.now was table.old.items
        → Holds [] was table.new.items }
    ensures room { KeepsRoom table.old.items table.new.items }
{
    for symbol in symbols {
        release(table, *symbol);
    }
}

/// Makes room in each row for those of the symbols that have its name. None of the symbols is local. No table of counts
/// is needed: an entry for each symbol is inserted into its row, and then they are removed again.
pub fn reserve_all(table: &mut Vec<Vec<Declared>>, symbols: &[Numbered]) -> Result<(), NoMemory>
    requires visible { All (λ (s : Numbered). not (is_local s.symbol.binding) ≡ true) symbols.now }
    requires known { All (HasRow (length table.old.items)) symbols.now }
    ensures same { RowsGrow table.old.items table.new.items }
    ensures room { OnOk result (HasRoom table.new.items symbols.now) }
{
    let (held, outcome) = hold_all(table, symbols);
    release_all(table, &symbols[..held]);
    match outcome {
        Ok(()) => Ok(()),
        Err(no_memory) => Err(no_memory),
    }
}

/// Makes room in a row for this many more entries, if there is memory for it.
pub fn widen(table: &mut Vec<Vec<Declared>>, name: usize, entries: usize)
    requires { name < length table.old.items }
    ensures { RowsGrow table.old.items table.new.items }
{
    match table[name].reserve_exact(entries) {
        Ok(()) => {}
        Err(_refused) => {}
    }
}

/// Makes empty rows up to a number.
pub fn grow_to(table: &mut Vec<Vec<Declared>>, name: usize) -> Result<(), NoMemory>
    ensures same { RowsGrow table.old.items table.new.items }
    ensures ok { OnOk result (name < length table.new.items) }
{
    while table.len() <= name {
        let row = Vec::new(*table.allocator());
        vec::push(table, row)?;
    }
    Ok(())
}
