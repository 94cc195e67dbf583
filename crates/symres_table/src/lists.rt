//! Lists of numbered symbols that are set aside, so that entering an object takes no memory.

ghost use Rattle.std.specs.Prelude.{◌≡◌, ◌≤◌, ◌<◌, ◌+◌, ◌++◌, ℕ, List, [], length, map, remove, take, vec_len};
ghost use Rattle.std.specs.Prelude.{vec_capacity, IfOk, IfSome, OnOk, slice_index_or, true, false, ◌≢◌, MatchOption};
ghost use Rattle.std.specs.Prelude.{filter, if◌then◌else◌, not, Option, Some, ◌^◌};
ghost use Rattle.std.specs.List.{All};
ghost use Rattle.std.proofs.Common.{Vec, Global};
ghost use Rattle.elfobj.specs.Symbols.{NamedSymbol};
ghost use Rattle.ldmodel.specs.Names.{is_local};
ghost use Rattle.symres_table.specs.Known.{AddsNames};
ghost use Rattle.symres_table.specs.Lists.{rooms, Takes, Adds};
ghost use Rattle.symres_table.specs.Spelled.{AreOf, HasName, is_seen, spell_symbol, Spells, SpellsSeen};
ghost use Rattle.symres_table.specs.State.{slot, AreDistinct, HasList, IsNamed, KeepsNames};
ghost use Rattle.symres_table.specs.declared.symbol.Numbered.{Numbered};

use crate::hints::Hints;
use crate::name_table::NameTable;
use crate::repeats::{Repeats, is_long};
use crate::symbol::{Numbered, is_visible};
use elfobj::relocation::SymbolIndex;
use elfobj::span::Span;
use elfobj::{Object, Symbol};
use growth::{NoMemory, vec};

/// The index of a spare list with memory for this many symbols.
fn find(spare: &[Vec<Numbered>], count: usize) -> usize
    requires { HasList (rooms spare.now) count }
    ensures within { result < length spare.now }
    ensures long { (d : Vec Numbered Global) → count ≤ vec_capacity (slice_index_or spare.now result d) }
{
    for (at, list) in spare.iter().enumerate() {
        if list.capacity() >= count {
            return at;
        }
    }
    unreachable!()
}

/// Removes a spare list with memory for this many symbols, if there is one.
pub fn take_list(spare: &mut Vec<Vec<Numbered>>, count: usize) -> Vec<Numbered>
    requires { HasList (rooms spare.old.items) count }
    ensures empty { result.items ≡ [] }
    ensures room { count ≤ vec_capacity result }
    ensures taken { Takes (rooms spare.old.items) (rooms spare.new.items) (vec_capacity result) }
    ensures len { vec_len spare.new + 1 ≡ vec_len spare.old }
    ensures capacity { vec_capacity spare.new ≡ vec_capacity spare.old }
{
    let at = find(spare, count);
    let mut list = spare.remove(at);
    list.clear();
    list
}

/// Keeps a list as a spare one, unless there is one with memory for this many symbols. `entered` objects are entered:
/// when all are withdrawn, their lists become spare ones too.
pub fn park(spare: &mut Vec<Vec<Numbered>>, count: usize, entered: usize) -> Result<(), NoMemory>
    requires { vec_len spare.old + entered ≤ vec_capacity spare.old }
    ensures lists { vec_len spare.new + entered ≤ vec_capacity spare.new }
    ensures same { Adds (rooms spare.old.items) (rooms spare.new.items) }
    ensures ok { OnOk result (HasList (rooms spare.new.items) count) }
{
    for list in spare.iter() {
        if list.capacity() >= count {
            return Ok(());
        }
    }
    let list = vec::with_capacity(*spare.allocator(), count)?;
    vec::reserve(spare, entered + 1)?;
    spare.push_reserved(list);
    Ok(())
}

/// The number of a name. The name is not hashed if it has the number that is guessed.
fn number_of(known: &NameTable, guess: Option<usize>, name: &[u8]) -> Option<usize>
    ensures number { MatchOption result ((n : ℕ) → slot known.now.slots n ≢ Some name.now) (λ n.
        IsNamed known.now.slots n name.now) }
    ensures distinct { AreDistinct known.now.slots }
{
    // for the prover: brings in the invariant of `known`
    let _known = known.len();
    if let Some(number) = guess {
        if let Some(guessed) = known.name_of(number) {
            if guessed == name {
                return Some(number);
            }
        }
    }
    known.number_of(name)
}

/// The number that was guessed for the name of a symbol, if one was.
fn guess_at(guesses: &[Numbered], at: usize, number: u32) -> Option<usize> {
    match guesses.get(at) {
        Some(guess) if guess.number == number => Some(guess.name),
        _ => None,
    }
}

/// The index of the next guess: one further if there was a guess for the symbol, else the same.
fn place_after(at: usize, guess: Option<usize>) -> usize {
    match guess {
        Some(_) => at.saturating_add(1),
        None => at,
    }
}

fn is_same_span(one: Span, other: Span) -> bool
    ensures { result ≡ true → one ≡ other }
{
    one.start == other.start && one.end == other.end
}

/// The number of the name of a symbol, if the symbol at this index of the list has its name at the same bytes. The
/// bytes are not read.
fn number_at(object: &Object, number: u32, list: &[Numbered], at: usize) -> Option<usize>
    requires within { number < length object.now.symbols }
    requires list { All (λ (s : Numbered). s.number < length object.now.symbols) list.now }
    ensures { (names : List (Option (List ℕ))) → AreOf names object.now.symbols list.now
        → IfSome result (λ n. (d : NamedSymbol) → IsNamed names n (slice_index_or object.now.symbols number d).name) }
{
    if at >= list.len() {
        return None;
    }
    let earlier = list[at];
    let place = object.name_place(SymbolIndex(earlier.number));
    if is_visible(&earlier.symbol) && is_same_span(place, object.name_place(SymbolIndex(number))) {
        return Some(earlier.name);
    }
    None
}

/// The number of a symbol's name by the symbol that was noted for the same place of the string table, in its list.
#[inline(never)]
fn number_noted(object: &Object, number: u32, list: &[Numbered], repeats: &Repeats) -> Option<usize>
    requires within { number < length object.now.symbols }
    requires list { All (λ (s : Numbered). s.number < length object.now.symbols) list.now }
    ensures { (names : List (Option (List ℕ))) → AreOf names object.now.symbols list.now
        → IfSome result (λ n. (d : NamedSymbol) → IsNamed names n (slice_index_or object.now.symbols number d).name) }
{
    match repeats.find(object.name_place(SymbolIndex(number))) {
        Some(at) => number_at(object, number, list, at),
        None => None,
    }
}

/// The number of a symbol's name in a list of all symbols so far. The symbols that were noted are in `guesses`.
fn number_guessed(
    object: &Object,
    number: u32,
    list: &[Numbered],
    guesses: &[Numbered],
    repeats: &Repeats,
) -> Option<usize>
    requires within { number < length object.now.symbols }
    requires list { All (λ (s : Numbered). s.number < length object.now.symbols) list.now }
    ensures { (names : List (Option (List ℕ))) → AreOf names object.now.symbols list.now
        → IfSome result (λ n. (d : NamedSymbol) → IsNamed names n (slice_index_or object.now.symbols number d).name) }
{
    match repeats.find(object.name_place(SymbolIndex(number))) {
        Some(at) if at < guesses.len() => number_at(
            object,
            number,
            list,
            guesses[at].number as usize,
        ),
        _ => None,
    }
}

/// A symbol of an object, by the number of its name, which may be known or guessed.
fn numbered(
    known: &NameTable,
    object: &Object,
    number: u32,
    told: Option<usize>,
    guess: Option<usize>,
) -> Numbered
    requires within { number < length object.now.symbols }
    requires told { IfSome told (λ n. (d : NamedSymbol)
        → IsNamed known.now.slots n (slice_index_or object.now.symbols number d).name) }
    requires known { (d : NamedSymbol) → is_local (slice_index_or object.now.symbols number d).symbol.binding ≡ false
        → (n : ℕ) × IsNamed known.now.slots n (slice_index_or object.now.symbols number d).name }
    ensures spelled { (d : NamedSymbol) → spell_symbol known.now.slots result
        ≡ slice_index_or object.now.symbols number d }
    ensures named { HasName known.now.slots result }
    ensures number { result.number ≡ number }
{
    let symbol = object.symbols()[number as usize];
    if !is_visible(&symbol) {
        return Numbered {
            name: 0,
            number,
            symbol,
        };
    }
    if let Some(name) = told {
        return Numbered {
            name,
            number,
            symbol,
        };
    }
    match number_of(known, guess, object.name_of(SymbolIndex(number))) {
        Some(name) => Numbered {
            name,
            number,
            symbol,
        },
        None => unreachable!(),
    }
}

/// Writes the symbols of an object by the numbers of their names. `guesses` are some of these symbols, in the order of
/// their table, with the numbers that their names may have: a name that has the number guessed is not hashed. `repeats`
/// has places in the list of guesses.
pub fn number_all(
    known: &NameTable,
    object: &Object,
    guesses: &[Numbered],
    repeats: &Repeats,
    list: &mut Vec<Numbered>,
)
    requires known { All (λ (symbol : NamedSymbol). is_local symbol.symbol.binding ≡ false → (n : ℕ)
        × IsNamed known.now.slots n symbol.name) object.now.symbols }
    requires empty { list.old.items ≡ [] }
    requires room { length object.now.symbols ≤ vec_capacity list.old }
    ensures spelled { Spells known.now.slots list.new.items object.now.symbols }
    ensures capacity { vec_capacity list.new ≡ vec_capacity list.old }
{
    let mut at: usize = 0;
    for index in 0..object.symbols().len() {
        let number = index as u32;
        let guess = guess_at(guesses, at, number);
        at = place_after(at, guess);
        let told = number_guessed(object, number, list, guesses, repeats);
        list.push_reserved(numbered(known, object, number, told, guess));
    }
}

fn name_in(seen: &[Numbered], at: usize) -> usize
    requires { at < length seen.now }
    ensures { (s : Numbered) → result ≡ (slice_index_or seen.now at s).name }
{
    seen[at].name
}

/// A symbol of an object by the number of its name. If other objects see it, it is the one at a place in `seen`.
fn numbered_seen(object: &Object, number: u32, seen: &[Numbered], at: usize) -> Numbered
    requires within { number < length object.now.symbols }
    requires seen { length seen.now ≡ length (filter is_seen object.now.symbols) }
    requires at { at ≡ length (filter is_seen (take number object.now.symbols)) }
    ensures spelled { (names : List (Option (List ℕ))) (d : NamedSymbol) → SpellsSeen names seen.now object.now.symbols
        → spell_symbol names result ≡ slice_index_or object.now.symbols number d }
    ensures named { (names : List (Option (List ℕ))) → SpellsSeen names seen.now object.now.symbols
        → HasName names result }
    ensures symbol { (d : NamedSymbol) → result.symbol ≡ (slice_index_or object.now.symbols number d).symbol }
    ensures number { result.number ≡ number }
{
    let symbol = object.symbols()[number as usize];
    if !is_visible(&symbol) {
        return Numbered {
            name: 0,
            number,
            symbol,
        };
    }
    Numbered {
        name: name_in(seen, at),
        number,
        symbol,
    }
}

/// Where the next symbol that other objects see stands among those, after this symbol, which stands at a place if they
/// see it.
fn place_past(symbol: &Symbol, at: usize) -> usize
    requires { at < 2 ^ 32 }
    ensures { result ≡ at + (if not (is_local symbol.now.binding) then 1 else 0) }
{
    if is_visible(symbol) { at + 1 } else { at }
}

/// Writes the symbols of an object by the numbers of their names. `seen` are those that other objects see, with their
/// numbers, in the order of the table. No name is read.
pub fn number_seen(object: &Object, seen: &[Numbered], list: &mut Vec<Numbered>)
    requires seen { length seen.now ≡ length (filter is_seen object.now.symbols) }
    requires empty { list.old.items ≡ [] }
    requires room { length object.now.symbols ≤ vec_capacity list.old }
    ensures spelled { (names : List (Option (List ℕ))) → SpellsSeen names seen.now object.now.symbols
        → Spells names list.new.items object.now.symbols }
    ensures capacity { vec_capacity list.new ≡ vec_capacity list.old }
{
    let mut at: usize = 0;
    for index in 0..object.symbols().len() {
        let symbol = numbered_seen(object, index as u32, seen, at);
        at = place_past(&symbol.symbol, at);
        list.push_reserved(symbol);
    }
}

/// Notes the place of the name of a symbol, if it became known after this number of names.
#[inline(always)]
fn note_new(known: &NameTable, count: usize, hints: &mut Hints, symbol: usize) {
    if known.len() > count {
        hints.note(symbol, count);
    }
}

/// The number of a name by the hint for a symbol that has it. The name becomes known if it isn't.
#[inline(always)]
fn add_hinted(
    known: &mut NameTable,
    hints: &Hints,
    symbol: usize,
    name: &[u8],
) -> Result<usize, NoMemory>
    ensures ok { IfOk result (λ n. IsNamed known.new.slots n name.now) }
    ensures kept { KeepsNames known.old.slots known.new.slots }
    ensures added { AddsNames known.old known.new }
{
    if hints.is_new(symbol) {
        known.add_new(name)
    } else {
        known.add_at(hints.place(symbol), name)
    }
}

/// The number of the name of a symbol that comes after those of the list. The name becomes known if it isn't. A long
/// name, which other symbols of the object may share, is hashed once for all of them.
#[inline(always)]
fn add_name(
    known: &mut NameTable,
    object: &Object,
    number: u32,
    told: Option<usize>,
    list: &[Numbered],
    repeats: &mut Repeats,
    hints: &mut Hints,
) -> Result<usize, NoMemory>
    requires within { number < length object.now.symbols }
    requires told { IfSome told (λ n. (d : NamedSymbol)
        → IsNamed known.old.slots n (slice_index_or object.now.symbols number d).name) }
    requires list { AreOf known.old.slots object.now.symbols list.now }
    ensures ok { IfOk result (λ n. (d : NamedSymbol)
        → IsNamed known.new.slots n (slice_index_or object.now.symbols number d).name) }
    ensures kept { KeepsNames known.old.slots known.new.slots }
    ensures added { AddsNames known.old known.new }
{
    if let Some(name) = told {
        return Ok(name);
    }
    let place = object.name_place(SymbolIndex(number));
    if is_long(place) {
        if let Some(name) = number_noted(object, number, list, repeats) {
            return Ok(name);
        }
    }
    let count = known.len();
    let name = add_hinted(
        known,
        hints,
        list.len(),
        object.name_of(SymbolIndex(number)),
    )?;
    note_new(known, count, hints, list.len());
    if is_long(place) {
        repeats.note(place, list.len())?;
    }
    Ok(name)
}

/// Writes one symbol, if it isn't local, by the number of its name, which may be told, and becomes known if it isn't.
fn add_seen(
    known: &mut NameTable,
    object: &Object,
    number: u32,
    told: Option<usize>,
    list: &mut Vec<Numbered>,
    repeats: &mut Repeats,
    hints: &mut Hints,
) -> Result<(), NoMemory>
    requires within { number < length object.now.symbols }
    requires told { IfSome told (λ n. (d : NamedSymbol)
        → IsNamed known.old.slots n (slice_index_or object.now.symbols number d).name) }
    requires list { AreOf known.old.slots object.now.symbols list.old.items }
    ensures list { OnOk result (AreOf known.new.slots object.now.symbols list.new.items) }
    ensures spelled { OnOk result (SpellsSeen known.old.slots list.old.items (take number object.now.symbols)
        → SpellsSeen known.new.slots list.new.items (take (number + 1) object.now.symbols)) }
    ensures kept { KeepsNames known.old.slots known.new.slots }
    ensures added { AddsNames known.old known.new }
{
    let symbol = object.symbols()[number as usize];
    if !is_visible(&symbol) {
        return Ok(());
    }
    let name = add_name(known, object, number, told, list, repeats, hints)?;
    vec::push(
        list,
        Numbered {
            name,
            number,
            symbol,
        },
    )?;
    Ok(())
}

/// Writes one symbol by the number of its name, if that stands at this place in the list of names, and there is room. A
/// long name is not looked at, since other symbols of the object may share it.
#[inline(always)]
fn add_hinted_symbol(
    known: &NameTable,
    object: &Object,
    number: u32,
    place: Option<usize>,
    list: &mut Vec<Numbered>,
)
    requires within { number < length object.now.symbols }
    requires list { AreOf known.now.slots object.now.symbols list.old.items }
    ensures { AreOf known.now.slots object.now.symbols list.new.items }
{
    let place = match place {
        Some(place) => place,
        None => return,
    };
    if list.len() == list.capacity() || is_long(object.name_place(SymbolIndex(number))) {
        return;
    }
    if let Some(name) = known.number_if(place, object.name_of(SymbolIndex(number))) {
        list.push_reserved(Numbered {
            name,
            number,
            symbol: object.symbols()[number as usize],
        });
    }
}

/// The non-local symbols of an object whose names are where the hints say, by the numbers of these names. All are read
/// before any name is added, so that a processor waits for the memory of many at once.
fn number_hinted(
    known: &NameTable,
    object: &Object,
    hints: &Hints,
) -> Result<Vec<Numbered>, NoMemory>
    ensures { IfOk result (λ list. AreOf known.now.slots object.now.symbols list.items) }
{
    let mut list = vec::with_capacity(known.allocator(), hints.found(known))?;
    let mut seen: usize = 0;
    for number in 0..object.symbols().len() {
        if is_visible(&object.symbols()[number]) {
            add_hinted_symbol(known, object, number as u32, hints.place(seen), &mut list);
            seen = seen.saturating_add(1);
        }
    }
    Ok(list)
}

/// The number of the name of a symbol, if it is at this index of a list.
#[inline(always)]
fn name_told(list: &[Numbered], at: usize, number: u32) -> Option<usize>
    ensures { (names : List (Option (List ℕ))) (symbols : List NamedSymbol) → AreOf names symbols list.now
        → IfSome result (λ n. (d : NamedSymbol) → IsNamed names n (slice_index_or symbols number d).name) }
{
    if at >= list.len() {
        return None;
    }
    let symbol = list[at];
    if symbol.number == number && is_visible(&symbol.symbol) {
        return Some(symbol.name);
    }
    None
}

/// Writes the symbols of an object that aren't local. Names that are not known become so. `repeats` is left with places
/// in this list.
pub fn number_new(
    known: &mut NameTable,
    object: &Object,
    list: &mut Vec<Numbered>,
    repeats: &mut Repeats,
    hints: &mut Hints,
) -> Result<(), NoMemory>
    requires { list.old.items ≡ [] }
    ensures spelled { OnOk result (SpellsSeen known.new.slots list.new.items object.now.symbols) }
    ensures kept { KeepsNames known.old.slots known.new.slots }
    ensures added { AddsNames known.old known.new }
{
    repeats.start(object.symbols().len());
    hints.look_up(object)?;
    let hinted = number_hinted(known, object, hints)?;
    let mut at: usize = 0;
    for number in 0..object.symbols().len() {
        let told = name_told(&hinted, at, number as u32);
        at = place_after(at, told);
        add_seen(known, object, number as u32, told, list, repeats, hints)?;
    }
    Ok(())
}
