//! Guesses of the indices of names in the list of names. Whoever asks compares the name: no answer depends on a guess.

ghost use Rattle.std.specs.Prelude.{◌+◌, ◌≤◌, length};

use crate::expected::Expected;
use crate::name_table::NameTable;
use crate::symbol::is_visible;
use elfobj::Object;
use elfobj::relocation::SymbolIndex;
use growth::{NoMemory, vec};
use std::alloc::Global;

/// The hash of a name, and one more than its place in the list of names; 0 if no place is known.
#[derive(Clone, Copy)]
struct Hint {
    hash: u32,
    place: u32,
}

const NO_HINT: Hint = Hint { hash: 0, place: 0 };

/// As many hints as lie in what a processor fetches from memory at once.
type Line = [Hint; 8];

/// How many lines there are at first.
const FIRST_LINES: usize = 16;

/// How many places for counts of entries there are for each line of hints: eight or more for a name, so that few names
/// share one.
const PLACES_A_LINE: usize = 32;

/// From how many bytes on a name is hashed by its first and its last bytes alone, and by how many of each.
const LONG: usize = 64;

const END: usize = 32;

/// The places of names by their hashes. All names of an object are looked up together, so that a processor waits for
/// the memory of many at once. The hash is quick and anyone can find names that share one: such names are found
/// elsewhere.
#[derive(Drop)]
pub struct Hints {
    // a power of two, or none
    lines: Vec<Line>,
    count: usize,
    // the hints for the symbols that others see of the object that was looked up last
    found: Vec<Hint>,
    // whether there were places to be found then
    is_told: bool,
    // how many entries names are going to have
    expected: Expected,
}

fn word_at(name: &[u8], at: usize) -> u64
    requires { at + 8 ≤ length name.now }
{
    u64::from_le_bytes([
        name[at],
        name[at + 1],
        name[at + 2],
        name[at + 3],
        name[at + 4],
        name[at + 5],
        name[at + 6],
        name[at + 7],
    ])
}

/// Both halves of a product by an odd number, so that each bit of the word has a part in all bits of the hash.
fn mixed(hash: u64, word: u64) -> u64 {
    let product = u128::from(hash ^ word).wrapping_mul(0x9E37_79B9_7F4A_7C15);
    (product >> 64) as u64 ^ (product & 0xFFFF_FFFF_FFFF_FFFF) as u64
}

fn half_at(name: &[u8], at: usize) -> u64
    requires { at + 4 ≤ length name.now }
{
    u32::from_le_bytes([name[at], name[at + 1], name[at + 2], name[at + 3]]) as u64
}

/// The bytes of a name that has less than eight, in one word.
fn short_word(name: &[u8]) -> u64 {
    let length = name.len();
    if length >= 4 {
        half_at(name, 0) << 32 | half_at(name, length - 4)
    } else if length > 0 {
        (name[0] as u64) << 16 | (name[length / 2] as u64) << 8 | name[length - 1] as u64
    } else {
        0
    }
}

/// Adds bytes to a hash, eight at a time; the last eight may overlap those before.
fn add_bytes(hash: u64, bytes: &[u8]) -> u64 {
    let length = bytes.len();
    if length < 8 {
        return mixed(hash, short_word(bytes));
    }
    let mut sum = hash;
    for word in 0..(length - 1) / 8 {
        sum = mixed(sum, word_at(bytes, word * 8));
    }
    mixed(sum, word_at(bytes, length - 8))
}

fn hash_of(name: &[u8]) -> u32 {
    let length = name.len();
    let sum = if length < LONG {
        add_bytes(length as u64, name)
    } else {
        add_bytes(
            add_bytes(length as u64, &name[..END]),
            &name[length - END..],
        )
    };
    (sum >> 32) as u32
}

/// The place for a hash, from 1, or 0 if there is none.
fn place_in(lines: &[Line], hash: u32) -> u32 {
    match lines.get(line_of(lines.len(), hash)) {
        Some(line) => place_on(line, hash),
        None => 0,
    }
}

fn line_of(count: usize, hash: u32) -> usize {
    hash as usize & count.saturating_sub(1)
}

/// The number of lines that are at most half full with `count` hints.
fn lines_for(hints: usize) -> usize {
    (hints / 4 + 1)
        .checked_next_power_of_two()
        .unwrap_or(0)
        .max(FIRST_LINES)
}

/// The place that a line has for a hash, from 1, or 0 if there is none. If there are several, it is of no use. The line
/// is read to its end without a branch, so that a processor need not predict where the hash is.
fn place_on(line: &Line, hash: u32) -> u32 {
    let mut place = 0;
    for hint in line.iter() {
        place |= hint.place.wrapping_mul((hint.hash == hash) as u32);
    }
    place
}

/// Puts a hint onto a line. It is lost if the line is full.
fn put_on(line: &mut Line, hint: Hint) {
    for slot in line.iter_mut() {
        if slot.place == 0 {
            *slot = hint;
            return;
        }
    }
}

fn put_in(lines: &mut [Line], hint: Hint) {
    let at = line_of(lines.len(), hint.hash);
    if at < lines.len() {
        put_on(&mut lines[at], hint);
    }
}

/// This number of lines with the same hints.
fn spread(alloc: Global, lines: &[Line], count: usize) -> Result<Vec<Line>, NoMemory> {
    let mut more = vec::with_capacity(alloc, count)?;
    vec::resize(&mut more, count, [NO_HINT; 8])?;
    for line in lines {
        for hint in line.iter() {
            put_in(&mut more, *hint);
        }
    }
    Ok(more)
}

impl Hints {
    /// No hints.
    pub fn new(alloc: Global) -> Hints {
        Hints {
            lines: Vec::new(alloc),
            count: 0,
            found: Vec::new(alloc),
            is_told: false,
            expected: Expected::new(alloc),
        }
    }

    /// Makes room for this many hints, if there is memory for it.
    pub fn expect(&mut self, names: usize) {
        let count = lines_for(names);
        if count > self.lines.len() {
            self.widen(count);
        }
        self.expected.expect(count.saturating_mul(PLACES_A_LINE));
    }

    /// Counts the entries that the names of an object are going to have.
    pub fn expect_entries(&mut self, object: &Object) {
        for number in 0..object.symbols().len() {
            if is_visible(&object.symbols()[number]) {
                let hash = hash_of(object.name_of(SymbolIndex(number as u32)));
                self.expected.count(hash);
            }
        }
    }

    /// How many entries were counted for the name of a symbol, which is asked once. `symbol` is the number of non-local
    /// symbols of its object before it.
    pub fn take_entries(&mut self, symbol: usize) -> usize {
        match self.found.get(symbol) {
            Some(hint) => self.expected.take(hint.hash),
            None => 0,
        }
    }

    /// Looks up the names of all symbols of an object that others see.
    pub fn look_up(&mut self, object: &Object) -> Result<(), NoMemory> {
        self.is_told = self.count > 0;
        self.found.clear();
        vec::reserve(&mut self.found, object.symbols().len())?;
        for number in 0..object.symbols().len() {
            if is_visible(&object.symbols()[number]) {
                let hash = hash_of(object.name_of(SymbolIndex(number as u32)));
                vec::push(&mut self.found, Hint { hash, place: 0 })?;
            }
        }
        for hint in self.found.iter_mut() {
            hint.place = place_in(&self.lines, hint.hash);
        }
        Ok(())
    }

    /// How many of the names that were looked up last have a likely place. The first byte of each name there is read:
    /// little else is done for it, so that a processor waits for the memory of many at once, and has the names when
    /// they are compared. No name has a zero byte.
    pub fn found(&self, known: &NameTable) -> usize {
        let mut count: usize = 0;
        for hint in self.found.iter() {
            if hint.place > 0 {
                let first = known.first_byte(hint.place as usize - 1);
                count = count.saturating_add((first != Some(0)) as usize);
            }
        }
        count
    }

    /// The guess for the name of a symbol. `symbol` is the number of non-local symbols of its object before it.
    pub fn place(&self, symbol: usize) -> Option<usize> {
        match self.found.get(symbol) {
            Some(hint) if hint.place > 0 => Some(hint.place as usize - 1),
            _ => None,
        }
    }

    /// Whether the name of a symbol is likely to have no place yet. `symbol` is the number of non-local symbols of its
    /// object before it.
    pub fn is_new(&self, symbol: usize) -> bool {
        match self.found.get(symbol) {
            Some(hint) => self.is_told && hint.place == 0,
            None => false,
        }
    }

    /// Notes the place of the name of a symbol. If there is no memory for it, or no room near its hash, it is lost.
    pub fn note(&mut self, symbol: usize, place: usize) {
        let hash = match self.found.get(symbol) {
            Some(hint) => hint.hash,
            None => return,
        };
        if place >= u32::MAX as usize {
            return;
        }
        self.make_room();
        put_in(
            &mut self.lines,
            Hint {
                hash,
                place: place as u32 + 1,
            },
        );
        self.count = self.count.saturating_add(1);
    }

    /// Forgets all places, and gives their memory back.
    pub fn clear(&mut self) {
        self.lines = Vec::new(*self.lines.allocator());
        self.count = 0;
        self.expected.clear();
    }

    /// Keeps half of the room free, if there is memory for it.
    fn make_room(&mut self) {
        if self.count < self.lines.len().saturating_mul(4) {
            return;
        }
        let count = self.lines.len().saturating_mul(2).max(FIRST_LINES);
        self.widen(count);
    }

    /// Makes this many lines, if there is memory for them.
    fn widen(&mut self, count: usize) {
        match spread(*self.lines.allocator(), &self.lines, count) {
            Ok(more) => self.lines = more,
            Err(_refused) => {}
        }
    }
}
