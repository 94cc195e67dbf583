//! How names are hashed: by polynomials at a random argument, so that whoever picks names cannot tell which of them
//! collide.

ghost use Rattle.std.specs.Prelude.{◌≡◌, ℕ};
ghost use Rattle.symres_table.specs.Hashing.{combined, reduced};

use std::hash::{BuildHasher, Hasher, RandomState};

/// The prime modulo which names are hashed is less than this by one.
const POWER: u128 = 1 << 61;

/// A number that is the same modulo 2^61 - 1, and takes little more than 61 bits.
#[tactic(auto, unfolding(symres_table::specs::Hashing::reduced))]
#[inline(always)]
fn reduced(number: u128) -> u64
    ensures { result ≡ reduced number }
{
    let once = number % POWER + number / POWER;
    (once % POWER + once / POWER) as u64
}

/// The sum times the factor and the term more, modulo 2^61 - 1 as in `reduced`.
#[inline(always)]
fn combined(sum: u64, factor: u64, term: u64) -> u64
    ensures { result ≡ combined sum factor term }
{
    reduced(u128::from(sum) * u128::from(factor) + u128::from(term))
}

/// Random numbers that the caller's seed gives.
#[derive(Clone, Copy)]
pub struct WordState {
    argument: u64,
    factor: u64,
    offset: u64,
}

/// The bytes of a name, seven to a word, are the coefficients of a polynomial over the numbers modulo 2^61 - 1. Its
/// value at a random argument is the same for two names with a chance of at most their number of words in 2^61. This
/// value is multiplied and moved by two further random numbers, after which each bit of the hashes of two values that
/// differ is independent. A table hands a name on byte by byte, for which the hasher of `std` takes several times
/// longer.
#[derive(Clone, Copy)]
pub struct WordHasher {
    numbers: WordState,
    // the value of the polynomial of the whole words
    sum: u64,
    // the bytes since the last whole word, after a one
    word: u64,
}

impl WordHasher {
    ghost use Rattle.symres_table.specs.Hashing.{with_byte};

    #[inline(always)]
    fn add(&mut self, byte: u8)
        ensures { self.new ≡ with_byte self.old byte }
    {
        let word = self.word << 8 | byte as u64;
        if word >> 56 == 0 {
            self.word = word;
        } else {
            self.sum = combined(self.sum, self.numbers.argument, word);
            self.word = 1;
        }
    }
}

impl Hasher for WordHasher {
    ghost use Rattle.symres_table.specs.Hashing.{with_bytes, hash_of};

    ghost write = { with_bytes };

    ghost finish = { hash_of };

    fn finish(&self) -> u64 {
        let sum = combined(self.sum, self.numbers.argument, self.word);
        combined(sum, self.numbers.factor, self.numbers.offset)
    }

    fn write(&mut self, bytes: &[u8]) {
        for byte in bytes {
            self.add(*byte);
        }
    }

    #[inline(always)]
    fn write_u8(&mut self, byte: u8) {
        self.add(byte);
    }
}

/// The random number of an index.
fn drawn(seed: RandomState, index: u64) -> u64 {
    let mut hasher = seed.build_hasher();
    hasher.write_u64(index);
    hasher.finish() >> 3
}

impl WordState {
    /// The random numbers of a seed.
    pub fn new(seed: RandomState) -> WordState {
        WordState {
            argument: drawn(seed, 0),
            factor: drawn(seed, 1),
            offset: drawn(seed, 2),
        }
    }
}

impl BuildHasher for WordState {
    ghost use Rattle.symres_table.specs.Hashing.{first_hasher};

    type Hasher = WordHasher;

    ghost build_hasher = { first_hasher };

    fn build_hasher(&self) -> WordHasher {
        WordHasher {
            numbers: *self,
            sum: 0,
            word: 1,
        }
    }
}
