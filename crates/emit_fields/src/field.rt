//! Fields: the bytes that relocations give.

pub mod evaluate;

ghost use Rattle.std.specs.Prelude.{◌≡◌};

use std::marker::Model;

/// The bytes of an evaluated relocation, little-endian. Only [`evaluate::field`] makes one.
#[derive(Debug, Drop)]
pub struct Field {
    /// Its value as 8 bytes.
    bytes: [u8; 8],
    /// The number of bytes that the field has. As a whole word it is copied at once.
    width: usize,
}

impl Model for Field {
    ghost use Rattle.std.specs.Prelude.{ℕ, List, ◌≤◌, take};

    ghost Value = { List ℕ };

    ghost view = { λ f. take f.width f.bytes };

    ghost invariant = { λ f. f.width ≤ 8 };
}

impl Field {
    /// Its bytes: 1, 2, 4 or 8.
    pub fn bytes(&self) -> &[u8]
        ensures { result.now ≡ self.now }
    {
        &self.bytes[..self.width]
    }
}

/// A relocation whose value is out of its range.
#[derive(Clone, Copy, Debug, PartialEq, Eq)]
pub struct Overflow {
    /// The value, modulo 2^64.
    pub value: u64,
}
