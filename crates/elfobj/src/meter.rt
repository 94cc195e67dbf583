//! Counts of work.

use std::marker::Model;

/// What a meter counts.
#[derive(Clone, Copy, Debug, PartialEq, Eq)]
pub enum Count {
    /// Objects that were read, accepted or refused.
    Objects,
    /// Names that were resolved.
    Names,
    /// Input sections that were placed.
    Pieces,
    /// Relocations that were evaluated.
    Fields,
    /// Bytes of the image that were written.
    Bytes,
}

/// Five counts of the work of a link. They only rise, and stay at the greatest `u64`.
#[derive(Drop)]
pub struct Meter {
    objects: u64,
    names: u64,
    pieces: u64,
    fields: u64,
    bytes: u64,
}

impl Model for Meter {
    ghost use Rattle.elfobj.specs.Counts.{Counts};

    ghost Value = { Counts };

    ghost view = { λ m.
        record { objects = m.objects; names = m.names; pieces = m.pieces; fields = m.fields; bytes = m.bytes } };
}

impl Meter {
    ghost use Rattle.std.specs.Prelude.{◌≡◌};
    ghost use Rattle.elfobj.specs.Raised.{raised};

    /// A meter with all counts at 0.
    pub fn new() -> Meter
        ensures { result ≡ record { objects = 0; names = 0; pieces = 0; fields = 0; bytes = 0 } }
    {
        Meter {
            objects: 0,
            names: 0,
            pieces: 0,
            fields: 0,
            bytes: 0,
        }
    }

    /// Raises one count, to the greatest `u64` at most.
    pub fn raise(&mut self, count: Count, by: u64)
        ensures { self.new ≡ raised self.old count by }
    {
        match count {
            Count::Objects => self.objects = self.objects.saturating_add(by),
            Count::Names => self.names = self.names.saturating_add(by),
            Count::Pieces => self.pieces = self.pieces.saturating_add(by),
            Count::Fields => self.fields = self.fields.saturating_add(by),
            Count::Bytes => self.bytes = self.bytes.saturating_add(by),
        }
    }

    /// The number of objects that were read, accepted or refused.
    pub fn objects(&self) -> u64
        ensures { result ≡ self.now.objects }
    {
        self.objects
    }

    /// The number of names that were resolved.
    pub fn names(&self) -> u64
        ensures { result ≡ self.now.names }
    {
        self.names
    }

    /// The number of input sections that were placed.
    pub fn pieces(&self) -> u64
        ensures { result ≡ self.now.pieces }
    {
        self.pieces
    }

    /// The number of relocations that were evaluated.
    pub fn fields(&self) -> u64
        ensures { result ≡ self.now.fields }
    {
        self.fields
    }

    /// The number of bytes of the image that were written.
    pub fn bytes(&self) -> u64
        ensures { result ≡ self.now.bytes }
    {
        self.bytes
    }
}
