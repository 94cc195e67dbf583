//! Kinds of names: a table that notes which kinds it has need not be searched for a name of another kind.

ghost use Rattle.std.specs.Prelude.{◌≡◌, ◌≢◌, ℕ, List, false};
ghost use Rattle.ldscript_statements.specs.NameKinds.{has_kind, kind_of};

/// A name is of one of 64 kinds, by its length and its second byte; the first byte is mostly the same.
fn kind_of(name: &[u8]) -> u32
    ensures { result ≡ kind_of name.now }
{
    let second = name.get(1).copied().unwrap_or(0);
    ((name.len() % 64) as u32 * 31 + u32::from(second)) % 64
}

/// The kinds of a table's names.
#[derive(Clone, Copy)]
pub struct NameKinds {
    /// The bit of each kind of which the table has a name.
    bits: u64,
}

impl NameKinds {
    /// The kinds of a table without names.
    pub fn none() -> NameKinds
        ensures { (name : List ℕ) → has_kind result name ≡ false }
    {
        NameKinds { bits: 0 }
    }

    /// Notes that a table has a name.
    pub fn note(&mut self, name: &[u8])
        ensures name { (other : List ℕ) → has_kind self.new other ≡ false → other ≢ name.now }
        ensures others { (other : List ℕ) → has_kind self.new other ≡ false → has_kind self.old other ≡ false }
    {
        self.bits |= 1 << kind_of(name);
    }

    /// Whether a table has a name of this one's kind.
    pub fn has_kind_of(&self, name: &[u8]) -> bool
        ensures { result ≡ has_kind self.now name.now }
    {
        self.bits >> kind_of(name) & 1 == 1
    }
}
