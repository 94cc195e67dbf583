//! Ranges of addresses, and whether any two of them share one.

ghost use Rattle.std.specs.Prelude.{◌≡◌, ℕ, ◌+◌, ◌≤◌, List, IsTrue};
ghost use Rattle.place_sections.specs.Extents.{overlap, cover};

/// A range of addresses. Its end may be past the last address.
#[derive(Clone, Copy, Debug)]
pub(crate) struct Extent {
    pub(crate) start: u64,
    pub(crate) size: u64,
}

impl Extent {
    pub(crate) fn end(&self) -> u128
        ensures { result ≡ self.now.start + self.now.size }
    {
        u128::from(self.start) + u128::from(self.size)
    }

    /// Whether the two share an address.
    pub(crate) fn overlaps(&self, other: &Extent) -> bool
        ensures { result ≡ overlap self.now other.now }
    {
        self.size != 0
            && other.size != 0
            && u128::from(self.start) < other.end()
            && u128::from(other.start) < self.end()
    }
}

/// Whether each range, in this order, begins at or past the end of all before it; ranges of size 0 do not count. Then
/// no address is in two of them.
pub(crate) fn are_ascending(extents: &[Extent]) -> bool
    ensures { IsTrue result → (address : ℕ) → cover address extents.now ≤ 1 }
{
    let mut end = 0;
    for extent in extents {
        if extent.size == 0 {
            continue;
        }
        if u128::from(extent.start) < end {
            return false;
        }
        end = extent.end();
    }
    true
}
