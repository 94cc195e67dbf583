//! Which sections refer to which.

ghost use Rattle.std.specs.Prelude.{◌≡◌, ◌<◌, ◌↔◌, ℕ, Contains, OnOk};

use growth::NoMemory;

/// The references of sections that are numbered from 0 on.
pub trait References {
    /// When targets can be found: what the parts of an implementation must agree on.
    ghost can_find: { Self → Type 0 };

    /// How many sections there are.
    ghost count: { Self → ℕ };

    /// The section of the first number refers to that of the second.
    ghost refers: { Self → ℕ → ℕ → Type 0 };

    /// Makes `targets` the numbers of the sections that a section refers to, in any order. A number may stand there
    /// twice, and one that is not below the count is that of no section.
    ///
    /// # Errors
    ///
    /// If memory runs out.
    fn find_targets(&self, section: usize, targets: &mut Vec<usize>) -> Result<(), NoMemory>
        requires can { can_find self.now }
        requires within { section < count self.now }
        ensures { OnOk result ((next : ℕ) → next < count self.now
            → refers self.now section next ↔ Contains targets.new.items next) };
}
