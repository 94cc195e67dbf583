//! Which of the known names have entries, as far as that is known without a pass over all of them.

ghost use Rattle.std.specs.Prelude.{◌≡◌, ◌<◌, ℕ, List, length, slice_index_or, true};
ghost use Rattle.symres_decisions.specs.Counted.{is_used};
ghost use Rattle.symres_decisions.specs.Decisions.{AreUsed, AreUsedBelow};

use symres_table::names::Names;

/// Whether the name at a place of the list has an entry.
fn is_used_at(names: &Names, place: usize) -> bool
    requires { place < length names.now.order }
    ensures { result ≡ true → (e : List ℕ × ℕ)
        → is_used names.now.objects (slice_index_or names.now.order place e).0 ≡ true }
{
    // for the prover: brings in the invariant of `names`
    let _known = names.known();
    !names.entries(names.key_listed(place)).is_empty()
}

/// How many of the first names of the list have entries: these do, and those after them are looked at up to the first
/// one that has none.
pub fn count_used(names: &Names, from: usize) -> usize
    requires { AreUsedBelow names.now from }
    ensures { AreUsedBelow names.now result }
{
    let count = names.known();
    for place in from..count {
        if !is_used_at(names, place) {
            return place;
        }
    }
    count
}

/// Whether each known name is known to have an entry.
pub fn are_all_used(names: &Names, used: usize) -> bool
    requires { AreUsedBelow names.now used }
    ensures { result ≡ true → AreUsed names.now }
{
    used == names.known()
}

/// How many of the first names of the list are known to have entries, if that is known of all or of none.
pub fn all_or_none(names: &Names, are_used: bool) -> usize
    requires { are_used ≡ true → AreUsed names.now }
    ensures { AreUsedBelow names.now result }
{
    if are_used {
        return names.known();
    }
    0
}
