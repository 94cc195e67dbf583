//! The index of the object of a key among the entered ones.

ghost use Rattle.std.specs.Prelude.{◌≡◌, ◌<◌, ◌≤◌, ◌^◌, ◌-◌, length};
ghost use Rattle.std.specs.List.{All};

use ldmodel::names::ObjectKey;

/// The key of an entered object, and its place in the project, from 0.
#[derive(Clone, Copy, Debug, PartialEq, Eq)]
pub struct PlacedKey {
    /// The key.
    pub key: ObjectKey,
    /// The place.
    pub at: usize,
}

ghost use Rattle.symres_table.specs.Places.{AreSorted, IsBelow, place_of, is_below, up, down, AreMoved};
ghost use Rattle.symres_table.specs.declared.places.PlacedKey.{PlacedKey};

/// The number of places whose key is below this one.
pub fn count_below(places: &[PlacedKey], key: ObjectKey) -> usize
    requires { AreSorted places.now }
    ensures { IsBelow places.now key.0 result }
{
    let mut low = 0;
    let mut high = places.len();
    while low < high {
        let middle = low + (high - low) / 2;
        if places[middle].key.0 < key.0 {
            low = middle + 1;
        } else {
            high = middle;
        }
    }
    low
}

/// The place of the object of a key.
pub fn find(places: &[PlacedKey], key: ObjectKey) -> Option<usize>
    requires { AreSorted places.now }
    ensures { result ≡ place_of places.now key.0 }
{
    let number = count_below(places, key);
    match places.get(number) {
        Some(place) => {
            if place.key == key {
                Some(place.at)
            } else {
                None
            }
        }
        None => None,
    }
}

/// Whether the object of a key is before `at`.
pub fn is_in_front(places: &[PlacedKey], at: usize, key: ObjectKey) -> bool
    requires { AreSorted places.now }
    ensures { result ≡ is_below at (place_of places.now key.0) }
{
    // In the order in which a project is opened, each object is put before all others
    if at == 0 {
        return false;
    }
    match find(places, key) {
        Some(place) => place < at,
        None => false,
    }
}

/// Makes a gap at `at` in the places of objects.
fn move_up(places: &mut [PlacedKey], at: usize)
    requires { All (λ (p : PlacedKey). p.at < 2 ^ 64 - 1) places.old }
    ensures { AreMoved (up at) places.old places.new }
{
    for place in places.iter_mut() {
        if place.at >= at {
            place.at += 1;
        }
    }
}

/// Makes a gap at a place among this number of objects: a gap after the last of them moves none.
pub fn make_gap(places: &mut [PlacedKey], at: usize, count: usize)
    requires fits { All (λ (p : PlacedKey). p.at < 2 ^ 64 - 1) places.old }
    requires within { All (λ (p : PlacedKey). p.at < count) places.old }
    ensures { AreMoved (up at) places.old places.new }
{
    if at < count {
        move_up(places, at);
    }
}

/// Closes the gap at `at`.
pub fn move_down(places: &mut [PlacedKey], at: usize)
    ensures { AreMoved (down at) places.old places.new }
{
    for place in places.iter_mut() {
        if place.at > at {
            place.at -= 1;
        }
    }
}
