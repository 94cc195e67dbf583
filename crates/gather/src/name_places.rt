//! Names that sections of an object share.

ghost use Rattle.std.specs.Prelude.{◌≡◌, ◌<◌, IfSome, IsTrue, length, map, slice_get};

use elfobj::Object;
use elfobj::section::LinkedIndex;
use elfobj::span::Span;
use growth::{NoMemory, btree_map};
use std::alloc::Global;
use std::collections::BTreeMap;

/// From this many bytes on a name is long.
const LONG: usize = 64;

/// Sections of an object by their names: those with long names by where these begin in the file, since many sections
/// can share the bytes of one name; and the others by their names, if that was asked for. The maps have no invariant:
/// `earlier` compares the names itself.
#[derive(Drop)]
pub struct NamePlaces<'o> {
    long: BTreeMap<usize, usize>,
    short: BTreeMap<&'o [u8], usize>,
    has_short: bool,
}

/// Whether the name that lies there is long.
fn is_long(name: Span) -> bool {
    name.end.saturating_sub(name.start) >= LONG
}

/// Whether these are the same span.
fn is_same(left: Span, right: Span) -> bool
    ensures { IsTrue result → left ≡ right }
{
    left == right
}

/// Whether these are the same name.
fn is_same_name(left: &[u8], right: &[u8]) -> bool
    ensures { IsTrue result → left.now ≡ right.now }
{
    left == right
}

impl<'o> NamePlaces<'o> {
    /// No sections. `has_short` says whether sections that have short names are to be found too.
    pub fn new(alloc: Global, has_short: bool) -> NamePlaces<'o> {
        NamePlaces {
            long: BTreeMap::new(alloc),
            short: BTreeMap::new(alloc),
            has_short,
        }
    }

    /// Adds a section, if it is to be found.
    pub fn add(&mut self, object: &'o Object, place: usize) -> Result<(), NoMemory>
        requires { place < length object.now.sections }
    {
        let name = object.section_name_place(LinkedIndex(place));
        if is_long(name) {
            btree_map::insert(&mut self.long, name.start, place)?;
        } else if self.has_short {
            btree_map::insert(
                &mut self.short,
                object.section_name(LinkedIndex(place)),
                place,
            )?;
        }
        Ok(())
    }

    /// A section before this one, which has a long name, that has the same name at the same place.
    fn earlier_long(&self, object: &Object, place: usize) -> Option<usize>
        requires { place < length object.now.sections }
        ensures before { IfSome result (λ other. other < place) }
        ensures same { IfSome result (λ other. slice_get (map (λ s. s.name) object.now.sections) other
            ≡ slice_get (map (λ s. s.name) object.now.sections) place) }
    {
        let name = object.section_name_place(LinkedIndex(place));
        match self.long.get(&name.start) {
            Some(other) if *other < place => {
                let found = object.section_name_place(LinkedIndex(*other));
                if is_same(found, name) {
                    Some(*other)
                } else {
                    None
                }
            }
            _ => None,
        }
    }

    /// A section before this one, which has a short name, that has the same name.
    fn earlier_short(&self, object: &Object, place: usize) -> Option<usize>
        requires { place < length object.now.sections }
        ensures before { IfSome result (λ other. other < place) }
        ensures same { IfSome result (λ other. slice_get (map (λ s. s.name) object.now.sections) other
            ≡ slice_get (map (λ s. s.name) object.now.sections) place) }
    {
        if !self.has_short {
            return None;
        }
        let name = object.section_name(LinkedIndex(place));
        match self.short.get(name) {
            Some(other) if *other < place => {
                let found = object.section_name(LinkedIndex(*other));
                if is_same_name(found, name) {
                    Some(*other)
                } else {
                    None
                }
            }
            _ => None,
        }
    }

    /// A section before this one that has the same name, if sections that have such names are to be found. The time
    /// grows with the logarithm of the number of sections.
    pub fn earlier(&self, object: &Object, place: usize) -> Option<usize>
        requires { place < length object.now.sections }
        ensures before { IfSome result (λ other. other < place) }
        ensures same { IfSome result (λ other. slice_get (map (λ s. s.name) object.now.sections) other
            ≡ slice_get (map (λ s. s.name) object.now.sections) place) }
    {
        if is_long(object.section_name_place(LinkedIndex(place))) {
            self.earlier_long(object, place)
        } else {
            self.earlier_short(object, place)
        }
    }
}
