//! The names of the objects of a link, one after the other in one text.

ghost use Rattle.std.specs.Prelude.{◌≡◌, ◌≤◌, ◌<◌, ◌+◌, ◌^◌, ◌++◌, [], ◌∷◌, IfOk, OnOk, Some, length, map, true};
ghost use Rattle.std.specs.List.{sum_by};
ghost use Rattle.ldmodel.specs.Project.{NamedObject};
ghost use Rattle.ldmodel_project.specs.Inputs.{shown_inputs};
ghost use Rattle.relink.specs.NameList.{HasRoomFor};
ghost use Rattle.relink.specs.PreviousLink.{IsNowhereButAt};

use growth::{NoMemory, vec};
use ldmodel_project::input::InputObject;
use std::alloc::Global;
use std::marker::Model;

/// Names in an order, in two blocks of memory however many they are: their bytes, one name after the other, and their
/// lengths. Room is taken before, so that names are added without memory.
#[derive(Drop)]
pub(crate) struct NameList {
    text: Vec<u8>,
    lengths: Vec<usize>,
}

impl Model for NameList {
    ghost use Rattle.std.specs.Prelude.{◌≡◌, ◌-◌, length, vec_capacity};
    ghost use Rattle.std.specs.List.{sum_by};
    ghost use Rattle.relink.specs.NameList.{Names, names_in};

    ghost Value = { Names };

    ghost view = { λ n. record {
      names = names_in n.text.items n.lengths.items;
      count_room = vec_capacity n.lengths - length n.lengths.items;
      byte_room = vec_capacity n.text - length n.text.items;
    } };

    ghost invariant = { λ n. sum_by (λ k. k) n.lengths.items ≡ length n.text.items };
}

/// Whether the name at `at` is allowed: it is another name than the one that is looked for, or `at` is `place`.
fn is_other_or_at(is_same: bool, place: Option<usize>, at: usize) -> bool
    ensures { result ≡ true → is_same ≡ true → place ≡ Some at }
{
    match place {
        Some(place) if place == at => true,
        _ => !is_same,
    }
}

impl NameList {
    /// An empty list, with room for this many names of this many bytes in all.
    ///
    /// # Errors
    ///
    /// If memory runs out.
    pub(crate) fn with_room(alloc: Global, count: usize, bytes: usize) -> Result<NameList, NoMemory>
        ensures names { IfOk result (λ n. n.names ≡ []) }
        ensures count { IfOk result (λ n. count ≤ n.count_room) }
        ensures bytes { IfOk result (λ n. bytes ≤ n.byte_room) }
        // no memory holds more
        ensures few { OnOk result (bytes < 2 ^ 63) }
    {
        let text = vec::with_capacity(alloc, bytes)?;
        let lengths = vec::with_capacity(alloc, count)?;
        Ok(NameList { text, lengths })
    }

    /// Adds a name in room that was taken for it.
    pub(crate) fn push_reserved(&mut self, name: &[u8])
        requires count { 0 < self.old.count_room }
        requires bytes { length name.now ≤ self.old.byte_room }
        ensures names { self.new.names ≡ self.old.names ++ name.now ∷ [] }
        ensures count { self.old.count_room ≤ self.new.count_room + 1 }
        ensures bytes { self.old.byte_room ≤ self.new.byte_room + length name.now }
    {
        self.text.extend_from_slice(name).unwrap();
        self.lengths.push(name.len()).unwrap();
    }

    /// The number of names.
    pub(crate) fn len(&self) -> usize
        ensures { result ≡ length self.now.names }
    {
        self.lengths.len()
    }

    /// Whether this name is not in the list, or only at this place.
    pub(crate) fn is_nowhere_but_at(&self, name: &[u8], place: Option<usize>) -> bool
        ensures { result ≡ true → IsNowhereButAt self.now.names name.now place }
    {
        let mut rest: &[u8] = &self.text;
        for (at, length) in self.lengths.iter().enumerate() {
            let Some((other, others)) = rest.split_at_checked(*length) else {
                return false;
            };
            if !is_other_or_at(other == name, place, at) {
                return false;
            }
            rest = others;
        }
        true
    }
}

/// How many bytes the names of these objects have in all, at most the greatest `usize`.
fn name_bytes(inputs: &[InputObject<'_>]) -> usize
    ensures { result < 2 ^ 63 → result ≡ sum_by (λ (o : NamedObject). length o.name) (shown_inputs inputs.now) }
{
    let mut bytes: usize = 0;
    for input in inputs {
        bytes = bytes.saturating_add(input.name.len());
    }
    bytes
}

/// An empty list, with room for the names of these objects.
///
/// # Errors
///
/// If memory runs out.
pub(crate) fn room_for_names(
    alloc: Global,
    inputs: &[InputObject<'_>],
) -> Result<NameList, NoMemory>
    ensures names { IfOk result (λ n. n.names ≡ []) }
    ensures room { IfOk result (HasRoomFor (shown_inputs inputs.now)) }
{
    NameList::with_room(alloc, inputs.len(), name_bytes(inputs))
}

/// The names of these objects, in room that was taken for them. It takes no memory.
pub(crate) fn names_in_room(mut names: NameList, inputs: &[InputObject<'_>]) -> NameList
    requires none { names.names ≡ [] }
    requires room { HasRoomFor (shown_inputs inputs.now) names }
    ensures { result.names ≡ map (λ (o : NamedObject). o.name) (shown_inputs inputs.now) }
{
    for input in inputs {
        names.push_reserved(input.name);
    }
    names
}
