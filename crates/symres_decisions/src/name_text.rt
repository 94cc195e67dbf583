//! Names one after the other in memory, in byte order, so that a pass over them reads memory in its order. Each known
//! name has a block of its own besides, where it was put when it became known.

ghost use Rattle.std.specs.Prelude.{◌≡◌, ◌<◌, ◌++◌, ◌∷◌, ℕ, IfNone, IfSome, List, [], filter, length, map};
ghost use Rattle.std.specs.Prelude.{slice_index_or};
ghost use Rattle.symres_decisions.specs.NameText.{AreInOrder, BelongsAt, IsInByteOrder, IsInside, IsWritten};
ghost use Rattle.symres_decisions.specs.NameText.{compared_number, is_known, written};

use crate::sorted_names::{ComparedName, sorted_names};
use ldmodel::names::NameKey;
use std::alloc::Global;
use std::marker::Model;
use symres_table::names::Names;

/// Where a name begins and ends in the bytes of all names, and the number of its key: in 12 bytes, since each pass
/// reads all of them, and a name that is put among the others moves those after it.
#[derive(Clone, Copy)]
struct WrittenName {
    start: u32,
    end: u32,
    number: u32,
}

/// Names with their keys, one after the other in memory. A name that came later has its bytes after those of the
/// others, and its place among them.
#[derive(Drop)]
pub struct NameText {
    bytes: Vec<u8>,
    names: Vec<WrittenName>,
}

impl Model for NameText {
    ghost use Rattle.std.specs.Prelude.{List, ℕ, map};
    ghost use Rattle.std.specs.List.{All};
    ghost use Rattle.symres_decisions.specs.NameText.{IsInside, written};

    ghost Value = { List (List ℕ × ℕ) };

    ghost view = { λ a. map (written a.bytes.items) a.names.items };

    ghost invariant = { λ a. All (IsInside a.bytes.items) a.names.items };
}

/// Writes a name after these bytes. Gives nothing, and writes nothing, if memory is refused or a number of more than 32
/// bits is needed.
fn write_name(bytes: &mut Vec<u8>, name: &[u8], key: NameKey) -> Option<WrittenName>
    ensures written { IfSome result (IsWritten bytes.old.items name.now key.0) }
    ensures bytes { IfSome result (λ w. bytes.new.items ≡ bytes.old.items ++ name.now) }
    ensures none { IfNone result (bytes.new.items ≡ bytes.old.items) }
{
    let start = u32::try_from(bytes.len()).ok()?;
    let end = u32::try_from(bytes.len().checked_add(name.len())?).ok()?;
    let number = u32::try_from(key.0).ok()?;
    match bytes.extend_from_slice(name) {
        Ok(()) => Some(WrittenName { start, end, number }),
        Err(_refused) => None,
    }
}

impl NameText {
    /// No names, with room for this number of them, if there is memory for it.
    fn with_capacity(alloc: Global, count: usize) -> Option<NameText>
        ensures { IfSome result (λ text. text ≡ []) }
    {
        match Vec::with_capacity(alloc, count) {
            Ok(names) => Some(NameText {
                bytes: Vec::new(alloc),
                names,
            }),
            Err(_refused) => None,
        }
    }

    /// Writes a name after the others, if it can be written.
    fn push(&mut self, name: &[u8], key: NameKey) -> Option<()>
        ensures { IfSome result (λ done. self.new ≡ self.old ++ (name.now, key.0) ∷ []) }
    {
        let written = write_name(&mut self.bytes, name, key)?;
        if let Err(_refused) = self.names.push(written) {
            return None;
        }
        Some(())
    }

    /// The names of a list with their keys, if they can be written.
    fn of_list(alloc: Global, list: &[ComparedName<'_>]) -> Option<NameText>
        ensures { IfSome result (λ text. text ≡ map compared_number list.now) }
    {
        let mut text = NameText::with_capacity(alloc, list.len())?;
        for compared in list {
            text.push(compared.name.name(), compared.key)?;
        }
        Some(text)
    }

    /// All known names with their keys, in byte order. Gives nothing if memory is refused, or the names have more than
    /// 2^32 bytes.
    pub fn of(alloc: Global, names: &Names) -> Option<NameText>
        ensures { IfSome result (AreInOrder names.now.order) }
    {
        match sorted_names(alloc, names) {
            Ok(sorted) => NameText::of_list(alloc, &sorted),
            Err(_refused) => None,
        }
    }

    /// How many names there are.
    pub fn len(&self) -> usize
        ensures { result ≡ length self.now }
    {
        self.names.len()
    }

    /// The name at a place, from 0.
    #[inline(always)]
    pub fn name_at(&self, place: usize) -> &[u8]
        requires { place < length self.now }
        ensures { (e : List ℕ × ℕ) → (slice_index_or self.now place e).0 ≡ result.now }
    {
        let written = self.names[place];
        &self.bytes[written.start as usize..written.end as usize]
    }

    /// The key of the name at a place, from 0.
    #[inline(always)]
    pub fn key_at(&self, place: usize) -> NameKey
        requires { place < length self.now }
        ensures { (e : List ℕ × ℕ) → (slice_index_or self.now place e).1 ≡ result.0 }
    {
        NameKey(self.names[place].number as usize)
    }

    /// How many of the names come before this one in byte order. The time is logarithmic.
    fn place_for(&self, name: &[u8]) -> usize
        requires { IsInByteOrder self.now }
        ensures { BelongsAt self.now name.now result }
    {
        let mut low = 0;
        let mut high = self.len();
        while low < high {
            let middle = low + (high - low) / 2;
            if self.name_at(middle).cmp(name).is_lt() {
                low = middle + 1;
            } else {
                high = middle;
            }
        }
        low
    }

    /// Puts a name where it belongs in byte order, if it can be written.
    pub(crate) fn insert(&mut self, name: &[u8], key: NameKey) -> Option<()>
        requires { IsInByteOrder self.old }
        ensures { IfSome result (λ done. AreInOrder ((name.now, key.0) ∷ self.old) self.new) }
    {
        let place = self.place_for(name);
        let written = write_name(&mut self.bytes, name, key)?;
        if let Err(_refused) = self.names.insert(place, written) {
            return None;
        }
        Some(())
    }

    /// Drops the names whose keys have none now.
    pub(crate) fn keep_known(&mut self, names: &Names)
        ensures { self.new ≡ filter (is_known names.now.names) self.old }
    {
        self.names
            .retain(|written| names.has_name(NameKey(written.number as usize)));
    }

    /// Whether more of the bytes are of names that were dropped than of those that are there.
    pub(crate) fn is_sparse(&self) -> bool {
        let mut used: usize = 0;
        for written in &self.names {
            used = used.saturating_add((written.end - written.start) as usize);
        }
        used < self.bytes.len() / 2
    }
}
