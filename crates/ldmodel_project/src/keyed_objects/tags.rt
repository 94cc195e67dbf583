//! Marks of names. They say of most names that no object has them, at once.

ghost use Rattle.std.specs.Prelude.{◌≡◌, ◌<◌, true, length};
ghost use Rattle.ldmodel_project.specs.Tags.{hash_of, place_in, may_have, mixed, KeepsMarks};

use growth::{NoMemory, vec};
use std::alloc::Global;
use std::marker::Model;

/// How many marks there are for each name, at least.
const MARKS: usize = 32;

/// How many times as many there are when they are made.
const GROWTH: usize = 4;

/// Marks of names. The mark of each name that was noted is set, and other names may have the same mark.
#[derive(Drop)]
pub(crate) struct Tags {
    marks: Vec<bool>,
}

impl Model for Tags {
    ghost use Rattle.std.specs.Prelude.{Bool, List};

    ghost Value = { List Bool };

    ghost view = { λ t. t.marks.items };
}

fn mixed(hash: u64, byte: u8) -> u64
    ensures { result ≡ mixed hash byte }
{
    hash.wrapping_add(byte as u64)
        .wrapping_mul(11400714819323198485)
}

/// A quick hash: anyone can find names that share one, and those are then looked for one by one.
fn hash_of(name: &[u8]) -> u64
    ensures { result ≡ hash_of name.now }
{
    let mut hash = 0;
    for byte in name {
        hash = mixed(hash, *byte);
    }
    hash
}

/// The index, below `count`, of the mark of a name.
fn place_in(count: usize, name: &[u8]) -> usize
    requires { 0 < count }
    ensures value { result ≡ place_in count name.now }
    ensures within { result < count }
{
    (hash_of(name) >> 32) as usize % count
}

impl Tags {
    /// No mark: any name may have been noted.
    pub(crate) fn new(alloc: Global) -> Tags {
        Tags {
            marks: Vec::new(alloc),
        }
    }

    /// Marks for this number of names and some more, and no name is noted yet.
    pub(crate) fn with_room(alloc: Global, count: usize) -> Result<Tags, NoMemory> {
        let marks = count.saturating_add(MARKS).saturating_mul(MARKS * GROWTH);
        Ok(Tags {
            marks: vec::from_elem(alloc, false, marks)?,
        })
    }

    /// Whether there are too few marks to tell most of this number of names apart.
    pub(crate) fn are_few(&self, count: usize) -> bool {
        self.marks.len() / MARKS <= count
    }

    /// Whether the name may have been noted. Else it was not.
    pub(crate) fn may_have(&self, name: &[u8]) -> bool
        ensures { result ≡ may_have self.now name.now }
    {
        if self.marks.is_empty() {
            return true;
        }
        self.marks[place_in(self.marks.len(), name)]
    }

    /// Notes a name, with no allocation.
    pub(crate) fn note(&mut self, name: &[u8])
        ensures noted { may_have self.new name.now ≡ true }
        ensures kept { KeepsMarks self.old self.new }
    {
        if self.marks.is_empty() {
            return;
        }
        let place = place_in(self.marks.len(), name);
        self.marks[place] = true;
    }
}
