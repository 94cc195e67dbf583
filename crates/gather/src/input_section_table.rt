//! The numbers of the input sections of a link.

ghost use Rattle.std.specs.Prelude.{◌≡◌, ◌<◌, ◌+◌, ◌^◌, IfOk, IfSome, length};
ghost use Rattle.std.specs.List.Sorted.{IsSortedByKey};
ghost use Rattle.std.specs.Option.{option_map};
ghost use Rattle.gather.specs.Ranks.{rank_cmp, rank_self};
ghost use Rattle.gather.specs.Slots.{AreLaid};

use crate::rank::{Rank, find_rank};
use crate::slots::{Slots, lay_slots, sum};
use elfobj::relocation::SymbolIndex;
use elfobj::section::SectionIndex;
use growth::NoMemory;
use ldmodel::names::ObjectPlace;
use ldmodel::sections::Part;
use ldmodel_project::view::ProjectView;
use std::alloc::Global;
use std::ops::Range;

/// The number of an input section of a link, under which each phase has a column. The header numbers of all objects
/// come first, those of each object after those of the one before, and then the common blocks, in the order of objects
/// and symbols. So the sections of an object keep their distances from link to link.
#[derive(Clone, Copy, Debug, PartialEq, Eq)]
pub struct SectionNumber(pub u32);

/// The input sections of a link, by their numbers.
#[derive(Drop)]
pub struct InputSectionTable {
    /// The header numbers of each object, up to that of its last linked section.
    objects: Vec<Slots>,
    /// How many header numbers there are in all: the number of the first common block.
    slots: u32,
    /// The common blocks, by rank.
    blocks: Vec<Rank>,
    ghost laid: { AreLaid objects.items slots },
    ghost sorted: { IsSortedByKey rank_self rank_cmp blocks.items },
    ghost small: { slots + length blocks.items < 2 ^ 32 },
}

impl InputSectionTable {
    ghost use Rattle.gather.specs.SectionTable.{AreBlockRanks, IsTableOf, block_of, len_of, linked_of};
    ghost use Rattle.gather.specs.SectionTable.{number_of};
    ghost use Rattle.gather.specs.SectionTable.{slot_of, slots_at};

    /// The numbers of the input sections of a project, whose common blocks have these ranks. The time grows with the
    /// numbers of objects and of common blocks.
    ///
    /// # Errors
    ///
    /// If memory runs out; 2^32 numbers count as that.
    pub fn of(
        alloc: Global,
        project: &ProjectView<'_>,
        ranks: Vec<Rank>,
    ) -> Result<InputSectionTable, NoMemory>
        requires { AreBlockRanks project.now ranks.items }
        ensures { IfOk result (λ t. IsTableOf project.now t) }
    {
        let laid = lay_slots(alloc, project)?;
        let mut blocks = ranks;
        blocks.sort_unstable_by_key(|block| *block);
        // so that each has a number
        let _numbers = sum(laid.slots, blocks.len())?;
        Ok(InputSectionTable {
            objects: laid.objects,
            slots: laid.slots,
            blocks,
        })
    }

    /// How many linked sections the objects before this one have, in all: the number of its first one, where those of
    /// all objects are counted one after another.
    pub fn linked_before(&self, object: ObjectPlace) -> Option<usize>
        ensures { result ≡ linked_of self.now object.0 }
    {
        let slots = self.objects.get(object.0)?;
        Some(slots.linked)
    }

    /// The numbers of the sections of an object, by their header numbers up to that of the last linked one; none for an
    /// object that is not there.
    pub fn numbers_of(&self, object: ObjectPlace) -> Range<usize>
        ensures start { result.start ≡ (slots_at self.now object.0).begin }
        ensures end { result.end ≡ (slots_at self.now object.0).begin + (slots_at self.now object.0).count }
    {
        match self.objects.get(object.0) {
            None => 0..0,
            Some(slots) => {
                let begin = slots.begin as usize;
                begin..begin + slots.count as usize
            }
        }
    }

    /// How many numbers there are.
    pub fn len(&self) -> u32
        ensures { result ≡ len_of self.now }
    {
        self.slots + self.blocks.len() as u32
    }

    /// The number of a section of an object.
    #[inline(always)]
    fn find_slot(&self, object: ObjectPlace, section: SectionIndex) -> Option<SectionNumber>
        ensures is { option_map (λ i. i.0) result ≡ slot_of self.now.objects.items object.0 section.0 }
        ensures below { IfSome result (λ i. i.0 < self.now.slots) }
    {
        let slots = self.objects.get(object.0)?;
        let number = u32::from(section.0);
        if number < slots.count {
            Some(SectionNumber(slots.begin + number))
        } else {
            None
        }
    }

    /// The number of the common block of a symbol of an object. It stays out of the loops that `find` is compiled into.
    #[inline(never)]
    fn find_block(&self, object: ObjectPlace, symbol: SymbolIndex) -> Option<SectionNumber>
        ensures is { option_map (λ i. i.0) result ≡ block_of self.now object.0 symbol.0 }
        ensures below { IfSome result (λ i. i.0 < len_of self.now) }
    {
        let place = find_rank(&self.blocks, (object.0, true, symbol.0))?;
        Some(SectionNumber(self.slots + place as u32))
    }

    /// The number of a part of an object, if it is in the link. For a section the time is constant, for a common block
    /// it is logarithmic in the number of common blocks.
    #[inline(always)]
    pub fn find(&self, object: ObjectPlace, part: Part) -> Option<SectionNumber>
        ensures is { option_map (λ i. i.0) result ≡ number_of self.now object.0 part }
        ensures below { IfSome result (λ i. i.0 < len_of self.now) }
    {
        match part {
            Part::InTable(section) => self.find_slot(object, section),
            Part::InCommon(symbol) => self.find_block(object, symbol),
        }
    }
}
