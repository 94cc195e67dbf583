//! Which input sections of a link stayed where the previous link has them.

ghost use Rattle.std.specs.Prelude.{◌≡◌, ℕ, IsSome, None, Option, Some, is_some, length, slice_get, slice_index_or};
ghost use Rattle.std.specs.Prelude.{true};
ghost use Rattle.emit.specs.StayedPieces.{IsSound};
ghost use Rattle.ldmodel.specs.Layout.{Layout};
ghost use Rattle.ldmodel.specs.Project.{NamedObject, Project};
ghost use Rattle.ldmodel.specs.Stayed.{GoodLink};
ghost use Rattle.emit.specs.relocate.PreviousLinkInfo.{IsComplete};
ghost use Rattle.emit.specs.relocate.KnownLink.{KnownLink};
ghost use Rattle.emit.specs.relocate.SymbolValues.{AreSymbolValues, AreValuesOf};
ghost use Rattle.relink_driver.specs.PreviousLink.{previous_address, previous_of, previous_state};
ghost use Rattle.relink_driver.specs.StayedColumn.{IsStayedColumn, IsWhollyStayedColumn};

use crate::link_snapshot::LinkSnapshot;
use crate::section_location::{range_at, range_if_stayed};
use crate::stayed_column::StayedColumn;
use elfobj::Object;
use emit::relocate::previous_link_info::{FileRange, PreviousLinkInfo};
use emit::relocate::value::SymbolValue;
use ldmodel::names::ObjectPlace;
use ldmodel::sections::{Part, SectionRef};
use ldmodel_laws::segments::{files_in_order, sections_in_file};
use place::indexed_layout::{IndexedLayout, SectionAddress};

/// An object of the previous link that was replaced by another of its name.
#[derive(Clone, Copy)]
pub struct ReplacedObject<'a> {
    /// Its place in the previous link.
    pub old_place: ObjectPlace,
    /// The object.
    pub old_object: &'a Object,
    /// The place in the new link of the object that replaced it.
    pub new_place: ObjectPlace,
}

/// A previous link without faults, as the new link sees it.
#[derive(Clone, Copy)]
pub struct PreviousView<'a> {
    /// Its snapshot.
    pub snapshot: &'a LinkSnapshot,
    /// How many objects it has.
    pub objects: usize,
    /// For each object of the new link its place in the previous one; `None` if the previous one does not have it.
    pub origins: &'a [Option<usize>],
    /// Whether its script is known to be that of the new link.
    pub same_script: bool,
    /// The object that was replaced, if one is known.
    pub replaced: Option<ReplacedObject<'a>>,
    /// Whether queries are answered from this link: if the new one has the same map, only the image need change.
    pub is_answered: bool,
}

impl<'a> PreviousView<'a> {
    /// The place that an object of the new link had in the previous one.
    pub(crate) fn origin(&self, object: ObjectPlace) -> Option<usize>
        ensures { result ≡ slice_index_or self.now.origins.now object.0 None }
    {
        self.origins.get(object.0).copied().unwrap_or(None)
    }

    /// The address of an input section of the new link in the previous one, if it was in the output.
    fn section_address(&self, section: SectionRef) -> Option<SectionAddress>
        ensures { result ≡ previous_address (previous_state self.now) section }
    {
        let place = self.origin(section.object)?;
        let section = SectionRef {
            object: ObjectPlace(place),
            part: section.part,
        };
        self.snapshot.indexed_layout.find(section)
    }

    /// The values that the symbols of an object of the new link, which has this number of them, had in the previous
    /// one; none if the previous one does not have it.
    fn values(&self, object: ObjectPlace, count: usize) -> &'a [SymbolValue]
        ensures { (project : Project) (layout : Layout) (from : ℕ) (named : NamedObject)
            → slice_index_or self.now.origins.now object.0 None ≡ Some from
            → AreSymbolValues project layout self.now.snapshot.now.symbols
            → slice_get project.objects from ≡ Some named → length named.object.symbols ≡ count
            → AreValuesOf project layout named result.now }
    {
        match self.origin(object) {
            None => &[],
            Some(place) => self.snapshot.symbols.slice(ObjectPlace(place), count),
        }
    }
}

/// Which input sections of a link stayed where the previous one has them, if there is one. One stayed if its object has
/// the same name and bytes in both links, as `PreviousView::origin` tells, and it has the same address, size and file
/// offset, which `StayedColumn` compares (`has_same_location`) and, for a common block, `find_range`.
#[derive(Clone, Copy)]
pub struct StayedSections<'a> {
    /// The previous link, if there is one.
    pub previous: Option<PreviousView<'a>>,
    /// The layout of the new link.
    pub indexed_layout: &'a IndexedLayout,
    /// For each object of the new link whether a symbol of it may have another value than in the previous one. An
    /// object past the end of the list counts as dirty.
    pub dirty: &'a [bool],
    /// Which sections of objects stayed.
    pub(crate) column: &'a StayedColumn,
    ghost found: { IsStayedColumn (previous_of previous) indexed_layout.now column.now },
    ghost found_all_stayed: { IsWhollyStayedColumn (previous_of previous) indexed_layout.now column.now },
}

impl<'a> StayedSections<'a> {
    ghost use Rattle.relink_driver.specs.StayedSections.{AreStayedSections, range_of};

    /// Whether an object is dirty; one past the end of the list is.
    fn dirty_bit(&self, object: ObjectPlace) -> bool
        ensures { result ≡ slice_index_or self.now.dirty.now object.0 true }
    {
        self.dirty.get(object.0).copied().unwrap_or(true)
    }

    /// The bytes in the file of an input section that stayed, by what both links have of it.
    #[inline(never)]
    fn find_range(&self, section: SectionRef) -> Option<FileRange>
        ensures { result ≡ range_of self.now section }
    {
        let previous = self.previous?;
        let before = previous.section_address(section)?;
        let now = self.indexed_layout.find(section)?;
        let layout_before = &previous.snapshot.indexed_layout.link_layout;
        range_if_stayed(layout_before, before, &self.indexed_layout.link_layout, now)
    }

    /// Finds whether an input section stayed. For a section of an object this is read from the column.
    #[inline(always)]
    fn find_stayed(&self, section: SectionRef) -> bool
        ensures { result ≡ is_some (range_of self.now section) }
    {
        match section.part {
            Part::InTable(number) => self.column.has_stayed(section.object, number),
            Part::InCommon(_) => self.find_range(section).is_some(),
        }
    }

    /// A law: `find_range` finds only input sections that stayed and, if there is a previous link, all of them. The
    /// call does nothing.
    pub fn is_complete(&self)
        ensures complete { (old : GoodLink) (link : KnownLink) → AreStayedSections self.now old link
            → IsSome self.now.previous
            → IsComplete (range_of self.now) old link }
        ensures sound { (old : GoodLink) (link : KnownLink) → AreStayedSections self.now old link
            → IsSound (range_of self.now) old link }
        ensures none { self.now.previous ≡ None → (key : SectionRef) → range_of self.now key ≡ None }
    {
        // for the prover: brings in the laws of output sections in the file
        sections_in_file();
        files_in_order();
    }
}

impl<'a> PreviousLinkInfo for StayedSections<'a> {
    ghost use Rattle.relink_driver.specs.StayedSections.{AreStayedSections, range_of};

    ghost knows = { AreStayedSections };

    ghost range = { range_of };

    fn stayed_range(&self, section: SectionRef) -> Option<FileRange> {
        if !self.find_stayed(section) {
            return None;
        }
        let now = self.indexed_layout.find(section)?;
        range_at(&self.indexed_layout.link_layout, now)
    }

    #[inline(always)]
    fn has_stayed(&self, section: SectionRef) -> bool {
        self.find_stayed(section)
    }

    fn has_wholly_stayed(&self, object: ObjectPlace) -> bool {
        self.column.has_wholly_stayed(object)
    }

    fn is_dirty(&self, object: ObjectPlace) -> bool {
        self.dirty_bit(object)
    }

    fn values(&self, object: ObjectPlace, count: usize) -> &[SymbolValue] {
        match self.previous {
            None => &[],
            Some(previous) => previous.values(object, count),
        }
    }
}
