//! The layout of a link, with an index of its input sections.

ghost use Rattle.std.specs.Prelude.{◌≡◌, IfOk, IfSome, None, slice_index_or, take};
ghost use Rattle.elfobj.specs.declared.section.SectionIndex.{SectionIndex};
ghost use Rattle.ldmodel.specs.Layout.{Layout};
ghost use Rattle.ldmodel.specs.Project.{Project};
ghost use Rattle.place.specs.LinkLayout.{IsLinkLayout};
ghost use Rattle.ldmodel.specs.Rows as model;
ghost use Rattle.ldmodel_project.specs.ByPlace.{rows_in};
ghost use Rattle.gather.specs.SectionTable.{IsTableOf};

use crate::address_column::address_column;
use crate::link_layout::LinkLayout;
use crate::numbered::are_numbered;
use gather::input_section_table::{InputSectionTable, SectionNumber};
use gather::law::sections_of_objects;
use growth::NoMemory;
use ldmodel::names::ObjectPlace;
use ldmodel::placed::OutputIndex;
use ldmodel::rows::Piece;
use ldmodel::sections::{Part, SectionRef};
use ldmodel_laws::gathering::{live_by_path, once_in_rows};
use ldmodel_laws::layout::{nothing_overlaps, placed_are_rows};
use ldmodel_project::view::ProjectView;
use std::alloc::Global;

/// The address of an input section.
#[derive(Clone, Copy, Debug, PartialEq, Eq)]
pub struct SectionAddress {
    /// The address that it starts at.
    pub start: u64,
    /// How many bytes it takes in memory. For a common block other objects decide it too.
    pub size: u64,
    /// Its output section.
    pub section: OutputIndex,
}

/// The rows and the layout of a link, and the addresses of its input sections by their numbers.
#[derive(Drop)]
pub struct IndexedLayout {
    /// The numbers of the input sections.
    table: InputSectionTable,
    /// The row of each output section.
    pub rows: Vec<Vec<Piece>>,
    /// Their addresses, segments and file offsets.
    pub link_layout: LinkLayout,
    /// Under each number of the table the address of its input section, if it is in the output.
    addresses: Vec<Option<SectionAddress>>,
}

impl IndexedLayout {
    ghost use Rattle.place.specs.IndexedLayout.{IsIndexedLayout, IsSectionAddress, linked_in, linked_of, part_in};
    ghost use Rattle.place.specs.IndexedLayout.{address_in};
    ghost use Rattle.place.specs.IndexedLayout.{address_under};
    ghost use Rattle.place.specs.IndexedLayout.{table_key};

    /// The addresses of the input sections of these rows, under their numbers.
    ///
    /// # Errors
    ///
    /// If memory runs out.
    pub fn of(
        alloc: Global,
        project: &ProjectView<'_>,
        table: InputSectionTable,
        rows: Vec<Vec<Piece>>,
        link_layout: LinkLayout,
    ) -> Result<IndexedLayout, NoMemory>
        requires table { IsTableOf project.now table }
        requires rows { rows_in project.now rows.items ≡ model.rows project.now }
        ensures link_layout { IfOk result (λ x. x.link_layout ≡ link_layout) }
        ensures indexed_layout { IfOk result (λ x. (layout : Layout) → IsLinkLayout project.now layout x.link_layout
            → IsIndexedLayout project.now layout x) }
    {
        // for the prover: bring in these laws
        nothing_overlaps();
        placed_are_rows();
        once_in_rows();
        live_by_path();
        sections_of_objects();
        are_numbered(project);
        project.objects_are_named();
        let starts = link_layout.placement.pieces();
        let addresses = address_column(alloc, &table, &rows, starts)?;
        Ok(IndexedLayout {
            table,
            rows,
            link_layout,
            addresses,
        })
    }

    /// How many linked sections the objects before this one have, in all.
    pub fn linked_before(&self, object: ObjectPlace) -> Option<usize>
        ensures is { result ≡ linked_of self.now.table object.0 }
        ensures linked { (project : Project) (layout : Layout) → IsIndexedLayout project layout self.now
            → IfSome result (λ n. n ≡ linked_in (take object.0 project.objects)) }
    {
        self.table.linked_before(object)
    }

    /// Where the sections of an object stand, by their header numbers, as `find` says of each of them: that of a number
    /// without an address, or past the end of the list, is not in the output. The time is constant.
    pub fn addresses_of(&self, object: ObjectPlace) -> &[Option<SectionAddress>]
        ensures are { (number : SectionIndex) → slice_index_or result.now number.0 None
            ≡ address_in self.now (table_key object number) }
        ensures places { (project : Project) (layout : Layout) (number : SectionIndex)
            → IsIndexedLayout project layout self.now → IsSectionAddress project layout (table_key object number)
            (slice_index_or result.now number.0 None) }
    {
        let numbers = self.table.numbers_of(object);
        let end = numbers.end.min(self.addresses.len());
        match self.addresses.get(numbers.start..end) {
            Some(addresses) => addresses,
            None => &[],
        }
    }

    /// The address of the input section with this number, if it is in the output. The time is constant.
    #[inline]
    pub fn at(&self, id: SectionNumber) -> Option<SectionAddress>
        ensures { result ≡ address_under self.now id.0 }
    {
        self.addresses.get(id.0 as usize).copied().unwrap_or(None)
    }

    /// The address of a part of the object with this number, if it is in the output.
    #[inline]
    fn part(&self, object: usize, part: Part) -> Option<SectionAddress>
        ensures { result ≡ part_in self.now object part }
    {
        let id = self.table.find(ObjectPlace(object), part)?;
        self.at(id)
    }

    /// The address of an input section, if it is in the output. For a section the time is constant, for a common block
    /// it is logarithmic in the number of common blocks.
    #[inline]
    pub fn find(&self, section: SectionRef) -> Option<SectionAddress>
        ensures is { result ≡ address_in self.now section }
        ensures place { (project : Project) (layout : Layout) → IsIndexedLayout project layout self.now
            → IsSectionAddress project layout section result }
    {
        self.part(section.object.0, section.part)
    }
}
