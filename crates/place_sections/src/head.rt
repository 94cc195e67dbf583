//! The head of an output section.

ghost use Rattle.std.specs.Prelude.{◌≡◌, ◌<◌, IfOk, Ok};
ghost use Rattle.std.specs.Int.{next_multiple_of};
ghost use Rattle.std.specs.Option.{option_copied, option_map_or};
ghost use Rattle.ldmodel.specs.Layout.{MemoryRegion, address, region_named};
ghost use Rattle.ldmodel.specs.Placement.{first_free, given, given_alignment, given_load, head_of, load_address};
ghost use Rattle.ldmodel.specs.Placement.{next_free, number_if_given, section_start, unstated_load, widest};
ghost use Rattle.place_terms.specs.Naming.{Naming, row_named};
ghost use Rattle.place_sections.specs.Heads.{given_of, head_from, Yields};
ghost use Rattle.place_sections.specs.State.{layout_of, outcome};

use crate::state::{LayoutCursor, PlacedOutputs};
use crate::stop::LayoutStop;
use ldmodel::rows::Piece;
use ldscript::tree::{Formula, Load, OutputSection};

/// The numbers that the expressions of a head give.
#[derive(Clone, Copy)]
pub(crate) struct GivenHead {
    address: Option<u64>,
    load: Option<u64>,
    alignment: u64,
}

/// The numbers of a head.
#[derive(Clone, Copy)]
pub(crate) struct Head {
    /// The alignment, which is not 0.
    pub alignment: u64,
    /// The first address.
    pub start: u64,
    /// Where the first byte is loaded.
    pub load: u64,
}

/// The alignment that a head gives, 1 if it gives none.
fn alignment_of<'a>(line: u32, number: Option<u64>) -> Result<u64, LayoutStop<'a>>
    ensures value { outcome result ≡ given_alignment line number }
    ensures positive { IfOk result (λ a. 0 < a) }
{
    match number {
        None => Ok(1),
        Some(alignment) => {
            if alignment.is_power_of_two() {
                Ok(alignment)
            } else {
                Err(LayoutStop::NoValue { line })
            }
        }
    }
}

/// The greatest of a number and the alignments of a row.
fn widest_of(alignment: u64, row: &[Piece]) -> u64
    ghost naming: { Naming }
    requires { 0 < alignment }
    ensures value { result ≡ widest alignment (row_named naming row.now) }
    ensures positive { 0 < result }
{
    let mut widest = alignment;
    for piece in row {
        widest = widest.max(piece.alignment.max(1));
    }
    widest
}

/// The region of `>region`.
pub(crate) fn region_name(section: &OutputSection) -> Option<&[u8]>
    ensures { option_copied result ≡ section.now.region }
{
    let name = section.region.as_ref()?;
    Some(name.as_bytes())
}

/// A multiple of the alignment, not below the number; it must be an address.
fn align<'a>(line: u32, number: u64, alignment: u64) -> Result<u64, LayoutStop<'a>>
    requires { 0 < alignment }
    ensures { outcome result ≡ address line (next_multiple_of number alignment) }
{
    match number.checked_next_multiple_of(alignment) {
        Some(start) => Ok(start),
        None => Err(LayoutStop::PastAddressSpace { line }),
    }
}

impl<'a> PlacedOutputs<'a> {
    /// The next free address of a region.
    fn next_free(&self, region: &[u8]) -> u64
        ensures { result ≡ option_map_or (λ (x : MemoryRegion). x.next) (region_named self.now.regions region.now) 0 }
    {
        match self.regions.get(region) {
            Some(region) => region.next,
            None => 0,
        }
    }
}

impl<'a> LayoutCursor<'a> {
    /// The number of an expression that may be absent.
    fn optional(
        &self,
        done: &PlacedOutputs<'a>,
        line: u32,
        formula: &'a Option<Formula>,
    ) -> Result<Option<u64>, LayoutStop<'a>>
        ghost naming: { Naming }
        ensures { outcome result ≡ number_if_given (layout_of naming self.now done.now) line formula.now }
    {
        match formula {
            Some(formula) => Ok(Some(self.formula(done, line, formula)?)),
            None => Ok(None),
        }
    }

    /// The number of `AT(e)`.
    fn loaded_at(
        &self,
        done: &PlacedOutputs<'a>,
        line: u32,
        load: &'a Load,
    ) -> Result<Option<u64>, LayoutStop<'a>>
        ghost naming: { Naming }
        ensures { outcome result ≡ number_if_given (layout_of naming self.now done.now) line (given_load load.now) }
    {
        match load {
            Load::At(formula) => Ok(Some(self.formula(done, line, formula)?)),
            Load::Unstated | Load::InRegion(_) => Ok(None),
        }
    }

    /// The expressions of a head, in the order of the text.
    #[tactic(auto, unfolding(ldmodel::specs::Placement::given))]
    fn given(
        &self,
        done: &PlacedOutputs<'a>,
        line: u32,
        section: &'a OutputSection,
    ) -> Result<GivenHead, LayoutStop<'a>>
        ghost naming: { Naming }
        ensures given { Yields given_of (given (layout_of naming self.now done.now) line section.now) result }
        ensures positive { IfOk result (λ g. 0 < g.alignment) }
    {
        let address = self.optional(done, line, &section.address)?;
        let load = self.loaded_at(done, line, &section.load)?;
        let alignment = self.optional(done, line, &section.alignment)?;
        let alignment = alignment_of(line, alignment)?;
        Ok(GivenHead {
            address,
            load,
            alignment,
        })
    }

    /// Where a section starts.
    #[tactic(auto, unfolding(ldmodel::specs::Placement::section_start))]
    fn start(
        &self,
        done: &PlacedOutputs<'a>,
        line: u32,
        section: &OutputSection,
        given: Option<u64>,
        alignment: u64,
    ) -> Result<u64, LayoutStop<'a>>
        ghost naming: { Naming }
        requires { 0 < alignment }
        ensures { outcome result
            ≡ section_start (layout_of naming self.now done.now) line section.now.region given alignment }
    {
        match given {
            Some(start) => Ok(start),
            None => match &section.region {
                Some(name) => align(line, done.next_free(name.as_bytes()), alignment),
                None => align(line, self.dot, alignment),
            },
        }
    }

    /// The load address without `AT(e)` or `AT>region`.
    #[tactic(auto, using(crate::proofs::Differences::difference_named))]
    fn unstated(
        &self,
        done: &PlacedOutputs<'a>,
        section: &OutputSection,
        given: Option<u64>,
        start: u64,
    ) -> u64
        ghost naming: { Naming }
        ensures { result ≡ unstated_load (layout_of naming self.now done.now) section.now.region given start }
    {
        match given {
            Some(_) => start,
            None => start.wrapping_sub(done.sections.difference(region_name(section))),
        }
    }

    /// Where a section is loaded.
    #[tactic(auto, unfolding(ldmodel::specs::Placement::load_address))]
    fn load(
        &self,
        done: &PlacedOutputs<'a>,
        line: u32,
        section: &OutputSection,
        given: GivenHead,
        alignment: u64,
        start: u64,
    ) -> Result<u64, LayoutStop<'a>>
        ghost naming: { Naming }
        requires { 0 < alignment }
        ensures { Yields (λ x.
            x) (load_address (layout_of naming self.now done.now) line section.now (given_of given) alignment start)
            result }
    {
        match &section.load {
            Load::InRegion(name) => align(line, done.next_free(name.as_bytes()), alignment),
            Load::Unstated | Load::At(_) => match given.load {
                Some(load) => Ok(load),
                None => Ok(self.unstated(done, section, given.address, start)),
            },
        }
    }

    /// The head of an output section.
    #[tactic(auto, unfolding(ldmodel::specs::Placement::head_of))]
    pub fn head(
        &self,
        done: &PlacedOutputs<'a>,
        row: &[Piece],
        line: u32,
        section: &'a OutputSection,
    ) -> Result<Head, LayoutStop<'a>>
        ghost naming: { Naming }
        ensures { Yields head_from
            (head_of (layout_of naming self.now done.now) (row_named naming row.now) line section.now) result }
    {
        let given = self.given(done, line, section)?;
        let alignment = widest_of(given.alignment, row);
        let start = self.start(done, line, section, given.address, alignment)?;
        let load = self.load(done, line, section, given, alignment, start)?;
        Ok(Head {
            alignment,
            start,
            load,
        })
    }
}
