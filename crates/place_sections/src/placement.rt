//! The result of layout, `Placement`, with its invariant and what others may read of it.

ghost use Rattle.std.specs.Prelude.{◌≡◌, List, slice_get};
ghost use Rattle.ldscript.specs.statements.declared.statement.Statement.{Statement};
ghost use Rattle.ldmodel.specs.Layout.{Layout};
ghost use Rattle.ldmodel.specs.PlacementView.{IsPlacementView};
ghost use Rattle.place_sections.specs.Leads.{Keeps};
ghost use Rattle.place_sections.specs.Places.{AreOf, Ends};

use crate::boundary::Boundary;
use crate::reusable_placement::ReusablePlacement;
use ldmodel::placed::{Placed, PlacedData, PlacedRegion, PlacementView};
use ldmodel::script_symbol::{DirectiveIndex, ScriptSymbol};
use place_terms::previous_layout::PreviousLayout;
use std::marker::Model;

/// The placement of a script: its output sections, their input sections and data commands with their addresses, `.`
/// before its statements, its symbols and memory regions. Only `place` makes one.
#[derive(Drop)]
pub struct Placement {
    pub(crate) sections: Vec<Placed>,
    pub(crate) counts: Vec<usize>,
    pub(crate) starts: Vec<u64>,
    pub(crate) data_commands: Vec<PlacedData>,
    pub(crate) dots: Vec<u64>,
    pub(crate) symbols: Vec<ScriptSymbol>,
    pub(crate) regions: Vec<PlacedRegion>,
    pub(crate) boundaries: Vec<Boundary>,
    pub(crate) provided: Vec<DirectiveIndex>,
}

impl Model for Placement {
    ghost use Rattle.place_sections.specs.Places.{Places};

    ghost Value = { Places };

    ghost use Rattle.place_sections.specs.Places.{Ends};

    ghost view = { λ p. record {
      sections = p.sections.items;
      counts = p.counts.items;
      starts = p.starts.items;
      data_commands =
          p.data_commands.items;
      dots = p.dots.items;
      symbols = p.symbols.items;
      regions = p.regions.items;
      boundaries = p.boundaries.items;
      provided = p.provided.items;
    } };

    ghost invariant = { λ p. Ends p.sections.items };
}

impl Placement {
    /// All of the placement, lent.
    pub fn view(&self) -> PlacementView<'_>
        ensures sections { result.sections.now ≡ self.now.sections }
        ensures starts { result.starts.now ≡ self.now.starts }
        ensures data_commands { result.data_commands.now ≡ self.now.data_commands }
        ensures dots { result.dots.now ≡ self.now.dots }
        ensures symbols { result.symbols.now ≡ self.now.symbols }
        ensures regions { result.regions.now ≡ self.now.regions }
        ensures ends { Ends result.sections.now }
        ensures placement { (script : List Statement) (layout : Layout) → AreOf script layout self.now
            → IsPlacementView script layout result }
    {
        PlacementView {
            sections: &self.sections,
            starts: &self.starts,
            data_commands: &self.data_commands,
            dots: &self.dots,
            symbols: &self.symbols,
            regions: &self.regions,
        }
    }

    /// The output sections, in the order of the script.
    pub fn sections(&self) -> &[Placed]
        ensures { result.now ≡ self.now.sections }
    {
        &self.sections
    }

    /// What is kept of the placement if the rows before a number are as they were, and these PROVIDEs are in force now.
    pub(crate) fn reusable(
        &self,
        first: usize,
        provided: &[DirectiveIndex],
    ) -> ReusablePlacement<'_>
        ensures { Keeps self.now first provided.now result }
    {
        ReusablePlacement {
            previous: PreviousLayout {
                sections: &self.sections,
                counts: &self.counts,
                starts: &self.starts,
                data_commands: &self.data_commands,
            },
            dots: &self.dots,
            symbols: &self.symbols,
            boundaries: &self.boundaries,
            first,
            same_provided: self.provided.as_slice() == provided,
        }
    }

    /// Where the input sections start, row by row.
    pub fn pieces(&self) -> &[u64]
        ensures { result.now ≡ self.now.starts }
    {
        &self.starts
    }

    /// `.` before a statement of SECTIONS or, right after an output section's own, of its body; they are numbered from
    /// 0.
    pub fn dot(&self, statement: usize) -> Option<u64>
        ensures { result ≡ slice_get self.now.dots statement }
    {
        self.dots.get(statement).copied()
    }

    /// The symbols that the script gives values, in the order of the text.
    pub fn symbols(&self) -> &[ScriptSymbol]
        ensures { result.now ≡ self.now.symbols }
    {
        &self.symbols
    }

    /// The memory regions, in the order of the text.
    pub fn regions(&self) -> &[PlacedRegion]
        ensures { result.now ≡ self.now.regions }
    {
        &self.regions
    }
}
