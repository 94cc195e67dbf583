//! The statements of a script.

ghost use Rattle.std.specs.Prelude.{◌≡◌, ◌≤◌, ◌<◌, ◌+◌, [], length, map, OnOk, IfOk, false, true};
ghost use Rattle.ldscript.specs.Script.{IsSound};
ghost use Rattle.ldmodel.specs.Chain.{run};
ghost use Rattle.ldmodel.specs.Placement.{statement_step};
ghost use Rattle.place_terms.specs.PreviousLayout.{earlier_of};
ghost use Rattle.place_terms.specs.Naming.{Naming};
ghost use Rattle.place_terms.specs.Wholes.{counts_in};
ghost use Rattle.place_sections.specs.Alongside.{ScriptAlongside};
ghost use Rattle.place_sections.specs.Boundaries.{AreBoundariesOf};
ghost use Rattle.place_sections.specs.Counted.{CountsAlong, entries, placed_from};
ghost use Rattle.place_sections.specs.PreviousPlacement.{EarlierScript};
ghost use Rattle.place_sections.specs.Inputs.{rows_of};
ghost use Rattle.place_sections.specs.Parts.{AreOutside, IsOutside};
ghost use Rattle.place_sections.specs.State.{layout_of, Gives};

use crate::boundary::Boundary;
use crate::parts::ScriptParts;
use crate::reusable_placement::ReusablePlacement;
use crate::state::{LayoutCursor, PlacedOutputs};
use crate::stop::LayoutStop;
use ldmodel::rows::Piece;
use ldmodel_laws::layout::steps_stay_alike;
use ldscript::tree::{Command, Statement};
use place_terms::provided::Provided;
use std::alloc::Global;

/// What a layout is made from, beside the script.
#[derive(Clone, Copy)]
pub(crate) struct Input<'i, 'a> {
    /// Where memory comes from.
    pub alloc: Global,
    /// The PROVIDEs that are in force.
    pub provided: &'i Provided<'a>,
    /// The rows of the output sections.
    pub rows: &'a [Vec<Piece>],
    /// What is kept of a previous layout.
    pub kept: ReusablePlacement<'a>,
}

impl<'i, 'a> Input<'i, 'a> {
    /// A statement outside SECTIONS.
    #[tactic(auto, unfolding(ldmodel::specs::Placement::command_step))]
    fn place_statement(
        &self,
        here: &mut LayoutCursor<'a>,
        done: &mut PlacedOutputs<'a>,
        statement: &'a Statement,
    ) -> Result<(), LayoutStop<'a>>
        ghost naming: { Naming }
        requires { IsOutside statement.now.command }
        ensures script { here.new.symbols.script ≡ here.old.symbols.script }
        ensures anew { here.new.anew ≡ here.old.anew }
        ensures sections { done.new.sections ≡ done.old.sections }
        ensures gives { Gives
            (statement_step (rows_of naming self.now) self.now.provided.now (layout_of naming here.old done.old)
            statement.now) (layout_of naming here.new done.new) result }
    {
        match &statement.command {
            Command::Entry(_) => Ok(()),
            Command::Memory(regions) => here.declare_all(done, regions.as_slice()),
            Command::Sections(_) => unreachable!(),
            Command::Directive(command) => {
                here.directive(done, self.provided, statement.line, command)
            }
        }
    }

    /// The statements before SECTIONS, or those after it.
    #[tactic(auto, unfolding(ldmodel::specs::Chain::run))]
    fn place_statements(
        &self,
        here: &mut LayoutCursor<'a>,
        done: &mut PlacedOutputs<'a>,
        statements: &'a [Statement],
    ) -> Result<(), LayoutStop<'a>>
        ghost naming: { Naming }
        requires { AreOutside statements.now }
        ensures script { here.new.symbols.script ≡ here.old.symbols.script }
        ensures anew { here.new.anew ≡ here.old.anew }
        ensures sections { done.new.sections ≡ done.old.sections }
        ensures gives { Gives
            (run (statement_step (rows_of naming self.now) self.now.provided.now) (layout_of naming here.old done.old)
            statements.now) (layout_of naming here.new done.new) result }
    {
        for statement in statements {
            self.place_statement(here, done, statement)?;
        }
        Ok(())
    }

    /// All statements of a script: those before SECTIONS, those of it, and those after it. Returns the state of the
    /// layout before each output section, and after the last statement of SECTIONS.
    pub fn place_script(
        &self,
        here: &mut LayoutCursor<'a>,
        done: &mut PlacedOutputs<'a>,
        statements: &'a [Statement],
    ) -> Result<Vec<Boundary>, LayoutStop<'a>>
        ghost naming: { Naming }
        requires none { done.now.sections.list ≡ [] }
        requires placed { done.now.sections.placed ≡ 0 }
        requires all { done.now.sections.script ≡ statements.now }
        requires kept { done.now.sections.earlier ≡ earlier_of self.now.kept.previous }
        requires earlier { self.now.kept.same_provided ≡ true → 0 < self.now.kept.first
            → EarlierScript naming self.now here.now.symbols.script
            (layout_of naming here.now done.now) statements.now }
        requires alongside { self.now.kept.same_provided ≡ false → 0 < self.now.kept.first
            → ScriptAlongside naming self.now here.now.symbols.script (layout_of naming here.now done.now)
            statements.now }
        requires sound { IsSound statements.now }
        requires begun { here.now.inputs ≡ 0 }
        ensures script { here.new.symbols.script ≡ here.old.symbols.script }
        ensures anew { here.new.anew ≤ here.old.anew + entries 0 (map (λ v. v.items) self.now.rows.now) }
        ensures resumed { OnOk result (here.new.anew ≤ here.old.anew
            + entries self.now.kept.first (map (λ v. v.items) self.now.rows.now)) }
        ensures added { OnOk result (CountsAlong here.old.anew here.new.anew 0
            (placed_from self.now.kept.first (counts_in done.new.sections.list))) }
        ensures gives { Gives
            (run (statement_step (rows_of naming self.now) self.now.provided.now) (layout_of naming here.old done.old)
            statements.now) (layout_of naming here.new done.new) result }
        ensures boundaries { IfOk result (λ bs.
            AreBoundariesOf (rows_of naming self.now) self.now.provided.now (layout_of naming here.old done.old)
            statements.now bs.items) }
        ensures many { IfOk result (λ bs. length bs.items ≡ length done.new.sections.list + 1) }
    {
        // for the prover: brings in this law
        steps_stay_alike();
        let parts = ScriptParts::of(statements);
        self.place_statements(here, done, parts.before)?;
        let boundaries = self.place_items(here, done, parts.items)?;
        self.place_statements(here, done, parts.after)?;
        Ok(boundaries)
    }
}
