//! The statements of SECTIONS.

ghost use Rattle.std.specs.Prelude.{◌≡◌, ◌≤◌, ◌<◌, ◌+◌, ◌*◌, ◌^◌, [], map, slice_index_or, length, IfErr, IfOk, OnOk};
ghost use Rattle.std.specs.Prelude.{IfNone, IfSome, false, true};
ghost use Rattle.std.specs.Prelude.{if◌then◌else◌};
ghost use Rattle.ldscript.specs.statements.Numbering.{item_sections};
ghost use Rattle.ldmodel.specs.Chain.{run};
ghost use Rattle.ldmodel.specs.Layout.{noted};
ghost use Rattle.ldmodel.specs.Placement.{free_dot_step, item_command_step, item_step};
ghost use Rattle.place_terms.specs.PreviousLayout.{earlier_of, AreStartsOf};
ghost use Rattle.place_terms.specs.Naming.{Naming};
ghost use Rattle.place_terms.specs.Wholes.{counts_in, starts_in};
ghost use Rattle.place_sections.specs.Alongside.{HasKept, IfSection, IsAlongside, ItemsAlongside};
ghost use Rattle.place_sections.specs.Boundaries.{AreBoundaries, IsAt};
ghost use Rattle.place_sections.specs.Counted.{Adds, CountsAlong, Resumes, entries, placed_from};
ghost use Rattle.place_sections.specs.PreviousPlacement.{PreviousPlacement};
ghost use Rattle.place_sections.specs.Inputs.{inputs_at_most, rows_of};
ghost use Rattle.place_sections.specs.Next.{AreFirst, IsNext};
ghost use Rattle.place_sections.specs.State.{layout_of, Gives};
ghost use Rattle.place_sections.specs.declared.stop.LayoutStop.TheVariants.{NoMemory};

use crate::boundary::Boundary;
use crate::script::Input;
use crate::state::{LayoutCursor, PlacedOutputs};
use crate::stop::LayoutStop;
use growth::vec;
use ldmodel::rows::Piece;
use ldmodel_laws::layout::steps_stay_alike;
use ldscript::tree::{DotCommand, Item, ItemCommand};

/// The row of the output section of a number.
pub(crate) fn row_at(rows: &[Vec<Piece>], section: usize) -> &[Piece]
    ensures { result.now ≡ slice_index_or (map (λ v. v.items) rows.now) section [] }
{
    match rows.get(section) {
        Some(row) => row,
        None => &[],
    }
}

/// Whether a statement of SECTIONS is an output section.
fn is_output(item: &Item) -> bool
    ensures { length (item_sections item.now.line item.now.command) ≡ (if result then 1 else 0) }
{
    matches!(&item.command, ItemCommand::Section(_))
}

impl<'a> LayoutCursor<'a> {
    /// `. = e` and `. += e` outside output sections.
    fn move_freely(
        &mut self,
        done: &PlacedOutputs<'a>,
        line: u32,
        command: &'a DotCommand,
    ) -> Result<(), LayoutStop<'a>>
        ghost naming: { Naming }
        ensures anew { self.new.anew ≡ self.old.anew }
        ensures script { self.new.symbols.script ≡ self.old.symbols.script }
        ensures gives { Gives (free_dot_step (layout_of naming self.old done.now) line command.now)
            (layout_of naming self.new done.now) result }
    {
        match command {
            DotCommand::Set(to) => {
                self.dot = self.formula(done, line, to)?;
                Ok(())
            }
            DotCommand::Add(by) => {
                let by = self.formula(done, line, by)?;
                self.dot = self.dot.wrapping_add(by);
                Ok(())
            }
        }
    }

    /// The state of the layout, after this many statements of SECTIONS.
    fn boundary(&self, done: &PlacedOutputs<'a>, items: usize) -> Boundary
        ghost naming: { Naming }
        requires { self.now.inputs ≤ items * 2 ^ 64 }
        ensures items { result.items ≡ items }
        ensures at { IsAt result (layout_of naming self.now done.now) }
    {
        Boundary {
            items,
            dot: self.dot,
            dots: self.dots.len(),
            inputs: self.inputs,
            symbols: self.symbols.len(),
            data_commands: done.sections.data_count(),
        }
    }
}

impl<'i, 'a> Input<'i, 'a> {
    /// Where the input sections of the next output section start, if its row is as it was in a previous layout.
    fn kept_starts(&self, done: &PlacedOutputs<'a>) -> Option<&'a [u64]>
        requires { HasKept self.now done.now.sections.list }
        ensures first { IfSome result (λ _. length done.now.sections.list < self.now.kept.first) }
        ensures past { IfNone result (self.now.kept.first ≤ length done.now.sections.list) }
        ensures other { IfSome result (λ _. self.now.kept.same_provided ≡ false) }
        ensures starts { IfSome result (λ s.
            AreStartsOf self.now.kept.previous (length done.now.sections.list)
            (length (starts_in done.now.sections.list))
            s.now) }
    {
        let number = done.sections.len();
        if number >= self.kept.first {
            return None;
        }
        self.kept.previous.starts_of(number, done.sections.count())
    }

    #[tactic(auto, unfolding(ldmodel::specs::Placement::item_command_step), using(crate::proofs::Rows::next_row_is, crate::proofs::Counting::entries_more))]
    fn place_command(
        &self,
        here: &mut LayoutCursor<'a>,
        done: &mut PlacedOutputs<'a>,
        line: u32,
        command: &'a ItemCommand,
    ) -> Result<(), LayoutStop<'a>>
        ghost naming: { Naming }
        requires next { IsNext done.now.sections.script (length done.now.sections.list) command.now }
        requires kept { IsAlongside naming self.now (layout_of naming here.now done.now) done.now.sections.list line
            command.now }
        requires there { IfSection command.now (HasKept self.now done.now.sections.list) }
        requires room { here.now.inputs + 2 ^ 64 < 2 ^ 128 }
        ensures small { OnOk result (inputs_at_most command.now < 2 ^ 64) }
        ensures script { here.new.symbols.script ≡ here.old.symbols.script }
        ensures anew { here.new.anew ≤ here.old.anew + entries (length done.old.sections.list)
            (map (λ v. v.items) self.now.rows.now) }
        ensures left { OnOk result
            (here.new.anew + entries (length done.new.sections.list) (map (λ v. v.items) self.now.rows.now)
            ≤ here.old.anew + entries (length done.old.sections.list) (map (λ v. v.items) self.now.rows.now)) }
        ensures resumed { OnOk result
            (Resumes self.now here.old here.new done.old.sections.list done.new.sections.list) }
        ensures added { OnOk result
            (Adds self.now here.old here.new done.old.sections.list done.new.sections.list) }
        ensures outputs { done.new.sections.script ≡ done.old.sections.script }
        ensures gives { Gives
            (item_command_step (rows_of naming self.now) self.now.provided.now line
            (layout_of naming here.old done.old) command.now) (layout_of naming here.new done.new) result }
    {
        match command {
            ItemCommand::Dot(command) => here.move_freely(done, line, command),
            ItemCommand::Directive(command) => here.directive(done, self.provided, line, command),
            ItemCommand::Section(output) => {
                let starts = self.kept_starts(done);
                let row = row_at(self.rows, done.sections.len());
                let output = output.get();
                here.place_section(self.alloc, done, self.provided, row, starts, line, output)
            }
            ItemCommand::Discard(inputs) => {
                here.inputs += inputs.as_slice().len() as u128;
                Ok(())
            }
        }
    }

    /// A statement of SECTIONS.
    fn place_item(
        &self,
        here: &mut LayoutCursor<'a>,
        done: &mut PlacedOutputs<'a>,
        item: &'a Item,
    ) -> Result<(), LayoutStop<'a>>
        ghost naming: { Naming }
        requires next { IsNext done.now.sections.script (length done.now.sections.list) item.now.command }
        requires kept { IsAlongside naming self.now (noted (layout_of naming here.now done.now))
            done.now.sections.list item.now.line item.now.command }
        requires there { IfSection item.now.command (HasKept self.now done.now.sections.list) }
        requires room { here.now.inputs + 2 ^ 64 < 2 ^ 128 }
        ensures small { OnOk result (inputs_at_most item.now.command < 2 ^ 64) }
        ensures script { here.new.symbols.script ≡ here.old.symbols.script }
        ensures anew { here.new.anew ≤ here.old.anew + entries (length done.old.sections.list)
            (map (λ v. v.items) self.now.rows.now) }
        ensures left { OnOk result
            (here.new.anew + entries (length done.new.sections.list) (map (λ v. v.items) self.now.rows.now)
            ≤ here.old.anew + entries (length done.old.sections.list) (map (λ v. v.items) self.now.rows.now)) }
        ensures resumed { OnOk result
            (Resumes self.now here.old here.new done.old.sections.list done.new.sections.list) }
        ensures added { OnOk result
            (Adds self.now here.old here.new done.old.sections.list done.new.sections.list) }
        ensures outputs { done.new.sections.script ≡ done.old.sections.script }
        ensures gives { Gives
            (item_step (rows_of naming self.now) self.now.provided.now (layout_of naming here.old done.old) item.now)
            (layout_of naming here.new done.new) result }
    {
        vec::push(&mut here.dots, here.dot)?;
        self.place_command(here, done, item.line, &item.command)
    }

    /// The statements of SECTIONS, of which the first ones may be taken over. Returns the state of the layout before
    /// each output section, and after all.
    pub fn place_items(
        &self,
        here: &mut LayoutCursor<'a>,
        done: &mut PlacedOutputs<'a>,
        items: &'a [Item],
    ) -> Result<Vec<Boundary>, LayoutStop<'a>>
        ghost naming: { Naming }
        requires none { done.now.sections.list ≡ [] }
        requires placed { done.now.sections.placed ≡ 0 }
        requires first { AreFirst done.now.sections.script items.now }
        requires kept { done.now.sections.earlier ≡ earlier_of self.now.kept.previous }
        requires earlier { self.now.kept.same_provided ≡ true → 0 < self.now.kept.first
            → PreviousPlacement naming self.now here.now.symbols.script (layout_of naming here.now done.now) items.now }
        requires alongside { self.now.kept.same_provided ≡ false → 0 < self.now.kept.first
            → ItemsAlongside naming self.now here.now.symbols.script (layout_of naming here.now done.now) items.now }
        requires begun { here.now.inputs ≡ 0 }
        ensures script { here.new.symbols.script ≡ here.old.symbols.script }
        ensures anew { here.new.anew ≤ here.old.anew + entries 0 (map (λ v. v.items) self.now.rows.now) }
        ensures resumed { OnOk result (here.new.anew ≤ here.old.anew
            + entries self.now.kept.first (map (λ v. v.items) self.now.rows.now)) }
        ensures added { OnOk result (CountsAlong here.old.anew here.new.anew 0
            (placed_from self.now.kept.first (counts_in done.new.sections.list))) }
        ensures gives { Gives
            (run (item_step (rows_of naming self.now) self.now.provided.now) (layout_of naming here.old done.old)
            items.now) (layout_of naming here.new done.new) result }
        ensures boundaries { IfOk result (λ bs.
            AreBoundaries (rows_of naming self.now) self.now.provided.now (layout_of naming here.old done.old)
            items.now bs.items) }
        ensures many { IfOk result (λ bs. length bs.items ≡ length done.new.sections.list + 1) }
    {
        // for the prover: brings in this law
        steps_stay_alike();
        let resumed = self.resume(here, done, items)?;
        let mut boundaries = resumed.boundaries;
        for number in resumed.passed..items.len() {
            let item = &items[number];
            if is_output(item) {
                vec::push(&mut boundaries, here.boundary(done, number))?;
            }
            self.place_item(here, done, item)?;
        }
        vec::push(&mut boundaries, here.boundary(done, items.len()))?;
        Ok(boundaries)
    }
}
