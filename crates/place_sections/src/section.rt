//! Placing one output section: its head, its body, and its end.

ghost use Rattle.std.specs.Prelude.{◌≡◌, ◌≤◌, ◌<◌, ◌+◌, ◌^◌, [], length, OnOk, IfErr, IfNone, IfSome};
ghost use Rattle.ldmodel.specs.Placement.{body_step};
ghost use Rattle.ldmodel.specs.Chain.{run};
ghost use Rattle.ldmodel.specs.Placement.{opened, section_step};
ghost use Rattle.place_terms.specs.Naming.{Naming, row_named};
ghost use Rattle.place_terms.specs.Outputs.{IsOutput};
ghost use Rattle.place_sections.specs.Alongside.{BodyAlongside, SectionAlongside};
ghost use Rattle.place_sections.specs.Counted.{CountsAlong, PlacesAnew};
ghost use Rattle.place_sections.specs.Heads.{head_from};
ghost use Rattle.place_sections.specs.State.{body_from, layout_of, Gives};
ghost use Rattle.place_sections.specs.declared.stop.LayoutStop.TheVariants.{NoMemory};
ghost use Rattle.growth.specs.Memory.{no_memory};

use crate::head::Head;
use crate::state::{CurrentOutput, LayoutCursor, PlacedOutputs};
use crate::stop::LayoutStop;
use growth::vec;
use ldmodel::rows::Piece;
use ldmodel_laws::layout::steps_stay_alike;
use ldscript::tree::OutputSection;
use place_terms::provided::Provided;
use std::alloc::Global;

impl<'a> LayoutCursor<'a> {
    /// Begins to place an output section, of which this many input sections are expected. Fails if memory runs out.
    fn open(&mut self, alloc: Global, start: u64, count: usize) -> Result<(), LayoutStop<'a>>
        ensures dot { OnOk result (self.new.dot ≡ start) }
        ensures dots { OnOk result (self.new.dots.items ≡ self.old.dots.items) }
        ensures inputs { OnOk result (self.new.inputs ≡ self.old.inputs) }
        ensures symbols { self.new.symbols ≡ self.old.symbols }
        ensures pieces { OnOk result (self.new.pieces.items ≡ []) }
        ensures anew { self.new.anew ≡ self.old.anew }
        ensures data_commands { OnOk result (self.new.data_commands.items ≡ []) }
        ensures refused { IfErr result (λ f. f ≡ NoMemory no_memory) }
    {
        self.pieces = vec::with_capacity(alloc, count)?;
        self.dot = start;
        self.data_commands.clear();
        Ok(())
    }

    /// Places the body of an output section with this head.
    fn body(
        &mut self,
        alloc: Global,
        done: &PlacedOutputs<'a>,
        provided: &Provided<'a>,
        row: &'a [Piece],
        starts: Option<&'a [u64]>,
        head: Head,
        output: &'a OutputSection,
    ) -> Result<(), LayoutStop<'a>>
        ghost naming: { Naming }
        requires kept { IfSome starts (λ s.
            BodyAlongside s.now
            (opened (layout_of naming self.now done.now) (row_named naming row.now) (head_from head)) output.now.body) }
        requires room { self.now.inputs + 2 ^ 64 < 2 ^ 128 }
        ensures small { OnOk result (length output.now.body < 2 ^ 64) }
        ensures script { self.new.symbols.script ≡ self.old.symbols.script }
        ensures anew { self.new.anew ≤ self.old.anew + length row.now }
        ensures none { IfSome starts.entry (λ s. self.new.anew ≡ self.old.anew) }
        ensures all { OnOk result (IfNone starts.entry
            (CountsAlong self.old.anew self.new.anew 0 (length self.new.pieces.items))) }
        ensures gives { Gives
            (run (body_step provided.now)
            (opened (layout_of naming self.old done.now) (row_named naming row.now) (head_from head)) output.now.body)
            (body_from naming self.new done.now head.start row.now) result }
    {
        let frame = CurrentOutput {
            done,
            provided,
            row,
            starts,
            start: head.start,
        };
        self.open(alloc, head.start, row.len())?;
        frame.place_body(self, output.body.as_slice())?;
        Ok(())
    }

    /// Places an output section. `starts` are the addresses of its input sections, if they stay where they were.
    #[tactic(auto, unfolding(ldmodel::specs::Placement::section_step), using(crate::proofs::Ending::end_alone))]
    pub fn place_section(
        &mut self,
        alloc: Global,
        done: &mut PlacedOutputs<'a>,
        provided: &Provided<'a>,
        row: &'a [Piece],
        starts: Option<&'a [u64]>,
        line: u32,
        output: &'a OutputSection,
    ) -> Result<(), LayoutStop<'a>>
        ghost naming: { Naming }
        requires next { IsOutput done.now.sections.script (length done.now.sections.list) output.now }
        requires kept { IfSome starts (λ s.
            SectionAlongside (row_named naming row.now) (layout_of naming self.now done.now) line output.now s.now) }
        requires room { self.now.inputs + 2 ^ 64 < 2 ^ 128 }
        ensures small { OnOk result (length output.now.body < 2 ^ 64) }
        ensures script { self.new.symbols.script ≡ self.old.symbols.script }
        ensures outputs { done.new.sections.script ≡ done.old.sections.script }
        ensures anew { self.new.anew ≤ self.old.anew + length row.now }
        ensures none { IfSome starts.entry (λ s. self.new.anew ≡ self.old.anew) }
        ensures all { OnOk result (IfNone starts.entry
            (PlacesAnew self.old self.new done.old.sections.list done.new.sections.list)) }
        ensures one { OnOk result (length done.new.sections.list ≡ length done.old.sections.list + 1) }
        ensures gives { Gives
            (section_step provided.now (row_named naming row.now) (layout_of naming self.old done.old) line output.now)
            (layout_of naming self.new done.new) result }
    {
        // for the prover: brings in this law
        steps_stay_alike();
        let head = self.head(done, row, line, output)?;
        self.body(alloc, done, provided, row, starts, head, output)?;
        self.end(alloc, done, line, output, head)?;
        Ok(())
    }
}
