//! Output sections that are taken over from a previous layout.

ghost use Rattle.std.specs.Prelude.{◌≡◌, ◌≤◌, ◌<◌, ◌*◌, ◌-◌, ◌^◌, min, [], length, take, false, true};
ghost use Rattle.std.specs.Prelude.{IfOk, IfErr, OnOk, Ok};
ghost use Rattle.ldmodel.specs.Chain.{run};
ghost use Rattle.ldmodel.specs.Placement.{item_step};
ghost use Rattle.place_terms.specs.PreviousLayout.{earlier_of};
ghost use Rattle.place_terms.specs.Naming.{Naming};
ghost use Rattle.place_terms.specs.LayoutSymbols.{AreFound, Rises};
ghost use Rattle.place_sections.specs.Boundaries.{AreNoted, sections_at};
ghost use Rattle.place_sections.specs.PreviousPlacement.{PreviousPlacement};
ghost use Rattle.place_sections.specs.Inputs.{rows_of};
ghost use Rattle.place_sections.specs.State.{layout_of};
ghost use Rattle.place_sections.specs.Next.{AreFirst, IsNextAt};
ghost use Rattle.place_sections.specs.Taken.{IsSection, MayBeTaken, Takes};
ghost use Rattle.place_sections.specs.declared.stop.LayoutStop.TheVariants.{NoMemory as OutOfMemory};
ghost use Rattle.growth.specs.Memory.{no_memory};

use crate::boundary::Boundary;
use crate::end::{free, load_region_name};
use crate::head::region_name;
use crate::items::row_at;
use crate::reusable_placement::ReusablePlacement;
use crate::script::Input;
use crate::state::{LayoutCursor, PlacedOutputs};
use crate::stop::LayoutStop;
use growth::{NoMemory, vec};
use ldscript::tree::{Item, ItemCommand, OutputSection};
use place_terms::previous_layout::first;
use std::alloc::Global;

/// What is taken over of SECTIONS.
#[derive(Drop)]
pub(crate) struct Resumed {
    /// How many statements of SECTIONS, from the first on.
    pub passed: usize,
    /// The state of the layout before each output section among these.
    pub boundaries: Vec<Boundary>,
}

impl<'a> LayoutCursor<'a> {
    /// Takes over the state at a boundary of a previous layout. Fails if memory runs out.
    fn go_on(&mut self, kept: ReusablePlacement<'_>, to: Boundary) -> Result<(), LayoutStop<'a>>
        requires found { AreFound self.now.symbols.script kept.symbols.now }
        requires rises { Rises kept.symbols.now }
        ensures dot { OnOk result (self.new.dot ≡ to.dot) }
        ensures dots { OnOk result (self.new.dots.items ≡ take to.dots kept.entry.dots.now) }
        ensures inputs { OnOk result (self.new.inputs ≡ to.inputs) }
        ensures symbols { OnOk result (self.new.symbols.list ≡ take to.symbols kept.entry.symbols.now) }
        ensures script { self.new.symbols.script ≡ self.old.symbols.script }
        ensures anew { self.new.anew ≡ self.old.anew }
        ensures refused { IfErr result (λ f. f ≡ OutOfMemory no_memory) }
    {
        self.dots.clear();
        vec::extend_from_slice(&mut self.dots, first(kept.dots, to.dots))?;
        self.symbols.take_over(kept.symbols, to.symbols)?;
        self.inputs = to.inputs;
        self.dot = to.dot;
        Ok(())
    }
}

/// The output section that the statement at a place is.
fn output_at(items: &[Item], place: usize) -> &OutputSection
    requires { length (sections_at items.now place) ≡ 1 }
    ensures { IsSection items.now place result.now }
{
    match &items[place].command {
        ItemCommand::Section(output) => output.get(),
        ItemCommand::Dot(_) | ItemCommand::Directive(_) | ItemCommand::Discard(_) => unreachable!(),
    }
}

/// The first `count` of these boundaries, in a list with room for all.
fn copy_of(alloc: Global, boundaries: &[Boundary], count: usize) -> Result<Vec<Boundary>, NoMemory>
    ensures { IfOk result (λ v. v.items ≡ take count boundaries.now) }
{
    let mut list = vec::with_capacity(alloc, boundaries.len())?;
    vec::extend_from_slice(&mut list, first(boundaries, count))?;
    Ok(list)
}

impl<'i, 'a> Input<'i, 'a> {
    /// The output section at a boundary, as it was in the previous layout: the next one after these. Its data commands
    /// end at the next boundary.
    fn take_section(
        &self,
        done: &mut PlacedOutputs<'a>,
        items: &'a [Item],
        at: Boundary,
        next: Boundary,
    ) -> Result<(), LayoutStop<'a>>
        requires next { IsNextAt done.now.sections.script (length done.now.sections.list) items.now at.items }
        requires kept { done.now.sections.earlier ≡ earlier_of self.now.kept.previous }
        requires there { MayBeTaken self.now items.now at next done.now }
        ensures takes { OnOk result (Takes self.now items.now at next done.old done.new) }
        ensures outputs { done.new.sections.script ≡ done.old.sections.script }
        ensures kept { done.new.sections.earlier ≡ done.old.sections.earlier }
        ensures placed { done.new.sections.placed ≡ done.old.sections.placed }
        ensures refused { IfErr result (λ f. f ≡ OutOfMemory no_memory) }
    {
        let output = output_at(items, at.items);
        let number = done.sections.len();
        let placed = self.kept.previous.sections[number];
        let end = placed.start + placed.size;
        let load_end = placed.load + placed.load_size;
        free(&mut done.regions, region_name(output), end);
        free(&mut done.regions, load_region_name(output), load_end);
        let row = row_at(self.rows, number);
        done.sections.take(output, row, next.data_commands)?;
        Ok(())
    }

    /// Takes over the output sections before the first whose row differs, with all statements of SECTIONS up to that
    /// one; none of them if other PROVIDEs were in force.
    ///
    /// # Errors
    ///
    /// If memory runs out.
    pub fn resume(
        &self,
        here: &mut LayoutCursor<'a>,
        done: &mut PlacedOutputs<'a>,
        items: &'a [Item],
    ) -> Result<Resumed, LayoutStop<'a>>
        ghost naming: { Naming }
        requires none { done.now.sections.list ≡ [] }
        requires placed { done.now.sections.placed ≡ 0 }
        requires first { AreFirst done.now.sections.script items.now }
        requires kept { done.now.sections.earlier ≡ earlier_of self.now.kept.previous }
        requires earlier { self.now.kept.same_provided ≡ true → 0 < self.now.kept.first
            → PreviousPlacement naming self.now here.now.symbols.script (layout_of naming here.now done.now) items.now }
        requires begun { here.now.inputs ≡ 0 }
        ensures inputs { IfOk result (λ r. here.new.inputs ≤ r.passed * 2 ^ 64) }
        ensures within { IfOk result (λ r. r.passed ≤ length items.now) }
        ensures script { here.new.symbols.script ≡ here.old.symbols.script }
        ensures outputs { done.new.sections.script ≡ done.old.sections.script }
        ensures anew { here.new.anew ≡ here.old.anew }
        ensures few { OnOk result (length done.new.sections.list ≤ self.now.kept.first) }
        ensures all { OnOk result (self.now.kept.same_provided ≡ true
            → min self.now.kept.first (length self.now.kept.boundaries.now - 1) ≤ length done.new.sections.list) }
        ensures here { IfOk result (λ r.
            run (item_step (rows_of naming self.now) self.now.provided.now) (layout_of naming here.old done.old)
            (take r.passed items.now) ≡ Ok (layout_of naming here.new done.new)) }
        ensures none { IfOk result (λ r. self.now.kept.same_provided ≡ false → (r.passed ≡ 0)
            × (here.new ≡ here.old) × (done.new ≡ done.old)) }
        ensures noted { IfOk result (λ r.
            AreNoted (rows_of naming self.now) self.now.provided.now (layout_of naming here.old done.old) items.now
            r.boundaries.items (length done.new.sections.list)) }
        ensures refused { IfErr result (λ f. f ≡ OutOfMemory no_memory) }
    {
        let Some(count) = self.kept.count() else {
            return Ok(Resumed {
                passed: 0,
                boundaries: Vec::new(self.alloc),
            });
        };
        let boundaries = self.kept.boundaries;
        for number in 0..count {
            self.take_section(done, items, boundaries[number], boundaries[number + 1])?;
        }
        let to = boundaries[count];
        here.go_on(self.kept, to)?;
        Ok(Resumed {
            passed: to.items,
            boundaries: copy_of(self.alloc, boundaries, count)?,
        })
    }
}
