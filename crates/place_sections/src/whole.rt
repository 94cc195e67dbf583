//! The end of a layout: the `Placement` that is made of the cursor and the output sections.

ghost use Rattle.std.specs.Prelude.{◌≡◌, IfOk};
ghost use Rattle.place_terms.specs.Naming.{Naming};
ghost use Rattle.place_sections.specs.Places.{AreOf};
ghost use Rattle.place_sections.specs.State.{layout_of};

use crate::boundary::Boundary;
use crate::placement::Placement;
use crate::state::{LayoutCursor, PlacedOutputs};
use growth::{NoMemory, vec};
use ldmodel::script_symbol::DirectiveIndex;
use place_terms::wholes::{counts_of, data_commands_of, numbers_of, regions_of, starts_of};
use std::alloc::Global;

/// A whole layout, with its state before each output section and after all, and the PROVIDEs that were in force.
#[tactic(auto, using(crate::proofs::Wholes::placed_whole, crate::proofs::Wholes::counts_whole, crate::proofs::Wholes::starts_whole, crate::proofs::Wholes::data_whole))]
pub(crate) fn whole(
    alloc: Global,
    here: LayoutCursor<'_>,
    done: &PlacedOutputs<'_>,
    boundaries: Vec<Boundary>,
    provided: &[DirectiveIndex],
) -> Result<Placement, NoMemory>
    ghost naming: { Naming }
    ensures places { IfOk result (λ p. AreOf here.entry.symbols.script (layout_of naming here.entry done.now) p) }
    ensures boundaries { IfOk result (λ p. p.boundaries ≡ boundaries.items) }
    ensures provided { IfOk result (λ p. p.provided ≡ provided.now) }
{
    let parts = done.sections.parts();
    let sections = numbers_of(alloc, parts)?;
    let counts = counts_of(alloc, parts)?;
    let starts = starts_of(alloc, done.sections.count(), parts)?;
    let data_commands = data_commands_of(alloc, parts)?;
    let regions = regions_of(alloc, done.regions.as_slice())?;
    let provided = vec::to_vec(provided, alloc)?;
    Ok(Placement {
        sections,
        counts,
        starts,
        data_commands,
        dots: here.dots,
        symbols: here.symbols.into_list(),
        regions,
        boundaries,
        provided,
    })
}
