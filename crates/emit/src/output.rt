//! Output sections with all that is drawn of them.

ghost use Rattle.std.specs.Prelude.{◌≡◌, ◌<◌, ◌≤◌, ◌%◌, Bool, ℕ, IfNone, IfOk, IfSome, List, length};
ghost use Rattle.std.specs.Prelude.{map, slice_index};
ghost use Rattle.std.specs.List.{AllZip};
ghost use Rattle.std.specs.Vec.{vec_items};
ghost use Rattle.place.specs.LinkLayout.{IsLinkLayout};
ghost use Rattle.ldmodel.specs.Image.{fill_byte};
ghost use Rattle.ldmodel.specs.Layout.{Layout, PlacedOutput};
ghost use Rattle.ldmodel.specs.Project.{Project};
ghost use Rattle.ldmodel.specs.declared.sections.SectionRef.{SectionRef};
ghost use Rattle.ldscript.specs.statements.Numbered.{shown_sections};
ghost use Rattle.emit.specs.Joined.{AreJoined, IsAt};
ghost use Rattle.emit.specs.Output.{IsJoinedRow, IsOutput};

use crate::data_runs::data_runs;
use emit_image::section::ImagePiece;
use growth::{NoMemory, vec};
use ldmodel::placed::{Placed, PlacedData};
use ldmodel_laws::layout::layout_by_effects;
use ldmodel_project::view::ProjectView;
use ldscript::tree::{OutputSection, OutputSectionAt};
use place::LinkLayout;
use place::sections::law::outputs_are_of_script;
use std::alloc::Global;

/// An output section, with all that is drawn of it.
#[derive(Clone, Copy)]
pub(crate) struct OutputDrawing<'a> {
    /// The name.
    pub(crate) name: &'a [u8],
    /// What its gaps are filled with, over and over: 1 to 8 bytes; one zero byte where the script says nothing.
    pub(crate) fill: &'a [u8],
    /// The place in memory.
    pub(crate) placed: Placed,
    /// Where it begins in the file; 0 if its size is 0.
    pub(crate) offset: u128,
    /// The input sections, in their order, of which those that stay are joined where no gap lies between.
    pub(crate) pieces: &'a [ImagePiece<'a>],
    /// The data commands, in their order.
    pub(crate) data_commands: &'a [PlacedData],
}

/// What gaps are filled with where the script says nothing.
const NO_FILL: [u8; 1] = [0];

/// What the gaps of an output section are filled with.
fn fill_of(section: &OutputSection) -> &[u8]
    ensures fill { (i : ℕ) → slice_index result.now (i % length result.now) ≡ fill_byte section.now.fill i }
    ensures some { 0 < length result.now }
    ensures few { length result.now ≤ 8 }
{
    match &section.fill {
        Some(fill) => fill.as_bytes(),
        None => &NO_FILL,
    }
}

/// Entry `number` of each list, put together as an output section; `None` if a list is too short.
fn output_at<'a>(
    number: usize,
    placed: &Placed,
    sections: &[OutputSectionAt<'a>],
    offsets: &[u128],
    pieces: &'a [Vec<ImagePiece<'a>>],
    runs: &[&'a [PlacedData]],
) -> Option<OutputDrawing<'a>>
    ensures some { IfSome result (λ x. (project : Project) (layout : Layout) (stays : SectionRef → Bool)
        (output : PlacedOutput)
        → IsAt project layout stays output number placed.now (shown_sections sections.now) offsets.now
        (map vec_items pieces.now)
        (map (λ run. run.now) runs.now) → IsOutput project layout stays output x) }
    ensures none { IfNone result (number < length sections.now → number < length offsets.now
        → number < length pieces.now → number < length runs.now → ⊥) }
{
    let at = sections.get(number)?;
    let offset = *offsets.get(number)?;
    let row = pieces.get(number)?;
    let run = *runs.get(number)?;
    let section = at.section;
    Some(OutputDrawing {
        name: section.name.as_bytes(),
        fill: fill_of(section),
        placed: *placed,
        offset,
        pieces: row.as_slice(),
        data_commands: run,
    })
}

/// The output sections made of the entries of these lists, as many as the shortest list has. Fails if memory runs out.
fn join<'a>(
    alloc: Global,
    placed: &[Placed],
    sections: &[OutputSectionAt<'a>],
    offsets: &[u128],
    pieces: &'a [Vec<ImagePiece<'a>>],
    runs: &[&'a [PlacedData]],
) -> Result<Vec<OutputDrawing<'a>>, NoMemory>
    ensures { IfOk result (λ v. (project : Project) (layout : Layout) (stays : SectionRef → Bool)
        → AreJoined project layout stays placed.now (shown_sections sections.now) offsets.now (map vec_items pieces.now)
        (map (λ run. run.now) runs.now) → AllZip (IsOutput project layout stays) layout.sections v.items) }
{
    let mut outputs = vec::with_capacity(alloc, placed.len())?;
    for (number, place) in placed.iter().enumerate() {
        match output_at(number, place, sections, offsets, pieces, runs) {
            Some(output) => vec::push(&mut outputs, output)?,
            None => {}
        }
    }
    Ok(outputs)
}

/// The output sections of a link, in the order of the script, with these input sections.
///
/// # Errors
///
/// If memory runs out.
pub(crate) fn outputs<'a>(
    alloc: Global,
    project: &'a ProjectView<'_>,
    link_layout: &'a LinkLayout,
    pieces: &'a [Vec<ImagePiece<'a>>],
) -> Result<Vec<OutputDrawing<'a>>, NoMemory>
    ensures { IfOk result (λ v. (layout : Layout) (stays : SectionRef → Bool)
        → IsLinkLayout project.now layout link_layout.now
        → AllZip (IsJoinedRow project.now layout stays) layout.sections (map vec_items pieces.now)
        → AllZip (IsOutput project.now layout stays) layout.sections v.items) }
{
    // for the prover: bring in these laws
    layout_by_effects();
    outputs_are_of_script();
    let script = project.script();
    let sections = script.output_sections(alloc)?;
    let placement = link_layout.placement.view();
    let runs = data_runs(alloc, placement.data_commands, placement.sections.len())?;
    join(
        alloc,
        placement.sections,
        &sections,
        &link_layout.offsets,
        pieces,
        &runs,
    )
}
