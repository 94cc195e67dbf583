//! The parts of a drawing, of the output sections of a link.

ghost use Rattle.std.specs.Prelude.{◌≡◌, ◌++◌, ◌∷◌, [], Bool, IfOk, OnOk, List};
ghost use Rattle.std.specs.List.{AllZip};
ghost use Rattle.ldmodel_laws.specs.ImageBytes.{AreNamed};
ghost use Rattle.ldmodel.specs.Layout.{Layout, PlacedOutput};
ghost use Rattle.ldmodel.specs.Project.{Project};
ghost use Rattle.ldmodel.specs.declared.sections.SectionRef.{SectionRef};
ghost use Rattle.emit_image.specs.Tables.{IsTableSection};
ghost use Rattle.emit.specs.Drawable.{AreOutputs};
ghost use Rattle.emit.specs.Output.{AreDrawn, AreDrawnOf, IsDrawn, IsOutput};
ghost use Rattle.emit.specs.Parts.{ArePartsOf};

use crate::output::OutputDrawing;
use crate::symbols::symbol_tables;
use emit_image::headers::{headers, loaded_end};
use emit_image::section::ImageSection;
use emit_image::sections::TableSection;
use emit_image::tail::{TailParts, tail};
use emit_relocate::values::Values;
use growth::{NoMemory, impossible, vec};
use ldmodel_laws::segments::segments_by_neighbours;
use ldmodel_project::view::ProjectView;
use place::indexed_layout::IndexedLayout;
use std::alloc::Global;

/// One more than the greatest offset that a section header can state.
const PAST_OFFSETS: u128 = 1 << 64;

/// An output section, with what its header is made of.
fn table_section<'a>(output: &OutputDrawing<'a>) -> TableSection<'a>
    ensures { (project : Project) (layout : Layout) (stays : SectionRef → Bool) (q : PlacedOutput)
        → IsOutput project layout stays q output.now → IsTableSection layout q result }
{
    TableSection {
        name: output.name,
        placed: output.placed,
        offset: (output.offset % PAST_OFFSETS) as u64,
    }
}

/// The output sections, with what their headers are made of. Fails if memory runs out.
fn table_sections<'a>(
    alloc: Global,
    outputs: &[OutputDrawing<'a>],
) -> Result<Vec<TableSection<'a>>, NoMemory>
    ensures { IfOk result (λ v. (project : Project) (layout : Layout) (stays : SectionRef → Bool)
        → AllZip (IsOutput project layout stays) layout.sections outputs.now
        → AllZip (IsTableSection layout) layout.sections v.items) }
{
    let mut sections = vec::with_capacity(alloc, outputs.len())?;
    for output in outputs {
        vec::push(&mut sections, table_section(output))?;
    }
    Ok(sections)
}

/// An output section as it is drawn. Fails where it begins past any file.
fn lend_section<'a>(output: &OutputDrawing<'a>) -> Result<ImageSection<'a>, NoMemory>
    ensures { IfOk result (λ y. (project : Project) (layout : Layout) (stays : SectionRef → Bool) (q : PlacedOutput)
        → IsOutput project layout stays q output.now → IsDrawn project layout stays q y) }
{
    match u64::try_from(output.offset) {
        // No file is longer than 2^64 bytes
        Err(_too_great) => Err(impossible()),
        Ok(offset) => Ok(ImageSection {
            offset,
            start: output.placed.start,
            size: output.placed.size,
            fill: output.fill,
            pieces: output.pieces,
            data_commands: output.data_commands,
        }),
    }
}

/// Adds an output section to those that are drawn, if it has bytes in the file.
fn add_section<'a>(
    sections: &mut Vec<ImageSection<'a>>,
    output: &OutputDrawing<'a>,
) -> Result<(), NoMemory>
    ensures { OnOk result ((project : Project) (layout : Layout) (stays : SectionRef → Bool) (q : PlacedOutput)
        (qs : List PlacedOutput) → IsOutput project layout stays q output.now
        → AreDrawnOf project layout stays qs sections.old.items
        → AreDrawnOf project layout stays (qs ++ q ∷ []) sections.new.items) }
{
    if output.placed.size == 0 || !output.placed.has_file_bytes {
        return Ok(());
    }
    let section = lend_section(output)?;
    vec::push(sections, section)?;
    Ok(())
}

/// The output sections with bytes in the file, as they are drawn. Fails if memory runs out.
fn lend_sections<'a>(
    alloc: Global,
    outputs: &[OutputDrawing<'a>],
) -> Result<Vec<ImageSection<'a>>, NoMemory>
    ensures { IfOk result (λ v. (project : Project) (layout : Layout) (stays : SectionRef → Bool)
        → AreNamed layout.sections
        → AllZip (IsOutput project layout stays) layout.sections outputs.now → AreDrawn project layout stays v.items) }
{
    // for the prover: brings in this law
    segments_by_neighbours();
    let mut sections = Vec::new(alloc);
    for output in outputs {
        add_section(&mut sections, output)?;
    }
    Ok(sections)
}

/// All that an image is drawn from.
#[derive(Drop)]
pub(crate) struct ImageParts<'a> {
    /// The ELF header and the program headers.
    pub(crate) headers: Vec<u8>,
    /// The output sections with bytes in the file.
    pub(crate) sections: Vec<ImageSection<'a>>,
    /// The tail.
    pub(crate) tail: TailParts,
}

/// All that the image of a link with these output sections is drawn from.
///
/// # Errors
///
/// If memory runs out.
pub(crate) fn drawing_parts<'a>(
    alloc: Global,
    project: &ProjectView<'_>,
    indexed_layout: &IndexedLayout,
    values: &Values<'_>,
    outputs: &[OutputDrawing<'a>],
) -> Result<ImageParts<'a>, NoMemory>
    ensures { IfOk result (λ x. (layout : Layout) (stays : SectionRef → Bool)
        → AreOutputs project.now indexed_layout.now values.now layout stays outputs.now
        → ArePartsOf project.now layout stays x) }
{
    let segments = indexed_layout.link_layout.segments.as_slice();
    let symbols = symbol_tables(alloc, values)?;
    let headings = table_sections(alloc, outputs)?;
    let end = loaded_end(segments)?;
    let tail = tail(alloc, end, symbols, &headings)?;
    let entry = values.entry.number_or_0();
    let table = tail.headers.offset();
    let headers = headers(alloc, entry, segments, table, headings.len())?;
    let sections = lend_sections(alloc, outputs)?;
    Ok(ImageParts {
        headers,
        sections,
        tail,
    })
}
