//! The length of an image before it is drawn.

ghost use Rattle.std.specs.Prelude.{◌≡◌, ◌+◌, IfOk, length, map};
ghost use Rattle.place.specs.LinkLayout.{IsLinkLayout};
ghost use Rattle.ldmodel.specs.Layout.{Layout};
ghost use Rattle.ldmodel.specs.SectionHeaders as definition;
ghost use Rattle.symres.specs.SymbolTable.{SymbolTableState};
ghost use Rattle.place.specs.Length.{AreTailSizes};
ghost use Rattle.ldscript.specs.statements.Numbered.{shown_sections};
ghost use Rattle.ldscript.specs.statements.Numbering.{OutputSectionAt as SectionOfTree};
ghost use Rattle.emit_relocate.specs.LinkValues.{AreValues};
ghost use Rattle.emit.specs.Sizes.{names_size};

use emit_relocate::sizes::plus;
use emit_relocate::values::Values;
use growth::NoMemory;
use ldmodel_project::view::ProjectView;
use ldscript::tree::OutputSectionAt;
use place::LinkLayout;
use place::length::{TailSizes, image_length as length_of};
use place::sections::law::outputs_are_of_script;
use std::alloc::Global;

/// The number of bytes of the names of the tables' own headers, each with a zero byte after it.
const TABLE_NAMES: u64 = 26;

/// A number of bytes, and the bytes of a name with a zero byte after it.
fn plus_name(bytes: u64, name: &[u8]) -> Result<u64, NoMemory>
    ensures { IfOk result (λ n. n ≡ bytes + (length name.now + 1)) }
{
    plus(bytes, name.len() as u64 + 1)
}

/// The number of bytes of the names of output sections, each with a zero byte after it.
fn section_names(sections: &[OutputSectionAt<'_>]) -> Result<u64, NoMemory>
    ensures { IfOk result (λ n. n ≡ names_size (map (λ (o : SectionOfTree). o.section.name)
        (shown_sections sections.now))) }
{
    let mut bytes = 0;
    for at in sections {
        let section = at.section;
        bytes = plus_name(bytes, section.name.as_bytes())?;
    }
    Ok(bytes)
}

/// The sizes of the tail of an image. Fails if memory runs out, and for 2^64 bytes or more, which no memory holds.
fn tail_sizes(
    alloc: Global,
    project: &ProjectView<'_>,
    values: &Values<'_>,
) -> Result<TailSizes, NoMemory>
    ensures { IfOk result (λ t. (layout : Layout) (table : SymbolTableState) (l : LinkLayout)
        → IsLinkLayout project.now layout l
        → AreValues project.now layout table values.now → AreTailSizes project.now layout t) }
{
    // for the prover: brings in this law
    outputs_are_of_script();
    let symbols = values.sizes;
    let script = project.script();
    let sections = script.output_sections(alloc)?;
    let names = section_names(&sections)?;
    let symbol_names = plus(symbols.names, 1)?;
    let header_names = plus(names, TABLE_NAMES + 1)?;
    Ok(TailSizes {
        symbols: symbols.count,
        symbol_names,
        header_names,
        sections: sections.len() as u64,
    })
}

/// The number of bytes of the image of a link; padding can carry it past 2^64.
///
/// # Errors
///
/// If memory runs out.
pub fn image_length(
    alloc: Global,
    project: &ProjectView<'_>,
    link_layout: &LinkLayout,
    values: &Values<'_>,
) -> Result<u128, NoMemory>
    ensures { IfOk result (λ n. (layout : Layout) (table : SymbolTableState)
        → IsLinkLayout project.now layout link_layout.now
        → AreValues project.now layout table values.now → n ≡ definition.image_length project.now layout) }
{
    let sizes = tail_sizes(alloc, project, values)?;
    Ok(length_of(&link_layout.segments, sizes))
}
