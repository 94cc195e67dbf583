//! The input sections of a project, as they are gathered: object by object the linked sections and then the common
//! blocks that the object owns.

ghost use Rattle.std.specs.Prelude.{◌≡◌, ◌++◌, IfOk, OnOk, map};
ghost use Rattle.gather.specs.Apart.{IsAscending};
ghost use Rattle.gather.specs.Blocks.{AreBlocks, AreBlocksOf};
ghost use Rattle.gather.specs.GatheredSections.{AddsFacts, AreGathered, as_piece, block_facts, facts};
ghost use Rattle.gather.specs.GatheredSections.{shown_facts};
ghost use Rattle.gather.specs.Matches.{number_of};
ghost use Rattle.gather.specs.ProjectMatches.{AreMatched, IsMatched};
ghost use Rattle.gather.specs.Runs.{gathered, gathered_by};
ghost use Rattle.ldmodel.specs.InputSections.{object_inputs};
ghost use Rattle.ldmodel.specs.Project.{Project};
ghost use Rattle.ldmodel_project.specs.Inputs.{shown_input};

use crate::blocks::CommonBlock;
use crate::matches::Matches;
use crate::runs::{TakenRun, split_run};
use elfobj::file::constants::{SHF_ALLOC, SHF_WRITE};
use elfobj::section::{Section, SectionKind};
use growth::{NoMemory, vec};
use ldmodel::names::ObjectPlace;
use ldmodel::rows::{InputIndex, Piece};
use ldmodel::sections::{Part, SectionRef};
use ldmodel_project::input::InputObject;
use ldmodel_project::view::ProjectView;
use std::alloc::Global;

/// An input section: a linked section of an object, or a common block that an object owns.
#[derive(Clone, Copy)]
pub struct GatheredSection {
    /// Which one it is.
    pub section: SectionRef,
    /// What it holds; `Nobits` for a common block.
    pub kind: SectionKind,
    /// `sh_flags`; `SHF_ALLOC` and `SHF_WRITE` for a common block.
    pub flags: u64,
    /// How many bytes it takes in memory.
    pub size: u64,
    /// `sh_addralign`; for a common block the greatest that its entries ask for.
    pub alignment: u64,
    /// The input statement that takes it, if one does.
    pub statement: Option<InputIndex>,
}

impl GatheredSection {
    /// Its entry in a row, if this statement takes it.
    pub fn piece(&self, statement: InputIndex) -> Piece
        ensures { result ≡ as_piece self.now statement }
    {
        Piece {
            statement,
            section: self.section,
            kind: self.kind,
            flags: self.flags,
            size: self.size,
            alignment: self.alignment,
        }
    }
}

/// A linked section of an object. `statement` is the one that takes it.
#[inline(always)]
pub(crate) fn linked(
    place: ObjectPlace,
    statement: Option<InputIndex>,
    section: &Section,
) -> GatheredSection
    ensures { result ≡ gathered place statement section.now }
{
    GatheredSection {
        section: SectionRef {
            object: place,
            part: Part::InTable(section.number),
        },
        kind: section.kind,
        flags: section.flags,
        size: section.size,
        alignment: section.alignment,
        statement,
    }
}

/// Adds linked sections of an object that this statement takes.
fn add_run(
    sections: &mut Vec<GatheredSection>,
    place: ObjectPlace,
    statement: Option<InputIndex>,
    run: &[Section],
) -> Result<(), NoMemory>
    ensures { OnOk result (sections.new.items ≡ sections.old.items ++ map (gathered place statement) run.now) }
{
    for section in run {
        vec::push(sections, linked(place, statement, section))?;
    }
    Ok(())
}

/// Adds the linked sections of an object.
fn add_linked(
    sections: &mut Vec<GatheredSection>,
    place: ObjectPlace,
    linked: &[Section],
    runs: &[TakenRun],
) -> Result<(), NoMemory>
    ensures { OnOk result (sections.new.items ≡ sections.old.items ++ gathered_by place linked.now runs.now) }
{
    let mut rest = linked;
    for run in runs {
        let (own, later) = split_run(rest, *run);
        add_run(sections, place, run.statement, own)?;
        rest = later;
    }
    Ok(())
}

/// A common block that an object owns. `statement` is the one that takes it.
pub(crate) fn block(
    place: ObjectPlace,
    statement: Option<InputIndex>,
    block: CommonBlock,
) -> GatheredSection
    ensures { shown_facts result ≡ block_facts place.0 (number_of statement) block }
{
    GatheredSection {
        section: SectionRef {
            object: place,
            part: Part::InCommon(block.symbol),
        },
        kind: SectionKind::Nobits,
        flags: SHF_ALLOC | SHF_WRITE,
        size: block.size,
        alignment: block.alignment,
        statement,
    }
}

/// Adds the common blocks that an object owns.
fn add_blocks(
    sections: &mut Vec<GatheredSection>,
    place: ObjectPlace,
    statement: Option<InputIndex>,
    blocks: &[CommonBlock],
) -> Result<(), NoMemory>
    ensures { OnOk result (AddsFacts sections.old.items sections.new.items
        (map (block_facts place.0 (number_of statement)) blocks.now)) }
{
    for own in blocks {
        vec::push(sections, block(place, statement, *own))?;
    }
    Ok(())
}

/// Adds the input sections of the object at a place.
fn add_object(
    sections: &mut Vec<GatheredSection>,
    place: usize,
    input: &InputObject<'_>,
    matches: &Matches,
    blocks: &[CommonBlock],
) -> Result<(), NoMemory>
    ensures added { OnOk result ((project : Project) → IsMatched project.script (shown_input input.now) matches.now
        → AreBlocksOf project place (shown_input input.now) blocks.now → AddsFacts sections.old.items sections.new.items
        (map (facts project) (object_inputs project place (shown_input input.now)))) }
    ensures ascending { IsAscending (shown_input input.now) }
{
    let key = ObjectPlace(place);
    add_linked(sections, key, input.object.sections(), &matches.linked)?;
    add_blocks(sections, key, matches.common, blocks)
}

/// How many input sections these objects have; on overflow the greatest number, for which no allocation succeeds.
fn count_sections(inputs: &[InputObject<'_>], blocks: &[Vec<CommonBlock>]) -> usize {
    let mut count: usize = 0;
    for input in inputs {
        count = count.saturating_add(input.object.sections().len());
    }
    for own in blocks {
        count = count.saturating_add(own.len());
    }
    count
}

/// The input sections of a project, each with the statement that takes it. `blocks` has the common blocks of each
/// object, in object order.
///
/// # Errors
///
/// If memory runs out.
pub(crate) fn input_sections(
    alloc: Global,
    project: &ProjectView<'_>,
    matches: &[&Matches],
    blocks: &[Vec<CommonBlock>],
) -> Result<Vec<GatheredSection>, NoMemory>
    requires matches { AreMatched project.now (map (λ x. x.now) matches.now) }
    requires blocks { AreBlocks project.now blocks.now }
    ensures { IfOk result (λ sections. AreGathered project.now sections.items) }
{
    let inputs = project.inputs();
    let mut sections = vec::with_capacity(alloc, count_sections(inputs, blocks))?;
    for (place, input) in inputs.iter().enumerate() {
        add_object(&mut sections, place, input, matches[place], &blocks[place])?;
    }
    Ok(sections)
}
