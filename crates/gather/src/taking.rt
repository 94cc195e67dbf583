//! The pieces and the orphans of a link without `--gc-sections`, object by object. No list of all its input sections is
//! made.

ghost use Rattle.std.specs.Prelude.{◌≡◌, ◌<◌, ◌∷◌, [], IfOk, OnOk, Some, false, length, map};
ghost use Rattle.gather.specs.Apart.{IsAscending};
ghost use Rattle.gather.specs.Blocks.{AreBlocks, AreBlocksOf};
ghost use Rattle.gather.specs.GatheredSections.{block_facts, facts};
ghost use Rattle.gather.specs.LeftOut.{is_placed_in};
ghost use Rattle.gather.specs.Matches.{number_of};
ghost use Rattle.gather.specs.ProjectMatches.{AreMatched, IsMatched};
ghost use Rattle.gather.specs.Runs.{gathered, gathered_by};
ghost use Rattle.gather.specs.Taking.{IsAllTaken, Takes, TakesFacts};
ghost use Rattle.ldmodel.specs.InputSections.{object_inputs};
ghost use Rattle.ldmodel.specs.Project.{Project};
ghost use Rattle.ldmodel_project.specs.Inputs.{shown_input};
ghost use Rattle.ldscript.specs.statements.Numbered.{shown_inputs};
ghost use Rattle.ldscript.specs.statements.Numbering.{input_statements};

use crate::blocks::CommonBlock;
use crate::discarded_sections::is_discarded;
use crate::gathered_section::{GatheredSection, block, linked};
use crate::matches::Matches;
use crate::rooms::buckets_for;
use crate::rows::{add_run, add_section};
use crate::runs::{TakenRun, split_run};
use elfobj::section::Section;
use growth::{NoMemory, vec};
use ldmodel::names::ObjectPlace;
use ldmodel::options::Orphans;
use ldmodel::rows::{InputIndex, Piece};
use ldmodel::sections::SectionRef;
use ldmodel_project::input::InputObject;
use ldmodel_project::view::ProjectView;
use ldscript::tree::{InputPlace, InputStatementAt};
use std::alloc::Global;

/// What was found of some input sections.
#[derive(Drop)]
pub(crate) struct Taken {
    /// The pieces that each statement takes.
    pub(crate) buckets: Vec<Vec<Piece>>,
    /// The sections that no statement takes and that are not discarded.
    pub(crate) orphans: Vec<SectionRef>,
}

/// Takes a section, unless it is discarded.
#[inline(always)]
fn take_section(
    taken: &mut Taken,
    statements: &[InputStatementAt<'_>],
    orphans: Orphans,
    section: &GatheredSection,
) -> Result<(), NoMemory>
    ensures { OnOk result (Takes (shown_inputs statements.now) orphans taken.old taken.new (section.now ∷ [])) }
{
    if is_discarded(statements, orphans, section) {
        return Ok(());
    }
    match section.statement {
        Some(statement) => add_section(&mut taken.buckets, section, statement),
        None => {
            vec::push(&mut taken.orphans, section.section)?;
            Ok(())
        }
    }
}

/// Takes linked sections of an object, each for itself.
fn take_each(
    taken: &mut Taken,
    statements: &[InputStatementAt<'_>],
    orphans: Orphans,
    place: ObjectPlace,
    statement: Option<InputIndex>,
    run: &[Section],
) -> Result<(), NoMemory>
    ensures { OnOk result (Takes (shown_inputs statements.now) orphans taken.old taken.new
        (map (gathered place statement) run.now)) }
{
    for section in run {
        take_section(
            taken,
            statements,
            orphans,
            &linked(place, statement, section),
        )?;
    }
    Ok(())
}

/// Whether the statement of this number is one of an output section.
fn is_placed(statements: &[InputStatementAt<'_>], number: InputIndex) -> bool
    ensures { result ≡ is_placed_in (shown_inputs statements.now) number.0 }
{
    match statements.get(number.0 as usize) {
        None => false,
        Some(statement) => !matches!(statement.place, InputPlace::InDiscard),
    }
}

/// Takes linked sections of an object that the statement of this number takes. Whether it discards them is asked once
/// for all, and then their pieces are put where they are to stand.
fn take_matched(
    taken: &mut Taken,
    statements: &[InputStatementAt<'_>],
    orphans: Orphans,
    place: ObjectPlace,
    number: InputIndex,
    run: &[Section],
) -> Result<(), NoMemory>
    ensures { OnOk result (Takes (shown_inputs statements.now) orphans taken.old taken.new
        (map (gathered place (Some number)) run.now)) }
{
    if is_placed(statements, number) {
        return add_run(&mut taken.buckets, place, number, run);
    }
    take_each(taken, statements, orphans, place, Some(number), run)
}

/// Takes linked sections of an object that this statement takes, if one does.
fn take_run(
    taken: &mut Taken,
    statements: &[InputStatementAt<'_>],
    orphans: Orphans,
    place: ObjectPlace,
    statement: Option<InputIndex>,
    run: &[Section],
) -> Result<(), NoMemory>
    ensures { OnOk result (Takes (shown_inputs statements.now) orphans taken.old taken.new
        (map (gathered place statement) run.now)) }
{
    match statement {
        Some(number) => take_matched(taken, statements, orphans, place, number, run),
        None => take_each(taken, statements, orphans, place, None, run),
    }
}

/// Takes the linked sections of an object. `runs` says which statements take them.
fn take_linked(
    taken: &mut Taken,
    statements: &[InputStatementAt<'_>],
    orphans: Orphans,
    place: ObjectPlace,
    linked: &[Section],
    runs: &[TakenRun],
) -> Result<(), NoMemory>
    ensures { OnOk result (Takes (shown_inputs statements.now) orphans taken.old taken.new
        (gathered_by place linked.now runs.now)) }
{
    let mut rest = linked;
    for run in runs {
        let (own, later) = split_run(rest, *run);
        take_run(taken, statements, orphans, place, run.statement, own)?;
        rest = later;
    }
    Ok(())
}

/// Takes the common blocks that an object owns. `matched` is the statement that takes them.
fn take_blocks(
    taken: &mut Taken,
    statements: &[InputStatementAt<'_>],
    orphans: Orphans,
    place: ObjectPlace,
    matched: Option<InputIndex>,
    blocks: &[CommonBlock],
) -> Result<(), NoMemory>
    ensures { OnOk result (TakesFacts (shown_inputs statements.now) orphans taken.old taken.new
        (map (block_facts place.0 (number_of matched)) blocks.now)) }
{
    for number in 0..blocks.len() {
        let section = block(place, matched, blocks[number]);
        take_section(taken, statements, orphans, &section)?;
    }
    Ok(())
}

/// Takes the input sections of the object at a place.
fn take_object(
    taken: &mut Taken,
    statements: &[InputStatementAt<'_>],
    orphans: Orphans,
    place: usize,
    input: &InputObject<'_>,
    matches: &Matches,
    blocks: &[CommonBlock],
) -> Result<(), NoMemory>
    ensures added { OnOk result ((p : Project) → IsMatched p.script (shown_input input.now) matches.now
        → AreBlocksOf p place (shown_input input.now) blocks.now
        → TakesFacts (shown_inputs statements.now) orphans taken.old taken.new
        (map (facts p) (object_inputs p place (shown_input input.now)))) }
    ensures ascending { IsAscending (shown_input input.now) }
{
    let key = ObjectPlace(place);
    take_linked(
        taken,
        statements,
        orphans,
        key,
        input.object.sections(),
        &matches.linked,
    )?;
    take_blocks(taken, statements, orphans, key, matches.common, blocks)
}

/// The pieces and the orphans of a link without `--gc-sections`: all its input sections but those that are discarded.
/// `statements` are the input statements of its script, which has this many output sections. `blocks` has the common
/// blocks of each object, in object order.
///
/// # Errors
///
/// If memory runs out.
pub(crate) fn take_all(
    alloc: Global,
    project: &ProjectView<'_>,
    matches: &[&Matches],
    blocks: &[Vec<CommonBlock>],
    statements: &[InputStatementAt<'_>],
    outputs: usize,
) -> Result<Taken, NoMemory>
    requires matches { AreMatched project.now (map (λ x. x.now) matches.now) }
    requires blocks { AreBlocks project.now blocks.now }
    requires statements { shown_inputs statements.now ≡ input_statements project.now.script }
    ensures { IfOk result (λ t. IsAllTaken project.now (length statements.now) t) }
{
    let orphans = project.options().orphans();
    let inputs = project.inputs();
    let buckets = buckets_for(alloc, matches, blocks, statements, outputs)?;
    let mut taken = Taken {
        buckets,
        orphans: Vec::new(alloc),
    };
    for (place, input) in inputs.iter().enumerate() {
        take_object(
            &mut taken,
            statements,
            orphans,
            place,
            input,
            matches[place],
            &blocks[place],
        )?;
    }
    Ok(taken)
}
