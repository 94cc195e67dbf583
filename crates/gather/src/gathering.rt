//! What gathering finds.

ghost use Rattle.std.specs.Prelude.{◌≡◌, IfOk, false, map, true};
ghost use Rattle.gather.specs.Blocks.{AreBlocks};
ghost use Rattle.gather.specs.Gathering.{IsGathering};
ghost use Rattle.gather.specs.ProjectMatches.{AreMatched};
ghost use Rattle.symres.specs.SymbolTable.{IsSymbolTable};
ghost use Rattle.gather.specs.SectionTable.{IsTableOf};

use crate::blocks::{CommonBlock, block_ranks, common_blocks};
use crate::discarded_sections::discarded_sections;
use crate::gathered_section::input_sections;
use crate::input_section_table::InputSectionTable;
use crate::live::mark_live;
use crate::live_sections::orphans;
use crate::matches::Matches;
use crate::rows::{join_buckets, rows};
use crate::taking::take_all;
use growth::NoMemory;
use ldmodel::rows::Piece;
use ldmodel::sections::SectionRef;
use ldmodel_laws::gathering::live_by_path;
use ldmodel_project::view::ProjectView;
use std::alloc::Global;
use symres::SymbolTable;

/// What gathering finds: the numbers of the input sections, the row of each output section, and the orphans.
#[derive(Drop)]
pub struct Gathering {
    /// The numbers of the input sections.
    pub table: InputSectionTable,
    /// One row for each output section, in the order of the script.
    pub rows: Vec<Vec<Piece>>,
    /// The live input sections that no statement takes, in object order and then section order. Each is a fault.
    pub orphans: Vec<SectionRef>,
}

/// Gathers what is live, for a link with `--gc-sections`. `blocks` has the common blocks of each object.
fn gather_live(
    alloc: Global,
    project: &ProjectView<'_>,
    symbol_table: &SymbolTable,
    matches: &[&Matches],
    blocks: &[Vec<CommonBlock>],
    table: InputSectionTable,
) -> Result<Gathering, NoMemory>
    requires collected { project.now.options.gc ≡ true }
    requires symbol_table { IsSymbolTable project.now symbol_table.now }
    requires matches { AreMatched project.now (map (λ x. x.now) matches.now) }
    requires blocks { AreBlocks project.now blocks.now }
    requires table { IsTableOf project.now table }
    ensures { IfOk result (λ g. IsGathering project.now g) }
{
    // for the prover: brings in this law
    live_by_path();
    let sections = input_sections(alloc, project, matches, blocks)?;
    let options = project.options();
    let out = discarded_sections(alloc, project.script(), options.orphans(), &sections)?;
    let marks = mark_live(alloc, project, symbol_table, &table, &sections, &out)?;
    let orphans = orphans(alloc, &sections, &marks)?;
    let rows = rows(alloc, project, &sections, &marks)?;
    Ok(Gathering {
        table,
        rows,
        orphans,
    })
}

/// Gathers all that is not discarded, for a link without `--gc-sections`. `blocks` has the common blocks of each
/// object.
fn gather_all(
    alloc: Global,
    project: &ProjectView<'_>,
    matches: &[&Matches],
    blocks: &[Vec<CommonBlock>],
    table: InputSectionTable,
) -> Result<Gathering, NoMemory>
    requires kept { project.now.options.gc ≡ false }
    requires matches { AreMatched project.now (map (λ x. x.now) matches.now) }
    requires blocks { AreBlocks project.now blocks.now }
    requires table { IsTableOf project.now table }
    ensures { IfOk result (λ g. IsGathering project.now g) }
{
    // for the prover: brings in this law
    live_by_path();
    let script = project.script();
    let statements = script.input_statements(alloc)?;
    let outputs = script.output_sections(alloc)?.len();
    let taken = take_all(alloc, project, matches, blocks, &statements, outputs)?;
    let rows = join_buckets(alloc, project, &statements, outputs, taken.buckets)?;
    Ok(Gathering {
        table,
        rows,
        orphans: taken.orphans,
    })
}

impl Gathering {
    /// Gathers the input sections of a project whose names are decided. `matches` has the statements that take the
    /// sections of each object, in object order.
    ///
    /// # Errors
    ///
    /// If memory runs out.
    pub fn of(
        alloc: Global,
        project: &ProjectView<'_>,
        symbol_table: &SymbolTable,
        matches: &[&Matches],
    ) -> Result<Gathering, NoMemory>
        requires symbol_table { IsSymbolTable project.now symbol_table.now }
        requires matches { AreMatched project.now (map (λ x. x.now) matches.now) }
        ensures { IfOk result (λ g. IsGathering project.now g) }
    {
        let blocks = common_blocks(alloc, project, symbol_table, matches)?;
        let ranks = block_ranks(alloc, &blocks)?;
        let table = InputSectionTable::of(alloc, project, ranks)?;
        let options = project.options();
        if options.gc() {
            gather_live(alloc, project, symbol_table, matches, &blocks, table)
        } else {
            gather_all(alloc, project, matches, &blocks, table)
        }
    }
}
