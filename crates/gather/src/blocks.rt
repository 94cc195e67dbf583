//! The common blocks of objects.

ghost use Rattle.std.specs.Prelude.{◌≡◌, ◌<◌, ◌++◌, ℕ, List, IfOk, OnOk, length, map, option_to_list, slice_index_or};
ghost use Rattle.std.specs.Option.{option_map};
ghost use Rattle.elfobj.specs.Symbols.{NamedSymbol};
ghost use Rattle.gather.specs.Blocks.{AreBlocks, AreBlocksOf, block_of, block_rank};
ghost use Rattle.gather.specs.Commons.{AreCommonsIn};
ghost use Rattle.gather.specs.ProjectMatches.{AreMatched};
ghost use Rattle.gather.specs.Symbols.{IsObjectAt};
ghost use Rattle.gather.specs.SectionTable.{AreBlockRanks};
ghost use Rattle.ldmodel.specs.CodeValues.{decision_of};
ghost use Rattle.ldmodel.specs.InputSections as inputs;
ghost use Rattle.ldmodel.specs.Names.{is_common_place};
ghost use Rattle.ldmodel.specs.Project.{Project};
ghost use Rattle.symres.specs.SymbolTable.{IsSymbolTable};

use crate::cases::case_of_symbol;
use crate::matches::Matches;
use crate::rank::Rank;
use elfobj::Object;
use elfobj::relocation::SymbolIndex;
use elfobj::symbol::{Symbol, SymbolPlace};
use growth::{NoMemory, vec};
use ldmodel::names::{Case, ObjectPlace};
use ldmodel_project::view::ProjectView;
use std::alloc::Global;
use std::ops::Range;
use symres::SymbolTable;

/// A common block.
#[derive(Clone, Copy, Debug, PartialEq, Eq)]
pub(crate) struct CommonBlock {
    /// The entry that owns it, by its number in the symbol table of the object that owns it.
    pub(crate) symbol: SymbolIndex,
    /// How many bytes it takes.
    pub(crate) size: u64,
    /// Its alignment.
    pub(crate) alignment: u64,
}

/// Whether a symbol is a common one.
fn is_common(symbol: &Symbol) -> bool
    ensures { result ≡ is_common_place symbol.now.place }
{
    matches!(symbol.place, SymbolPlace::Common)
}

/// The numbers of the symbols of an object from the first common one to the last; none if it has no common symbol.
pub(crate) fn common_symbols(object: &Object) -> Range<usize>
    ensures { AreCommonsIn object.now.symbols result.start result.end }
{
    let symbols = object.symbols();
    let mut start = 0;
    let mut end = 0;
    for number in 0..symbols.len() {
        if is_common(&symbols[number]) {
            if end == 0 {
                start = number;
            }
            end = number + 1;
        }
    }
    start..end
}

/// The common block that a name is resolved to, if the symbol of this number of the object at a place owns it.
fn block_of_case(place: usize, number: u32, case: Case<ObjectPlace>) -> Option<CommonBlock>
    ensures { (name : List ℕ) → option_map (block_of place name) result
        ≡ inputs.block_of name (record { object = place; symbol = number }) (decision_of (λ key. key) case) }
{
    match case {
        Case::Common { owner, size, align } => {
            if owner.object.0 != place || owner.symbol.0 != number {
                return None;
            }
            Some(CommonBlock {
                symbol: owner.symbol,
                size,
                alignment: align,
            })
        }
        _ => None,
    }
}

/// The common block that a symbol of the object at a place owns, if it owns one. Only a common symbol does, so the
/// names of others are not looked up.
fn block_of_symbol(
    project: &ProjectView<'_>,
    symbol_table: &SymbolTable,
    place: usize,
    object: &Object,
    number: usize,
) -> Option<CommonBlock>
    requires symbol_table { IsSymbolTable project.now symbol_table.now }
    requires object { IsObjectAt project.now place object.now }
    requires number { number < length object.now.symbols }
    ensures { (name : List ℕ) (d : NamedSymbol) → option_map (block_of place name) result
        ≡ inputs.block_at project.now place (record { name = name; object = object.now })
        (number, slice_index_or object.now.symbols number d) }
{
    if !is_common(&object.symbols()[number]) {
        return None;
    }
    match case_of_symbol(project, symbol_table, place, object, number) {
        Some(case) => block_of_case(place, number as u32, case),
        None => None,
    }
}

/// Adds a common block, if there is one.
fn add_block(blocks: &mut Vec<CommonBlock>, block: Option<CommonBlock>) -> Result<(), NoMemory>
    ensures { OnOk result (blocks.new.items ≡ blocks.old.items ++ option_to_list block) }
{
    match block {
        Some(block) => {
            vec::push(blocks, block)?;
            Ok(())
        }
        None => Ok(()),
    }
}

/// The common blocks that the object at a place owns, in the order of its symbol table. `commons` are the numbers of
/// the symbols that can own one.
fn blocks_of(
    alloc: Global,
    project: &ProjectView<'_>,
    symbol_table: &SymbolTable,
    place: usize,
    object: &Object,
    commons: &Range<usize>,
) -> Result<Vec<CommonBlock>, NoMemory>
    requires symbol_table { IsSymbolTable project.now symbol_table.now }
    requires object { IsObjectAt project.now place object.now }
    requires commons { AreCommonsIn object.now.symbols commons.now.start commons.now.end }
    ensures { IfOk result (λ blocks. (name : List ℕ)
        → AreBlocksOf project.now place (record { name = name; object = object.now }) blocks.items) }
{
    let mut blocks = Vec::new(alloc);
    for number in commons.start..commons.end {
        let block = block_of_symbol(project, symbol_table, place, object, number);
        add_block(&mut blocks, block)?;
    }
    Ok(blocks)
}

/// The common blocks of each object of a project, by the resolutions of its names. Of an object only the symbols
/// between its common ones are asked.
///
/// # Errors
///
/// If memory runs out.
pub(crate) fn common_blocks(
    alloc: Global,
    project: &ProjectView<'_>,
    symbol_table: &SymbolTable,
    matches: &[&Matches],
) -> Result<Vec<Vec<CommonBlock>>, NoMemory>
    requires symbol_table { IsSymbolTable project.now symbol_table.now }
    requires matches { AreMatched project.now (map (λ x. x.now) matches.now) }
    ensures { IfOk result (λ all. AreBlocks project.now all.items) }
{
    let inputs = project.inputs();
    let mut all = vec::with_capacity(alloc, inputs.len())?;
    for (place, input) in inputs.iter().enumerate() {
        vec::push(
            &mut all,
            blocks_of(
                alloc,
                project,
                symbol_table,
                place,
                input.object,
                &matches[place].commons,
            )?,
        )?;
    }
    Ok(all)
}

/// Adds the ranks of the common blocks of the object at a place.
fn add_ranks(ranks: &mut Vec<Rank>, place: usize, blocks: &[CommonBlock]) -> Result<(), NoMemory>
    ensures { OnOk result (ranks.new.items ≡ ranks.old.items ++ map (block_rank place) blocks.now) }
{
    for block in blocks {
        vec::push(ranks, (place, true, block.symbol.0))?;
    }
    Ok(())
}

/// The ranks of common blocks, of which these are those of each object.
///
/// # Errors
///
/// If memory runs out.
pub(crate) fn block_ranks(alloc: Global, all: &[Vec<CommonBlock>]) -> Result<Vec<Rank>, NoMemory>
    ensures { IfOk result (λ ranks. (project : Project) → AreBlocks project all.now
        → AreBlockRanks project ranks.items) }
{
    let mut ranks = Vec::new(alloc);
    for (place, blocks) in all.iter().enumerate() {
        add_ranks(&mut ranks, place, blocks)?;
    }
    Ok(ranks)
}
