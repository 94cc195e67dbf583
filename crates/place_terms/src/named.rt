//! The numbers of output sections and memory regions, by their names.

ghost use Rattle.std.specs.Prelude.{◌≡◌, [], IfSome, slice_get};
ghost use Rattle.std.specs.Option.{option_map_or};
ghost use Rattle.ldscript.specs.statements.Numbering.{OutputSectionAt, output_sections, regions};
ghost use Rattle.ldscript.specs.statements.declared.statement.Region.{Region};

use ldmodel::placed::{OutputIndex, RegionIndex};
use ldscript::Script;

/// The number of the output section of a name.
#[tactic(auto, using(crate::proofs::Numbers::section_named_by))]
pub fn output_named(script: &Script, name: &[u8]) -> Option<OutputIndex>
    ensures { IfSome result (λ k.
        option_map_or (λ (x : OutputSectionAt). x.section.name) (slice_get (output_sections script.now) k.0) []
        ≡ name.now) }
{
    match script.section_number(name) {
        Some(number) => match u32::try_from(number) {
            Ok(number) => Some(OutputIndex(number)),
            Err(_) => None,
        },
        None => None,
    }
}

/// The number of the memory region of a name.
#[tactic(auto, using(crate::proofs::Numbers::region_named_by))]
pub fn region_named(script: &Script, name: &[u8]) -> Option<RegionIndex>
    ensures { IfSome result (λ k. option_map_or (λ (x : Region). x.name) (slice_get (regions script.now) k.0) []
        ≡ name.now) }
{
    match script.region_number(name) {
        Some(number) => match u32::try_from(number) {
            Ok(number) => Some(RegionIndex(number)),
            Err(_) => None,
        },
        None => None,
    }
}
