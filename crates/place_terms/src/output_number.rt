//! The numbers of output sections.

ghost use Rattle.std.specs.Prelude.{◌≡◌, ◌≤◌, ◌^◌, IfErr, IfOk};

use growth::{NoMemory, impossible};
use ldmodel::placed::OutputIndex;

/// The number of an output section.
///
/// # Errors
///
/// Past 2^32, where no number is left: the one place where a layout fails for that. No script that fits into memory has
/// as many output sections, which no contract of scripts says.
pub fn output_index(number: usize) -> Result<OutputIndex, NoMemory>
    ensures is { IfOk result (λ k. k.0 ≡ number) }
    ensures past { IfErr result (λ _. 2 ^ 32 ≤ number) }
{
    match u32::try_from(number) {
        Ok(number) => Ok(OutputIndex(number)),
        Err(_) => Err(impossible()),
    }
}
