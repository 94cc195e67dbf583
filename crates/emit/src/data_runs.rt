//! Data commands by their output sections.

ghost use Rattle.std.specs.Prelude.{◌≡◌, ◌≤◌, IfOk, List, length, map};
ghost use Rattle.std.specs.List.{AllZip};
ghost use Rattle.ldmodel.specs.Layout.{PlacedOutput};
ghost use Rattle.emit.specs.DataRuns.{AreDataFrom, AreDataOf, run_length};

use growth::{NoMemory, vec};
use ldmodel::placed::PlacedData;
use std::alloc::Global;

/// The number of these data commands, from the first on, that are in the output section with this number.
fn run_length(commands: &[PlacedData], section: usize) -> usize
    ensures exact { result ≡ run_length section commands.now }
    ensures within { result ≤ length commands.now }
{
    for (k, d) in commands.iter().enumerate() {
        if d.section.0 as usize != section {
            return k;
        }
    }
    commands.len()
}

/// The data commands of each output section, of which there are `sections`. The commands come in the order of output
/// sections.
///
/// # Errors
///
/// If memory runs out.
pub(crate) fn data_runs<'a>(
    alloc: Global,
    commands: &'a [PlacedData],
    sections: usize,
) -> Result<Vec<&'a [PlacedData]>, NoMemory>
    ensures { IfOk result (λ v. (qs : List PlacedOutput) → AreDataFrom 0 qs commands.now → sections ≡ length qs
        → AllZip AreDataOf qs (map (λ run. run.now) v.items)) }
{
    let mut runs = vec::with_capacity(alloc, sections)?;
    let mut at = 0;
    for section in 0..sections {
        let rest = &commands[at..];
        let run = &rest[..run_length(rest, section)];
        vec::push(&mut runs, run)?;
        at += run.len();
    }
    Ok(runs)
}
