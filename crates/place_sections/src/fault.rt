//! Why a script has no layout.

ghost use Rattle.std.specs.Prelude.{◌≡◌, IfOk, Some, slice_get};
ghost use Rattle.ldmodel.specs.Fault.{NotReady, RegionFull};
ghost use Rattle.ldmodel.specs.Mentioned.{mentioned_names};
ghost use Rattle.place_sections.specs.Outcomes.{Reports};
ghost use Rattle.place_sections.specs.State.{fault_of};
ghost use Rattle.place_sections.specs.declared.stop.LayoutStop.TheVariants.{NoMemory as OutOfMemory};
ghost use Rattle.place_sections.specs.declared.fault.PlaceFault.TheVariants.{NoMemory as MemoryRefused};
ghost use Rattle.growth.specs.Memory.{no_memory};

use crate::stop::LayoutStop;
use growth::{NoMemory, impossible};
use ldmodel::fault::{Fault, MentionIndex};
use ldscript::Script;
use place_terms::mentioned::{mention_of, mentioned_names};
use place_terms::named::{output_named, region_named};
use std::alloc::Global;

/// Why a script has no layout.
#[derive(Debug, Drop)]
pub enum PlaceFault {
    /// The first fault of the layout: `F4` to `F8`.
    First(Fault),
    /// The layout has no such fault, but output sections share addresses: all `F9`, then all `F10`.
    Overlapping(Vec<Fault>),
    /// Out of memory.
    NoMemory(NoMemory),
}

impl From<NoMemory> for PlaceFault {
    ghost use Rattle.std.specs.Prelude.{◌≡◌};
    ghost use Rattle.place_sections.specs.declared.fault.PlaceFault.TheVariants.{NoMemory};

    ghost from_gives = { λ no_memory e. e ≡ NoMemory no_memory };

    fn from(no_memory: NoMemory) -> PlaceFault {
        PlaceFault::NoMemory(no_memory)
    }
}

/// The first mention of a name in the script.
///
/// # Errors
///
/// If memory runs out.
fn mention(alloc: Global, script: &Script, name: &[u8]) -> Result<MentionIndex, NoMemory>
    ensures { IfOk result (λ m. slice_get (mentioned_names script.now) m.0 ≡ Some name.now) }
{
    let names = mentioned_names(alloc, script.statements())?;
    match mention_of(&names, name) {
        Some(mention) => Ok(mention),
        // A layout stops only at names that the script mentions, and 2^32 mentions do not fit into a script
        None => Err(impossible()),
    }
}

/// An expression names what is not complete yet (F4).
fn not_ready(alloc: Global, script: &Script, line: u32, name: &[u8]) -> PlaceFault
    ensures { Reports script.now (NotReady line name.now) result }
{
    match mention(alloc, script, name) {
        Ok(name) => PlaceFault::First(Fault::NotReady { line, name }),
        Err(no_memory) => PlaceFault::from(no_memory),
    }
}

/// A memory region is too small for an output section (F7).
///
/// # Errors
///
/// `NoMemory` if the script has no such section or region. It has both, since the layout read them there; no contract
/// says so.
fn region_full(script: &Script, section: &[u8], name: &[u8]) -> PlaceFault
    ensures { Reports script.now (RegionFull section.now name.now) result }
{
    let Some(section) = output_named(script, section) else {
        return PlaceFault::NoMemory(impossible());
    };
    match region_named(script, name) {
        Some(region) => PlaceFault::First(Fault::RegionFull { section, region }),
        None => PlaceFault::NoMemory(impossible()),
    }
}

/// The fault at which a layout stops.
#[tactic(auto, using(crate::proofs::Reporting::stands_no_value, crate::proofs::Reporting::stands_moved_back, crate::proofs::Reporting::stands_past))]
pub(crate) fn reported(alloc: Global, script: &Script, stop: LayoutStop<'_>) -> PlaceFault
    ensures fault { Reports script.now (fault_of stop.entry) result }
    ensures memory { stop.entry ≡ OutOfMemory no_memory → result ≡ MemoryRefused no_memory }
{
    match stop {
        LayoutStop::NotReady { line, name } => not_ready(alloc, script, line, name),
        LayoutStop::NoValue { line } => PlaceFault::First(Fault::NoValue { line }),
        LayoutStop::MovedBack { line } => PlaceFault::First(Fault::MovedBack { line }),
        LayoutStop::RegionFull { section, region } => region_full(script, section, region),
        LayoutStop::PastAddressSpace { line } => PlaceFault::First(Fault::PastAddressSpace {
            line,
        }),
        LayoutStop::NoMemory(no_memory) => PlaceFault::NoMemory(no_memory),
    }
}
