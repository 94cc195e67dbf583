//! The output sections that overlap others.

ghost use Rattle.std.specs.Prelude.{◌≡◌, ◌++◌, ◌≤◌, ℕ, IfOk, IsTrue, OnOk, length};
ghost use Rattle.place_sections.specs.Extents.{cover};
ghost use Rattle.place_sections.specs.OverlapFaults.{AreOverlaps};
ghost use Rattle.place_sections.specs.Firsts.{before};
ghost use Rattle.place_sections.specs.Found.{extent_in, extents_in, fault_in, fault_with, overlaps_before};

use crate::extent::{Extent, are_ascending};
use crate::firsts::firsts;
use growth::{NoMemory, vec};
use ldmodel::fault::Fault;
use ldmodel::placed::{OutputIndex, Placed};
use place_terms::output_number::output_index;
use std::alloc::Global;

/// Where output sections may share addresses.
#[derive(Clone, Copy, Debug)]
pub(crate) enum Space {
    /// Their addresses.
    Memory,
    /// Where they are loaded from.
    Load,
}

impl Space {
    fn extent(self, section: &Placed) -> Extent
        ensures { result ≡ extent_in self section.now }
    {
        match self {
            Space::Memory => Extent {
                start: section.start,
                size: section.size,
            },
            Space::Load => Extent {
                start: section.load,
                size: section.load_size,
            },
        }
    }

    fn fault(self, section: OutputIndex, earlier: OutputIndex) -> Fault
        ensures { result ≡ fault_in self section earlier }
    {
        match self {
            Space::Memory => Fault::AddressesOverlap { section, earlier },
            Space::Load => Fault::LoadAddressesOverlap { section, earlier },
        }
    }
}

/// The addresses of output sections, in the order of the script.
fn extents(alloc: Global, space: Space, sections: &[Placed]) -> Result<Vec<Extent>, NoMemory>
    ensures { IfOk result (λ v. v.items ≡ extents_in space sections.now) }
{
    let mut extents = vec::with_capacity(alloc, sections.len())?;
    for section in sections {
        vec::push(&mut extents, space.extent(section))?;
    }
    Ok(extents)
}

/// Whether each output section, in the order of the script, begins at or past the end of all before it, as most do;
/// those without a byte do not count. Then no address is in two of them.
fn are_in_order(space: Space, sections: &[Placed]) -> bool
    ensures { IsTrue result → (address : ℕ) → cover address (extents_in space sections.now) ≤ 1 }
{
    let mut end = 0;
    for section in sections {
        let extent = space.extent(section);
        if extent.size == 0 {
            continue;
        }
        if u128::from(extent.start) < end {
            return false;
        }
        end = extent.end();
    }
    true
}

/// The fault of a section, if the first that it overlaps is an earlier one.
fn push_first_overlap(
    faults: &mut Vec<Fault>,
    space: Space,
    section: usize,
    first: Option<usize>,
) -> Result<(), NoMemory>
    ensures { OnOk result (faults.new.items ≡ faults.old.items ++ fault_with space section (before section first)) }
{
    let Some(other) = first else {
        return Ok(());
    };
    if other >= section {
        return Ok(());
    }
    let section = output_index(section)?;
    let other = output_index(other)?;
    vec::push(faults, space.fault(section, other))?;
    Ok(())
}

/// The faults of all that overlap an earlier one.
fn push_first_overlaps(
    alloc: Global,
    faults: &mut Vec<Fault>,
    space: Space,
    extents: &[Extent],
) -> Result<(), NoMemory>
    ensures { OnOk result (faults.new.items ≡ faults.old.items ++ overlaps_before space extents.now) }
{
    let firsts = firsts(alloc, extents)?;
    for k in 0..extents.len() {
        push_first_overlap(faults, space, k, firsts[k])?;
    }
    Ok(())
}

/// The overlaps in one space. Where no two output sections overlap, as their order or a sort shows, there are none;
/// where some do, the first that each overlaps is looked for in a tree of ranges. The time is at most that of a sort.
fn push_overlaps(
    alloc: Global,
    faults: &mut Vec<Fault>,
    space: Space,
    sections: &[Placed],
) -> Result<(), NoMemory>
    ensures { OnOk result (faults.new.items ≡ faults.old.items
        ++ overlaps_before space (extents_in space sections.now)) }
{
    if are_in_order(space, sections) {
        return Ok(());
    }
    let extents = extents(alloc, space, sections)?;
    let mut ascending = vec::from_slice(alloc, &extents)?;
    ascending.sort_unstable_by_key(|e| e.start);
    if are_ascending(&ascending) {
        return Ok(());
    }
    push_first_overlaps(alloc, faults, space, &extents)
}

/// The overlaps of output sections: for each that shares an address with an earlier one a fault with the first such;
/// then the same of load addresses. The time is that of a sort.
pub fn overlaps(alloc: Global, sections: &[Placed]) -> Result<Vec<Fault>, NoMemory>
    ensures { IfOk result (λ v. AreOverlaps sections.now v.items) }
{
    let mut faults = Vec::new(alloc);
    push_overlaps(alloc, &mut faults, Space::Memory, sections)?;
    push_overlaps(alloc, &mut faults, Space::Load, sections)?;
    Ok(faults)
}
