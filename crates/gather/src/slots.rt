//! The header numbers of the objects of a project, those of each after those of the one before.

ghost use Rattle.std.specs.Prelude.{◌≡◌, ◌+◌, ◌^◌, ◌<◌, ◌≤◌, All, IfErr, IfOk, length};
ghost use Rattle.elfobj.specs.Sections.{LinkedSection};
ghost use Rattle.gather.specs.Slots.{AreLaid, AreLinkedBefore, AreLinkedCounted};

use elfobj::Object;
use elfobj::section::SectionIndex;
use growth::{NoMemory, impossible, vec};
use ldmodel_project::view::ProjectView;
use std::alloc::Global;

/// The header numbers of an object that a table has: those from 0 to that of its last linked section.
#[derive(Clone, Copy)]
pub(crate) struct Slots {
    /// Where they begin among those of all objects.
    pub(crate) begin: u32,
    /// How many there are.
    pub(crate) count: u32,
    /// How many linked sections the objects before have.
    pub(crate) linked: usize,
}

/// The header numbers of all objects.
#[derive(Drop)]
pub(crate) struct AllSlots {
    /// Those of each object.
    pub(crate) objects: Vec<Slots>,
    /// How many there are in all.
    pub(crate) slots: u32,
}

/// How many header numbers there are up to that of a section.
fn count_to(section: SectionIndex) -> u32
    ensures { result ≡ section.0 + 1 }
{
    u32::from(section.0) + 1
}

/// How many header numbers an object has up to that of its last linked section.
fn count_of(object: &Object) -> u32
    ensures reaches { All (λ (section : LinkedSection). section.number.0 < result) object.now.sections }
    ensures many { length object.now.sections ≤ result }
{
    match object.sections().last() {
        None => 0,
        Some(last) => count_to(last.number),
    }
}

/// This number of numbers, and as many more.
///
/// # Errors
///
/// Past 2^32, where no number is left: the one place where a table fails for that. As many section headers, symbols and
/// ranks of common blocks take more than 64 GiB, which no contract of objects says.
pub(crate) fn sum(numbers: u32, more: usize) -> Result<u32, NoMemory>
    ensures is { IfOk result (λ n. n ≡ numbers + more) }
    ensures below { IfOk result (λ _. numbers + more < 2 ^ 32) }
    ensures past { IfErr result (λ _. 2 ^ 32 ≤ numbers + more) }
{
    if more > (u32::MAX - numbers) as usize {
        return Err(impossible());
    }
    Ok(numbers + more as u32)
}

/// The header numbers of all objects of a project. They are made of the objects alone, so an object has as many in each
/// link.
///
/// # Errors
///
/// If memory runs out.
pub(crate) fn lay_slots(alloc: Global, project: &ProjectView<'_>) -> Result<AllSlots, NoMemory>
    ensures laid { IfOk result (λ x. AreLaid x.objects.items x.slots) }
    ensures counted { IfOk result (λ x. AreLinkedCounted project.now x.objects.items) }
    ensures linked { IfOk result (λ x. AreLinkedBefore project.now x.objects.items) }
{
    let inputs = project.inputs();
    let mut objects = vec::with_capacity(alloc, inputs.len())?;
    let mut slots: u32 = 0;
    let mut linked: usize = 0;
    for input in inputs {
        let count = count_of(input.object);
        vec::push(
            &mut objects,
            Slots {
                begin: slots,
                count,
                linked,
            },
        )?;
        slots = sum(slots, count as usize)?;
        linked += input.object.sections().len();
    }
    Ok(AllSlots { objects, slots })
}
