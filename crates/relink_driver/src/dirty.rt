//! Which objects of a link have a symbol that had another value in the previous link.

ghost use Rattle.std.specs.Prelude.{◌≡◌, ℕ, IfOk, IfSome, false, slice_index_or, true};
ghost use Rattle.relink_driver.specs.DirtyObjects.{AreDirtyObjects};
ghost use Rattle.relink_driver.specs.StayedSections.{IsPreviousOf, previous_of};
ghost use Rattle.emit.specs.relocate.SymbolValues.{AreSymbolValues};
ghost use Rattle.relink_driver.specs.CleanObjects.{IsCleanObject};
ghost use Rattle.ldmodel.specs.Layout.{Layout};
ghost use Rattle.ldmodel.specs.Stayed.{GoodLink};
ghost use Rattle.emit.specs.relocate.declared.value.SymbolValue.TheVariants.{NotDefined};

use crate::stayed_sections::PreviousView;
use crate::symbol_values::SymbolValues;
use emit::relocate::value::SymbolValue;
use growth::{NoMemory, vec};
use ldmodel::names::ObjectPlace;
use ldmodel_project::view::ProjectView;
use std::alloc::Global;

/// Whether two objects have the same values, number by number.
fn have_same_values(old: &[SymbolValue], new: &[SymbolValue]) -> bool
    ensures { result ≡ true → (n : ℕ) → slice_index_or old.now n NotDefined ≡ slice_index_or new.now n NotDefined }
{
    if old.len() != new.len() {
        return false;
    }
    for number in 0..old.len() {
        if old[number] != new[number] {
            return false;
        }
    }
    true
}

/// Whether an object of `count` symbols is dirty: the previous link does not have it, or one of its symbols had another
/// value there.
#[tactic(auto, using(crate::proofs::CleanObjectValues::unmarked_by_rows))]
fn is_dirty(
    previous: Option<PreviousView<'_>>,
    symbols: &SymbolValues,
    place: usize,
    count: usize,
) -> bool
    ensures { result ≡ false → IsCleanObject (previous_of previous.entry) symbols.now place count }
{
    let Some(previous) = previous else {
        return true;
    };
    let Some(origin) = previous.origin(ObjectPlace(place)) else {
        return true;
    };
    let before = previous.snapshot.symbols.slice(ObjectPlace(origin), count);
    let now = symbols.slice(ObjectPlace(place), count);
    !have_same_values(before, now)
}

/// For each object of a link, by its place, whether it is dirty. `symbols` has the values of the link. Values are
/// compared as what they are, not by their numbers: an undefined name counts as 0 to a weak reference, but is another
/// value than the number 0.
///
/// # Errors
///
/// If memory runs out.
pub fn dirty_objects(
    alloc: Global,
    project: &ProjectView<'_>,
    previous: Option<PreviousView<'_>>,
    symbols: &SymbolValues,
) -> Result<Vec<bool>, NoMemory>
    ensures { IfOk result (λ dirty. (old : GoodLink) (layout : Layout)
        → IfSome (previous_of previous.entry) (IsPreviousOf old project.now)
        → AreSymbolValues project.now layout symbols.now → AreDirtyObjects old project.now layout dirty.items) }
{
    let inputs = project.inputs();
    let mut dirty = vec::with_capacity(alloc, inputs.len())?;
    for (place, input) in inputs.iter().enumerate() {
        vec::push(
            &mut dirty,
            is_dirty(previous, symbols, place, input.object.symbols().len()),
        )?;
    }
    Ok(dirty)
}
