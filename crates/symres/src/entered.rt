//! The objects of a link as they are entered first.

ghost use Rattle.std.specs.Prelude.{◌≡◌, IfOk, map};
ghost use Rattle.symres_decisions.specs.Keyed as keyed;
ghost use Rattle.symres_decisions.specs.Keyed.{AreApart};
ghost use Rattle.symres_decisions.specs.declared.keyed_object.KeyedObject.{KeyedObject};
ghost use Rattle.symres.specs.Entered.{tables_of};

use growth::{NoMemory, iterator, vec};
use ldmodel::names::ObjectKey;
use ldmodel_project::input::InputObject;
use std::alloc::Global;
use symres_decisions::keyed_object::KeyedObject;

/// These objects, each under its place.
///
/// # Errors
///
/// If memory runs out.
pub fn by_place<'a>(
    alloc: Global,
    inputs: &[InputObject<'a>],
) -> Result<Vec<KeyedObject<'a>>, NoMemory>
    ensures tables { IfOk result (λ list. keyed.tables_of list.items ≡ tables_of inputs.now) }
    ensures apart { IfOk result (λ list. AreApart list.items) }
{
    let mut list = vec::with_capacity(alloc, inputs.len())?;
    for (place, input) in inputs.iter().enumerate() {
        vec::push(
            &mut list,
            KeyedObject {
                key: ObjectKey(place),
                object: input.object,
            },
        )?;
    }
    Ok(list)
}

/// The keys of these objects, in their order.
pub fn keys_of(alloc: Global, objects: &[KeyedObject<'_>]) -> Result<Vec<usize>, NoMemory>
    ensures { IfOk result (λ v. v.items ≡ map (λ (x : KeyedObject). x.key.0) objects.now) }
{
    iterator::collect(objects.iter().map(|keyed| keyed.key.0), alloc)
}
