//! A table of names over objects under their keys.

ghost use Rattle.std.specs.Prelude.{◌≡◌, IfOk};
ghost use Rattle.symres_decisions.specs.Keyed.{AreApart, tables_of};

use crate::keyed_object::KeyedObject;
use elfobj::Object;
use elfobj::symbol::SymbolPlace;
use growth::NoMemory;
use std::alloc::Global;
use std::hash::RandomState;
use symres_table::names::Names;
use symres_table::symbol::is_visible;

/// How many symbols of an object define a name that other objects see.
fn definitions_in(object: &Object) -> usize {
    let mut count: usize = 0;
    for symbol in object.symbols() {
        if is_visible(symbol) && symbol.place != SymbolPlace::Undefined {
            count = count.saturating_add(1);
        }
    }
    count
}

/// How many definitions these objects have: about as many as they have names, since few are defined more than once.
fn definition_count(objects: &[KeyedObject<'_>]) -> usize {
    let mut count: usize = 0;
    for keyed in objects {
        count = count.saturating_add(definitions_in(keyed.object));
    }
    count
}

/// Makes ready for these objects, as far as there is memory for it, so that entering them is quicker.
fn expect_all(names: &mut Names, objects: &[KeyedObject<'_>])
    ensures { names.new ≡ names.old }
{
    names.expect(definition_count(objects));
    for keyed in objects {
        names.expect_entries(keyed.object);
    }
}

/// The names of these objects, in the order in which they became known.
///
/// # Errors
///
/// If memory runs out.
pub fn enter_all(
    alloc: Global,
    seed: RandomState,
    objects: &[KeyedObject<'_>],
) -> Result<Names, NoMemory>
    requires { AreApart objects.now }
    ensures objects { IfOk result (λ names. names.objects ≡ tables_of objects.now) }
{
    let mut names = Names::new(alloc, seed);
    expect_all(&mut names, objects);
    for (place, keyed) in objects.iter().enumerate() {
        names.add(keyed.key, place, keyed.object)?;
    }
    names.end_entering();
    Ok(names)
}
