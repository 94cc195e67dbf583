//! Keys of the names that an object declares, noted before it goes.

ghost use Rattle.std.specs.Prelude.{◌≡◌, ◌<◌, [], length, slice_index_or};
ghost use Rattle.elfobj.specs.Symbols.{NamedSymbol};
ghost use Rattle.symres_decisions.specs.Change.{AreThere, symbols_or};
ghost use Rattle.symres_decisions.specs.Texts.{AreFound, AreNoted, IsNotedFor};

use crate::change::{ObjectAt, ObjectChange};
use crate::texts::{KeySource, key_of};
use elfobj::Object;
use growth::{NoMemory, vec};
use ldmodel::names::{NameKey, ObjectPlace};
use symres_table::names::Names;

fn symbol_count(at: Option<ObjectAt<'_>>) -> usize {
    match at {
        Some(at) => at.object.symbols().len(),
        None => 0,
    }
}

/// Makes room for the keys of what goes; and for those of what comes, which goes if the change is undone.
pub fn reserve_keys(keys: &mut Vec<NameKey>, change: &ObjectChange<'_>) -> Result<(), NoMemory> {
    keys.clear();
    vec::reserve(
        keys,
        symbol_count(change.out).max(symbol_count(change.into)),
    )?;
    Ok(())
}

/// The key of the name of a symbol, and any key for a local one.
fn key_or_any(names: &Names, source: KeySource<'_>, object: &Object, number: usize) -> NameKey
    requires found { AreFound names.now source object.now.symbols }
    requires number { number < length object.now.symbols }
    ensures { (d : NamedSymbol) → IsNotedFor names.now.names (slice_index_or object.now.symbols number d) result }
{
    match key_of(names, source, object, number) {
        Some(key) => key,
        None => NameKey(0),
    }
}

/// Notes the keys of the symbols of an object: of the first ones, if there isn't room for all.
fn note_all(names: &Names, source: KeySource<'_>, object: &Object, keys: &mut Vec<NameKey>)
    requires found { AreFound names.now source object.now.symbols }
    requires empty { keys.old.items ≡ [] }
    ensures { AreNoted names.now.names object.now.symbols keys.new.items }
{
    for number in 0..object.symbols().len() {
        if keys.len() == keys.capacity() {
            return;
        }
        keys.push_reserved(key_or_any(names, source, object, number));
    }
}

/// Notes the keys of an object, if there is one. It takes no memory.
pub fn note_keys(names: &Names, at: Option<ObjectAt<'_>>, keys: &mut Vec<NameKey>)
    requires { AreThere names.now at }
    ensures { AreNoted names.now.names (symbols_or at.entry) keys.new.items }
{
    keys.clear();
    if let Some(at) = at {
        note_all(
            names,
            KeySource::Entered(ObjectPlace(at.place)),
            at.object,
            keys,
        );
    }
}
