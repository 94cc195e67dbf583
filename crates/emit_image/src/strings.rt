//! String tables (gABI, "String Table"): names, each followed by a zero byte, after one zero byte.

ghost use Rattle.std.specs.Prelude.{◌≡◌, ◌++◌, ◌∷◌, [], IfOk, OnOk, length};

use growth::{NoMemory, vec};
use std::alloc::Global;

/// An empty string table, with room for this many bytes.
pub(crate) fn no_names(alloc: Global, room: usize) -> Result<Vec<u8>, NoMemory>
    ensures { IfOk result (λ v. v.items ≡ 0 ∷ []) }
{
    let mut names = vec::with_capacity(alloc, room)?;
    vec::push(&mut names, 0)?;
    Ok(names)
}

/// Adds a name where there may be no room for it.
#[inline(never)]
fn grow_by_name(names: &mut Vec<u8>, name: &[u8]) -> Result<(), NoMemory>
    ensures { OnOk result (names.new.items ≡ names.old.items ++ name.now ++ 0 ∷ []) }
{
    vec::extend_from_slice(names, name)?;
    vec::push(names, 0)?;
    Ok(())
}

/// Adds a name, and returns where it begins.
#[inline(always)]
pub(crate) fn add_name(names: &mut Vec<u8>, name: &[u8]) -> Result<usize, NoMemory>
    ensures at { IfOk result (λ at. at ≡ length names.old.items) }
    ensures added { OnOk result (names.new.items ≡ names.old.items ++ name.now ++ 0 ∷ []) }
{
    let at = names.len();
    // where there is room, both calls are a few instructions
    if name.len() < names.capacity() - at {
        vec::extend_from_slice(names, name)?;
        names.push_reserved(0);
    } else {
        grow_by_name(names, name)?;
    }
    Ok(at)
}
