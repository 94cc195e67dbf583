//! All known names in byte order, sorted once, by numbers made of their first bytes.

ghost use Rattle.std.specs.Prelude.{◌≡◌, IfOk, map};
ghost use Rattle.symres_decisions.specs.NameText.{AreInOrder, compared_number};

use growth::{NoMemory, vec};
use ldmodel::names::NameKey;
use std::alloc::Global;
use symres_table::names::Names;
use symres_table::prefix_key::KeyedName;

/// A name that is quick to compare, and its key.
#[derive(Drop)]
pub struct ComparedName<'a> {
    /// The name.
    pub name: KeyedName<'a>,
    /// The key of the name.
    pub key: NameKey,
}

/// All known names, as they are listed.
fn listed_names(alloc: Global, names: &Names) -> Result<Vec<ComparedName<'_>>, NoMemory>
    ensures { IfOk result (λ list. map compared_number list.items ≡ names.now.order) }
{
    let mut list = vec::with_capacity(alloc, names.known())?;
    for (name, key) in names.listed() {
        vec::push(
            &mut list,
            ComparedName {
                name: KeyedName::new(name.as_slice()),
                key: NameKey(*key),
            },
        )?;
    }
    Ok(list)
}

/// All known names in byte order.
///
/// # Errors
///
/// If memory runs out.
pub fn sorted_names(alloc: Global, names: &Names) -> Result<Vec<ComparedName<'_>>, NoMemory>
    ensures { IfOk result (λ list. AreInOrder names.now.order (map compared_number list.items)) }
{
    let mut list = listed_names(alloc, names)?;
    vec::sort_by(&mut list, |x, y| x.name.cmp(&y.name))?;
    Ok(list)
}
