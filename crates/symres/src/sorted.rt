//! The names of a link in byte order.

ghost use Rattle.std.specs.Prelude.{◌≡◌, ◌<◌, ℕ, IfOk, List, length, map, slice_index_or};
ghost use Rattle.symres.specs.Sorted.{named_number, AreSorted};
ghost use Rattle.symres_decisions.specs.NameText.{AreInOrder, compared_number};

use crate::symbol_table::SymbolTable;
use growth::{NoMemory, vec};
use ldmodel::names::NameKey;
use std::alloc::Global;
use symres_decisions::decisions::Decisions;
use symres_decisions::law::names_of_objects;
use symres_decisions::name_text::NameText;
use symres_decisions::sorted_names::ComparedName;

/// A name and its key.
#[derive(Clone, Copy, Debug)]
pub struct NamedKey<'a> {
    /// The name.
    pub name: &'a [u8],
    /// The key of the name.
    pub key: NameKey,
}

/// The name at a place in a text, with its key.
fn named_at(text: &NameText, place: usize) -> NamedKey<'_>
    requires { place < length text.now }
    ensures { (e : List ℕ × ℕ) → named_number result ≡ slice_index_or text.now place e }
{
    NamedKey {
        name: text.name_at(place),
        key: text.key_at(place),
    }
}

/// The names of a text, each with its key.
fn written(alloc: Global, text: &NameText) -> Result<Vec<NamedKey<'_>>, NoMemory>
    ensures { IfOk result (λ list. map named_number list.items ≡ text.now) }
{
    let count = text.len();
    let mut list = vec::with_capacity(alloc, count)?;
    for place in 0..count {
        list.push_reserved(named_at(text, place));
    }
    Ok(list)
}

/// The names of a list with their keys.
fn named<'a>(alloc: Global, list: &[ComparedName<'a>]) -> Result<Vec<NamedKey<'a>>, NoMemory>
    ensures { IfOk result (λ named. map named_number named.items ≡ map compared_number list.now) }
{
    let mut names = vec::with_capacity(alloc, list.len())?;
    for compared in list {
        names.push_reserved(NamedKey {
            name: compared.name.name(),
            key: compared.key,
        });
    }
    Ok(names)
}

/// All known names in byte order, each with its key. They are sorted.
fn sorted_list(alloc: Global, decisions: &Decisions) -> Result<Vec<NamedKey<'_>>, NoMemory>
    ensures { IfOk result (λ list. AreInOrder decisions.now.names.order (map named_number list.items)) }
{
    let list = decisions.sorted(alloc)?;
    named(alloc, &list)
}

/// All known names in byte order, each with its key. They are sorted only if no text of them is kept.
fn in_byte_order(alloc: Global, decisions: &Decisions) -> Result<Vec<NamedKey<'_>>, NoMemory>
    ensures { IfOk result (λ list. AreInOrder decisions.now.names.order (map named_number list.items)) }
{
    match decisions.text() {
        Some(text) => written(alloc, text),
        None => sorted_list(alloc, decisions),
    }
}

impl SymbolTable {
    /// All known names in byte order, each with its key: all that objects declare are among them. They are sorted only
    /// if they were not put in order before.
    ///
    /// # Errors
    ///
    /// If memory runs out.
    pub fn sorted(&self, alloc: Global) -> Result<Vec<NamedKey<'_>>, NoMemory>
        ensures { IfOk result (λ list. AreSorted self.now list.items) }
    {
        // for the prover: brings in this law
        names_of_objects();
        // for the prover: brings in the invariant of `self.decisions`
        let _count = self.decisions.known();
        in_byte_order(alloc, &self.decisions)
    }
}
