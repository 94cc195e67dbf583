//! What all names are in the output, each under its key.

ghost use Rattle.std.specs.Prelude.{◌≡◌, IfOk};
ghost use Rattle.emit_relocate.specs.KnownLink.{AreNameValues, KnownLink};
ghost use Rattle.emit_relocate.specs.LinkView.{IsLinkView};
ghost use Rattle.emit_relocate.specs.NameRows.{AreResolved, IsCaseUnder};

use crate::link_view::LinkView;
use crate::name_row::name_row;
use crate::object_table::ObjectTable;
use crate::symbol_row::SymbolRow;
use crate::value::SymbolValue;
use growth::{NoMemory, vec};
use ldmodel::names::{Case, NameKey, ObjectPlace};
use std::alloc::Global;

/// All names of the output, each under its key. A row under a key without a name has no meaning.
#[derive(Drop)]
pub(crate) struct NameRows {
    /// What they are.
    pub rows: Vec<SymbolRow>,
    /// Their values.
    pub values: Vec<SymbolValue>,
}

/// The resolution of the name of a key. Without a name it has no meaning.
fn case_under(link: &LinkView<'_, '_>, key: NameKey) -> Case<ObjectPlace>
    ensures { (l : KnownLink) → IsLinkView l link.now → IsCaseUnder l key.0 result }
{
    match link.case(key) {
        None => Case::Undefined,
        Some(case) => case,
    }
}

/// What all names are. Each object is looked up once, whatever the number and the order of the names that it defines.
///
/// # Errors
///
/// If memory runs out.
pub(crate) fn name_rows(alloc: Global, link: &LinkView<'_, '_>) -> Result<NameRows, NoMemory>
    ensures rows { IfOk result (λ x. (l : KnownLink) → IsLinkView l link.now → AreResolved l x.rows.items) }
    ensures values { IfOk result (λ x. (l : KnownLink) → IsLinkView l link.now → AreNameValues l x.values.items) }
{
    let objects = ObjectTable::of(alloc, link)?;
    let limit = link.name_limit();
    let mut values = vec::with_capacity(alloc, limit)?;
    let mut rows = vec::with_capacity(alloc, limit)?;
    for key in 0..limit {
        let case = case_under(link, NameKey(key));
        let row = name_row(link, &objects, case, NameKey(key))?;
        values.push_reserved(row.value());
        rows.push_reserved(row);
    }
    Ok(NameRows { rows, values })
}
