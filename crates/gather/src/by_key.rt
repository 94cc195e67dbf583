//! The sections that names are defined in, by the keys of the names.

ghost use Rattle.std.specs.Prelude.{◌≡◌, IfOk, option_and_then};
ghost use Rattle.std.specs.Option.{option_map};
ghost use Rattle.gather.specs.SectionPlaces.{AreKeyPlaces, AreProjectPlaces, place_in};
ghost use Rattle.ldmodel.specs.CodeValues.{decision_of, section_id};
ghost use Rattle.ldmodel.specs.Live.{section_of_decision};
ghost use Rattle.symres.specs.Decided.{case_at};
ghost use Rattle.symres.specs.SymbolTable.{IsSymbolTable};

use crate::places::Places;
use crate::targets::section_of_case;
use growth::{NoMemory, vec};
use ldmodel::names::NameKey;
use ldmodel::sections::SectionRef;
use ldmodel_project::view::ProjectView;
use std::alloc::Global;
use symres::SymbolTable;

/// The section that the name of a key is defined in, if it is in one.
fn section_of_key(
    project: &ProjectView<'_>,
    symbol_table: &SymbolTable,
    key: NameKey,
) -> Option<SectionRef>
    ensures { option_map (section_id (λ key. key)) result
        ≡ option_and_then (section_of_decision project.now)
        (option_map (decision_of (λ key. key)) (case_at symbol_table.now.cases key.0)) }
{
    let case = symbol_table.case_of(key)?;
    section_of_case(project, case)
}

/// For each key of a name the place of the section that the name is defined in, if it is in one. Each name is looked up
/// once, however many relocations refer to it.
///
/// # Errors
///
/// If memory runs out.
pub(crate) fn places_by_key(
    alloc: Global,
    project: &ProjectView<'_>,
    symbol_table: &SymbolTable,
    places: &Places<'_>,
) -> Result<Vec<Option<usize>>, NoMemory>
    requires places { AreProjectPlaces project.now (place_in places.now) }
    ensures { IfOk result (λ column. AreKeyPlaces project.now symbol_table.now column.items) }
{
    let limit = symbol_table.limit();
    let mut column = vec::with_capacity(alloc, limit)?;
    for key in 0..limit {
        let section = section_of_key(project, symbol_table, NameKey(key));
        vec::push(&mut column, places.find(section))?;
    }
    Ok(column)
}
