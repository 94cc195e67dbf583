//! What both the view of a link and its values need: the values that the script gives names, and the order of all
//! names.

ghost use Rattle.std.specs.Prelude.{IfOk};

use crate::script_values::ScriptValues;
use growth::NoMemory;
use ldmodel_project::view::ProjectView;
use place::LinkLayout;
use std::alloc::Global;
use symres::SymbolTable;
use symres::sorted::NamedKey;

/// The values that the script gives names, and all names that objects declare in byte order.
#[derive(Drop)]
pub struct GivenValues<'a> {
    pub(crate) values: ScriptValues<'a>,
    pub(crate) sorted: Vec<NamedKey<'a>>,
}

impl<'a> GivenValues<'a> {
    ghost use Rattle.emit_relocate.specs.Given.{IsGiven};

    /// The values and the names of a project with these names and this layout.
    ///
    /// # Errors
    ///
    /// If memory runs out.
    pub fn of(
        alloc: Global,
        project: &'a ProjectView<'_>,
        symbol_table: &'a SymbolTable,
        link_layout: &LinkLayout,
    ) -> Result<GivenValues<'a>, NoMemory>
        ensures { IfOk result (IsGiven project.now symbol_table.now link_layout.now) }
    {
        let script = project.script();
        let values = ScriptValues::of(alloc, script, &link_layout.placement)?;
        let sorted = symbol_table.sorted(alloc)?;
        Ok(GivenValues { values, sorted })
    }
}
