//! Which input sections are live.

ghost use Rattle.std.specs.Prelude.{◌≡◌, IfOk, map, true};
ghost use Rattle.gather.specs.GatheredSections.{AreGathered};
ghost use Rattle.gather.specs.LiveMarks.{marked};
ghost use Rattle.ldmodel.specs.Gathering.{is_discarded};
ghost use Rattle.ldmodel.specs.InputSections.{input_sections};
ghost use Rattle.ldmodel.specs.Live.{live};
ghost use Rattle.symres.specs.SymbolTable.{IsSymbolTable};
ghost use Rattle.gather.specs.SectionTable.{IsTableOf};

use crate::by_key::places_by_key;
use crate::gathered_section::GatheredSection;
use crate::input_section_table::InputSectionTable;
use crate::marking::mark;
use crate::places::{Places, places_of};
use crate::referring::ProjectReferences;
use crate::roots::roots;
use crate::targets::entry_section;
use growth::NoMemory;
use ldmodel_project::view::ProjectView;
use std::alloc::Global;
use symres::SymbolTable;

/// Marks the live sections of a project that collects: those that the program needs. `out` says of each section whether
/// it is discarded. The relocations of the other sections are not gone through.
///
/// # Errors
///
/// If memory runs out.
pub(crate) fn mark_live(
    alloc: Global,
    project: &ProjectView<'_>,
    symbol_table: &SymbolTable,
    table: &InputSectionTable,
    sections: &[GatheredSection],
    out: &[bool],
) -> Result<Vec<bool>, NoMemory>
    requires symbol_table { IsSymbolTable project.now symbol_table.now }
    requires table { IsTableOf project.now table.now }
    requires collected { project.now.options.gc ≡ true }
    requires sections { AreGathered project.now sections.now }
    requires out { out.now ≡ map (is_discarded project.now) (input_sections project.now) }
    ensures { IfOk result (λ marks. marked marks.items (input_sections project.now) ≡ live project.now) }
{
    let column = places_of(alloc, project, table, sections)?;
    let places = Places {
        table: &*table,
        places: &column,
    };
    let entry = places.find(entry_section(project, symbol_table));
    let roots = roots(alloc, project.script(), sections, entry)?;
    let by_key = places_by_key(alloc, project, symbol_table, &places)?;
    let references = ProjectReferences {
        project,
        symbol_table,
        places: &places,
        by_key: &by_key,
        sections,
    };
    mark(alloc, out, &roots, &references)
}
