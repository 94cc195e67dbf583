//! The fault lines of a link, with the names of its script; `emit_text::faults` writes them.

ghost use Rattle.std.specs.Prelude.{◌≡◌, IfOk};
ghost use Rattle.ldmodel.specs.FaultText as definition;
ghost use Rattle.ldmodel_project.specs.ByPlace.{faults_in};

use emit_text::assertion::assertions;
use emit_text::faults;
use emit_text::script_names::ScriptNames;
use growth::NoMemory;
use ldmodel::fault::Fault;
use ldmodel_project::view::ProjectView;
use place::terms::mentioned::mentioned_names;
use std::alloc::Global;

/// The lines of these faults of the link of a project, in their order.
///
/// # Errors
///
/// If memory runs out.
pub fn fault_text(
    alloc: Global,
    project: &ProjectView<'_>,
    faults: &[Fault],
) -> Result<Vec<u8>, NoMemory>
    ensures { IfOk result (λ text. text.items ≡ definition.fault_text (faults_in project.now faults.now)) }
{
    let script = project.script();
    let sections = script.output_sections(alloc)?;
    let regions = script.regions(alloc)?;
    let commands = script.all_directives(alloc)?;
    let assertions = assertions(alloc, &commands)?;
    let mentioned = mentioned_names(alloc, script.statements())?;
    let names = ScriptNames {
        sections: &sections,
        regions: &regions,
        assertions: &assertions,
        mentioned: &mentioned,
        entry: project.entry_symbol(),
    };
    faults::render_faults(alloc, faults, &names, project)
}
