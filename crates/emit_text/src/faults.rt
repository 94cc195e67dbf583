//! The text of many faults, with its room; `fault_line` spells each.

ghost use Rattle.std.specs.Prelude.{◌≡◌, ◌++◌, IfOk, OnOk};
ghost use Rattle.ldmodel.specs.FaultText.{fault_text};
ghost use Rattle.ldmodel_project.specs.ByPlace.{faults_in};
ghost use Rattle.emit_text.specs.Naming.{AreNamesOf};

use crate::fault_line::put_fault;
use crate::script_names::ScriptNames;
use growth::{NoMemory, vec};
use ldmodel::fault::Fault;
use ldmodel_project::view::ProjectView;
use std::alloc::Global;

/// The lines of these faults.
fn put_faults(
    text: &mut Vec<u8>,
    names: &ScriptNames<'_>,
    project: &ProjectView<'_>,
    faults: &[Fault],
) -> Result<(), NoMemory>
    requires { AreNamesOf project.now names.now }
    ensures { OnOk result (text.new.items ≡ text.old.items ++ fault_text (faults_in project.now faults.now)) }
{
    for fault in faults {
        put_fault(text, names, project, *fault)?;
    }
    Ok(())
}

/// Room for the line of a fault, if names are of common length. Room that is not used is not touched.
const FAULT_ROOM: usize = 64;

/// The text of these faults: a line for each, in this order. `names` are those of the project's script.
///
/// # Errors
///
/// If there is no memory for the text, the only memory that it takes.
pub fn render_faults(
    alloc: Global,
    faults: &[Fault],
    names: &ScriptNames<'_>,
    project: &ProjectView<'_>,
) -> Result<Vec<u8>, NoMemory>
    requires { AreNamesOf project.now names.now }
    ensures { IfOk result (λ text. text.items ≡ fault_text (faults_in project.now faults.now)) }
{
    let mut text = vec::with_capacity(alloc, faults.len().saturating_mul(FAULT_ROOM))?;
    put_faults(&mut text, names, project, faults)?;
    Ok(text)
}
