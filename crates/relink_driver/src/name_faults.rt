//! Links that end with faults of names.

ghost use Rattle.std.specs.Prelude.{◌≡◌, [], IfOk, IfSome};
ghost use Rattle.ldmodel.specs.Link.{link};
ghost use Rattle.ldmodel.specs.Project.{Project};
ghost use Rattle.symres.specs.SymbolTable.{IsSymbolTable};

use crate::pass_end::{PassEnd, end_if_faulty};
use emit::fault_text;
use growth::NoMemory;
use ldmodel::fault::Fault;
use ldmodel::options::Options;
use ldmodel_project::view::ProjectView;
use ldscript::Script;
use std::alloc::Global;
use symres::SymbolTable;

/// The fault lines of the names of a project, if they have faults. The link then gives nothing else, and nothing else
/// need be prepared for it.
///
/// # Errors
///
/// If memory runs out.
#[tactic(auto, unfolding(ldmodel::specs::Link::link))]
pub fn name_fault_lines(
    alloc: Global,
    project: &ProjectView<'_>,
    symbol_table: &SymbolTable,
) -> Result<Option<Vec<u8>>, NoMemory>
    requires { IsSymbolTable project.now symbol_table.now }
    ensures { IfOk result (λ lines. IfSome lines (λ text.
        link project.now ≡ record { status = 1; image = []; map = []; faults = text.items })) }
{
    let faults = symbol_table.faults(alloc, project)?;
    match end_if_faulty(alloc, project, &faults) {
        Ok(()) => Ok(None),
        Err(PassEnd::Faulty(lines)) => Ok(Some(lines)),
        Err(PassEnd::NoMemory(no_memory)) => Err(no_memory),
    }
}

/// The project without objects that has this script and these options.
fn without_objects<'a>(script: &'a Script, options: &'a Options) -> ProjectView<'a>
    ensures { result ≡ record { objects = []; script = script.now; options = options.now } }
{
    ProjectView::new(&[], script, options)
}

/// The fault line of an undefined entry symbol, if that is the only fault of the project's names, as in most links
/// while a project is opened. No object is looked at.
///
/// # Errors
///
/// If memory runs out.
pub fn entry_fault_line(
    alloc: Global,
    script: &Script,
    options: &Options,
    symbol_table: &SymbolTable,
) -> Result<Option<Vec<u8>>, NoMemory>
    ensures { IfOk result (λ line. IfSome line (λ text. (project : Project)
        → IsSymbolTable project symbol_table.now → project.script ≡ script.now → project.options ≡ options.now
        → link project ≡ record { status = 1; image = []; map = []; faults = text.items })) }
{
    // the name of the entry symbol is all that the line needs of the project
    let view = without_objects(script, options);
    if !symbol_table.lacks_entry_alone(&view) {
        return Ok(None);
    }
    let text = fault_text(alloc, &view, &[Fault::UndefinedEntry])?;
    Ok(Some(text))
}
