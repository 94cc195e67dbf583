//! The link of files.

ghost use Rattle.std.specs.Prelude.{◌≡◌, ◌+◌, ◌<◌, ◌^◌, IfErr, IfOk, Ok, OnOk, false};
ghost use Rattle.ldmodel.specs.EditMeaning.{change_of};
ghost use Rattle.ldmodel.specs.Edits.{Add, After};
ghost use Rattle.ldmodel.specs.Link.{link};
ghost use Rattle.ldmodel.specs.LinkCommand.{LinkAnswers, Linking};
ghost use Rattle.ldmodel_project.specs.ProjectState.{held};
ghost use Rattle.relink_driver.specs.Answer.{answer_of, file_of, files_of};
ghost use Rattle.relink_driver.specs.Adding.{Adds, EndsAt, Prepares};
ghost use Rattle.relink_driver.specs.WithoutMap.{ShownAnswers, shown};

use crate::fault::LinkFault;
use crate::file::ObjectFile;
use crate::from_scratch;
use crate::output::Output;
use growth::NoMemory;
use ldmodel::edit::{Edit, EditRefusal};
use ldmodel::meter::Meter;
use ldmodel::options::Options;
use ldmodel_project::project::Project;
use std::alloc::Global;
use std::hash::RandomState;

/// Makes the edit at a place among those of a link.
fn apply_edit(project: &mut Project, input: usize, edit: Edit<'_>) -> Result<(), LinkFault>
    ensures accepted { OnOk result (After (held project.old) (change_of edit.entry) (Ok (held project.new))) }
    ensures refused { IfErr result (EndsAt input (held project.old) (change_of edit.entry)) }
{
    match project.edit(edit) {
        Ok(()) => Ok(()),
        Err(EditRefusal::NoMemory(no_memory)) => Err(LinkFault::Memory(no_memory)),
        Err(why) => Err(LinkFault::Refused { input, why }),
    }
}

/// Adds an object after the first `at` ones.
fn add(project: &mut Project, at: usize, file: ObjectFile) -> Result<(), LinkFault>
    requires { at + 1 < 2 ^ 64 }
    ensures accepted { OnOk result (After (held project.old)
        (Add (file_of file).word at (file_of file).bytes) (Ok (held project.new))) }
    ensures refused { IfErr result (EndsAt (at + 1) (held project.old)
        (Add (file_of file).word at (file_of file).bytes)) }
{
    let ObjectFile { word, bytes } = file;
    apply_edit(
        project,
        at + 1,
        Edit::Add {
            name: &word,
            at: at as u64,
            bytes,
        },
    )
}

/// Adds objects in their order to a project without any.
fn add_all(project: &mut Project, objects: Vec<ObjectFile>) -> Result<(), LinkFault>
    ensures { Adds (held project.old) (files_of objects.items) (held project.new) result }
{
    let mut count = 0;
    for file in objects {
        add(project, count, file)?;
        count += 1;
    }
    Ok(())
}

/// The project of a script and objects.
fn project_of(
    alloc: Global,
    script: &[u8],
    objects: Vec<ObjectFile>,
    options: Options,
) -> Result<Project, LinkFault>
    ensures { Prepares options script.now (files_of objects.items) result }
{
    let mut project = Project::new(alloc, options);
    apply_edit(&mut project, 0, Edit::Script { text: script })?;
    add_all(&mut project, objects)?;
    Ok(project)
}

/// The link of a project, with its map or without. Fails if memory runs out.
fn link_project(
    alloc: Global,
    seed: RandomState,
    project: &Project,
    with_map: bool,
) -> Result<Output, NoMemory>
    ensures { IfOk result (λ o. o ≡ shown with_map (link (held project.now))) }
{
    let inputs = project.inputs(alloc)?;
    from_scratch::link(
        alloc,
        seed,
        &project.view(&inputs),
        with_map,
        &mut Meter::new(),
    )
}

/// Links files, with the map of the link or without.
fn link_files(
    alloc: Global,
    seed: RandomState,
    script: &[u8],
    objects: Vec<ObjectFile>,
    options: Options,
    with_map: bool,
) -> Result<Output, LinkFault>
    ensures { ShownAnswers with_map options script.now (files_of objects.items) (answer_of result) }
{
    match project_of(alloc, script, objects, options) {
        Err(fault) => Err(fault),
        Ok(project) => match link_project(alloc, seed, &project, with_map) {
            Err(no_memory) => Err(LinkFault::Memory(no_memory)),
            Ok(output) => Ok(output),
        },
    }
}

/// Links files: sets the script, adds the objects in their order, each under its word, and links once. `seed` is for
/// hash tables; nothing of the link depends on it.
///
/// # Errors
///
/// `Refused` with the first edit that is refused; `Memory` if memory runs out.
pub fn link(
    alloc: Global,
    seed: RandomState,
    script: Vec<u8>,
    objects: Vec<ObjectFile>,
    options: Options,
) -> Result<Output, LinkFault>
    ensures { LinkAnswers options script.items (files_of objects.items) (answer_of result) }
{
    link_files(alloc, seed, &script, objects, options, true)
}

/// Links files as `link` does, and makes no map: the status, the image, the fault lines and the refusals are the same.
///
/// # Errors
///
/// As `link`.
pub fn link_without_map(
    alloc: Global,
    seed: RandomState,
    script: Vec<u8>,
    objects: Vec<ObjectFile>,
    options: Options,
) -> Result<Output, LinkFault>
    ensures { ShownAnswers false options script.items (files_of objects.items) (answer_of result) }
{
    link_files(alloc, seed, &script, objects, options, false)
}
