//! What reading the objects of a project has tested, for the prover.

ghost use Rattle.std.specs.Prelude.{All};
ghost use Rattle.ldmodel.specs.Edits.{AreNamesDistinct};
ghost use Rattle.ldmodel.specs.Project.{NamedObject};
ghost use Rattle.emit.specs.Numbered.{IsRead};

use elfobj::Object;
use elfobj::section::LinkedIndex;
use ldmodel_project::view::ProjectView;

/// What reading an object has tested. The call does nothing.
fn as_read(object: &Object)
    ensures { IsRead object.now }
{
    // for the prover: brings in the invariant of `object`, of its bytes
    let _data = object.data();
    if object.sections().is_empty() {
        return;
    }
    // for the prover: brings in the invariant of `object`, of its relocations
    let _relocations = object.relocations(LinkedIndex(0));
}

/// What reading the objects of a project has tested, and that no two have one name. The call only goes over them.
pub(crate) fn objects_are_read(project: &ProjectView<'_>)
    ensures read { All (λ (object : NamedObject). IsRead object.object) project.now.objects }
    ensures distinct { AreNamesDistinct project.now.objects }
{
    let inputs = project.inputs();
    for input in inputs {
        // for the prover: brings in this law
        as_read(input.object);
    }
}
