//! A law on the objects of a project: the sections of each have different numbers.

ghost use Rattle.std.specs.Prelude.{◌≡◌, ◌==◌, false};
ghost use Rattle.elfobj.specs.Sections.{LinkedSection};
ghost use Rattle.ldmodel_laws.specs.PlacedOnce.{AreNumbered};
ghost use Rattle.ldmodel_laws.specs.Spread.{EachLater};

use elfobj::Object;
use ldmodel_project::view::ProjectView;

/// The sections of an object that was read have different numbers. The call does nothing.
fn sections_differ(object: &Object)
    ensures { EachLater (λ (section y : LinkedSection). (section.number.0 == y.number.0) ≡ false) object.now.sections }
{
    // for the prover: brings in the invariant of `object`, of its sections
    let _sections = object.sections();
}

/// The sections of each object of a project have different numbers. The call changes nothing, but looks at each object.
pub fn are_numbered(project: &ProjectView<'_>)
    ensures { AreNumbered project.now }
{
    for input in project.inputs() {
        sections_differ(input.object);
    }
}
