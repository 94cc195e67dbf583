//! Links without faults, as laws on two links ask for them.

ghost use Rattle.std.specs.Prelude.{◌≡◌, ◌≤◌, []};
ghost use Rattle.ldmodel_laws.specs.Untouched.{IsGood};
ghost use Rattle.place.specs.LinkLayout.{IsLinkLayout};
ghost use Rattle.ldmodel.specs.Layout.{Layout};
ghost use Rattle.ldmodel.specs.Link.{max_image_length};
ghost use Rattle.ldmodel.specs.Relocations.{relocation_faults};
ghost use Rattle.ldmodel.specs.SectionHeaders.{image_length};

use ldmodel_laws::stayed::faultless_is_good;
use ldmodel_project::view::ProjectView;
use place::LinkLayout;
use place::numbered::are_numbered;

/// A law: a link whose image is not too long and whose relocations have no faults is good. The call visits each object
/// once, and changes nothing.
pub fn faultless_link_is_good(project: &ProjectView<'_>, link_layout: &LinkLayout)
    ensures { (layout : Layout) → IsLinkLayout project.now layout link_layout.now → image_length project.now layout
        ≤ max_image_length
        → relocation_faults project.now layout ≡ [] → IsGood (record { project = project.now; layout = layout }) }
{
    // for the prover: brings in this law
    faultless_is_good();
    // for the prover: brings in the invariant of `project`
    let _inputs = project.inputs();
    project.objects_are_read();
    are_numbered(project);
}
