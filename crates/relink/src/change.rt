//! What a staged edit changes under the key of the object that it touches.

ghost use Rattle.std.specs.Prelude.{◌≡◌, Some};
ghost use Rattle.std.specs.Option.{option_copied};
ghost use Rattle.ldmodel_project.specs.ProjectState.{next_listing};
ghost use Rattle.ldmodel_project.specs.Next.{edited_key};
ghost use Rattle.ldmodel_project.specs.Edited.{ChangesOneObject};
ghost use Rattle.relink.specs.Change.{IsChange, beside, place_at, shown_at};

use elfobj::Object;
use ldmodel::names::ObjectKey;
use ldmodel_project::law::{found_where_placed, tables_follow};
use ldmodel_project::project::{Next, Project};
use ldmodel_project::staged::Staged;
use symres::decisions::change::{ObjectAt, ObjectChange, undone};

/// An object at a place, if there are both.
fn object_at<'a>(place: Option<usize>, object: Option<&'a Object>) -> Option<ObjectAt<'a>>
    ensures { shown_at result ≡ beside place (option_copied object.entry) }
{
    let place = place?;
    let object = object?;
    Some(ObjectAt { place, object })
}

/// The place of an object, if there is one.
pub(crate) fn place_of(at: Option<ObjectAt<'_>>) -> Option<usize>
    ensures { result ≡ place_at at.entry }
{
    let at = at?;
    Some(at.place)
}

/// What goes and what comes under the key of the object that an edit touches.
pub(crate) fn object_change<'a>(
    project: &'a Project,
    next: &Next<'a>,
    staged: &'a Staged,
    key: ObjectKey,
) -> ObjectChange<'a>
    requires next { next.now ≡ next_listing project.now staged.now }
    requires arranged { ChangesOneObject project.now.contents.entries staged.now.objects }
    requires edited { edited_key staged.now.objects.step ≡ Some key.0 }
    ensures { IsChange project.now.contents.entries staged.now.objects key.0 result }
{
    // for the prover: brings in the laws of edited tables, of keys with a place, and of a change taken back
    tables_follow();
    found_where_placed();
    undone();
    ObjectChange {
        key,
        out: object_at(staged.place_before(), project.object(key)),
        into: object_at(staged.place_after(), next.object(key)),
    }
}
