//! Edits that put an object over the same one.

ghost use Rattle.std.specs.Prelude.{◌≡◌, false, true};
ghost use Rattle.ldmodel_project.specs.ProjectState.{EditsOne, held, next_listing, project_of};
ghost use Rattle.ldmodel_project.specs.Listing.{objects_of};
ghost use Rattle.ldmodel_project.specs.Next.{Fits};
ghost use Rattle.ldmodel_project.specs.Edited.{ChangesOneObject};
ghost use Rattle.relink.specs.PreviousLink.{PutsByName, PutsNoneOf, PutsSame};

use ldmodel_project::named::NamedObject;
use ldmodel_project::project::Project;
use ldmodel_project::staged::Staged;

/// Whether two objects have one name and the same bytes.
fn are_same(a: &NamedObject, b: &NamedObject) -> bool
    ensures same { result ≡ true → a.now ≡ b.now }
    ensures other { result ≡ false → b.now.name ≡ a.now.name → b.now.object.text ≡ a.now.object.text → ⊥ }
{
    if a.name() != b.name() {
        return false;
    }
    a.object().data() == b.object().data()
}

/// Whether an edit puts an object over one of the same name and bytes. If not, what it puts is none of the objects that
/// are there.
pub(crate) fn puts_same(project: &Project, staged: &Staged) -> bool
    requires fits { Fits project.now.contents staged.now.objects }
    ensures same { result ≡ true → PutsSame project.now.contents.entries staged.now.objects.step }
    ensures other { result ≡ false
        → PutsNoneOf (objects_of project.now.contents.entries) staged.now.objects.step }
    ensures named { PutsByName project.now.contents.entries staged.now.objects.step }
{
    // for the prover: brings in the invariant of `project`
    let _keys = project.keys();
    // for the prover: brings in what stands under each key after the edit
    let _next = project.next(staged);
    let Some((key, named)) = staged.put() else {
        return false;
    };
    let Some(old) = project.named(key) else {
        return false;
    };
    are_same(named, old)
}

/// Whether an edit that puts an object over the same one leaves it in its place: then it changes nothing.
pub(crate) fn is_unchanged(project: &Project, staged: &Staged, same: bool) -> bool
    requires fits { Fits project.now.contents staged.now.objects }
    requires arranged { ChangesOneObject project.now.contents.entries staged.now.objects }
    requires one { EditsOne staged.now }
    requires same { same ≡ true → PutsSame project.now.contents.entries staged.now.objects.step }
    ensures nothing { result ≡ true → project_of (next_listing project.now staged.now) ≡ held project.now }
    ensures in_place { same ≡ true → staged.now.objects.places.before ≡ staged.now.objects.places.after → result
        ≡ true }
{
    // for the prover: brings in what stands under each key after the edit
    let _next = project.next(staged);
    same && staged.place_before() == staged.place_after()
}
