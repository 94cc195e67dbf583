//! Laws of the work of sessions.

ghost use Rattle.std.specs.Prelude.{◌≡◌, List, false, true};
ghost use Rattle.ldmodel.specs.Edits.{Change};
ghost use Rattle.ldmodel.specs.Project.{Project};
ghost use Rattle.elfobj.specs.Counts.{Counts};
ghost use Rattle.relink.specs.Deferred.{Deferred};
ghost use Rattle.relink.specs.DeferredWork.{AreEdits, EditStep, IsLinkingWork, IsStagingWork};
ghost use Rattle.relink.specs.DeferredWork.{IsWorkOfEditsAndLink, IsWorkOfOpening};
ghost use Rattle.relink.specs.Work.{AreSmall, IsWholeWork};

/// An edit of a deferred session right after a link, and the next link, count together what an edit of a `Session`
/// counts: within the bound of an incremental linker, and exactly what was worked out.
pub fn staged_and_linked()
    ensures { (project : Project) (change : Change) (next : Deferred) (before between after : Counts)
        → IsStagingWork project change next before between → IsLinkingWork next between after
        → IsWholeWork project change next.project before after }
{}

/// Edits of a deferred session and one link after them, where the names are resolved, as they are from the first link
/// on: each object that an edit brings is read once, and no other, at the link neither; at most the names of each edit
/// are decided; and the link alone places, evaluates and writes.
pub fn edits_and_link()
    ensures { (old last : Deferred) (steps : List EditStep) (before between after : Counts)
        → old.is_resolved ≡ true → AreSmall before → AreEdits old before steps last between
        → IsLinkingWork last between after
        → IsWorkOfEditsAndLink old.project steps before between after }
{}

/// While a project is opened, and its names are not resolved yet, edits count the objects that they bring, each once,
/// and nothing else.
pub fn edits_of_opening()
    ensures { (old last : Deferred) (steps : List EditStep) (before after : Counts)
        → last.is_resolved ≡ false → AreSmall before → AreEdits old before steps last after
        → IsWorkOfOpening steps before after }
{}
