//! The trait of linkers.

ghost use Rattle.std.specs.Prelude.{◌≡◌, IfOk, IfErr, OnOk, OnErr, Ok};
ghost use Rattle.elfobj.specs.Counts.{Counts};
ghost use Rattle.ldmodel.specs.EditMeaning.{change_of, linked_of, refusal_of};
ghost use Rattle.ldmodel.specs.Edits.{Change, After, RefusedAs};
ghost use Rattle.ldmodel.specs.Link.{link};
ghost use Rattle.ldmodel.specs.Project.{Project};

use crate::edit::{Edit, EditRefusal, LinkSummary};
use elfobj::Meter;

/// A linker holds a project, changes it by edits, and has its link.
pub trait Linker {
    /// The project that the linker holds.
    ghost project: { Self → Project };

    /// The bound on what an accepted edit counts, over the project before it, the edit, the project after it, and the
    /// counts of the meter before and after.
    ghost bound: { Project → Change → Project → Counts → Counts → Type 0 };

    /// Makes an edit, and links the next project.
    ///
    /// # Errors
    ///
    /// The refusal; nothing has changed then. `NoMemory` never replaces `InUse`, `Unknown`, `PastEnd` or `Limit`.
    fn apply(&mut self, edit: Edit<'_>, meter: &mut Meter) -> Result<LinkSummary, EditRefusal>
        ensures accepted { IfOk result (λ l. After (project self.old) (change_of edit.entry) (Ok (project self.new))) }
        ensures linked { IfOk result (λ l. l ≡ linked_of (link (project self.new))) }
        ensures counted { OnOk result (bound (project self.old) (change_of edit.entry) (project self.new) meter.old
            meter.new) }
        ensures refused { IfErr result (λ r. RefusedAs (project self.old) (change_of edit.entry) (refusal_of r)) }
        ensures unchanged { OnErr result (project self.new ≡ project self.old) };

    /// The image of the link; empty if the link has faults.
    fn image(&self) -> &[u8]
        ensures { result.now ≡ (link (project self.now)).image };

    /// The map of the link; empty if the link has faults.
    fn map(&self) -> &[u8]
        ensures { result.now ≡ (link (project self.now)).map };

    /// The fault lines of the link; empty if it has no faults.
    fn faults(&self) -> &[u8]
        ensures { result.now ≡ (link (project self.now)).faults };

    /// 0 if the link has no faults, else 1.
    fn status(&self) -> u8
        ensures { result ≡ (link (project self.now)).status };
}
