//! The trait of linkers that link when they are asked.

ghost use Rattle.std.specs.Prelude.{◌≡◌, IfOk, IfErr, OnOk, OnErr, Ok};
ghost use Rattle.ldmodel.specs.EditMeaning.{change_of, linked_of, refusal_of};
ghost use Rattle.ldmodel.specs.Edits.{After, RefusedAs};
ghost use Rattle.ldmodel.specs.Link.{Link, link};
ghost use Rattle.ldmodel.specs.Project.{Project};

use elfobj::Meter;
use growth::NoMemory;
use ldmodel::edit::{Edit, EditRefusal, LinkSummary};

/// A linker that holds a project, changes it by edits, and links it when it is asked. The queries are of its last link.
pub trait DeferredLinker {
    /// The project that the linker holds.
    ghost project: { Self → Project };

    /// Its last link; before the first that of the project without objects.
    ghost last: { Self → Link };

    /// Makes an edit. Nothing is linked.
    ///
    /// # Errors
    ///
    /// The refusal; the project is then as before. `NoMemory` never replaces `InUse`, `Unknown`, `PastEnd` or `Limit`.
    fn stage(&mut self, edit: Edit<'_>, meter: &mut Meter) -> Result<(), EditRefusal>
        ensures accepted { OnOk result (After (project self.old) (change_of edit.entry) (Ok (project self.new))) }
        ensures refused { IfErr result (λ r. RefusedAs (project self.old) (change_of edit.entry) (refusal_of r)) }
        ensures unchanged { OnErr result (project self.new ≡ project self.old) }
        ensures unlinked { last self.new ≡ last self.old };

    /// Links the project.
    ///
    /// # Errors
    ///
    /// If memory runs out; the last link stays.
    fn make_link(&mut self, meter: &mut Meter) -> Result<LinkSummary, NoMemory>
        ensures linked { IfOk result (λ l. l ≡ linked_of (link (project self.old))) }
        ensures last { OnOk result (last self.new ≡ link (project self.old)) }
        ensures unlinked { OnErr result (last self.new ≡ last self.old) }
        ensures project { project self.new ≡ project self.old };

    /// The image of the last link; empty if the link has faults.
    fn image(&self) -> &[u8]
        ensures { result.now ≡ (last self.now).image };

    /// The map of the last link; empty if the link has faults.
    fn map(&self) -> &[u8]
        ensures { result.now ≡ (last self.now).map };

    /// The fault lines of the last link; empty if it has no faults.
    fn faults(&self) -> &[u8]
        ensures { result.now ≡ (last self.now).faults };

    /// 0 if the last link has no faults, else 1.
    fn status(&self) -> u8
        ensures { result ≡ (last self.now).status };
}
