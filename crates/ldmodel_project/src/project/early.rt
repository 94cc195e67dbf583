//! The refusals of an edit for which neither an object nor a script is read, and where the edit is to be made.

ghost use Rattle.std.specs.Prelude.{◌≡◌, ◌≤◌, ◌<◌, ◌||◌, None, Some, IfOk, IfErr, length, not};
ghost use Rattle.ldmodel.specs.EditMeaning.{refusal_of};
ghost use Rattle.ldmodel.specs.Edits.{Add, Replace, Move, Remove, SetScript, early_refusal, is_full, is_object_name};
ghost use Rattle.ldmodel.specs.Edits.{is_too_long, place_of};
ghost use Rattle.ldmodel_project.specs.ProjectState.{held};
ghost use Rattle.ldmodel_project.specs.Listing.{objects_of};

use crate::edit::{is_object_name, is_too_long};
use crate::keyed_objects::KeyedObjects;
use crate::project::Project;
use ldmodel::edit::{EditRefusal, MAX_OBJECTS};

impl KeyedObjects {
    /// Whether no more object may be added.
    #[tactic(auto, unfolding(ldmodel::specs::Edits::is_full))]
    fn is_full(&self) -> bool
        ensures { result ≡ is_full (objects_of self.now.entries) }
    {
        self.len() >= MAX_OBJECTS
    }

    /// Whether the name, the bytes or one more object is outside the limits.
    fn is_over_limit(&self, name: &[u8], bytes: &[u8]) -> bool
        ensures { result ≡ (not (is_object_name name.now) || is_too_long bytes.now
            || is_full (objects_of self.now.entries)) }
    {
        !is_object_name(name) || is_too_long(bytes) || self.is_full()
    }
}

impl Project {
    /// The place of a new object.
    #[tactic(auto, unfolding(ldmodel::specs::Edits::early_refusal))]
    pub(crate) fn place_to_add(
        &self,
        name: &[u8],
        at: u64,
        bytes: &[u8],
    ) -> Result<usize, EditRefusal>
        ensures ok { IfOk result (λ place. early_refusal (held self.now) (Add name.now at bytes.now) ≡ None) }
        ensures place { IfOk result (λ place. (place ≡ at) × (place ≤ length self.now.contents.entries)) }
        ensures unused { IfOk result (λ place. place_of (objects_of self.now.contents.entries) name.now ≡ None) }
        ensures named { IfOk result (λ _. 0 < length name.now) }
        ensures err { IfErr result (λ r. early_refusal (held self.now) (Add name.now at bytes.now)
            ≡ Some (refusal_of r)) }
    {
        if let Some(_) = self.kept.place_of(name) {
            return Err(EditRefusal::InUse);
        }
        if (self.kept.len() as u64) < at {
            return Err(EditRefusal::PastEnd);
        }
        if self.kept.is_over_limit(name, bytes) {
            return Err(EditRefusal::Limit);
        }
        Ok(at as usize)
    }

    /// The place of the object that is to be replaced.
    #[tactic(auto, unfolding(ldmodel::specs::Edits::early_refusal))]
    pub(crate) fn place_to_replace(&self, name: &[u8], bytes: &[u8]) -> Result<usize, EditRefusal>
        ensures ok { IfOk result (λ place. early_refusal (held self.now) (Replace name.now bytes.now) ≡ None) }
        ensures place { IfOk result (λ place. place_of (objects_of self.now.contents.entries) name.now ≡ Some place) }
        ensures named { IfOk result (λ _. 0 < length name.now) }
        ensures err { IfErr result (λ r. early_refusal (held self.now) (Replace name.now bytes.now)
            ≡ Some (refusal_of r)) }
    {
        let Some(place) = self.kept.place_of(name) else {
            return Err(EditRefusal::Unknown);
        };
        if is_too_long(bytes) {
            return Err(EditRefusal::Limit);
        }
        Ok(place)
    }

    /// The place of the object that is to be moved.
    #[tactic(auto, unfolding(ldmodel::specs::Edits::early_refusal))]
    pub(crate) fn place_to_move(&self, name: &[u8], to: u64) -> Result<usize, EditRefusal>
        ensures ok { IfOk result (λ place. early_refusal (held self.now) (Move name.now to) ≡ None) }
        ensures place { IfOk result (λ place. place_of (objects_of self.now.contents.entries) name.now ≡ Some place) }
        ensures within { IfOk result (λ place. to < length self.now.contents.entries) }
        ensures err { IfErr result (λ r. early_refusal (held self.now) (Move name.now to) ≡ Some (refusal_of r)) }
    {
        let Some(place) = self.kept.place_of(name) else {
            return Err(EditRefusal::Unknown);
        };
        if self.kept.len() as u64 <= to {
            return Err(EditRefusal::PastEnd);
        }
        Ok(place)
    }

    /// The place of the object that is to be removed.
    #[tactic(auto, unfolding(ldmodel::specs::Edits::early_refusal))]
    pub(crate) fn place_to_remove(&self, name: &[u8]) -> Result<usize, EditRefusal>
        ensures ok { IfOk result (λ place. early_refusal (held self.now) (Remove name.now) ≡ None) }
        ensures place { IfOk result (λ place. place_of (objects_of self.now.contents.entries) name.now ≡ Some place) }
        ensures err { IfErr result (λ r. early_refusal (held self.now) (Remove name.now) ≡ Some (refusal_of r)) }
    {
        match self.kept.place_of(name) {
            Some(place) => Ok(place),
            None => Err(EditRefusal::Unknown),
        }
    }

    /// Whether a script of this text may be read.
    #[tactic(auto, unfolding(ldmodel::specs::Edits::early_refusal))]
    pub(crate) fn may_read(&self, text: &[u8]) -> Result<(), EditRefusal>
        ensures ok { IfOk result (λ _. early_refusal (held self.now) (SetScript text.now) ≡ None) }
        ensures err { IfErr result (λ r. early_refusal (held self.now) (SetScript text.now) ≡ Some (refusal_of r)) }
    {
        if is_too_long(text) {
            return Err(EditRefusal::Limit);
        }
        Ok(())
    }
}
