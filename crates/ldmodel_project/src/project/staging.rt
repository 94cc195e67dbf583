//! Staging an edit: takes all memory that its commit needs, before anything changes.

ghost use Rattle.std.specs.Prelude.{◌≡◌, ℕ, List, IfOk, None, OnOk, Option};
ghost use Rattle.ldmodel.specs.EditMeaning.{change_of};
ghost use Rattle.ldmodel.specs.Edits.{Add, Replace, Move, Remove, SetScript};
ghost use Rattle.ldmodel.specs.Project.{NamedObject};
ghost use Rattle.ldmodel_project.specs.ProjectState.{ProjectState, Makes, MakesScript, ReadsAtMostOne, ReadsFor};
ghost use Rattle.ldmodel_project.specs.ProjectState.{SameHolding};
ghost use Rattle.ldmodel_project.specs.ProjectState.{ReadsAnObject, ReadsOne, Stages, StandsAsNamed};
ghost use Rattle.ldmodel_project.specs.Next.{edited_key};
ghost use Rattle.ldmodel_project.specs.Staging.{IsStaged, IsEditing};

use crate::edit::{object_refused, script_refused};
use crate::project::Project;
use crate::staged::{Staged, StagedObjects};
use elfobj::Object;
use growth::NoMemory;
use ldmodel::edit::{Edit, EditRefusal};
use ldmodel::meter::Meter;
use ldscript::Script;

/// An edit of the objects alone, for which all memory was had.
fn staged(grown: Result<StagedObjects, NoMemory>) -> Result<Staged, EditRefusal>
    ensures ok { (state : ProjectState) (next : List NamedObject) → IfOk grown (λ s. IsStaged state.contents s next)
        → Makes state next result }
    ensures touching { (before : Option ℕ) → IfOk grown (IsEditing before)
        → IfOk result (λ s. IsEditing before s.objects) }
    ensures after { (after : Option ℕ) → IfOk grown (λ s. s.places.after ≡ after)
        → IfOk result (λ s. s.objects.places.after ≡ after) }
{
    match grown {
        Ok(objects) => Ok(Staged {
            objects,
            script: None,
        }),
        Err(no_memory) => Err(EditRefusal::NoMemory(no_memory)),
    }
}

impl Project {
    /// Stages the addition of an object.
    fn stage_add(
        &mut self,
        name: &[u8],
        at: u64,
        bytes: Vec<u8>,
        meter: &mut Meter,
    ) -> Result<Staged, EditRefusal>
        ensures same { SameHolding self.old self.new }
        ensures staged { Stages self.new (Add name.now at bytes.items) result }
        ensures named { IfOk result (StandsAsNamed (Add name.now at bytes.items) self.new.contents) }
        ensures counted { ReadsAtMostOne meter.old meter.new }
        ensures read { OnOk result (ReadsAnObject meter.old meter.new) }
    {
        let place = self.place_to_add(name, at, &bytes)?;
        match Object::read(self.alloc, bytes, meter) {
            Err((_bytes, why)) => Err(object_refused(why)),
            Ok(object) => staged(self.kept.reserve_add(name, place, object)),
        }
    }

    /// Stages the replacement of an object.
    fn stage_replace(
        &self,
        name: &[u8],
        bytes: Vec<u8>,
        meter: &mut Meter,
    ) -> Result<Staged, EditRefusal>
        ensures staged { Stages self.now (Replace name.now bytes.items) result }
        ensures named { IfOk result (StandsAsNamed (Replace name.now bytes.items) self.now.contents) }
        ensures counted { ReadsAtMostOne meter.old meter.new }
        ensures read { OnOk result (ReadsAnObject meter.old meter.new) }
    {
        let place = self.place_to_replace(name, &bytes)?;
        match Object::read(self.alloc, bytes, meter) {
            Err((_bytes, why)) => Err(object_refused(why)),
            Ok(object) => staged(self.kept.reserve_replace(name, place, object)),
        }
    }

    /// Stages the move of an object.
    fn stage_move(&self, name: &[u8], to: u64) -> Result<Staged, EditRefusal>
        ensures staged { Stages self.now (Move name.now to) result }
        ensures named { IfOk result (StandsAsNamed (Move name.now to) self.now.contents) }
    {
        match self.place_to_move(name, to) {
            Err(refusal) => Err(refusal),
            Ok(place) => staged(self.kept.reserve_move(place, to as usize)),
        }
    }

    /// Stages the removal of an object.
    fn stage_remove(&self, name: &[u8]) -> Result<Staged, EditRefusal>
        ensures staged { Stages self.now (Remove name.now) result }
        ensures named { IfOk result (StandsAsNamed (Remove name.now) self.now.contents) }
    {
        match self.place_to_remove(name) {
            Err(refusal) => Err(refusal),
            Ok(place) => staged(self.kept.reserve_remove(place)),
        }
    }

    /// Stages a script, which has been read.
    fn stage_read(&self, script: Script) -> Result<Staged, EditRefusal>
        ensures made { MakesScript self.now script result }
        ensures unedited { IfOk result (λ s. edited_key s.objects.step ≡ None) }
    {
        match self.kept.reserve_same() {
            Ok(objects) => Ok(Staged {
                objects,
                script: Some(script),
            }),
            Err(no_memory) => Err(EditRefusal::NoMemory(no_memory)),
        }
    }

    /// Stages another script.
    fn stage_script(&self, text: &[u8]) -> Result<Staged, EditRefusal>
        ensures staged { Stages self.now (SetScript text.now) result }
        ensures named { IfOk result (StandsAsNamed (SetScript text.now) self.now.contents) }
    {
        if let Err(refusal) = self.may_read(text) {
            return Err(refusal);
        }
        match Script::read(self.alloc, text) {
            Err(why) => Err(script_refused(why)),
            Ok(script) => self.stage_read(script),
        }
    }

    /// Makes the tests of an edit and all growths that it needs, and changes nothing that is kept. It takes effect by
    /// `commit`; dropped, it leaves no trace.
    ///
    /// # Errors
    ///
    /// The first refusal that applies; or out of memory, unless the edit is refused before its object or script is
    /// read.
    pub fn stage(&mut self, edit: Edit<'_>, meter: &mut Meter) -> Result<Staged, EditRefusal>
        ensures same { SameHolding self.old self.new }
        ensures staged { Stages self.new (change_of edit.entry) result }
        ensures named { IfOk result (StandsAsNamed (change_of edit.entry) self.new.contents) }
        ensures counted { ReadsAtMostOne meter.old meter.new }
        ensures reads { ReadsFor (change_of edit.entry) meter.old meter.new }
        ensures read { OnOk result (ReadsOne (change_of edit.entry) meter.old meter.new) }
    {
        match edit {
            Edit::Add { name, at, bytes } => self.stage_add(name, at, bytes, meter),
            Edit::Replace { name, bytes } => self.stage_replace(name, bytes, meter),
            Edit::Move { name, to } => self.stage_move(name, to),
            Edit::Remove { name } => self.stage_remove(name),
            Edit::Script { text } => self.stage_script(text),
        }
    }
}
