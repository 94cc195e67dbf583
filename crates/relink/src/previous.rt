//! The previous link without faults, which outlives links with faults: its snapshot, and which of its objects are still
//! there.

ghost use Rattle.std.specs.Prelude.{◌≡◌, ℕ, IfOk, IfSome, List, None, Some, map, slice_get, true};
ghost use Rattle.std.specs.Option.{option_copied, option_map};
ghost use Rattle.relink_driver.specs.StayedSections.{previous_of, replaced_state};
ghost use Rattle.ldmodel.specs.Project.{NamedObject};
ghost use Rattle.relink.specs.PreviousLink.{AreOriginsFor, IsAfterFault, IsEffect, IsRecorded, IsNoneOf};
ghost use Rattle.relink.specs.PreviousLink.{AreOriginsRefreshed, IsSince};
ghost use Rattle.relink.specs.PreviousLink.{LacksPutObject, PutsNoneOf, changed_key, lent_of, stale_key_of};
ghost use Rattle.relink.specs.PreviousLink.{origin_of, replaced_by, replaced_in, without};

use crate::lent_link::LentLink;
use crate::name_list::NameList;
use crate::outcome::LinkOutcome;
use elfobj::Object;
use growth::{NoMemory, iterator};
use ldmodel::names::{ObjectKey, ObjectPlace};
use ldmodel_project::named::NamedObject;
use ldmodel_project::project::Project;
use ldmodel_project::staged::Staged;
use relink_driver::link_snapshot::LinkSnapshot;
use relink_driver::stayed_sections::{PreviousView, ReplacedObject};
use std::alloc::Global;

/// What is kept of the previous link without faults.
#[derive(Drop)]
pub(crate) struct PreviousLink {
    /// Its snapshot.
    pub snapshot: LinkSnapshot,
    /// Under the key of each object, its place in that link, if it is still there with the same bytes.
    pub origins: Vec<Option<usize>>,
    /// The names of the objects of that link, by their places.
    pub names: NameList,
    /// Whether the script is known to be unchanged.
    pub same_script: bool,
}

/// What an edit does to the previous link.
#[derive(Clone, Copy)]
pub(crate) struct EditEffect {
    /// Whether it is known that the edit puts no object that this link has.
    pub keeps_previous: bool,
    /// The key of the object that this link no longer has, if there is one.
    pub stale_key: Option<usize>,
    /// Whether the script is unchanged.
    pub same_script: bool,
    /// Whether queries are answered from this link.
    pub is_answered: bool,
}

/// The outcome of a link over the previous one.
#[derive(Drop)]
pub(crate) enum UpdateOutcome {
    /// These fault lines.
    Faulty(Vec<u8>),
    /// What is kept of the link, and its map.
    Good(PreviousLink, Vec<u8>),
    /// Only the image differs from the previous link; the map stays. The new origins of the objects.
    RewrittenInPlace(Vec<Option<usize>>),
}

impl UpdateOutcome {
    /// Whether the link has no faults.
    pub(crate) fn is_good(&self) -> bool {
        match self {
            UpdateOutcome::Faulty(_) => false,
            UpdateOutcome::Good(..) | UpdateOutcome::RewrittenInPlace(_) => true,
        }
    }
}

/// An object of the previous link and the place of the object that replaces it, if there are both.
fn replaced_at<'a>(
    old: Option<usize>,
    object: Option<&'a Object>,
    new: Option<usize>,
) -> Option<ReplacedObject<'a>>
    ensures { option_map replaced_state result ≡ replaced_by old (option_copied object.entry) new }
{
    let old = ObjectPlace(old?);
    let object = object?;
    let new = ObjectPlace(new?);
    Some(ReplacedObject {
        old_place: old,
        old_object: object,
        new_place: new,
    })
}

impl PreviousLink {
    /// The place in the previous link of the object under a key, if that link has it.
    fn origin(&self, key: usize) -> Option<usize>
        ensures { result ≡ origin_of self.now.origins.items key }
    {
        *self.origins.get(key)?
    }

    /// Like `origin`, but none for the object under the key `gone`.
    fn origin_unless(&self, gone: Option<usize>, key: usize) -> Option<usize>
        ensures { result ≡ without (origin_of self.now.origins.items) gone key }
    {
        match gone {
            Some(gone) if key == gone => None,
            _ => self.origin(key),
        }
    }

    /// The place in the previous link of the object under a key, if that link has it and this object has other bytes.
    fn place_of_other(
        &self,
        project: &Project,
        key: ObjectKey,
        named: &NamedObject,
    ) -> Option<usize>
        ensures { IfSome result (λ j. (old : List NamedObject) (y : NamedObject)
            → IsSince old (origin_of self.now.origins.items) project.now.contents.entries → slice_get old j ≡ Some y
            → y.object.text ≡ named.now.object.text → ⊥) }
    {
        let place = self.origin(key.0)?;
        let before = project.named(key)?;
        if before.object().data() == named.object().data() {
            return None;
        }
        Some(place)
    }

    /// True if the previous link has no object of the name of this one, except perhaps the object under the same key,
    /// with other bytes.
    fn is_new(&self, project: &Project, key: ObjectKey, named: &NamedObject) -> bool
        ensures { result ≡ true → (old : List NamedObject)
            → self.now.names.names ≡ map (λ (object : NamedObject). object.name) old
            → IsSince old (origin_of self.now.origins.items) project.now.contents.entries → IsNoneOf old named.now }
    {
        let place = self.place_of_other(project, key, named);
        self.names.is_nowhere_but_at(named.name(), place)
    }

    /// Whether an edit is known to put no object that the previous link has already.
    fn lacks_put_object(&self, project: &Project, staged: &Staged) -> bool
        ensures { result ≡ true → (old : List NamedObject)
            → self.now.names.names ≡ map (λ (object : NamedObject). object.name) old
            → IsSince old (origin_of self.now.origins.items) project.now.contents.entries
            → PutsNoneOf old staged.now.objects.step }
    {
        match staged.put() {
            None => true,
            Some((key, named)) => self.is_new(project, key, named),
        }
    }

    /// The object of the previous link that an edit replaces, if there is one and it is still there.
    pub(crate) fn replaced<'a>(
        &self,
        project: &'a Project,
        staged: &Staged,
    ) -> Option<ReplacedObject<'a>>
        ensures { option_map replaced_state result ≡ replaced_in (origin_of self.now.origins.items)
            project.now.contents.entries staged.now.objects.step staged.now.objects.places.after }
    {
        match staged.put() {
            None => None,
            Some((key, _named)) => replaced_at(
                self.origin(key.0),
                project.object(key),
                staged.place_after(),
            ),
        }
    }

    /// The origins of the objects under these keys, in their order; that under the key `gone` has none. Fails if
    /// memory runs out.
    pub(crate) fn origins_of(
        &self,
        alloc: Global,
        keys: &[usize],
        gone: Option<usize>,
    ) -> Result<Vec<Option<usize>>, NoMemory>
        ensures { IfOk result (λ v. v.items ≡ map (without (origin_of self.now.origins.items) gone) keys.now) }
    {
        iterator::collect(keys.iter().map(|key| self.origin_unless(gone, *key)), alloc)
    }

    /// Notes that the previous link no longer has the object under a key, if there is a key.
    fn forget(&mut self, key: Option<usize>)
        ensures snapshot { self.new.snapshot ≡ self.old.snapshot }
        ensures names { self.new.names ≡ self.old.names }
        ensures script { self.new.same_script ≡ self.old.same_script }
        ensures origins { (k : ℕ) → origin_of self.new.origins.items k
            ≡ without (origin_of self.old.origins.items) key k }
    {
        if let Some(key) = key {
            if key < self.origins.len() {
                self.origins[key] = None;
            }
        }
    }
}

/// Whether there is a previous link, and an edit is known to put no object that it has already.
fn previous_lacks_put_object(
    previous: &Option<PreviousLink>,
    project: &Project,
    staged: &Staged,
) -> bool
    ensures { result ≡ true → IfSome previous.now
        (λ x. LacksPutObject x project.now.contents.entries staged.now.objects.step) }
{
    match previous {
        None => false,
        Some(previous) => previous.lacks_put_object(project, staged),
    }
}

/// The key that an edit puts an object under, or removes.
fn changed_key(staged: &Staged) -> Option<usize>
    ensures { result ≡ changed_key staged.now.objects.step }
{
    match staged.put() {
        Some((key, _named)) => Some(key.0),
        None => match staged.removed() {
            Some(key) => Some(key.0),
            None => None,
        },
    }
}

/// The key of the object that the edit adds, removes or changes; none if it is replaced by the same one.
fn stale_key_of(staged: &Staged, same: bool) -> Option<usize>
    ensures { result ≡ stale_key_of same staged.now.objects.step }
{
    if same { None } else { changed_key(staged) }
}

/// Whether an edit leaves the script.
fn leaves_script(staged: &Staged) -> bool
    ensures yes { result ≡ true → staged.now.script ≡ None }
    ensures no { staged.now.script ≡ None → result ≡ true }
{
    match staged.new_script() {
        None => true,
        Some(_) => false,
    }
}

/// What an edit does to the previous link. `same` says whether it replaces an object by the same one. If the present
/// outcome is good, the previous link is that of the project before the edit, so that the edit puts none of its
/// objects; else the names of its objects are searched.
pub(crate) fn effect_of(
    previous: &Option<PreviousLink>,
    outcome: &LinkOutcome,
    project: &Project,
    staged: &Staged,
    same: bool,
) -> EditEffect
    ensures { IsEffect project.now staged.now same outcome.now previous.now result }
{
    EditEffect {
        keeps_previous: outcome.is_good() || previous_lacks_put_object(previous, project, staged),
        stale_key: stale_key_of(staged, same),
        same_script: leaves_script(staged),
        is_answered: outcome.is_good(),
    }
}

/// The origins of the objects of the next project, if a previous link is lent.
///
/// # Errors
///
/// If memory runs out.
pub(crate) fn origins_for(
    alloc: Global,
    previous: &Option<LentLink<'_>>,
) -> Result<Vec<Option<usize>>, NoMemory>
    ensures { IfOk result (λ origins. AreOriginsFor (lent_of previous.now) origins.items) }
{
    match previous {
        None => Ok(Vec::new(alloc)),
        Some(previous) => previous.origins(alloc),
    }
}

/// The previous link that is lent, as the next one sees it. `origins` are those of the objects of the next project.
pub(crate) fn view_previous<'a>(
    previous: &Option<LentLink<'a>>,
    origins: &'a [Option<usize>],
) -> Option<PreviousView<'a>>
    requires { AreOriginsFor (lent_of previous.now) origins.now }
    ensures { previous_of result ≡ lent_of previous.now }
{
    let previous = previous.as_ref()?;
    Some(previous.view(origins))
}

/// After an edit whose link has faults: keeps the previous link, but forgets the origin of the edited object. If the
/// previous link may have the object that came, it is dropped.
pub(crate) fn keep_after_fault(previous: &mut Option<PreviousLink>, effect: EditEffect)
    ensures { IsAfterFault effect.keeps_previous effect.stale_key effect.same_script previous.old previous.new }
{
    if !effect.keeps_previous {
        *previous = None;
        return;
    }
    if let Some(previous) = previous {
        previous.forget(effect.stale_key);
        previous.same_script = previous.same_script && effect.same_script;
    }
}

/// Makes the previous link that of the project, after a rewrite in place: its objects now have these origins.
fn refresh_origins(previous: &mut Option<PreviousLink>, origins: Vec<Option<usize>>)
    ensures { AreOriginsRefreshed origins previous.old previous.new }
{
    if let Some(previous) = previous {
        previous.origins = origins;
        previous.same_script = true;
    }
}

/// Records the outcome of a link over the previous one. A good link becomes the previous one; after a link with faults
/// that stays. After a rewrite in place the outcome stays too, as only the image differs.
pub(crate) fn record_outcome(
    updated: UpdateOutcome,
    previous: &mut Option<PreviousLink>,
    outcome: &mut LinkOutcome,
    effect: EditEffect,
)
    ensures { IsRecorded updated effect previous.old previous.new outcome.old outcome.new }
{
    match updated {
        UpdateOutcome::Faulty(text) => {
            keep_after_fault(previous, effect);
            *outcome = LinkOutcome::Faulty(text);
        }
        UpdateOutcome::Good(good, map) => {
            *previous = Some(good);
            *outcome = LinkOutcome::Good(map);
        }
        UpdateOutcome::RewrittenInPlace(origins) => refresh_origins(previous, origins),
    }
}
