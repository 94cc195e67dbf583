//! The previous link, lent to the next one.

ghost use Rattle.std.specs.Prelude.{◌≡◌};
ghost use Rattle.ldmodel_project.specs.Listing.{keys_of};
ghost use Rattle.ldmodel_project.specs.ProjectState.{next_listing};
ghost use Rattle.relink.specs.PreviousLink.{IsEffect, lent, lent_later, lent_of, nothing_edited};

use crate::outcome::LinkOutcome;
use crate::previous::{EditEffect, PreviousLink, effect_of};
use growth::NoMemory;
use ldmodel_project::project::Project;
use ldmodel_project::staged::Staged;
use relink_driver::stayed_sections::{PreviousView, ReplacedObject};
use std::alloc::Global;

/// The previous link, lent to the link of the next project. That link makes the origins of the project's objects only
/// if its names have no faults.
#[derive(Clone, Copy)]
pub(crate) struct LentLink<'a> {
    previous: &'a PreviousLink,
    effect: EditEffect,
    // the object that the edit replaces, if there is one
    replaced: Option<ReplacedObject<'a>>,
    // those of the objects of the next project, in their order
    keys: &'a [usize],
}

impl<'a> LentLink<'a> {
    ghost use Rattle.std.specs.Prelude.{◌≡◌, IfOk};
    ghost use Rattle.relink_driver.specs.StayedSections.{previous_state};
    ghost use Rattle.relink.specs.PreviousLink.{lent_state};

    /// The origins of the objects of the next project, in their order; an object that the edit puts has none. Fails
    /// if memory runs out.
    pub(crate) fn origins(&self, alloc: Global) -> Result<Vec<Option<usize>>, NoMemory>
        ensures { IfOk result (λ origins. origins.items ≡ (lent_state self.now).origins) }
    {
        self.previous
            .origins_of(alloc, self.keys, self.effect.stale_key)
    }

    /// The previous link as the next one sees it. `origins` are those of the objects of the next project.
    pub(crate) fn view(&self, origins: &'a [Option<usize>]) -> PreviousView<'a>
        requires { origins.now ≡ (lent_state self.now).origins }
        ensures { previous_state result ≡ lent_state self.now }
    {
        PreviousView {
            snapshot: &self.previous.snapshot,
            objects: self.previous.names.len(),
            origins,
            same_script: self.previous.same_script && self.effect.same_script,
            replaced: self.replaced,
            is_answered: self.effect.is_answered,
        }
    }
}

/// The previous link, lent, if it is known not to have the object that the edit puts.
fn lend<'a>(
    previous: &'a Option<PreviousLink>,
    effect: EditEffect,
    project: &'a Project,
    staged: &'a Staged,
    keys: &'a [usize],
) -> Option<LentLink<'a>>
    requires { keys.now ≡ keys_of (next_listing project.now staged.now).entries }
    ensures { lent_of result ≡ lent previous.now effect.keeps_previous effect project.now staged.now }
{
    match previous {
        Some(previous) if effect.keeps_previous => Some(LentLink {
            previous,
            effect,
            replaced: previous.replaced(project, staged),
            keys,
        }),
        _ => None,
    }
}

/// What an edit does to the previous link, and that link, lent to the link of the next project, if it is known not to
/// have the object that the edit puts. `outcome` is the present one, `same` says whether the edit replaces an object by
/// the same one, and `keys` are those of the objects of the next project.
pub(crate) fn lend_previous<'a>(
    previous: &'a Option<PreviousLink>,
    outcome: &LinkOutcome,
    project: &'a Project,
    staged: &'a Staged,
    same: bool,
    keys: &'a [usize],
) -> (EditEffect, Option<LentLink<'a>>)
    requires { keys.now ≡ keys_of (next_listing project.now staged.now).entries }
    ensures effect { IsEffect project.now staged.now same outcome.now previous.now result.0 }
    ensures lent { lent_of result.1 ≡ lent previous.now result.0.keeps_previous result.0 project.now staged.now }
{
    let effect = effect_of(previous, outcome, project, staged, same);
    (effect, lend(previous, effect, project, staged, keys))
}

/// What the previous link loses where it is linked over some edits after it, each of which has been noted in it.
pub(crate) fn no_effect() -> EditEffect
    ensures { result ≡ nothing_edited }
{
    EditEffect {
        keeps_previous: true,
        stale_key: None,
        same_script: true,
        is_answered: false,
    }
}

/// The previous link, lent to the link of a project some edits after it. `keys` are those of the objects.
pub(crate) fn lend_later<'a>(
    previous: &'a Option<PreviousLink>,
    keys: &'a [usize],
) -> Option<LentLink<'a>>
    ensures { lent_of result ≡ lent_later previous.now keys.now }
{
    match previous {
        None => None,
        Some(previous) => Some(LentLink {
            previous,
            effect: no_effect(),
            replaced: None,
            keys,
        }),
    }
}
