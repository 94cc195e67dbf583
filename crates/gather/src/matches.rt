//! Which statements of a script take the input sections of an object.

ghost use Rattle.std.specs.Prelude.{◌≡◌, IfOk, map};
ghost use Rattle.gather.specs.ProjectMatches.{AreMatched, IsMatched};

use crate::blocks::common_symbols;
use crate::matcher::Matcher;
use crate::runs::{TakenRun, runs_of};
use elfobj::Object;
use growth::{NoMemory, vec};
use ldmodel::rows::InputIndex;
use ldmodel_project::view::ProjectView;
use std::alloc::Global;
use std::ops::Range;

/// Which statements of a script take the input sections of an object. It depends only on the object, its name and the
/// script, so that it stays right while these stay.
#[derive(Drop)]
pub struct Matches {
    /// The statements that take its linked sections, by runs of these in their order.
    pub linked: Vec<TakenRun>,
    /// The statement that takes its common blocks.
    pub common: Option<InputIndex>,
    /// The numbers of its symbols from the first common one to the last; none if it has no common symbol.
    pub commons: Range<usize>,
}

/// Finds the statements that take the input sections of an object of this name.
///
/// # Errors
///
/// If memory runs out.
pub fn match_object(
    alloc: Global,
    matcher: &Matcher<'_>,
    name: &[u8],
    object: &Object,
) -> Result<Matches, NoMemory>
    ensures { IfOk result (λ x. IsMatched matcher.now (record { name = name.now; object = object.now }) x) }
{
    let statements = matcher.matches_of(alloc, name, object)?;
    let linked = runs_of(alloc, &statements)?;
    let common = matcher.first_match(name, b"COMMON");
    let commons = common_symbols(object);
    Ok(Matches {
        linked,
        common,
        commons,
    })
}

/// The matches of all objects of a project, in their order.
///
/// # Errors
///
/// If memory runs out.
pub fn match_all(alloc: Global, project: &ProjectView<'_>) -> Result<Vec<Matches>, NoMemory>
    ensures { IfOk result (λ all. AreMatched project.now all.items) }
{
    let matcher = Matcher::new(alloc, project.script())?;
    let inputs = project.inputs();
    let mut all = vec::with_capacity(alloc, inputs.len())?;
    for input in inputs {
        vec::push(
            &mut all,
            match_object(alloc, &matcher, input.name, input.object)?,
        )?;
    }
    Ok(all)
}

/// A reference to each of these.
///
/// # Errors
///
/// If memory runs out.
pub fn lend_all(alloc: Global, all: &[Matches]) -> Result<Vec<&Matches>, NoMemory>
    ensures { IfOk result (λ lent. map (λ x. x.now) lent.items ≡ all.now) }
{
    let mut lent = vec::with_capacity(alloc, all.len())?;
    for matches in all {
        vec::push(&mut lent, matches)?;
    }
    Ok(lent)
}
