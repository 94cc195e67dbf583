//! The linked sections of an object by runs of those that the same statement takes.

ghost use Rattle.std.specs.Prelude.{◌≡◌, ◌<◌, ◌+◌, ◌^◌, ◌++◌, IfOk, IsTrue, OnOk, drop, map, take};
ghost use Rattle.gather.specs.Matches.{number_of};
ghost use Rattle.gather.specs.Runs.{numbers_in, numbers_of};

use elfobj::section::Section;
use growth::{NoMemory, vec};
use ldmodel::rows::InputIndex;
use std::alloc::Global;

/// Linked sections of an object, one after another, that the same statement takes, or that none does.
#[derive(Clone, Copy, Debug, PartialEq, Eq)]
pub struct TakenRun {
    /// The statement that takes them.
    pub statement: Option<InputIndex>,
    /// How many they are.
    pub count: u32,
}

/// Whether these are the same statement, or both none.
fn is_same(one: Option<InputIndex>, other: Option<InputIndex>) -> bool
    ensures { IsTrue result → one ≡ other }
{
    one == other
}

/// Whether a section that this statement takes can come to a run.
fn goes_on(run: TakenRun, statement: Option<InputIndex>) -> bool
    ensures same { IsTrue result → run.statement ≡ statement }
    ensures room { IsTrue result → run.count + 1 < 2 ^ 32 }
{
    run.count < u32::MAX && is_same(run.statement, statement)
}

/// Adds a run, unless it is empty.
fn add_run(runs: &mut Vec<TakenRun>, run: TakenRun) -> Result<(), NoMemory>
    ensures { OnOk result (numbers_of runs.new.items ≡ numbers_of runs.old.items ++ numbers_in run) }
{
    if run.count > 0 {
        vec::push(runs, run)?;
    }
    Ok(())
}

/// The runs of sections that these statements take, in the order of the sections.
///
/// # Errors
///
/// If memory runs out.
pub(crate) fn runs_of(
    alloc: Global,
    statements: &[Option<InputIndex>],
) -> Result<Vec<TakenRun>, NoMemory>
    ensures { IfOk result (λ runs. numbers_of runs.items ≡ map number_of statements.now) }
{
    let mut runs = Vec::new(alloc);
    let mut run = TakenRun {
        statement: None,
        count: 0,
    };
    for statement in statements {
        if goes_on(run, *statement) {
            run.count += 1;
        } else {
            add_run(&mut runs, run)?;
            run = TakenRun {
                statement: *statement,
                count: 1,
            };
        }
    }
    add_run(&mut runs, run)?;
    Ok(runs)
}

/// Of these sections those of a run, which comes first, and those after it.
pub(crate) fn split_run(sections: &[Section], run: TakenRun) -> (&[Section], &[Section])
    ensures own { result.0.now ≡ take run.count sections.now }
    ensures later { result.1.now ≡ drop run.count sections.now }
{
    sections.split_at((run.count as usize).min(sections.len()))
}
