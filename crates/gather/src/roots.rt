//! Where garbage collection starts.

ghost use Rattle.std.specs.Prelude.{◌≡◌, ◌++◌, ◌∷◌, ◌↔◌, ◌⊎◌, [], ℕ, Contains, IfOk, IsTrue, OnOk, Some, if◌then◌else◌};
ghost use Rattle.std.specs.Prelude.{option_to_list};
ghost use Rattle.ldscript.specs.statements.Numbered.{shown_inputs};
ghost use Rattle.ldmodel.specs.Gathering.{taken_by};
ghost use Rattle.ldmodel.specs.Live.{is_kept};
ghost use Rattle.ldmodel.specs.Project.{Project};
ghost use Rattle.ldmodel.specs.Sections.{InputSection};
ghost use Rattle.gather.specs.GatheredSections.{AreGathered};
ghost use Rattle.gather.specs.LiveMarks.{IsSectionAt};
ghost use Rattle.gather.specs.Matches.{number_of};
ghost use Rattle.gather.specs.Roots.{is_kept_by, kept_numbers};

use crate::gathered_section::GatheredSection;
use growth::{NoMemory, vec};
use ldmodel::rows::InputIndex;
use ldscript::Script;
use ldscript::tree::InputStatementAt;
use std::alloc::Global;

/// Whether the statement with this number is under KEEP.
fn is_kept(statements: &[InputStatementAt<'_>], number: Option<InputIndex>) -> bool
    ensures { result ≡ is_kept_by (shown_inputs statements.now) (number_of number) }
{
    match number {
        None => false,
        Some(number) => match statements.get(number.0 as usize) {
            None => false,
            Some(statement) => statement.input.keep,
        },
    }
}

/// Adds the number of a section that is kept.
fn add_kept(found: &mut Vec<usize>, number: usize, is_kept: bool) -> Result<(), NoMemory>
    ensures { OnOk result (found.new.items ≡ found.old.items ++ (if is_kept then number ∷ [] else [])) }
{
    if is_kept {
        vec::push(found, number)?;
    }
    Ok(())
}

/// The numbers of the sections that statements under KEEP take.
fn kept(
    alloc: Global,
    statements: &[InputStatementAt<'_>],
    sections: &[GatheredSection],
) -> Result<Vec<usize>, NoMemory>
    ensures { IfOk result (λ found. found.items ≡ kept_numbers (shown_inputs statements.now) 0 sections.now) }
{
    let mut found = Vec::new(alloc);
    for (number, section) in sections.iter().enumerate() {
        let is_kept = is_kept(statements, section.statement);
        add_kept(&mut found, number, is_kept)?;
    }
    Ok(found)
}

/// Adds the number of the entry symbol's section, if there is one.
fn add_entry(found: &mut Vec<usize>, entry: Option<usize>) -> Result<(), NoMemory>
    ensures { OnOk result (found.new.items ≡ found.old.items ++ option_to_list entry) }
{
    match entry {
        Some(number) => {
            vec::push(found, number)?;
            Ok(())
        }
        None => Ok(()),
    }
}

/// The roots of garbage collection: the numbers of the sections that statements under KEEP take, and that of the
/// section of the entry symbol, if there is one.
///
/// # Errors
///
/// If memory runs out.
pub fn roots(
    alloc: Global,
    script: &Script,
    sections: &[GatheredSection],
    entry: Option<usize>,
) -> Result<Vec<usize>, NoMemory>
    ensures { IfOk result (λ found. (project : Project) → project.script ≡ script.now
        → AreGathered project sections.now → (k : ℕ) (section : InputSection) → IsSectionAt project k section
        → (IsTrue (is_kept (taken_by project section)) ⊎ (entry ≡ Some k)) ↔ Contains found.items k) }
{
    let statements = script.input_statements(alloc)?;
    let mut found = kept(alloc, &statements, sections)?;
    add_entry(&mut found, entry)?;
    Ok(found)
}
