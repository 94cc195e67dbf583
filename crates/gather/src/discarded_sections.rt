//! Which sections are discarded before references are followed.

ghost use Rattle.std.specs.Prelude.{◌≡◌, IfOk, map};
ghost use Rattle.ldscript.specs.statements.Numbered.{shown_inputs};
ghost use Rattle.ldmodel.specs.Gathering.{is_discarded};
ghost use Rattle.ldmodel.specs.InputSections.{input_sections};
ghost use Rattle.ldmodel.specs.Project.{Project};
ghost use Rattle.gather.specs.declared.gathered_section.GatheredSection.{GatheredSection};
ghost use Rattle.gather.specs.GatheredSections.{AreGathered};
ghost use Rattle.gather.specs.LeftOut.{is_out_of};
ghost use Rattle.gather.specs.Matches.{number_of};

use crate::gathered_section::GatheredSection;
use growth::{NoMemory, vec};
use ldmodel::options::Orphans;
use ldscript::Script;
use ldscript::tree::{InputPlace, InputStatementAt};
use std::alloc::Global;

/// Whether a section is discarded: if `/DISCARD/` takes it; or if no statement takes it, and it is empty or orphans are
/// discarded.
pub fn is_discarded(
    statements: &[InputStatementAt<'_>],
    orphans: Orphans,
    section: &GatheredSection,
) -> bool
    ensures { result ≡ is_out_of (shown_inputs statements.now) orphans section.now.size
        (number_of section.now.statement) }
{
    let untaken = section.size == 0 || matches!(orphans, Orphans::Discard);
    match section.statement {
        None => untaken,
        Some(number) => match statements.get(number.0 as usize) {
            None => untaken,
            Some(statement) => matches!(statement.place, InputPlace::InDiscard),
        },
    }
}

/// Whether each of these sections is discarded.
fn each_discarded(
    alloc: Global,
    statements: &[InputStatementAt<'_>],
    orphans: Orphans,
    sections: &[GatheredSection],
) -> Result<Vec<bool>, NoMemory>
    ensures { IfOk result (λ out. out.items
        ≡ map (λ (x : GatheredSection). is_out_of (shown_inputs statements.now) orphans x.size (number_of x.statement))
        sections.now) }
{
    let mut out = vec::with_capacity(alloc, sections.len())?;
    for section in sections {
        vec::push(&mut out, is_discarded(statements, orphans, section))?;
    }
    Ok(out)
}

/// Whether each of these sections is discarded by this script, before references are followed.
///
/// # Errors
///
/// If memory runs out.
pub fn discarded_sections(
    alloc: Global,
    script: &Script,
    orphans: Orphans,
    sections: &[GatheredSection],
) -> Result<Vec<bool>, NoMemory>
    ensures { IfOk result (λ out. (project : Project) → project.script ≡ script.now → project.options.orphans ≡ orphans
        → AreGathered project sections.now → out.items ≡ map (is_discarded project) (input_sections project)) }
{
    let statements = script.input_statements(alloc)?;
    each_discarded(alloc, &statements, orphans, sections)
}
