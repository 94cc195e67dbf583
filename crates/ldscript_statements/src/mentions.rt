//! Clashes: names that a script defines twice, and memory regions that it names before their declaration.

ghost use Rattle.std.specs.Prelude.{MatchBool, IfOk};
ghost use Rattle.ldscript_statements.specs.Mentions.{HasClash};
ghost use Rattle.ldscript_statements.specs.Listed.{HasClashIn, Meets, mention_of, shown};

use crate::mention::{Mention, note_statements};
use crate::statement::Statement;
use growth::{NoMemory, btree_set};
use std::alloc::Global;
use std::collections::BTreeSet;

/// Whether a mention clashes with those in the set; if not, it is inserted. The set is ordered, so that no choice of
/// names makes it slow.
fn meet<'a>(given: &mut BTreeSet<Mention<'a>>, mention: Mention<'a>) -> Result<bool, NoMemory>
    ensures { IfOk result (Meets given.old.keys given.new.keys (mention_of mention.entry)) }
{
    match mention {
        Mention::RegionUsed(name) => Ok(!given.contains(&Mention::RegionDeclared(name))),
        once => Ok(!btree_set::insert(given, once)?),
    }
}

/// Whether one of these clashes with those before it.
fn any_clashes(alloc: Global, mentions: &[Mention]) -> Result<bool, NoMemory>
    ensures { IfOk result (λ b. MatchBool b (HasClashIn (shown mentions.now)) (HasClashIn (shown mentions.now) → ⊥)) }
{
    let mut given = BTreeSet::new(alloc);
    for mention in mentions {
        if meet(&mut given, *mention)? {
            return Ok(true);
        }
    }
    Ok(false)
}

/// Whether something is given twice, or a memory region is named before it is declared.
pub fn has_clash(alloc: Global, statements: &[Statement]) -> Result<bool, NoMemory>
    ensures { IfOk result (λ clashes. MatchBool clashes (HasClash statements.now) (HasClash statements.now → ⊥)) }
{
    let mut list = Vec::new(alloc);
    note_statements(&mut list, statements)?;
    any_clashes(alloc, &list)
}
