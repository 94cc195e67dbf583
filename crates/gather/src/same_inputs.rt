//! Whether two scripts take the same sections by the same statements.

ghost use Rattle.std.specs.Prelude.{◌≡◌, IfOk, map, true};
ghost use Rattle.ldmodel.specs.Project.{NamedObject};
ghost use Rattle.ldscript.specs.statements.Numbered.{shown_inputs};
ghost use Rattle.gather.specs.ProjectMatches.{IsMatched};
ghost use Rattle.gather.specs.SameInputs.{input_of};
ghost use Rattle.gather.specs.declared.matches.Matches.{Matches};

use growth::NoMemory;
use ldscript::Script;
use ldscript::tree::InputStatementAt;
use std::alloc::Global;

/// Whether the input statements of two lists are the same, one by one, wherever they stand.
fn are_same_inputs(one: &[InputStatementAt<'_>], other: &[InputStatementAt<'_>]) -> bool
    ensures { result ≡ true → map input_of (shown_inputs one.now) ≡ map input_of (shown_inputs other.now) }
{
    if one.len() != other.len() {
        return false;
    }
    for number in 0..one.len() {
        if !one[number].input.is_same(other[number].input) {
            return false;
        }
    }
    true
}

/// Whether two scripts have the same input statements in the same order. Then the matches of each object under one are
/// those under the other.
///
/// # Errors
///
/// If memory runs out.
pub fn have_same_inputs(alloc: Global, one: &Script, other: &Script) -> Result<bool, NoMemory>
    ensures { IfOk result (λ same. same ≡ true → (object : NamedObject) (x : Matches)
        → IsMatched one.now object x → IsMatched other.now object x) }
{
    let statements = one.input_statements(alloc)?;
    let of_other = other.input_statements(alloc)?;
    Ok(are_same_inputs(&statements, &of_other))
}
