//! Laws of the definitions.

ghost use Rattle.std.specs.Prelude.{◌≡◌, ℕ, List};
ghost use Rattle.ldscript.specs.Script.{IsTree};
ghost use Rattle.ldscript_statements.specs.declared.statement.Statement.{Statement};

use ldscript_tokens::laws::one_cut;

/// No text has two trees.
pub fn one_tree()
    ensures { (text : List ℕ) (one other : List Statement) → IsTree text one → IsTree text other → one ≡ other }
{
    one_cut();
}
