//! Laws of edits.

ghost use Rattle.std.specs.Prelude.{◌≡◌, ◌≤◌, Err, Ok, Result};
ghost use Rattle.elfobj.specs.RefusalNumber as object;
ghost use Rattle.elfobj.specs.declared.refusal.ObjectRefusal.{ObjectRefusal};
ghost use Rattle.ldscript.specs.RefusalNumber.{script_refusal_number};
ghost use Rattle.ldscript.specs.declared.refusal.ScriptRefusal.{ScriptRefusal};
ghost use Rattle.ldmodel.specs.Edits.{After, AreNamesDistinct, Change, NotAScript, NotAnObject, Refusal};
ghost use Rattle.ldmodel.specs.Edits.{edit_refusal_number};
ghost use Rattle.ldmodel.specs.Options.{LinkOptions};
ghost use Rattle.ldmodel.specs.Project.{Project, empty_project};
ghost use Rattle.ldmodel_laws.specs.Outcomes.{HasOutcome, IsNoScript};

use ldscript::law::one_tree;
use ldscript::tokens::laws::one_cut;

/// No edit has two outcomes: not two projects, not two refusals, and not one of each.
pub fn one_outcome()
    ensures { (project : Project) (change : Change) (x y : Result Project Refusal) → After project change x
        → After project change y → x ≡ y }
{
    one_cut();
    one_tree();
}

/// The names of objects are pairwise different: there are none in the empty project, and no edit makes two alike.
pub fn names_stay_distinct()
    ensures empty { (options : LinkOptions) → AreNamesDistinct (empty_project options).objects }
    ensures kept { (project q : Project) (change : Change) → AreNamesDistinct project.objects
        → After project change (Ok q)
        → AreNamesDistinct q.objects }
{}

/// Every edit has an outcome. For an edit of the script this is stated as 'it is not without one': relations say which
/// it is (whether the tokens have a tree), and no function of the definitions computes it.
pub fn some_outcome()
    ensures objects { (project : Project) (change : Change) → IsNoScript change → HasOutcome project change }
    ensures all { (project : Project) (change : Change) → (HasOutcome project change → ⊥) → ⊥ }
{}

/// 'Out of memory' is no outcome: the definitions refuse an edit with numbers 1 to 6, an object with inner numbers 1 to
/// 13 and a script with 1 to 5.
pub fn memory_is_no_outcome()
    ensures outer { (project : Project) (change : Change) (refusal : Refusal) → After project change (Err refusal)
        → edit_refusal_number refusal ≤ 6 }
    ensures object { (project : Project) (change : Change) (why : ObjectRefusal)
        → After project change (Err (NotAnObject why))
        → object.refusal_number why ≤ 13 }
    ensures script { (project : Project) (change : Change) (why : ScriptRefusal)
        → After project change (Err (NotAScript why))
        → script_refusal_number why ≤ 5 }
{}
