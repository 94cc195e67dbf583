//! Laws of links of files.

ghost use Rattle.std.specs.Prelude.{◌≡◌, ◌≢◌, ℕ, List, Ok, Result};
ghost use Rattle.ldmodel.specs.Edits.{AreNamesDistinct, Change};
ghost use Rattle.ldmodel.specs.LinkCommand.{Course, LinkAnswer, LinkAnswers, NoMemory, ObjectFile, RefusedEdit};
ghost use Rattle.ldmodel.specs.Options.{LinkOptions};
ghost use Rattle.ldmodel.specs.Project.{Project};

use crate::edits::{names_stay_distinct, one_outcome};

/// A link of files has one answer, but for out of memory: one link, or one first refused edit, and never both.
pub fn one_link_answer()
    ensures { (options : LinkOptions) (script : List ℕ) (objects : List ObjectFile) (x y : LinkAnswer)
        → LinkAnswers options script objects x → LinkAnswers options script objects y
        → x ≢ NoMemory → y ≢ NoMemory → x ≡ y }
{
    one_outcome();
}

/// Edits one after the other lead to one project, or to one first refusal, and keep names distinct.
pub fn one_course()
    ensures one { (n : ℕ) (project : Project) (changes : List Change) (x y : Result Project RefusedEdit)
        → Course n project changes x → Course n project changes y → x ≡ y }
    ensures distinct { (n : ℕ) (project next : Project) (changes : List Change)
        → AreNamesDistinct project.objects → Course n project changes (Ok next) → AreNamesDistinct next.objects }
{
    one_outcome();
    names_stay_distinct();
}
