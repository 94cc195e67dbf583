//! Why a text is no script of the profile.

use growth::NoMemory;

/// Why `Script::read` refuses. A text of more than 2^20 bytes is `Limit`; else the refusals are tested in the order
/// `NotTokens`, `Limit`, `NotAScript`, `Repeated`, `MisplacedDot`, and the first that applies is answered. `NoMemory`
/// says nothing about the text.
#[derive(Clone, Copy, Debug, PartialEq, Eq)]
pub enum ScriptRefusal {
    /// 1: somewhere no token begins, or a comment has no end.
    NotTokens,
    /// 2: tokens that the grammar does not have, or a word that spells no pattern.
    NotAScript,
    /// 3: something is given twice, or a memory region is named before it is declared.
    Repeated,
    /// 4: `.`, or an `ALIGN` of one argument, is used where the profile does not allow it.
    MisplacedDot,
    /// 5: the text, a number, a name, the braces or a run of operators is over its limit.
    Limit,
    /// 6: out of memory.
    NoMemory(NoMemory),
}

impl From<NoMemory> for ScriptRefusal {
    ghost use Rattle.std.specs.Prelude.{◌≡◌};
    ghost use Rattle.ldscript.specs.declared.refusal.ScriptRefusal.TheVariants.{NoMemory};

    ghost from_gives = { λ no_memory e. e ≡ NoMemory no_memory };

    fn from(no_memory: NoMemory) -> ScriptRefusal {
        ScriptRefusal::NoMemory(no_memory)
    }
}

impl ScriptRefusal {
    ghost use Rattle.std.specs.Prelude.{◌≡◌};
    ghost use Rattle.ldscript.specs.RefusalNumber.{script_refusal_number};

    /// The number under which the refusal is reported, from 1 to 6.
    pub fn number(self) -> u8
        ensures { result ≡ script_refusal_number self }
    {
        match self {
            ScriptRefusal::NotTokens => 1,
            ScriptRefusal::NotAScript => 2,
            ScriptRefusal::Repeated => 3,
            ScriptRefusal::MisplacedDot => 4,
            ScriptRefusal::Limit => 5,
            ScriptRefusal::NoMemory(_) => 6,
        }
    }
}
