//! What defines a name in the output: all that the map and the symbol table need of how the name is resolved.

ghost use Rattle.std.specs.Prelude.{◌≡◌};
ghost use Rattle.ldmodel.specs.CodeValues.{decision_of};
ghost use Rattle.emit_text.specs.Definer.{defines, definer_of, is_weak};

use ldmodel::names::{Case, ObjectPlace};

/// What defines a name.
#[derive(Clone, Copy, Debug, PartialEq, Eq)]
pub enum Definer {
    /// Nothing: the name is undefined, or it has two or more strong definitions.
    Nothing,
    /// The script.
    Script,
    /// A global symbol or a common block of this object.
    Object(ObjectPlace),
    /// A weak symbol of this object.
    WeakOf(ObjectPlace),
}

impl Definer {
    /// What defines a name with this resolution.
    pub fn of(case: Case<ObjectPlace>) -> Definer
        ensures { result ≡ definer_of (decision_of (λ key. key) case) }
    {
        match case {
            Case::Strong(entry) => Definer::Object(entry.object),
            Case::Common { owner, .. } => Definer::Object(owner.object),
            Case::Weak(entry) => Definer::WeakOf(entry.object),
            Case::Script | Case::Provided => Definer::Script,
            Case::Undefined | Case::Duplicate => Definer::Nothing,
        }
    }

    /// Whether it defines the name.
    pub fn defines(self) -> bool
        ensures { result ≡ defines self }
    {
        match self {
            Definer::Nothing => false,
            Definer::Script | Definer::Object(_) | Definer::WeakOf(_) => true,
        }
    }

    /// Whether it is a weak symbol.
    pub fn is_weak(self) -> bool
        ensures { result ≡ is_weak self }
    {
        match self {
            Definer::WeakOf(_) => true,
            Definer::Nothing | Definer::Script | Definer::Object(_) => false,
        }
    }
}
