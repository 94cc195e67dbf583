//! A pattern of names.

ghost use Rattle.std.specs.Prelude.{◌≡◌, ◌↔◌, ◌∷◌, [], ℕ, IsTrue, IfOk, IfSome, List, MatchOption, None, Some, true};
ghost use Rattle.ldscript_terms.specs.Parts.{Part, AnyRun};
ghost use Rattle.ldscript_terms.specs.Forms.{IsForm, parts_in};
ghost use Rattle.ldscript_terms.specs.Spelling.{SpellsPattern, IsPatternOf};
ghost use Rattle.ldscript_terms.specs.Matching.{Matches, is_match};
ghost use Rattle.ldscript_terms.specs.CodeTerms.{exact_name};
ghost use Rattle.ldscript_terms.specs.Trying.{IsSpelled};

use crate::matching::matches_word;
use crate::word::{exact_bytes, is_same, is_spelled, is_star};
use growth::NoMemory;
use ldscript_tokens::name::ScriptName;
use std::alloc::Global;
use std::marker::Model;

/// What is kept of a pattern: a word or a name, and no list of parts, since a script may have half a million patterns.
/// The parts of a word are read again for each match.
#[derive(Drop)]
enum Form {
    /// The one name that it matches, as it has no wildcard.
    Exact(ScriptName),
    /// The word that spells it, with a `*`, a `?` or a set.
    Wild(ScriptName),
}

/// A pattern, which matches whole names. `*` matches any run of bytes, also an empty one; `?` one byte; both match `/`
/// too. `\x` is the byte x. A set between `[` and `]` matches one of its bytes; in it `x-y` are the bytes from x to y,
/// and a `-` that begins or ends it is itself. Any other byte is itself.
#[derive(Drop)]
pub struct Pattern {
    form: Form,
}

impl Model for Pattern {
    ghost use Rattle.std.specs.Prelude.{List};
    ghost use Rattle.ldscript_terms.specs.Forms.{IsForm, parts_in};
    ghost use Rattle.ldscript_terms.specs.Parts.{Part};

    ghost Value = { List Part };

    ghost view = { λ pattern. parts_in pattern.form };

    ghost invariant = { λ pattern. IsForm pattern.form };
}

/// What is kept of the pattern that a word spells.
fn form_of(alloc: Global, word: &[u8]) -> Result<Form, NoMemory>
    requires { IsSpelled word.now }
    ensures form { IfOk result (λ f. IsForm f) }
    ensures spelled { IfOk result (λ f. SpellsPattern (parts_in f) word.now) }
{
    match exact_bytes(alloc, word)? {
        Some(name) => Ok(Form::Exact(ScriptName::new(alloc, &name)?)),
        None => Ok(Form::Wild(ScriptName::new(alloc, word)?)),
    }
}

impl Pattern {
    /// Reads the pattern that a word spells. `None` if it spells none: it has a `]` outside a set, or a set that is
    /// empty, has no end, or has a `[` or a `\` in it.
    ///
    /// # Errors
    ///
    /// If memory runs out.
    pub fn read(alloc: Global, word: &[u8]) -> Result<Option<Pattern>, NoMemory>
        ensures { IfOk result (λ found. MatchOption found ((parts : List Part) → SpellsPattern parts word.now → ⊥)
            (λ parts. IsPatternOf word.now parts)) }
    {
        if !is_spelled(word) {
            return Ok(None);
        }
        let form = form_of(alloc, word)?;
        Ok(Some(Pattern { form }))
    }

    /// The one name that it matches, if it has no wildcard.
    pub fn exact_name(&self) -> Option<&[u8]>
        ensures value { MatchOption result (exact_name self.now ≡ None) (λ name. exact_name self.now ≡ Some name.now) }
        ensures only { IfSome result (λ wanted. (name : List ℕ) → Matches self.now name ↔ name ≡ wanted.now) }
    {
        match &self.form {
            Form::Exact(name) => Some(name.as_bytes()),
            Form::Wild(_) => None,
        }
    }

    /// Whether it is `*` alone, which matches every name.
    pub fn is_any(&self) -> bool
        ensures value { IsTrue result ↔ self.now ≡ AnyRun ∷ [] }
        ensures all { IsTrue result → (name : List ℕ) → Matches self.now name }
    {
        match &self.form {
            Form::Exact(_) => false,
            Form::Wild(word) => is_star(word.as_bytes()),
        }
    }

    /// Whether another pattern is written with the same bytes, and so matches the same names. It takes no memory.
    pub fn is_same(&self, other: &Pattern) -> bool
        ensures { result ≡ true → self.now ≡ other.now }
    {
        match (&self.form, &other.form) {
            (Form::Exact(name), Form::Exact(of_other)) => {
                is_same(name.as_bytes(), of_other.as_bytes())
            }
            (Form::Wild(word), Form::Wild(of_other)) => {
                is_same(word.as_bytes(), of_other.as_bytes())
            }
            _ => false,
        }
    }
}

/// Whether a pattern matches a whole name. It takes no memory, and at most about as many steps as the product of
/// the lengths of the pattern's word and of the name: after each `*` the parts up to the next one are tried at each
/// place of the name at most once.
pub fn matches(pattern: &Pattern, name: &[u8]) -> bool
    ensures splits { IsTrue result ↔ Matches pattern.now name.now }
    ensures test { result ≡ is_match pattern.now name.now }
{
    match &pattern.form {
        Form::Exact(exact) => is_same(name, exact.as_bytes()),
        Form::Wild(word) => matches_word(word.as_bytes(), name),
    }
}
