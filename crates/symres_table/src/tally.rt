//! How a name is resolved, by one pass over its entries.

ghost use Rattle.std.specs.Prelude.{◌≡◌, ℕ, List, [], ◌∷◌, ◌++◌, map, true};
ghost use Rattle.ldmodel.specs.CodeValues.{decision_under_keys};
ghost use Rattle.ldmodel.specs.Names.{Declaration, decided, is_placed};
ghost use Rattle.ldmodel.specs.ScriptNames.{is_assignment, is_provision};
ghost use Rattle.symres_table.specs.declared.symbol.Declared.{Declared};

use crate::symbol::Declared;
use elfobj::symbol::{Binding, SymbolPlace};
use ldmodel::given::{is_assigned, is_provided};
use ldmodel::names::{Case, Entry, ObjectKey};
use ldscript::tree::Given;

/// What a pass over entries keeps.
#[derive(Clone, Copy, Debug)]
struct Tally {
    /// Whether two or more are strong.
    several: bool,
    strong: Option<Entry<ObjectKey>>,
    common: Option<Entry<ObjectKey>>,
    size: u64,
    alignment: u64,
    weak: Option<Entry<ObjectKey>>,
    undefined: bool,
}

impl Tally {
    ghost use Rattle.symres_table.specs.Tally.{declaration_of, tally_of};

    fn new() -> Tally
        ensures { result ≡ tally_of [] }
    {
        Tally {
            several: false,
            strong: None,
            common: None,
            size: 0,
            alignment: 0,
            weak: None,
            undefined: false,
        }
    }

    /// Adds an entry that comes after those seen so far.
    fn add(&mut self, declared: &Declared)
        ensures { (name : List ℕ) (seen : List Declaration) → self.old ≡ tally_of seen → self.new
            ≡ tally_of (seen ++ declaration_of name declared.now ∷ []) }
    {
        match declared.symbol.place {
            SymbolPlace::Undefined => self.undefined = true,
            SymbolPlace::Common => {
                self.size = self.size.max(declared.symbol.size);
                self.alignment = self.alignment.max(declared.symbol.value);
                if self.common.is_none() {
                    self.common = Some(declared.entry);
                }
            }
            SymbolPlace::Absolute | SymbolPlace::Section(_) => self.add_definition(declared),
        }
    }

    /// Counts a definition that isn't common.
    fn add_definition(&mut self, declared: &Declared)
        requires { is_placed declared.now.symbol.place ≡ true }
        ensures { (name : List ℕ) (seen : List Declaration) → self.old ≡ tally_of seen → self.new
            ≡ tally_of (seen ++ declaration_of name declared.now ∷ []) }
    {
        match declared.symbol.binding {
            Binding::Global => {
                self.several = self.strong.is_some();
                if self.strong.is_none() {
                    self.strong = Some(declared.entry);
                }
            }
            Binding::Weak => {
                if self.weak.is_none() {
                    self.weak = Some(declared.entry);
                }
            }
            Binding::Local => {}
        }
    }

    /// How the name is resolved by the entries seen, and by what the script gives it.
    #[tactic(auto, unfolding(ldmodel::specs::Names::decided))]
    fn case(&self, given: Option<Given>) -> Case<ObjectKey>
        ensures { (seen : List Declaration) → self.now ≡ tally_of seen → decision_under_keys result
            ≡ decided (is_assignment given) (is_provision given) seen }
    {
        let assigned = is_assigned(given);
        if self.several || (self.strong.is_some() && assigned) {
            return Case::Duplicate;
        }
        if let Some(entry) = self.strong {
            return Case::Strong(entry);
        }
        if assigned {
            return Case::Script;
        }
        if let Some(owner) = self.common {
            return Case::Common {
                owner,
                size: self.size,
                align: self.alignment,
            };
        }
        if let Some(entry) = self.weak {
            return Case::Weak(entry);
        }
        if is_provided(given) && self.undefined {
            Case::Provided
        } else {
            Case::Undefined
        }
    }
}

ghost use Rattle.symres_table.specs.Tally.{declaration_of};

/// How a name is resolved by its entries, in object order and then symbol order, and by the script.
pub fn decide(given: Option<Given>, declared: &[Declared]) -> Case<ObjectKey>
    ensures { (name : List ℕ) → decision_under_keys result
        ≡ decided (is_assignment given) (is_provision given) (map (declaration_of name) declared.now) }
{
    let mut tally = Tally::new();
    for entry in declared {
        tally.add(entry);
    }
    tally.case(given)
}
