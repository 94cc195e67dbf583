//! How each name that the objects of a link declare is resolved.

ghost use Rattle.std.specs.Prelude.{◌≡◌, ℕ, List, IfOk, MatchOption, length, map};
ghost use Rattle.elfobj.specs.Symbols.{NamedSymbol};
ghost use Rattle.ldmodel.specs.CodeValues.{decision_of};
ghost use Rattle.ldmodel.specs.Names.{decision, symbol_tables};
ghost use Rattle.ldmodel.specs.Project.{Project};
ghost use Rattle.ldmodel_laws.specs.Renumbering.{renumbered_decision};
ghost use Rattle.symres_decisions.specs.Decided.{case_at, decision_in, HasCase};
ghost use Rattle.symres_decisions.specs.Decisions.{AreDecisionsOf};
ghost use Rattle.symres.specs.Entered.{tables_of};
ghost use Rattle.symres.specs.SymbolTable.{IsNameAt, IsSymbolTable, IsSeenAt};
ghost use Rattle.symres.specs.Placed.{keys_of};
ghost use Rattle.ldmodel_project.specs.Inputs.{shown_inputs};
ghost use Rattle.ldmodel_project.specs.Tables.{place_or_0};
ghost use Rattle.symres_table.specs.State.{AreDistinct, IsNamed};

use crate::case_by_place::place_case;
use crate::entered::{by_place, keys_of};
use elfobj::Meter;
use elfobj::relocation::SymbolIndex;
use growth::NoMemory;
use ldmodel::names::{Case, NameKey, ObjectPlace};
use ldmodel_laws::names::decision_by_keys;
use ldmodel_project::input::InputObject;
use ldmodel_project::law::tables_by_place;
use ldmodel_project::order::Order;
use ldscript::Script;
use std::alloc::Global;
use std::hash::RandomState;
use std::marker::Model;
use symres_decisions::decisions::Decisions;

/// How the names of a link's objects are resolved: kept under the keys of the objects, while these change, and read by
/// their places in the link.
#[derive(Drop)]
pub struct SymbolTable {
    pub(crate) decisions: Decisions,
    pub(crate) order: Order,
}

impl Model for SymbolTable {
    ghost use Rattle.std.specs.Prelude.{◌≡◌};
    ghost use Rattle.symres.specs.SymbolTable.{SymbolTableState, state_of};
    ghost use Rattle.symres.specs.Placed.{keys_of};

    ghost Value = { SymbolTableState };

    ghost view = { λ a. state_of a.decisions a.order };

    ghost invariant = { λ a. keys_of a.decisions.names.objects ≡ a.order };
}

impl SymbolTable {
    /// Resolves the names that the symbols of these objects declare, each once. The key of each object is its place.
    ///
    /// # Errors
    ///
    /// If memory runs out.
    pub fn of(
        alloc: Global,
        seed: RandomState,
        inputs: &[InputObject<'_>],
        script: &Script,
        meter: &mut Meter,
    ) -> Result<SymbolTable, NoMemory>
        ensures symbol_table { IfOk result (λ symbol_table. (project : Project) → project.objects
            ≡ shown_inputs inputs.now
            → project.script ≡ script.now → IsSymbolTable project symbol_table) }
        ensures objects { IfOk result (λ a. a.kept.names.objects ≡ tables_of inputs.now) }
        ensures kept { IfOk result (λ a. AreDecisionsOf script.now a.kept) }
    {
        let objects = by_place(alloc, inputs)?;
        let keys = keys_of(alloc, &objects)?;
        let mut order = Order::of(alloc, &keys)?;
        order.index(alloc)?;
        let decisions = Decisions::of(alloc, seed, &objects, script, meter)?;
        let symbol_table = SymbolTable { decisions, order };
        symbol_table.names_kept();
        Ok(symbol_table)
    }

    /// Indexes the places of the objects, for many calls of `case_of`: before that, each goes over the objects. If they
    /// are indexed already, nothing is done.
    ///
    /// # Errors
    ///
    /// If memory runs out.
    pub fn index_places(&mut self, alloc: Global) -> Result<(), NoMemory>
        ensures { self.new ≡ self.old }
    {
        self.order.index(alloc)
    }

    /// A name is resolved alike among objects under their places and among the same objects under their keys. The call
    /// does nothing.
    pub(crate) fn decided_by_keys(&self)
        ensures { (project : Project) (name : List ℕ)
            → symbol_tables project.objects ≡ map (λ (t : ℕ × List NamedSymbol). t.1) self.now.kept.names.objects
            → decision project name ≡ renumbered_decision (place_or_0 (keys_of self.now.kept.names.objects))
            (decision_in project.script self.now.kept.names name) }
    {
        // for the prover: bring in these laws
        decision_by_keys();
        tables_by_place();
        // for the prover: brings in the invariant of `self.order`
        let _keys = self.order.keys();
    }

    /// If the cases are kept for the script of a project and for its objects, they are how the names of the project are
    /// resolved. The call does nothing.
    pub fn names_kept(&self)
        ensures { (project : Project) → AreDecisionsOf project.script self.now.kept
            → symbol_tables project.objects ≡ map (λ (t : ℕ × List NamedSymbol). t.1) self.now.kept.names.objects
            → IsSymbolTable project self.now }
    {
        // for the prover: brings in the invariant of `self.order`
        let _order = &self.order;
        self.decided_by_keys();
    }

    /// Each key of a name has a case, and no two keys have one name. The call does nothing.
    pub fn keys_decided(&self)
        ensures cases { (k : ℕ) (name : List ℕ) → IsNamed self.now.names k name → HasCase self.now.cases k }
        ensures distinct { AreDistinct self.now.names }
    {
        // for the prover: brings in the invariant of `self.order`
        let _order = &self.order;
        let _known = self.decisions.known();
    }

    /// The key of a name, while it is known. The name is hashed.
    pub fn key_named(&self, name: &[u8]) -> Option<NameKey>
        ensures { MatchOption result ((k : ℕ) → IsNamed self.now.names k name.now → ⊥) (λ k.
            IsNamed self.now.names k.0 name.now) }
    {
        self.decisions.key_named(name)
    }

    /// The length of a table of cases under keys: each key that has a case is below it.
    pub fn limit(&self) -> usize
        ensures { result ≡ length self.now.cases }
    {
        self.decisions.limit()
    }

    /// How the name of a key is resolved, if the key has one. The time is constant if the places are indexed.
    #[inline(always)]
    pub fn case_of(&self, key: NameKey) -> Option<Case<ObjectPlace>>
        ensures { result ≡ case_at self.now.cases key.0 }
    {
        match self.decisions.case_of(key) {
            Some(case) => Some(place_case(&self.order, case)),
            None => None,
        }
    }

    /// The key of the name of a symbol that isn't local, of the object at a place. The key has a case. The time is
    /// constant.
    pub fn key_of(&self, place: ObjectPlace, symbol: SymbolIndex) -> NameKey
        requires { IsSeenAt self.now.objects place.0 symbol.0 }
        ensures name { IsNameAt self.now place.0 symbol.0 result.0 }
        ensures case { HasCase self.now.cases result.0 }
    {
        self.decisions.key_at(place, symbol)
    }

    /// How any name, such as the entry symbol, is resolved: the name is hashed and looked up.
    pub fn case_named(&self, script: &Script, name: &[u8]) -> Case<ObjectPlace>
        ensures case { (project : Project) → IsSymbolTable project self.now → project.script ≡ script.now
            → decision_of (λ key. key) result
            ≡ decision project name.now }
    {
        // for the prover: brings in this law
        self.decided_by_keys();
        place_case(&self.order, self.decisions.case_named(script, name))
    }
}
