//! How the names of entered objects are resolved.

ghost use Rattle.std.specs.Prelude.{◌≡◌, ◌<◌, ℕ, List, [], Contains, IfOk, IfSome, IfNone, MatchOption, map};
ghost use Rattle.std.specs.Prelude.{length, count_by};
ghost use Rattle.std.specs.Prelude.{slice_get, true};
ghost use Rattle.std.specs.Option.{option_map};
ghost use Rattle.ldmodel.specs.CodeValues.{decision_under_keys};
ghost use Rattle.ldscript.specs.statements.declared.statement.Statement.{Statement};
ghost use Rattle.symres_decisions.specs.Counted.{CountsNames, declared_names};
ghost use Rattle.symres_decisions.specs.Decided.{case_at, decision_in, HasCase, is_doubled};
ghost use Rattle.symres_decisions.specs.Decisions.{AreDecisionsOf, IsCaseNamed};
ghost use Rattle.symres_decisions.specs.Keyed.{AreApart, tables_of};
ghost use Rattle.symres_decisions.specs.NameText.{AreInOrder, compared_number};
ghost use Rattle.symres_table.specs.Known.{entry_spelled};
ghost use Rattle.symres_table.specs.State.{entries_of, HasName, IsListing, IsNameAt};
ghost use Rattle.symres_table.specs.State.{IsNamed, IsSeenAt, object_key};
ghost use Rattle.symres_table.specs.Tally.{declaration_of};

use crate::all::{decide_all, places_for};
use crate::cases::Cases;
use crate::entered::enter_all;
use crate::keyed_object::KeyedObject;
use crate::name_text::NameText;
use crate::single::given_case;
use crate::sorted_names::{ComparedName, sorted_names};
use elfobj::Meter;
use elfobj::relocation::SymbolIndex;
use growth::NoMemory;
use indexmap::map::Iter;
use ldmodel::names::{Case, NameKey, ObjectKey, ObjectPlace};
use ldscript::Script;
use std::alloc::Global;
use std::hash::RandomState;
use std::marker::Model;
use symres_table::names::Names;
use symres_table::symbol::Declared;

/// How the names of entered objects are resolved, kept while objects change. Each known name has a case, also without
/// entries.
#[derive(Drop)]
pub struct Decisions {
    pub(crate) names: Names,
    pub(crate) cases: Cases,
    // how many of the first names of the list are known to have entries
    pub(crate) used: usize,
    // room for the keys of the names of the object that goes at a change
    pub(crate) noted: Vec<NameKey>,
    // the names in byte order, one after the other in memory
    pub(crate) text: Option<NameText>,
}

impl Model for Decisions {
    ghost use Rattle.symres_decisions.specs.Decisions.{AreUsedBelow, DecisionsState, IsTextOf, IsWhole};

    ghost Value = { DecisionsState };

    ghost view = { λ a. record { names = a.names; cases = a.cases } };

    ghost invariant = { λ a. IsWhole a.names a.cases × AreUsedBelow a.names a.used × IsTextOf a.names a.text };
}

impl Decisions {
    /// Decides the names of these objects, each once. No two objects have one key.
    ///
    /// # Errors
    ///
    /// If memory runs out.
    pub fn of(
        alloc: Global,
        seed: RandomState,
        objects: &[KeyedObject<'_>],
        script: &Script,
        meter: &mut Meter,
    ) -> Result<Decisions, NoMemory>
        requires { AreApart objects.now }
        ensures objects { IfOk result (λ d. d.names.objects ≡ tables_of objects.now) }
        ensures kept { IfOk result (λ d. AreDecisionsOf script.now d) }
        ensures counted { IfOk result (λ d. CountsNames meter.old meter.new
            (declared_names (tables_of objects.now))) }
    {
        let names = enter_all(alloc, seed, objects)?;
        let mut cases = places_for(alloc, &names)?;
        decide_all(&names, script, &mut cases, meter);
        Ok(Decisions {
            names,
            cases,
            used: 0,
            noted: Vec::new(alloc),
            text: None,
        })
    }

    /// Gives each known name the case that it has under another script. Those that have entries are resolved and
    /// counted, each once; the others follow from the script alone. It takes no memory.
    pub fn redecide(&mut self, script: &Script, meter: &mut Meter)
        ensures names { self.new.names ≡ self.old.names }
        ensures kept { AreDecisionsOf script.now self.new }
        ensures counted { CountsNames meter.old meter.new (declared_names self.old.names.objects) }
    {
        decide_all(&self.names, script, &mut self.cases, meter);
    }

    /// How many objects are entered.
    pub fn len(&self) -> usize
        ensures { result ≡ length self.now.names.objects }
    {
        self.names.len()
    }

    /// One more than the greatest key of a name, at most: the cases fit a table of this length.
    pub fn limit(&self) -> usize
        ensures { result ≡ length self.now.cases }
    {
        self.cases.len()
    }

    /// How many names are defined twice.
    pub fn doubled(&self) -> usize
        ensures { result ≡ count_by is_doubled self.now.cases }
    {
        self.cases.doubled()
    }

    /// How many names are known. Each has a case, and what the entered objects declare is known.
    pub fn known(&self) -> usize
        ensures len { result ≡ length self.now.names.order }
        ensures listing { IsListing self.now.names.names self.now.names.order }
        ensures complete { (k : ℕ) → HasName self.now.names.names k → HasCase self.now.cases k }
        ensures unknown { (name : List ℕ) → ((k : ℕ) → IsNamed self.now.names.names k name → ⊥)
            → entries_of name self.now.names.objects ≡ [] }
        ensures declared { (name : List ℕ) → Contains (declared_names self.now.names.objects) name
            → (k : ℕ) × IsNamed self.now.names.names k name }
        ensures seen { (place number : ℕ) → IsSeenAt self.now.names.objects place number
            → (k : ℕ) × IsNameAt self.now.names.names self.now.names.objects place number k }
    {
        self.names.known()
    }

    /// How the name of a key is resolved, if the key has one.
    #[inline(always)]
    pub fn case_of(&self, name: NameKey) -> Option<Case<ObjectKey>>
        ensures case { result ≡ case_at self.now.cases name.0 }
        ensures complete { HasName self.now.names.names name.0 → HasCase self.now.cases name.0 }
        ensures named { HasCase self.now.cases name.0 → HasName self.now.names.names name.0 }
    {
        self.cases.get(name)
    }

    /// How any name is resolved: it is hashed and looked up.
    pub fn case_named(&self, script: &Script, name: &[u8]) -> Case<ObjectKey>
        ensures case { AreDecisionsOf script.now self.now → decision_under_keys result
            ≡ decision_in script.now self.now.names name.now }
        ensures found { IsCaseNamed script.now self.now name.now result }
    {
        match self.names.key_named(name) {
            Some(key) => self.cases.get(key).unwrap(),
            None => given_case(script, name),
        }
    }

    /// The key of a name, while it is known. It is hashed.
    pub fn key_named(&self, name: &[u8]) -> Option<NameKey>
        ensures { MatchOption result ((k : ℕ) → IsNamed self.now.names.names k name.now → ⊥) (λ k.
            IsNamed self.now.names.names k.0 name.now) }
    {
        self.names.key_named(name)
    }

    /// The key of the name of a symbol that isn't local, of the object at a place among the entered ones, from 0. The
    /// time is constant.
    pub fn key_at(&self, place: ObjectPlace, symbol: SymbolIndex) -> NameKey
        requires { IsSeenAt self.now.names.objects place.0 symbol.0 }
        ensures name { IsNameAt self.now.names.names self.now.names.objects place.0 symbol.0 result.0 }
        ensures case { HasCase self.now.cases result.0 }
    {
        self.names.key_at(place, symbol)
    }

    /// The key of the object at a place among the entered ones, from 0. The time is constant.
    pub fn object_at(&self, place: ObjectPlace) -> Option<ObjectKey>
        ensures { result ≡ option_map object_key (slice_get self.now.names.objects place.0) }
    {
        self.names.object_at(place)
    }

    /// The name of a key, while it is known.
    pub fn name_of(&self, name: NameKey) -> Option<&[u8]>
        ensures { MatchOption result ((bytes : List ℕ) → IsNamed self.now.names.names name.0 bytes → ⊥) (λ bytes.
            IsNamed self.now.names.names name.0 bytes.now) }
    {
        self.names.name_of(name)
    }

    /// The entries of the name of a key, in object order and then symbol order.
    pub fn entries(&self, name: NameKey) -> &[Declared]
        ensures { (bytes : List ℕ) → IsNamed self.now.names.names name.0 bytes
            → map (declaration_of bytes) result.now ≡ entries_of bytes self.now.names.objects }
    {
        self.names.entries(name)
    }

    /// Every known name once, with the number of its key, in no promised order. It takes no memory. The time is linear
    /// in the number of names.
    pub fn listed(&self) -> Iter<'_, Vec<u8>, usize>
        ensures names { map entry_spelled result ≡ self.now.names.order }
        ensures listing { IsListing self.now.names.names self.now.names.order }
    {
        self.names.listed()
    }

    /// The names in byte order, one after the other in memory, if they are kept so.
    pub fn text(&self) -> Option<&NameText>
        ensures { IfSome result (λ text. AreInOrder self.now.names.order text.now) }
    {
        self.text.as_ref()
    }

    /// The names in byte order. They are sorted for it.
    ///
    /// # Errors
    ///
    /// If memory runs out.
    pub fn sorted(&self, alloc: Global) -> Result<Vec<ComparedName<'_>>, NoMemory>
        ensures { IfOk result (λ list. AreInOrder self.now.names.order (map compared_number list.items)) }
    {
        sorted_names(alloc, &self.names)
    }

    /// Puts the names into byte order and writes them one after the other in memory, so that listings after this need
    /// not sort them and are quick to read. If memory is refused they are not kept so. If they are, the time is
    /// constant. If a name is defined twice nothing is done, since a link then ends before it lists them.
    pub fn put_in_order(&mut self)
        ensures { self.new ≡ self.old }
    {
        if self.text.is_some() || self.cases.doubled() > 0 {
            return;
        }
        self.text = NameText::of(*self.noted.allocator(), &self.names);
    }
}
