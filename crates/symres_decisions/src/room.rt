//! Room for names that become known, and names that are forgotten.

ghost use Rattle.std.specs.Prelude.{◌≡◌, ◌<◌, ◌≤◌, ◌==◌, ℕ, List, [], true, if◌then◌else◌, length, OnOk};
ghost use Rattle.ldscript.specs.statements.declared.statement.Statement.{Statement};
ghost use Rattle.symres_decisions.specs.Change.{CanGo, Fits, IsReadyFor};
ghost use Rattle.symres_decisions.specs.Counted.{is_used};
ghost use Rattle.symres_decisions.specs.Decided.{AreCases, case_at, HasCase};
ghost use Rattle.symres_decisions.specs.Decisions.{AreDecisionsOf, AreUsedBelow, IsTextOf, IsWhole};
ghost use Rattle.symres_decisions.specs.Room.{AreKeptWhere, AreUnused, HaveCasesBelow, HaveCasesFrom, kept_where};
ghost use Rattle.symres_decisions.specs.Room.{KeepsUsed};
ghost use Rattle.symres_decisions.specs.Room.{AreOldOrNew, OnlyDrops};
ghost use Rattle.symres_table.specs.State.{entries_of, Forgets, HasName, IsNamed, MayEnter, slot};

use crate::cases::Cases;
use crate::change::ObjectChange;
use crate::decisions::Decisions;
use crate::kept_text::{with_new_names, without_forgotten};
use crate::name_text::NameText;
use crate::noted::reserve_keys;
use crate::single::given_case;
use crate::used_names::{all_or_none, are_all_used};
use elfobj::Object;
use growth::NoMemory;
use ldmodel::names::NameKey;
use ldscript::Script;
use symres_table::names::Names;

/// Gives a name without entries the case that the script alone makes of it.
fn add_given(
    names: &Names,
    script: &Script,
    key: NameKey,
    cases: &mut Cases,
) -> Result<(), NoMemory>
    requires named { HasName names.now.names key.0 }
    requires unused { (name : List ℕ) → IsNamed names.now.names key.0 name → entries_of name names.now.objects ≡ [] }
    ensures sound { AreCases script.now names.now cases.old → AreCases script.now names.now cases.new }
    ensures kept { (k : ℕ) → HasCase cases.old k → HasCase cases.new k }
    ensures ok { OnOk result (HasCase cases.new key.0) }
{
    cases.grow_to(key)?;
    let name = names.name_of(key).unwrap();
    cases.set(key, Some(given_case(script, name)));
    Ok(())
}

/// Adds what the script gives the names that stand from a place on in the list.
fn add_all_given(
    names: &Names,
    script: &Script,
    from: usize,
    cases: &mut Cases,
) -> Result<(), NoMemory>
    requires { AreUnused names.now from }
    ensures sound { AreCases script.now names.now cases.old → AreCases script.now names.now cases.new }
    ensures kept { (k : ℕ) → HasCase cases.old k → HasCase cases.new k }
    ensures ok { OnOk result (HaveCasesFrom names.now.order from cases.new) }
{
    let count = names.known();
    for place in from..count {
        add_given(names, script, names.key_listed(place), cases)?;
    }
    Ok(())
}

/// Gives names that became known their cases.
fn settle_new(
    names: &Names,
    script: &Script,
    from: usize,
    cases: &mut Cases,
) -> Result<(), NoMemory>
    requires unused { AreUnused names.now from }
    requires below { HaveCasesBelow names.now.order from cases.old }
    requires sound { AreCases script.now names.now cases.old }
    ensures sound { AreCases script.now names.now cases.new }
    ensures kept { (k : ℕ) → HasCase cases.old k → HasCase cases.new k }
    ensures ok { OnOk result (IsWhole names.now cases.new) }
{
    // for the prover: brings in the invariant of `names`
    let _known = names.known();
    add_all_given(names, script, from, cases)
}

/// Clears the case of a key without a name.
fn clear_if_unnamed(names: &Names, key: NameKey, cases: &mut Cases)
    requires { key.0 < length cases.old }
    ensures long { length cases.new ≡ length cases.old }
    ensures at { (k : ℕ) → case_at cases.new k
        ≡ (if k == key.0 then kept_where (slot names.now.names key.0) (case_at cases.old key.0)
        else case_at cases.old k) }
{
    match names.name_of(key) {
        Some(_name) => {}
        None => cases.set(key, None),
    }
}

/// Clears the case of each key that has no name.
fn clear_unnamed(names: &Names, cases: &mut Cases)
    ensures { AreKeptWhere names.now.names cases.old cases.new }
{
    let count = cases.len();
    for key in 0..count {
        clear_if_unnamed(names, NameKey(key), cases);
    }
}

/// Forgets the names without entries, with their cases.
fn drop_unused(names: &mut Names, cases: &mut Cases)
    requires complete { (k : ℕ) (name : List ℕ) → IsNamed names.old.names k name
        → is_used names.old.objects name ≡ true → HasCase cases.old k }
    ensures forgets { Forgets names.old names.new }
    ensures whole { IsWhole names.new cases.new }
    ensures sound { (script : List Statement) → AreCases script names.old cases.old
        → AreCases script names.new cases.new }
    ensures frame { OnlyDrops names.old.names names.new.names cases.old cases.new }
{
    names.forget();
    clear_unnamed(names, cases);
}

/// Makes room for an object that comes.
///
/// # Errors
///
/// If memory runs out.
fn make_room(
    names: &mut Names,
    script: &Script,
    object: &Object,
    cases: &mut Cases,
    used: &mut usize,
    text: &mut Option<NameText>,
) -> Result<(), NoMemory>
    requires whole { IsWhole names.old cases.old }
    requires all { AreUsedBelow names.old used.old }
    requires text { IsTextOf names.old text.old }
    requires sound { AreCases script.now names.old cases.old }
    ensures objects { names.new.objects ≡ names.old.objects }
    ensures whole { IsWhole names.new cases.new }
    ensures all { AreUsedBelow names.new used.new }
    ensures text { IsTextOf names.new text.new }
    ensures sound { AreCases script.now names.new cases.new }
    ensures used { KeepsUsed names.old names.new }
    ensures ready { OnOk result (MayEnter names.new object.now.symbols) }
    ensures fresh { AreOldOrNew names.old names.new }
{
    let from = names.known();
    names.reserve(object)?;
    if names.known() == from {
        return Ok(());
    }
    match settle_new(names, script, from, cases) {
        Ok(()) => {
            *text = with_new_names(names, from, text.take());
            Ok(())
        }
        Err(no_memory) => {
            *text = None;
            drop_unused(names, cases);
            *used = 0;
            Err(no_memory)
        }
    }
}

impl Decisions {
    /// Takes all memory that a change needs. If memory is refused, the objects and the resolutions of their names are
    /// as before; names without entries may be forgotten.
    pub fn room_for(&mut self, script: &Script, change: &ObjectChange<'_>) -> Result<(), NoMemory>
        requires fits { Fits self.old.names.objects change.now }
        requires kept { AreDecisionsOf script.now self.old }
        ensures objects { self.new.names.objects ≡ self.old.names.objects }
        ensures kept { AreDecisionsOf script.now self.new }
        ensures used { KeepsUsed self.old.names self.new.names }
        ensures ready { OnOk result (IsReadyFor self.new change.now) }
        ensures fresh { AreOldOrNew self.old.names self.new.names }
    {
        reserve_keys(&mut self.noted, change)?;
        match change.into {
            Some(at) => make_room(
                &mut self.names,
                script,
                at.object,
                &mut self.cases,
                &mut self.used,
                &mut self.text,
            ),
            None => Ok(()),
        }
    }

    /// Forgets the names without entries. The others keep their keys and their cases. Where each name is known to have
    /// an entry, the time is constant; else it is linear in the number of names. It takes no memory.
    pub fn forget(&mut self)
        ensures forgets { Forgets self.old.names self.new.names }
        ensures objects { self.new.names.objects ≡ self.old.names.objects }
        ensures used { KeepsUsed self.old.names self.new.names }
        ensures kept { (script : List Statement) → AreDecisionsOf script self.old → AreDecisionsOf script self.new }
        ensures frame { OnlyDrops self.old.names.names self.new.names.names self.old.cases self.new.cases }
    {
        // for the prover: brings in the invariant of `self.names`
        let _known = self.names.known();
        if are_all_used(&self.names, self.used) {
            return;
        }
        drop_unused(&mut self.names, &mut self.cases);
        self.text = without_forgotten(&self.names, self.text.take());
        self.used = all_or_none(&self.names, true);
    }
}
