//! A change of one object, and the cases of the names that it touches.

ghost use Rattle.std.specs.Prelude.{◌≡◌, ◌++◌, ℕ, List, false, length, true};
ghost use Rattle.symres_decisions.specs.Change.{AreThere, changed_tables, declared_by, IsReadyFor, reversed};
ghost use Rattle.symres_decisions.specs.Change.{symbols_or};
ghost use Rattle.symres_decisions.specs.Counted.{CountsNames};
ghost use Rattle.symres_decisions.specs.Decided.{AreCases, case_at};
ghost use Rattle.symres_decisions.specs.Decisions.{AreDecisionsOf, AreUsedBelow};
ghost use Rattle.symres_decisions.specs.Room.{HaveEntries};
ghost use Rattle.symres_decisions.specs.Texts.{AreDone, AreKnown, AreNoted, AreOpen, DecidedFor, HasPlaces, IsCleared};
ghost use Rattle.symres_decisions.specs.Texts.{declares};
ghost use Rattle.symres_table.specs.State.{AreDistinct, IsNamed};

use crate::cases::Cases;
use crate::change::{ObjectAt, ObjectChange, reverse};
use crate::decisions::Decisions;
use crate::exchange::{put_in, take_out};
use crate::noted::note_keys;
use crate::texts::{KeySource, clear_names, decide_names, have_entries};
use crate::used_names::count_used;
use elfobj::Meter;
use ldmodel::names::{NameKey, ObjectPlace};
use ldscript::Script;
use symres_table::law::entered_again;
use symres_table::names::Names;

/// Clears the cases of the names that an object declares, if there is one.
fn clear_names_of(names: &Names, at: Option<ObjectAt<'_>>, cases: &mut Cases)
    requires place { AreThere names.now at }
    requires distinct { AreDistinct names.now.names }
    requires room { HasPlaces names.now.names cases.old }
    ensures { IsCleared names.now.names (symbols_or at.entry) cases.old cases.new }
{
    match at {
        Some(at) => {
            let source = KeySource::Entered(ObjectPlace(at.place));
            clear_names(names, source, at.object, cases);
        }
        None => {}
    }
}

/// Whether each name of the object that went has an entry, if one went. `noted` are keys of these names.
fn are_gone_used(names: &Names, out: Option<ObjectAt<'_>>, noted: &[NameKey]) -> bool
    requires known { AreKnown names.now.names (symbols_or out) }
    requires noted { AreNoted names.now.names (symbols_or out) noted.now }
    ensures { result ≡ true → HaveEntries names.now.objects (symbols_or out.entry) }
{
    match out {
        Some(at) => have_entries(names, KeySource::Noted(noted), at.object),
        None => true,
    }
}

/// How many of the first listed names have entries after a change. `used` of them had entries before it. Names that
/// became known for the object that came are counted too. `noted` are keys of the names of what went.
fn used_after_change(
    used: usize,
    names: &Names,
    out: Option<ObjectAt<'_>>,
    noted: &[NameKey],
) -> usize
    requires known { AreKnown names.now.names (symbols_or out) }
    requires noted { AreNoted names.now.names (symbols_or out) noted.now }
    requires still { HaveEntries names.now.objects (symbols_or out) → AreUsedBelow names.now used }
    ensures { AreUsedBelow names.now result }
{
    if are_gone_used(names, out, noted) {
        return count_used(names, used);
    }
    0
}

/// Decides the names of the object that went, if one went. `noted` are keys of these names.
fn decide_gone(
    names: &Names,
    script: &Script,
    out: Option<ObjectAt<'_>>,
    noted: &[NameKey],
    cases: &mut Cases,
    meter: &mut Meter,
)
    requires known { AreKnown names.now.names (symbols_or out) }
    requires noted { AreNoted names.now.names (symbols_or out) noted.now }
    requires distinct { AreDistinct names.now.names }
    requires room { HasPlaces names.now.names cases.old }
    ensures long { length cases.new ≡ length cases.old }
    ensures decided { (seen : List (List ℕ)) → AreCases script.now names.now cases.old
        → AreDone names.now.names cases.old seen
        → AreOpen names.now.names cases.old (declared_by out.entry) seen
        → DecidedFor script.now names.now cases.old cases.new meter.old meter.new seen (symbols_or out.entry) }
{
    // for the prover: brings in that the count of names fits a u64
    let _names = meter.names();
    if let Some(at) = out {
        let source = KeySource::Noted(noted);
        decide_names(names, script, source, at.object, cases, meter);
    }
}

/// Decides the names of the object that came, if one came.
fn decide_come(
    names: &Names,
    script: &Script,
    into: Option<ObjectAt<'_>>,
    cases: &mut Cases,
    meter: &mut Meter,
)
    requires place { AreThere names.now into }
    requires distinct { AreDistinct names.now.names }
    requires room { HasPlaces names.now.names cases.old }
    ensures long { length cases.new ≡ length cases.old }
    ensures decided { (seen : List (List ℕ)) → AreCases script.now names.now cases.old
        → AreDone names.now.names cases.old seen
        → AreOpen names.now.names cases.old (declared_by into.entry) seen
        → DecidedFor script.now names.now cases.old cases.new meter.old meter.new seen (symbols_or into.entry) }
{
    // for the prover: brings in that the count of names fits a u64
    let _names = meter.names();
    if let Some(at) = into {
        let source = KeySource::Entered(ObjectPlace(at.place));
        decide_names(names, script, source, at.object, cases, meter);
    }
}

impl Decisions {
    /// Makes a change that there is room for. Each name that the object declared or declares is decided anew, once. It
    /// takes no memory.
    pub fn change(&mut self, script: &Script, change: &ObjectChange<'_>, meter: &mut Meter)
        requires ready { IsReadyFor self.old change.now }
        requires kept { AreDecisionsOf script.now self.old }
        ensures objects { self.new.names.objects ≡ changed_tables self.old.names.objects change.now }
        ensures names { self.new.names.names ≡ self.old.names.names }
        ensures kept { AreDecisionsOf script.now self.new }
        ensures counted { CountsNames meter.old meter.new (declared_by change.now.out ++ declared_by change.now.into) }
        ensures back { IsReadyFor self.new (reversed change.now) }
        ensures frame { (k : ℕ) (name : List ℕ) → IsNamed self.old.names.names k name
            → declares (symbols_or change.now.out) name ≡ false → declares (symbols_or change.now.into) name ≡ false
            → case_at self.new.cases k ≡ case_at self.old.cases k }
    {
        // for the prover: brings in this law
        entered_again();
        // for the prover: brings in the invariant of `self.names`
        let _known = self.names.known();
        clear_names_of(&self.names, change.out, &mut self.cases);
        note_keys(&self.names, change.out, &mut self.noted);
        take_out(&mut self.names, change.key, change.out);
        put_in(&mut self.names, change.key, change.into);
        clear_names_of(&self.names, change.into, &mut self.cases);
        decide_gone(
            &self.names,
            script,
            change.out,
            &self.noted,
            &mut self.cases,
            meter,
        );
        decide_come(&self.names, script, change.into, &mut self.cases, meter);
        self.used = used_after_change(self.used, &self.names, change.out, &self.noted);
    }

    /// Makes the change back, after a change was made: the objects are as they were before it. It takes no memory.
    pub fn undo(&mut self, script: &Script, change: &ObjectChange<'_>, meter: &mut Meter)
        requires ready { IsReadyFor self.old (reversed change.now) }
        requires kept { AreDecisionsOf script.now self.old }
        ensures objects { self.new.names.objects ≡ changed_tables self.old.names.objects (reversed change.now) }
        ensures names { self.new.names.names ≡ self.old.names.names }
        ensures kept { AreDecisionsOf script.now self.new }
        ensures counted { CountsNames meter.old meter.new (declared_by change.now.into ++ declared_by change.now.out) }
        ensures again { IsReadyFor self.new change.now }
        ensures frame { (k : ℕ) (name : List ℕ) → IsNamed self.old.names.names k name
            → declares (symbols_or change.now.out) name ≡ false → declares (symbols_or change.now.into) name ≡ false
            → case_at self.new.cases k ≡ case_at self.old.cases k }
    {
        self.change(script, &reverse(change), meter);
    }
}
