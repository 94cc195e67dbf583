//! The names of a link, while objects change.

ghost use Rattle.std.specs.Prelude.{◌≡◌, ◌++◌, ℕ, List, OnOk, false};
ghost use Rattle.ldscript.specs.statements.declared.statement.Statement.{Statement};
ghost use Rattle.symres_decisions.specs.Change.{changed_tables, declared_by, Fits, IsReadyFor, reversed, symbols_or};
ghost use Rattle.symres_decisions.specs.Counted.{CountsNames, declared_names};
ghost use Rattle.symres_decisions.specs.Decided.{case_at};
ghost use Rattle.symres_decisions.specs.Decisions.{AreDecisionsOf};
ghost use Rattle.symres_decisions.specs.Room.{AreOldOrNew, KeepsUsed, OnlyDrops};
ghost use Rattle.symres_decisions.specs.Texts.{declares};
ghost use Rattle.symres.specs.Placed.{keys_of};
ghost use Rattle.symres_table.specs.State.{Forgets, IsNamed};

use crate::symbol_table::SymbolTable;
use elfobj::Meter;
use growth::NoMemory;
use ldmodel_project::order::Order;
use ldscript::Script;
use std::mem;
use symres_decisions::change::ObjectChange;

impl SymbolTable {
    /// Takes all memory that a change needs, but for the order after it.
    ///
    /// # Errors
    ///
    /// If memory runs out. The objects and the resolution of their names are then as before; names without entries may
    /// be forgotten.
    pub fn room_for(&mut self, script: &Script, change: &ObjectChange<'_>) -> Result<(), NoMemory>
        requires fits { Fits self.old.kept.names.objects change.now }
        requires kept { AreDecisionsOf script.now self.old.kept }
        ensures objects { self.new.kept.names.objects ≡ self.old.kept.names.objects }
        ensures kept { AreDecisionsOf script.now self.new.kept }
        ensures used { KeepsUsed self.old.kept.names self.new.kept.names }
        ensures ready { OnOk result (IsReadyFor self.new.kept change.now) }
        ensures fresh { AreOldOrNew self.old.kept.names self.new.kept.names }
    {
        self.decisions.room_for(script, change)
    }

    /// Makes a change that there is room for. Each name that the object declared or declares is resolved anew, once. It
    /// is given the order of the objects after the change, returns the order before it, and takes no memory.
    pub fn change(
        &mut self,
        script: &Script,
        change: &ObjectChange<'_>,
        order: Order,
        meter: &mut Meter,
    ) -> Order
        requires ready { IsReadyFor self.old.kept change.now }
        requires kept { AreDecisionsOf script.now self.old.kept }
        requires order { order ≡ keys_of (changed_tables self.old.kept.names.objects change.now) }
        ensures objects { self.new.kept.names.objects ≡ changed_tables self.old.kept.names.objects change.now }
        ensures names { self.new.kept.names.names ≡ self.old.kept.names.names }
        ensures kept { AreDecisionsOf script.now self.new.kept }
        ensures counted { CountsNames meter.old meter.new (declared_by change.now.out ++ declared_by change.now.into) }
        ensures back { IsReadyFor self.new.kept (reversed change.now) }
        ensures frame { (k : ℕ) (name : List ℕ) → IsNamed self.old.kept.names.names k name
            → declares (symbols_or change.now.out) name ≡ false → declares (symbols_or change.now.into) name ≡ false
            → case_at self.new.kept.cases k ≡ case_at self.old.kept.cases k }
        ensures order { result ≡ keys_of self.old.kept.names.objects }
    {
        self.decisions.change(script, change, meter);
        mem::replace(&mut self.order, order)
    }

    /// Undoes a change that was made: the objects are as they were before it. The call takes the order that `change`
    /// gave back, and no memory.
    pub fn undo(
        &mut self,
        script: &Script,
        change: &ObjectChange<'_>,
        order: Order,
        meter: &mut Meter,
    )
        requires ready { IsReadyFor self.old.kept (reversed change.now) }
        requires kept { AreDecisionsOf script.now self.old.kept }
        requires order { order ≡ keys_of (changed_tables self.old.kept.names.objects (reversed change.now)) }
        ensures objects { self.new.kept.names.objects
            ≡ changed_tables self.old.kept.names.objects (reversed change.now) }
        ensures names { self.new.kept.names.names ≡ self.old.kept.names.names }
        ensures kept { AreDecisionsOf script.now self.new.kept }
        ensures counted { CountsNames meter.old meter.new (declared_by change.now.into ++ declared_by change.now.out) }
        ensures again { IsReadyFor self.new.kept change.now }
        ensures frame { (k : ℕ) (name : List ℕ) → IsNamed self.old.kept.names.names k name
            → declares (symbols_or change.now.out) name ≡ false → declares (symbols_or change.now.into) name ≡ false
            → case_at self.new.kept.cases k ≡ case_at self.old.kept.cases k }
    {
        self.decisions.undo(script, change, meter);
        self.order = order;
    }

    /// Gives each known name the case that it has under another script. Those that have entries are decided and
    /// counted, each once. It takes no memory.
    pub fn redecide(&mut self, script: &Script, meter: &mut Meter)
        ensures names { self.new.kept.names ≡ self.old.kept.names }
        ensures kept { AreDecisionsOf script.now self.new.kept }
        ensures counted { CountsNames meter.old meter.new (declared_names self.old.kept.names.objects) }
    {
        self.decisions.redecide(script, meter);
    }

    /// Puts the names into byte order, so that they need not be sorted after this: names that come are put in their
    /// places. If memory runs out, the next call does it. If they are in byte order already, the time is constant.
    pub fn put_in_order(&mut self)
        ensures { self.new ≡ self.old }
    {
        self.decisions.put_in_order();
    }

    /// Forgets the names without entries. The others keep their keys and their cases. The time is linear in the number
    /// of names. It takes no memory.
    pub fn forget(&mut self)
        ensures forgets { Forgets self.old.kept.names self.new.kept.names }
        ensures objects { self.new.kept.names.objects ≡ self.old.kept.names.objects }
        ensures used { KeepsUsed self.old.kept.names self.new.kept.names }
        ensures kept { (script : List Statement) → AreDecisionsOf script self.old.kept
            → AreDecisionsOf script self.new.kept }
        ensures frame { OnlyDrops self.old.kept.names.names self.new.kept.names.names self.old.kept.cases
            self.new.kept.cases }
    {
        self.decisions.forget();
    }
}
