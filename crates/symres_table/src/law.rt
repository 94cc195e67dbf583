//! Laws of tables of names.

ghost use Rattle.std.specs.Prelude.{ℕ, List};
ghost use Rattle.elfobj.specs.Symbols.{NamedSymbol};
ghost use Rattle.symres_table.specs.Changes.{Enters, Withdraws};
ghost use Rattle.symres_table.specs.State.{MayEnter, State};

/// What can be entered after an object was taken out can be entered again, after another one was entered under its key
/// and taken out.
pub fn entered_again()
    ensures { (first without with last : State) (key at : ℕ) (new symbols : List NamedSymbol)
        → Withdraws first without key → Enters without with key at new → Withdraws with last key
        → MayEnter without symbols → MayEnter last symbols }
{}
