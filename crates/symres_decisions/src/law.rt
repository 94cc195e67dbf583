//! Laws of the names that entered objects declare.

ghost use Rattle.std.specs.Prelude.{◌≡◌, ◌≤◌, ◌++◌, ℕ, List, [], ◌∷◌, length, map};
ghost use Rattle.elfobj.specs.Symbols.{NamedSymbol};
ghost use Rattle.ldmodel.specs.Names.{distinct, names_in_objects, symbol_tables};
ghost use Rattle.ldmodel.specs.Project.{NamedObject};
ghost use Rattle.symres_decisions.specs.Counted.{declared_in, declared_names};

/// The names that a list of symbol tables declares are those that the objects of these tables do, under whatever keys;
/// and those of one table are those of its object.
pub fn names_of_objects()
    ensures all { (objects : List NamedObject) (tables : List (ℕ × List NamedSymbol))
        → map (λ (t : ℕ × List NamedSymbol). t.1) tables ≡ symbol_tables objects
        → declared_names tables ≡ names_in_objects objects }
    ensures one { (object : NamedObject) → declared_in object.object.symbols ≡ names_in_objects (object ∷ []) }
{}

/// A longer list has at least as many names, each counted once.
pub fn distinct_more()
    ensures { (names more : List (List ℕ)) → length (distinct names) ≤ length (distinct (names ++ more)) }
{}
