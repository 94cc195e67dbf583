//! Laws of names.

ghost use Rattle.std.specs.Prelude.{◌≡◌, ℕ, Bool, List, filter, map};
ghost use Rattle.elfobj.specs.Symbols.{NamedSymbol};
ghost use Rattle.ldmodel.specs.Names.{Declaration, decided, decision, declarations_of, is_of_name};
ghost use Rattle.ldmodel.specs.Project.{Project};
ghost use Rattle.ldmodel.specs.ScriptNames.{is_assigned, is_provided};
ghost use Rattle.ldmodel_laws.specs.Renumbering.{AreTablesOf, renumbered, renumbered_decision};

/// How a name is resolved does not depend on how objects are numbered, by their places or by keys.
pub fn decided_renumbered()
    ensures { (number : ℕ → ℕ) (is_assigned is_provided : Bool) (declarations : List Declaration)
        → decided is_assigned is_provided (map (renumbered number) declarations)
        ≡ renumbered_decision number (decided is_assigned is_provided declarations) }
{}

/// A name is resolved in the same way over the symbol tables of the objects under keys, in the order of the objects.
pub fn decision_by_keys()
    ensures { (number : ℕ → ℕ) (project : Project) (tables : List (ℕ × List NamedSymbol)) (name : List ℕ)
        → AreTablesOf number project.objects tables
        → decision project name ≡ renumbered_decision number
        (decided (is_assigned project.script name) (is_provided project.script name)
        (filter (is_of_name name) (declarations_of tables))) }
{}
