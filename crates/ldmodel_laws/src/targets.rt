//! Laws of targets.

ghost use Rattle.std.specs.Prelude.{◌≡◌, ◌≢◌};
ghost use Rattle.elfobj.specs.Symbols.{NamedSymbol};
ghost use Rattle.ldmodel.specs.Layout.{Layout};
ghost use Rattle.ldmodel.specs.Project.{NamedObject, Project};
ghost use Rattle.ldmodel.specs.SymbolValues.{NotInOutput, number_or_0};
ghost use Rattle.ldmodel.specs.Targets.{referenced_value, target_number, target_of};

/// If a target has the same number in two links, each symbol that depends on it has the same value in both, if its
/// section is in the output of both: so an index from targets to relocations finds each relocation whose symbol has
/// another value.
pub fn target_decides_value()
    ensures { (project r : Project) (layout t : Layout) (object : NamedObject) (symbol : NamedSymbol)
        → referenced_value project layout object symbol ≢ NotInOutput → referenced_value r t object symbol ≢ NotInOutput
        → target_number project layout (target_of object symbol) ≡ target_number r t (target_of object symbol)
        → number_or_0 (referenced_value project layout object symbol)
        ≡ number_or_0 (referenced_value r t object symbol) }
{}
