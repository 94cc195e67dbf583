//! Laws of gathering: which statement takes a section, which sections are live, and their order in a row.

ghost use Rattle.std.specs.Prelude.{◌≡◌, ◌↔◌, ℕ, Bool, true, false, Contains, List, MatchOption, Option, filter};
ghost use Rattle.std.specs.Prelude.{flat_map};
ghost use Rattle.ldscript.specs.statements.declared.input.Sort.{Sort};
ghost use Rattle.ldscript.specs.statements.declared.statement.Statement.{Statement};
ghost use Rattle.ldmodel.specs.Edits.{AreNamesDistinct};
ghost use Rattle.ldmodel.specs.FirstMatch.{first_match};
ghost use Rattle.ldmodel.specs.Gathering.{candidates};
ghost use Rattle.ldmodel.specs.Live.{is_root, live, refers_to};
ghost use Rattle.ldmodel.specs.Project.{Project};
ghost use Rattle.ldmodel.specs.Reach.{Path};
ghost use Rattle.ldmodel.specs.Rows.{Piece, below, rows};
ghost use Rattle.ldmodel.specs.Sections.{InputSection};
ghost use Rattle.ldmodel.specs.Sorting.{IsOrdered, sort_by};
ghost use Rattle.ldmodel_laws.specs.FirstMatches.{IsFirstMatch, IsUnmatched};
ghost use Rattle.ldmodel_laws.specs.PlacedOnce.{AreNumbered, Differ};
ghost use Rattle.ldmodel_laws.specs.Spread.{EachLater};

use ldscript::terms::pattern_law::match_by_splitting;

/// The input statement that takes a section is the first one of the script that matches it: its file pattern matches
/// the object's name, and one of its words the section's name and no excluded pattern of that word the object's.
pub fn first_match_by_splitting()
    ensures { (script : List Statement) (file section : List ℕ)
        → MatchOption (first_match script file section)
        (IsUnmatched script file section) (IsFirstMatch script file section) }
{
    match_by_splitting();
}

/// With garbage collection, the live sections are those to which a path leads from a root: each section on the path is
/// the target of a relocation of the one before, and none is discarded. Without it, they are those that are not
/// discarded. Live sections are in the order of all input sections.
pub fn live_by_path()
    ensures collected { (project : Project) (section : InputSection) → project.options.gc ≡ true
        → Contains (live project) section ↔ Path (is_root project) (refers_to project) (candidates project) section }
    ensures all { (project : Project) → project.options.gc ≡ false → live project ≡ candidates project }
    ensures in_order { (project : Project) → (test : InputSection → Bool)
        × (live project ≡ filter test (candidates project)) }
{}

/// Sorted pieces, as those that a statement takes, are the one list that ascends by the key of the sort and keeps the
/// order of equal keys.
pub fn row_by_order()
    ensures { (sort : Option Sort) (pieces sorted : List Piece)
        → IsOrdered (below sort) pieces sorted ↔ sorted ≡ sort_by (below sort) pieces }
{}

/// No input section is in the rows twice: no two of all their entries are the same part of the same object. The names
/// of objects are distinct (`edits::names_stay_distinct`), and the sections of each have different numbers, as the
/// object reader gives them.
pub fn once_in_rows()
    ensures { (project : Project) → AreNamesDistinct project.objects → AreNumbered project
        → EachLater Differ (flat_map (λ row. row) (rows project)) }
{}
