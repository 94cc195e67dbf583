//! Laws of layout: a placement by equations between neighbours.

ghost use Rattle.std.specs.Prelude.{◌≡◌, ◌↔◌, ◌≤◌, ◌==◌, ℕ, List, [], ◌∷◌, ◌++◌, length, Ok, Err, map, not};
ghost use Rattle.ldscript.specs.Script.{IsSound};
ghost use Rattle.ldscript.specs.statements.Numbering.{all_directives, output_sections, regions};
ghost use Rattle.ldscript.specs.statements.declared.section.BodyStatement.{BodyStatement};
ghost use Rattle.ldscript.specs.statements.declared.section.OutputSection.{OutputSection};
ghost use Rattle.ldscript.specs.statements.declared.statement.Item.{Item};
ghost use Rattle.ldscript.specs.statements.declared.statement.Statement.{Statement};
ghost use Rattle.ldmodel.specs.Placement.{Body, body_step};
ghost use Rattle.ldmodel.specs.Fault.{Fault};
ghost use Rattle.ldmodel.specs.Each.{Each};
ghost use Rattle.ldmodel.specs.Layout.{Layout, nothing_placed};
ghost use Rattle.ldmodel.specs.Placement.{Head, item_step, placed_section, placement};
ghost use Rattle.ldmodel.specs.Project.{Project};
ghost use Rattle.ldmodel.specs.Rows.{Piece, rows};
ghost use Rattle.ldmodel_laws.specs.Alike.{AreAlike, AreSameBefore, BodiesStayAlike, HeadsAgree, IsPartedAt};
ghost use Rattle.ldmodel_laws.specs.Alike.{ItemsStayAlike, LeadTo, StatementsStayAlike, names_given};
ghost use Rattle.ldmodel_laws.specs.Placed.{IsFirstFault, IsPlacement};
ghost use Rattle.ldmodel_laws.specs.Spread.{IsSpread, Notes, dots_in, dots_of, entries_in};
ghost use Rattle.ldmodel_laws.specs.Traces.{Trace};

/// The layout of a script is the one to which its statements lead, each from the state that the one before it left: the
/// statements of the script, those of SECTIONS, those of the body of each output section, the regions of MEMORY, and
/// the entries of each input statement. An entry starts at the least multiple of its alignment not below `.`, and moves
/// `.` to its end. The first fault is that of a statement, region or entry, at any depth, in the state to which those
/// before it lead.
pub fn placement_by_steps()
    ensures placed { (script : List Statement) (rows : List (List Piece)) (provided : List (List ℕ)) (layout : Layout)
        → (placement script rows provided ≡ Ok layout) ↔ IsPlacement script rows provided layout }
    ensures faulty { (script : List Statement) (rows : List (List Piece)) (provided : List (List ℕ)) (fault : Fault)
        → (placement script rows provided ≡ Err fault) ↔ IsFirstFault script rows provided fault }
{}

/// A layout consists of the regions and output sections of its script, each added once and in the order of the text. An
/// output section is added when its body is complete, effect by effect: `.` advances to an address, an entry of the row
/// or a data command is placed, a symbol gets a value.
pub fn layout_by_effects()
    ensures { (script : List Statement) (rows : List (List Piece)) (provided : List (List ℕ)) (layout : Layout)
        → placement script rows provided ≡ Ok layout
        → Trace nothing_placed (regions script) (output_sections script) layout }
{}

/// Each entry of every row is placed once and in the order of the row, whichever PROVIDEs are in force: the output
/// sections contain the rows.
pub fn placed_are_rows()
    ensures { (project : Project) (provided : List (List ℕ)) (layout : Layout)
        → placement project.script (rows project) provided ≡ Ok layout → map entries_in layout.sections ≡ rows project }
{}

/// A layout keeps the value of `.` before each statement of SECTIONS and of the body of an output section, in the order
/// of the text: a statement of SECTIONS adds the value before itself and then those of its body.
pub fn dots_by_statement()
    ensures counted { (script : List Statement) (rows : List (List Piece)) (provided : List (List ℕ)) (layout : Layout)
        → placement script rows provided ≡ Ok layout → length layout.dots ≡ dots_in script }
    ensures of_item { (rows : List (List Piece)) (provided : List (List ℕ)) (layout : Layout) (statement : Item)
        (next : Layout)
        → item_step rows provided layout statement ≡ Ok next → Notes (dots_of statement) layout next }
    ensures of_body { (provided : List (List ℕ)) (body : Body) (statement : BodyStatement) (next : Body)
        → body_step provided body statement ≡ Ok next → next.layout.dots ≡ body.layout.dots ++ body.layout.dot ∷ [] }
{}

/// An output section has file bytes if its load size is not 0, and none if it is.
pub fn loaded_with_file_bytes()
    ensures { (section : OutputSection) (head : Head) (body : Body)
        → (placed_section section head body).has_file_bytes ≡ not ((placed_section section head body).load_size == 0) }
{}

/// In an output section of a placement nothing overlaps: its input sections and its data commands are between its start
/// and its end, each after the earlier ones of its kind, and none of one kind shares an address with one of the other.
pub fn nothing_overlaps()
    ensures { (script : List Statement) (rows : List (List Piece)) (provided : List (List ℕ)) (layout : Layout)
        → placement script rows provided ≡ Ok layout → Each IsSpread layout.sections }
{}

/// Two layouts of a script whose rows are the same before a number, and that both reach the statement of SECTIONS that
/// is the output section of that number, differ in symbols alone, whichever PROVIDEs are in force in each: `.`,
/// regions, output sections and their input sections are the same, and so are the values of symbols that both have.
/// This is so since a PROVIDE gives its own symbol a value and moves nothing, no name is given a value twice, and a
/// reference to a symbol that is not there is a fault.
pub fn placements_alike()
    ensures { (script before : List Statement) (items : List Item) (first : ℕ) (old rows : List (List Piece))
        (earlier provided : List (List ℕ)) (layout t : Layout) → IsSound script → IsPartedAt script before items
        → AreSameBefore first old rows → LeadTo old earlier before items layout → LeadTo rows provided before items t
        → length t.sections ≤ first → AreAlike [] layout t }
{}

/// `placements_alike` step by step: a step from layouts, or from bodies of output sections, that differ in symbols
/// alone leads to ones that do, and the names to come stay new.
pub fn steps_stay_alike()
    ensures begun { (script : List Statement) → IsSound script
        → AreAlike (names_given (all_directives script)) nothing_placed nothing_placed }
    ensures statements { StatementsStayAlike }
    ensures items { ItemsStayAlike }
    ensures heads { HeadsAgree }
    ensures bodies { BodiesStayAlike }
{}
