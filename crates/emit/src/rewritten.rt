//! Laws of two links that differ only in the bytes and relocations of one object's sections: names, rows, layout,
//! values of symbols, headers, tail and map are the same, and so are all other bytes and faults.

ghost use Rattle.std.specs.Prelude.{◌≡◌, ℕ, Contains, None, Some, [], slice_get, List, Ok};
ghost use Rattle.std.specs.Result.{result_err};
ghost use Rattle.ldmodel.specs.Each.{Each};
ghost use Rattle.ldmodel.specs.Image.{byte_at, file_headers};
ghost use Rattle.ldmodel.specs.Layout.{Layout};
ghost use Rattle.ldmodel.specs.Project.{NamedObject, Project};
ghost use Rattle.ldmodel.specs.Relocations.{Site, relocation_faults, site_field};
ghost use Rattle.ldmodel.specs.SectionHeaders.{image_length, tail};
ghost use Rattle.ldmodel.specs.Stayed.{LinkedPiece, linked_pieces};
ghost use Rattle.ldmodel_laws.specs.ImageBytes.{AreNamed};
ghost use Rattle.ldmodel_laws.specs.Outline.{HasSameFrame, DiffersInContents};
ghost use Rattle.ldmodel_laws.specs.Spread.{IsSpread};
ghost use Rattle.emit.specs.InPlaceRewrites.{IsOutside};
ghost use Rattle.emit.specs.LocatedSections.{sites_of};
ghost use Rattle.elfobj.specs.Symbols.{NamedSymbol};
ghost use Rattle.ldmodel.specs.Assertions.{assertion_faults};
ghost use Rattle.ldmodel.specs.Link.{gathering_faults, good, layout, link, name_faults};
ghost use Rattle.ldmodel.specs.MapText.{map_text};
ghost use Rattle.ldmodel.specs.Names.{decision, provided};
ghost use Rattle.ldmodel.specs.Rows.{rows};
ghost use Rattle.ldmodel.specs.SymbolValues.{entry_point, name_value};
ghost use Rattle.ldmodel.specs.Targets.{referenced_value};

/// The images have the same length, and the same byte at each offset that no input section of the object covers.
/// Nothing overlaps in output sections, and these have different names.
pub fn rewritten_image()
    ensures byte { (project next : Project) (layout : Layout) (i : ℕ) (after : NamedObject)
        → DiffersInContents project next i
        → HasSameFrame project next layout
        → Each IsSpread layout.sections → AreNamed layout.sections → slice_get next.objects i ≡ Some after → (at : ℕ)
        → ((piece : LinkedPiece) → Contains (linked_pieces next layout) piece → piece.object ≡ after.name
        → IsOutside at piece.range)
        → byte_at project layout at ≡ byte_at next layout at }
    ensures length { (project q : Project) (layout : Layout) → HasSameFrame project q layout
        → image_length project layout ≡ image_length q layout }
{}

/// Where the first link has no faults of relocation, and each site of the object in the second has a field, neither has
/// the second.
pub fn rewritten_faults()
    ensures { (project next : Project) (layout : Layout) (i : ℕ) (after : NamedObject)
        → DiffersInContents project next i
        → HasSameFrame project next layout
        → slice_get next.objects i ≡ Some after → relocation_faults project layout ≡ []
        → ((site : Site) → Contains (sites_of layout after) site → result_err (site_field next layout site) ≡ None)
        → relocation_faults next layout ≡ [] }
{}

/// Names are resolved in the same way, and have the same faults.
pub fn rewritten_names()
    ensures decided { (project q : Project) (i : ℕ) → DiffersInContents project q i → (name : List ℕ)
        → decision project name ≡ decision q name }
    ensures provided { (project q : Project) (i : ℕ) → DiffersInContents project q i → provided project ≡ provided q }
    ensures faults { (project q : Project) (i : ℕ) → DiffersInContents project q i → name_faults project
        ≡ name_faults q }
{}

/// The rows are the same, and there are as many orphans.
pub fn rewritten_rows()
    ensures rows { (project q : Project) (i : ℕ) → DiffersInContents project q i → rows project ≡ rows q }
    ensures faults { (project q : Project) (i : ℕ) → DiffersInContents project q i → gathering_faults project
        ≡ gathering_faults q }
{}

/// Symbols have the same values over one layout.
pub fn rewritten_values()
    ensures names { (project q : Project) (i : ℕ) → DiffersInContents project q i → (layout : Layout) (name : List ℕ)
        → name_value project layout name ≡ name_value q layout name }
    ensures entry { (project q : Project) (i : ℕ) → DiffersInContents project q i → (layout : Layout)
        → entry_point project layout
        ≡ entry_point q layout }
    ensures references { (project next : Project) (i : ℕ) → DiffersInContents project next i
        → (layout : Layout) (j : ℕ) (before after : NamedObject)
        → slice_get project.objects j ≡ Some before → slice_get next.objects j ≡ Some after → (symbol : NamedSymbol)
        → referenced_value project layout before symbol ≡ referenced_value next layout after symbol }
{}

/// The map is the same, and so are the headers and the tail of the image, and the assertions that fail.
pub fn rewritten_frame()
    ensures map { (project q : Project) (i : ℕ) → DiffersInContents project q i → (layout : Layout)
        → map_text project layout ≡ map_text q layout }
    ensures headers { (project q : Project) (i : ℕ) → DiffersInContents project q i → (layout : Layout)
        → file_headers project layout ≡ file_headers q layout }
    ensures tail { (project q : Project) (i : ℕ) → DiffersInContents project q i → (layout : Layout)
        → tail project layout ≡ tail q layout }
    ensures length { (project q : Project) (i : ℕ) → DiffersInContents project q i → (layout : Layout)
        → image_length project layout ≡ image_length q layout }
    ensures frame { (project q : Project) (i : ℕ) → DiffersInContents project q i → (layout : Layout)
        → HasSameFrame project q layout }
    ensures assertions { (project q : Project) (i : ℕ) → DiffersInContents project q i → (layout : Layout)
        → assertion_faults project layout ≡ assertion_faults q layout }
{}

/// The layout is the same.
pub fn rewritten_layout()
    ensures { (project q : Project) (i : ℕ) → DiffersInContents project q i → layout project ≡ layout q }
{}

/// If the first link has no faults, and no relocation of the second project is a fault, the second link has none.
pub fn rewritten_link()
    ensures { (project next : Project) (i : ℕ) → DiffersInContents project next i → (placed : Layout)
        → layout project ≡ Ok placed
        → (link project).status ≡ 0 → relocation_faults next placed ≡ [] → link next ≡ good next placed }
{}
