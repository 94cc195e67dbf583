//! Laws of layouts.

ghost use Rattle.std.specs.Prelude.{◌≡◌, All, Ok};
ghost use Rattle.ldmodel.specs.Edits.{AreNamesDistinct};
ghost use Rattle.ldmodel.specs.Layout.{Layout};
ghost use Rattle.ldmodel.specs.Names.{provided};
ghost use Rattle.ldmodel.specs.Placement.{placement};
ghost use Rattle.ldmodel.specs.Project.{NamedObject, Project};
ghost use Rattle.ldmodel.specs.Rows.{rows};
ghost use Rattle.symres.specs.SymbolTable.{SymbolTableState};
ghost use Rattle.emit.specs.Numbered.{AreAscending};
ghost use Rattle.emit_relocate.specs.Filled.{EndBelow};
ghost use Rattle.emit_relocate.specs.Patched.{AreInFile, AreOfProfile, AreSized};
ghost use Rattle.emit_relocate.specs.LinkView.{known_link};

use ldmodel_laws::gathering::live_by_path;
use ldmodel_laws::layout::{layout_by_effects, nothing_overlaps, placed_are_rows};
use ldmodel_laws::stayed::fields_in_image;

/// Each section of an object that stands in a layout ends below 2^64, by its own size.
pub(crate) fn sections_end_below()
    ensures { (project : Project) (layout : Layout) (table : SymbolTableState) → AreNamesDistinct project.objects
        → All (λ (object : NamedObject). AreAscending object.object.sections) project.objects
        → placement project.script (rows project) (provided project) ≡ Ok layout
        → EndBelow (known_link project layout table) }
{
    layout_by_effects();
    placed_are_rows();
    live_by_path();
}

/// An input section in the output has the size of its section.
pub(crate) fn pieces_are_sized()
    ensures { (project : Project) (layout : Layout) → AreNamesDistinct project.objects
        → All (λ (object : NamedObject). AreAscending object.object.sections) project.objects
        → placement project.script (rows project) (provided project) ≡ Ok layout
        → AreSized (record { project = project; layout = layout }) }
{
    placed_are_rows();
    live_by_path();
}

/// An input section in the output with relocations that are evaluated has all bytes of its section in the file: it is
/// not of type NOBITS and not empty, so its output section has bytes in the file.
pub(crate) fn pieces_in_file()
    ensures { (project : Project) (layout : Layout) → AreNamesDistinct project.objects
        → All (λ (object : NamedObject). AreAscending object.object.sections) project.objects
        → AreOfProfile project → placement project.script (rows project) (provided project) ≡ Ok layout
        → AreInFile (record { project = project; layout = layout }) }
{
    layout_by_effects();
    nothing_overlaps();
    placed_are_rows();
    live_by_path();
    fields_in_image();
}
