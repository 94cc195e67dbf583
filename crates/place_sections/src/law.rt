//! A law of layouts: which output sections a complete one has.

ghost use Rattle.std.specs.Prelude.{◌≡◌, ℕ, List, Ok};
ghost use Rattle.ldmodel.specs.Layout.{Layout};
ghost use Rattle.ldmodel.specs.Placement.{placement};
ghost use Rattle.ldmodel.specs.Project.{Project};
ghost use Rattle.ldmodel.specs.Rows.{Piece};
ghost use Rattle.place_sections.specs.OverlapFaults.{AreOutputs};

use ldmodel_laws::layout::layout_by_effects;

/// The output sections of a layout are those of its script, in the order of the text: what `overlaps` asks of a caller.
pub fn outputs_are_of_script()
    ensures { (project : Project) (rows : List (List Piece)) (provided : List (List ℕ)) (layout : Layout)
        → placement project.script rows provided ≡ Ok layout → AreOutputs project layout.sections }
{
    layout_by_effects();
}
