//! Laws of the image.

ghost use Rattle.std.specs.Prelude.{◌≡◌, ◌+◌, ◌<◌, ◌≤◌, ℕ, All, Contains, true};
ghost use Rattle.elfobj.specs.Profile as object;
ghost use Rattle.elfobj.specs.Relocations.{field_end};
ghost use Rattle.elfobj.specs.Sections.{LinkedSection};
ghost use Rattle.elfobj.specs.declared.relocation.Relocation.{Relocation};
ghost use Rattle.emit_fields.specs.Patches as patches;
ghost use Rattle.emit_fields.specs.Patches.{IsWithin};
ghost use Rattle.ldmodel.specs.Each.{Each};
ghost use Rattle.ldmodel_laws.specs.Gaps.{IsBare, IsGapStart};
ghost use Rattle.ldmodel.specs.Image.{byte_at, gap_start};
ghost use Rattle.ldmodel_laws.specs.ByteCases.{part_byte};
ghost use Rattle.ldmodel.specs.Layout.{Layout, PlacedPiece, PlacedOutput};
ghost use Rattle.ldmodel.specs.Project.{NamedObject, Project};
ghost use Rattle.ldmodel.specs.Relocations.{fields_of};
ghost use Rattle.ldmodel.specs.Segments.{segments};
ghost use Rattle.ldmodel_laws.specs.ImageBytes.{AreNamed, offset_in_file};
ghost use Rattle.ldmodel_laws.specs.Spread.{IsSpread};

/// A gap is a maximal run of addresses of an output section that no input section and no data command covers: from the
/// beginning of an address's gap up to that address nothing is covered, and at the beginning the section starts, or
/// something nonempty ends.
pub fn gap_is_longest_run()
    ensures { (output : PlacedOutput) (at : ℕ) → output.start ≤ at → IsBare output at
        → IsGapStart output at (gap_start output at) }
{}

/// If the relocations of an input section share no byte and end in it, as the object reader has found, then so do their
/// fields, and each field has a byte.
pub fn fields_are_apart()
    ensures apart { (project : Project) (layout : Layout) (named : NamedObject) (section : LinkedSection) (start : ℕ)
        → object.AreApart section.relocations → patches.AreApart (fields_of project layout named section start) }
    ensures within { (project : Project) (layout : Layout) (object : NamedObject) (section : LinkedSection) (start : ℕ)
        → All (λ (relocation : Relocation). field_end relocation ≤ section.size) section.relocations
        → All (IsWithin section.size) (fields_of project layout object section start) }
{}

/// The image has the bytes of an input section at its place in the file, if its output section has file bytes: each
/// byte is that of the field that covers it, else that of the section. Output sections have different names, as the
/// script reader has found, and nothing in them overlaps (`layout::nothing_overlaps`).
pub fn byte_of_piece()
    ensures { (project : Project) (layout : Layout) (output : PlacedOutput) (placed : PlacedPiece) (i : ℕ)
        → Each IsSpread layout.sections → AreNamed layout.sections
        → Contains layout.sections output → output.has_file_bytes ≡ true → Contains output.pieces placed → i
        < placed.piece.size
        → byte_at project layout (offset_in_file (segments layout.sections) output placed + i)
        ≡ part_byte project layout placed.piece.object placed.piece.part placed.start i }
{}
