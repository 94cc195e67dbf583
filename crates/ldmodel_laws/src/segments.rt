//! Laws of segments.

ghost use Rattle.std.specs.Prelude.{◌≡◌, Contains, List, map};
ghost use Rattle.ldmodel_laws.specs.FileLayout.{IsFileLayout};
ghost use Rattle.ldmodel.specs.Layout.{PlacedOutput};
ghost use Rattle.ldmodel.specs.Segments.{SectionInFile, Segment, file_offset, in_file, nonempty, segments};
ghost use Rattle.ldmodel_laws.specs.FileOrder.{AreInFileOrder};
ghost use Rattle.ldmodel_laws.specs.ImageBytes.{AreNamed};

/// The segments of output sections are their one file layout: two neighbours of nonzero size share a segment if the
/// test holds, and else they do not. Each segment begins at the lowest file offset that is past the file bytes before
/// it, and congruent to its address modulo the page size.
pub fn segments_by_neighbours()
    ensures is { (sections : List PlacedOutput) → IsFileLayout sections (segments sections) }
    ensures one { (sections : List PlacedOutput) (placed : List Segment)
        → IsFileLayout sections placed → placed ≡ segments sections }
{}

/// Output sections with file bytes do not overlap in the image: they are between the headers and the end of its loaded
/// part, each after the earlier ones.
pub fn files_in_order()
    ensures { (sections : List PlacedOutput) → AreInFileOrder (segments sections) }
{}

/// The output sections in the file are those of nonzero size, in their order; and if their names are distinct, the
/// offset that a name has is that of its section.
pub fn sections_in_file()
    ensures all { (sections : List PlacedOutput)
        → map (λ (x : SectionInFile). x.section) (in_file (segments sections)) ≡ nonempty sections }
    ensures offset { (sections : List PlacedOutput) → AreNamed sections → (x : SectionInFile)
        → Contains (in_file (segments sections)) x → file_offset (segments sections) x.section ≡ x.offset }
{}
