//! Laws of what two links have in common.

ghost use Rattle.std.specs.Prelude.{◌≡◌, ◌≢◌, ◌↔◌, ◌+◌, ◌++◌, ◌<◌, ◌≤◌, ℕ, Bool, Contains, List, Ok, Some, false};
ghost use Rattle.std.specs.Prelude.{◌&&◌, filter, flat_map, length, not, slice_index, true};
ghost use Rattle.std.specs.List.Sorted.{IsPermutation};
ghost use Rattle.elfobj.specs.Profile.{AreApart};
ghost use Rattle.elfobj.specs.RelocationKinds.{width};
ghost use Rattle.elfobj.specs.Symbols.{NamedSymbol};
ghost use Rattle.ldmodel.specs.Image.{byte_at};
ghost use Rattle.ldmodel.specs.Layout.{Layout, PlacedPiece, PlacedOutput};
ghost use Rattle.ldmodel.specs.Project.{Project};
ghost use Rattle.ldmodel.specs.Relocations.{Site, site_field, site_symbol, sites};
ghost use Rattle.ldmodel.specs.SectionHeaders.{image_length};
ghost use Rattle.ldmodel.specs.Segments.{segments};
ghost use Rattle.ldmodel.specs.Stayed.{GoodLink, LinkedPiece, has_stayed, has_other_value, linked_piece, linked_pieces};
ghost use Rattle.ldmodel.specs.Stayed.{link_pieces, retargeted, sites_in, stayed};
ghost use Rattle.ldmodel.specs.Targets.{Target, target_number, target_of};
ghost use Rattle.ldmodel.specs.WorkBound.{bytes_stayed, sites_outside};
ghost use Rattle.ldmodel_laws.specs.PlacedOnce.{IsPlacedOnce};
ghost use Rattle.ldmodel_laws.specs.StayedSites.{HasSites, IsFound, has_part_stayed, lies_in_stayed};
ghost use Rattle.ldmodel_laws.specs.Untouched.{AreRead, HasField, HasSameValue, IsFaultless, IsGood, IsOutside};

/// Untouched bytes: a byte of an input section that stayed, outside the fields of its sites whose symbol has another
/// value, is the same in both images.
pub fn untouched_bytes()
    ensures { (old new : GoodLink) → IsGood old → IsGood new → (piece : LinkedPiece) → Contains (stayed old new) piece
        → (i : ℕ) → ((site : Site) → Contains (retargeted old new) site → Contains (sites_in new.project piece) site
        → IsOutside i site)
        → i < piece.range.length
        → byte_at old.project old.layout (piece.range.offset + i)
        ≡ byte_at new.project new.layout (piece.range.offset + i) }
{}

/// Retargeted sites are found: a site in an input section that stayed whose symbol has another value has a target with
/// different numbers in the two links; so an index from targets to sites has it under such a target.
pub fn retargeted_by_target()
    ensures { (old new : GoodLink) → IsGood old → IsGood new
        → (site : Site) (symbol : NamedSymbol) → Contains (retargeted old new) site → site_symbol site ≡ Some symbol
        → target_number old.project old.layout (target_of site.object symbol)
        ≢ target_number new.project new.layout (target_of site.object symbol) }
{}

/// A link without faults is good: it has what `untouched_bytes` and `retargeted_by_target` require.
pub fn faultless_is_good()
    ensures { (link : GoodLink) → IsFaultless link → IsGood link }
{}

/// An input section in an output section is one of the link; and those that stayed are input sections of both links.
pub fn stayed_in_both()
    ensures linked { (link : GoodLink) (output : PlacedOutput) (placed : PlacedPiece)
        → Contains link.layout.sections output
        → Contains output.pieces placed
        → Contains (link_pieces link) (linked_piece link.project (segments link.layout.sections) output placed) }
    ensures stayed { (old new : GoodLink) (piece : LinkedPiece)
        → Contains (stayed old new) piece ↔ (Contains (link_pieces new) piece × (has_stayed old piece ≡ true)) }
{}

/// The bytes of an input section lie in the image; those of one that stayed lie in the old image too.
pub fn pieces_in_image()
    ensures own { (link : GoodLink) → IsGood link → (piece : LinkedPiece) → Contains (link_pieces link) piece → (i : ℕ)
        → i < piece.range.length → piece.range.offset + i < image_length link.project link.layout }
    ensures old { (old new : GoodLink) → IsGood old → (piece : LinkedPiece) → Contains (stayed old new) piece → (i : ℕ)
        → i < piece.range.length → piece.range.offset + i < image_length old.project old.layout }
{}

/// Each site of an input section has a field of its relocation's width; and the image has the field at its place, if
/// the relocations of the section share no byte, as the object reader has found.
pub fn fields_in_image()
    ensures found { (link : GoodLink) → IsGood link → (piece : LinkedPiece) → Contains (link_pieces link) piece
        → (site : Site)
        → Contains (sites_in link.project piece) site → HasField link site }
    ensures some { (link : GoodLink) (piece : LinkedPiece) (site : Site) → Contains (sites_in link.project piece) site
        → 0 < width site.relocation.kind }
    ensures wide { (link : GoodLink) (piece : LinkedPiece) (site : Site) (field : List ℕ)
        → Contains (sites_in link.project piece) site
        → site_field link.project link.layout site ≡ Ok field → length field ≡ width site.relocation.kind }
    ensures byte { (link : GoodLink) → IsGood link → (piece : LinkedPiece) → Contains (link_pieces link) piece
        → (site : Site)
        → Contains (sites_in link.project piece) site → AreApart site.section.relocations → (field : List ℕ)
        → site_field link.project link.layout site ≡ Ok field → (i : ℕ) → i < length field
        → site.relocation.offset + i < piece.range.length
        → byte_at link.project link.layout (piece.range.offset + (site.relocation.offset + i)) ≡ slice_index field i }
{}

/// A site whose symbol has the same value in both links has the same field in them. In an input section that stayed, if
/// the old link is good, it has a field: a relocation that need not be evaluated again has no fault.
pub fn unmoved_sites()
    ensures same { (old new : GoodLink) (site : Site) → HasSameValue old new site
        → site_field new.project new.layout site ≡ site_field old.project old.layout site }
    ensures found { (old new : GoodLink) → IsGood old → AreRead new.project → (piece : LinkedPiece) (site : Site)
        → Contains (stayed old new) piece → Contains (sites_in new.project piece) site → HasSameValue old new site
        → HasField new site }
{}

/// Of the sites in input sections that stayed, the retargeted ones are those whose symbols have other values. Not their
/// numbers are compared: 0 is also the number of a symbol that nothing defines, and of one whose section is not in the
/// output. So a filter by unequal values keeps the retargeted sites, in their order.
pub fn moved_by_value()
    ensures one { (old new : GoodLink) → IsGood old → IsGood new → (piece : LinkedPiece) (site : Site)
        → Contains (stayed old new) piece → Contains (sites_in new.project piece) site
        → HasSameValue old new site ↔ (has_other_value old new site ≡ false) }
    ensures all { (old new : GoodLink) → IsGood old → IsGood new → (test : Site → Bool)
        → ((site : Site) → Contains (flat_map (sites_in new.project) (stayed old new)) site
        → (test site ≡ false) ↔ HasSameValue old new site)
        → filter test (flat_map (sites_in new.project) (stayed old new)) ≡ retargeted old new }
{}

/// The sites of a link in the order of its objects and in that of its input sections are permutations of each other,
/// also after a filter. The sites by input sections are those in input sections that stayed, and the others. The layout
/// may have faults of relocation; one without faults at all is such a layout.
pub fn sites_by_piece()
    ensures same { (project : Project) (layout : Layout) → IsPlacedOnce project layout
        → IsPermutation (sites project layout) (flat_map (sites_in project) (linked_pieces project layout)) }
    ensures kept { (project : Project) (layout : Layout) (test : Site → Bool) → IsPlacedOnce project layout
        → IsPermutation (filter test (sites project layout))
        (filter test (flat_map (sites_in project) (linked_pieces project layout))) }
    ensures parted { (old new : GoodLink) → IsPermutation (flat_map (sites_in new.project) (link_pieces new))
        (flat_map (sites_in new.project) (stayed old new) ++ sites_outside old new) }
    ensures faultless { (link : GoodLink) → IsFaultless link → IsPlacedOnce link.project link.layout }
{}

/// Whether a site lies in an input section that stayed follows from the object and the number of its section: the input
/// sections that stayed are those whose part of their object is among the parts that did. So one pass over the sites in
/// the order of the objects finds those that are retargeted, by a test of values too, and those outside of what stayed.
pub fn stayed_by_part()
    ensures piece { (old new : GoodLink) → IsPlacedOnce new.project new.layout → (piece : LinkedPiece)
        → Contains (link_pieces new) piece → has_part_stayed old new piece.object piece.part ≡ has_stayed old piece }
    ensures site { (old new : GoodLink) → IsPlacedOnce new.project new.layout → (site : Site)
        → Contains (sites new.project new.layout) site → lies_in_stayed old new site ≡ true
        → (piece : LinkedPiece) × Contains (stayed old new) piece × Contains (sites_in new.project piece) site }
    ensures moved { (old new : GoodLink) → IsPlacedOnce new.project new.layout
        → IsPermutation (filter (λ site. lies_in_stayed old new site && has_other_value old new site)
        (sites new.project new.layout)) (retargeted old new) }
    ensures valued { (old new : GoodLink) → IsPlacedOnce new.project new.layout → IsGood old → IsGood new
        → (test : Site → Bool) → ((site : Site) → Contains (sites new.project new.layout) site
        → lies_in_stayed old new site ≡ true → (test site ≡ false) ↔ HasSameValue old new site)
        → IsPermutation (filter (λ site. lies_in_stayed old new site && test site) (sites new.project new.layout))
        (retargeted old new) }
    ensures outside { (old new : GoodLink) → IsPlacedOnce new.project new.layout
        → IsPermutation (filter (λ site. not (lies_in_stayed old new site)) (sites new.project new.layout))
        (sites_outside old new) }
{}

/// The input sections that stayed have no more bytes than the new image.
pub fn stayed_in_image()
    ensures { (old new : GoodLink) → IsGood new
        → bytes_stayed old new ≤ image_length new.project new.layout }
{}

/// An index from targets to the sites of a link finds those that are retargeted: each is among the sites of a target
/// whose number is another in the two links.
pub fn retargeted_in_index()
    ensures { (old new : GoodLink) → IsGood old → IsGood new → IsPlacedOnce new.project new.layout
        → (index : Target → List Site) → HasSites new.project new.layout index
        → (site : Site) → Contains (retargeted old new) site → IsFound old new index site }
{}
