//! Laws of what is evaluated beside a previous link.

ghost use Rattle.std.specs.Prelude.{◌≡◌, ◌+◌, ◌++◌, All, None, Option, [], length};
ghost use Rattle.std.specs.List.{filter_map};
ghost use Rattle.elfobj.specs.Raised.{raised};
ghost use Rattle.ldmodel_laws.specs.PlacedOnce.{IsPlacedOnce};
ghost use Rattle.ldmodel_laws.specs.Untouched.{AreRead, IsGood};
ghost use Rattle.ldmodel.specs.Relocations.{sites};
ghost use Rattle.ldmodel.specs.Stayed.{GoodLink, retargeted};
ghost use Rattle.ldmodel.specs.WorkBound.{sites_outside};
ghost use Rattle.ldmodel.specs.declared.sections.SectionRef.{SectionRef};
ghost use Rattle.elfobj.specs.declared.meter.Count.TheVariants.{Fields};
ghost use Rattle.emit_relocate.specs.Changes.{AreChanged, AreFilled, Results};
ghost use Rattle.emit_relocate.specs.PreviousLinkInfo.{IsComplete, good_link};
ghost use Rattle.emit_relocate.specs.Fields.{fault_at, faults_of};
ghost use Rattle.emit_relocate.specs.Filled.{sections_in};
ghost use Rattle.emit_relocate.specs.KnownLink.{KnownLink};
ghost use Rattle.emit_relocate.specs.Patched.{AreAllPatched, AreInFile, AreOfProfile, AreOneEach, AreSized};
ghost use Rattle.emit_relocate.specs.Patched.{IsPatchOfSite};
ghost use Rattle.emit_relocate.specs.declared.previous_link_info.FileRange.{FileRange};

use ldmodel_laws::stayed::{
    fields_in_image, sites_by_piece, stayed_by_part, stayed_in_both, unmoved_sites,
};

/// Where nothing is known to have stayed all is evaluated, as without a previous link.
pub fn all_is_evaluated()
    ensures { (old : GoodLink) (link : KnownLink) (range : SectionRef → Option FileRange) (before after : Results)
        → AreChanged old link range (sections_in link.project.objects) before after
        → ((key : SectionRef) → range key ≡ None) → AreFilled link before after }
{}

/// Beside a good link the faults that are found are those of all sites: what is not evaluated has none.
pub fn no_fault_is_missed()
    ensures { (old : GoodLink) (link : KnownLink) (range : SectionRef → Option FileRange) (before after : Results)
        → AreChanged old link range (sections_in link.project.objects) before after → IsGood old → AreRead link.project
        → IsPlacedOnce link.project link.layout
        → faults_of link after.faults ≡ faults_of link before.faults
        ++ filter_map (fault_at link) (sites link.project link.layout) }
{
    unmoved_sites();
    sites_by_piece();
    stayed_in_both();
}

/// Between good links, if each section that stayed is known to have stayed, exactly those sites count, each once, that
/// lie outside of what stayed or whose symbol has another value.
pub fn due_sites_count()
    ensures { (old : GoodLink) (link : KnownLink) (range : SectionRef → Option FileRange) (before after : Results)
        → AreChanged old link range (sections_in link.project.objects) before after → IsComplete range old link
        → IsGood old
        → IsGood (good_link link) → IsPlacedOnce link.project link.layout
        → after.counts ≡ raised before.counts Fields
        (length (sites_outside old (good_link link)) + length (retargeted old (good_link link))) }
{
    sites_by_piece();
    stayed_by_part();
    fields_in_image();
}

/// Each patch is the field of a site of an input section that stayed, in its place in the file.
pub fn patches_are_fields()
    ensures { (old : GoodLink) (link : KnownLink) (range : SectionRef → Option FileRange) (before after : Results)
        → AreChanged old link range (sections_in link.project.objects) before after → before.patches ≡ []
        → AreOfProfile link.project
        → IsPlacedOnce link.project link.layout → All (IsPatchOfSite old (good_link link)) after.patches }
{
    sites_by_piece();
    stayed_in_both();
}

/// If each section that stayed is known to have stayed, each site in one of them has a patch if its symbol has another
/// value. It has exactly one if both links are good, and each section with sites has its bytes in the file.
pub fn patches_are_those_retargeted()
    ensures all { (old : GoodLink) (link : KnownLink) (range : SectionRef → Option FileRange) (before after : Results)
        → AreChanged old link range (sections_in link.project.objects) before after → before.patches ≡ []
        → IsComplete range old link
        → AreOfProfile link.project → AreSized (good_link link) → IsPlacedOnce link.project link.layout
        → AreAllPatched old (good_link link) after.patches }
    ensures exact { (old : GoodLink) (link : KnownLink) (range : SectionRef → Option FileRange) (before after : Results)
        → AreChanged old link range (sections_in link.project.objects) before after → before.patches ≡ []
        → IsComplete range old link
        → AreOfProfile link.project → AreInFile (good_link link) → IsGood old → IsGood (good_link link)
        → IsPlacedOnce link.project link.layout
        → AreOneEach old (good_link link) after.patches }
{
    sites_by_piece();
    stayed_by_part();
    stayed_in_both();
    fields_in_image();
}
