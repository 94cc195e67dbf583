//! Input sections with their objects, before their places in the output are looked up.

ghost use Rattle.std.specs.Prelude.{◌≡◌, ◌+◌, ◌<◌, ◌^◌, All, IfSome, Some, length, slice_get};
ghost use Rattle.elfobj.specs.Profile.{AreApart};
ghost use Rattle.elfobj.specs.Sections.{LinkedSection};
ghost use Rattle.ldmodel.specs.Project.{NamedObject};
ghost use Rattle.emit_relocate.specs.KnownLink.{KnownLink, named_object};
ghost use Rattle.emit_relocate.specs.SymbolValues.{IsRow};

use crate::link_view::LinkView;
use crate::site::PlacedInput;
use crate::value::SymbolValue;
use elfobj::Object;
use elfobj::section::LinkedIndex;
use ldmodel::names::ObjectPlace;
use ldmodel::sections::{Part, SectionRef};

/// A section of an object.
#[derive(Clone, Copy)]
pub struct InputSection<'a> {
    /// The place of the object.
    pub place: ObjectPlace,
    /// What was read of the object.
    pub object: &'a Object,
    /// The place of the section among those of the object.
    pub index: LinkedIndex,
    /// The values of the object's symbols, by their numbers.
    pub values: &'a [SymbolValue],
    ghost inside: { index.0 < length object.now.sections },
}

impl<'a> InputSection<'a> {
    ghost use Rattle.emit_relocate.specs.Changes.{section_ref};
    ghost use Rattle.emit_relocate.specs.Filled.{EndBelow, ObjectSection};
    ghost use Rattle.emit_relocate.specs.LinkView.{IsLinkView};
    ghost use Rattle.emit_relocate.specs.Links.{IsAtHand, IsPlaceOf};

    /// A section of an object. `values` are the values of the object's symbols.
    pub fn new(
        place: ObjectPlace,
        object: &'a Object,
        index: LinkedIndex,
        values: &'a [SymbolValue],
    ) -> InputSection<'a>
        requires { index.0 < length object.now.sections }
        ensures { (link : KnownLink) (named : NamedObject) (section : LinkedSection)
            → named_object link place ≡ Some named
            → named.object ≡ object.now → slice_get named.object.sections index.0 ≡ Some section
            → IsRow link named values.now
            → IsAtHand link result (record { object = named; section = section }) }
    {
        InputSection {
            place,
            object,
            index,
            values,
        }
    }

    /// Its key.
    pub fn section_ref(&self) -> SectionRef
        ensures { (link : KnownLink) (section : ObjectSection) → IsAtHand link self.now section → result
            ≡ section_ref self.now.place section }
    {
        let section = self.object.sections()[self.index.0];
        SectionRef {
            object: self.place,
            part: Part::InTable(section.number),
        }
    }

    /// Where it is in the output, if it is there.
    pub fn placed(&self, link: &LinkView<'_, '_>) -> Option<PlacedInput<'a>>
        ensures object { IfSome result (λ placed. placed.object ≡ self.now.place) }
        ensures apart { IfSome result (λ placed. AreApart placed.relocations.now) }
        ensures below { IfSome result
            (λ placed. All (λ relocation. placed.start + relocation.offset < 2 ^ 64) placed.relocations.now) }
        ensures place { (known : KnownLink) (section : ObjectSection) → IsLinkView known link.now → EndBelow known
            → IsAtHand known self.now section
            → IsPlaceOf known section result }
    {
        let section = self.object.sections()[self.index.0];
        match link.start(self.section_ref()) {
            None => None,
            Some(start) => {
                if u64::MAX - start < section.size {
                    // no layout has a section past the end of the address space
                    return None;
                }
                Some(PlacedInput::new(self.place, self.object, self.index, start, self.values))
            }
        }
    }
}
