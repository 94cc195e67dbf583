//! What a linker knows of a previous link when it evaluates relocations of a new one.

ghost use Rattle.std.specs.Prelude.{◌≡◌, Option, IfSome, Some, false, is_some, length, true};
ghost use Rattle.ldmodel.specs.Project.{NamedObject};
ghost use Rattle.ldmodel.specs.Stayed.{GoodLink};
ghost use Rattle.ldmodel.specs.declared.sections.SectionRef.{SectionRef};
ghost use Rattle.emit_relocate.specs.PreviousLinkInfo.{HasSameValues, HasStayedAt, HasSomeStayed, HasWhollyStayed};
ghost use Rattle.emit_relocate.specs.KnownLink.{KnownLink, named_object};
ghost use Rattle.emit_relocate.specs.SymbolValues.{AreValuesOf};
ghost use Rattle.emit_relocate.specs.declared.previous_link_info.FileRange.{FileRange};

use crate::value::SymbolValue;
use ldmodel::names::ObjectPlace;
use ldmodel::sections::SectionRef;

/// Bytes of a file.
#[derive(Clone, Copy, Debug, PartialEq, Eq)]
pub struct FileRange {
    /// Where they begin.
    pub offset: u64,
    /// How many there are.
    pub length: u64,
}

/// What a linker knows of the previous link beside the new one: which input sections stayed, and what values symbols
/// had. Keys are those of the new link. The clauses hold for any two links that `knows` allows.
pub trait PreviousLinkInfo {
    /// The links that this may be about: the previous one, and the new one with what its keys stand for.
    ghost knows: { Self → GoodLink → KnownLink → Type 0 };

    /// Which input sections stayed, as far as is known, and where their bytes stand in the file.
    ghost range: { Self → SectionRef → Option FileRange };

    /// The bytes in the file of an input section that stayed; an empty range if its output section has no file bytes.
    /// Nothing is said of a section that is not in the output.
    fn stayed_range(&self, section: SectionRef) -> Option<FileRange>
        ensures range { result ≡ range self.now section }
        ensures stayed { (old : GoodLink) (link : KnownLink) → knows self.now old link
            → IfSome result (HasStayedAt old link section) };

    /// Whether an input section stayed, as far as is known. It costs less than `stayed_range`.
    fn has_stayed(&self, section: SectionRef) -> bool
        ensures is { result ≡ is_some (range self.now section) }
        ensures sound { (old : GoodLink) (link : KnownLink) → knows self.now old link
            → IfSome (range self.now section) (HasStayedAt old link section) };

    /// Whether each section of an object that is in the output stayed, as far as is known.
    fn has_wholly_stayed(&self, object: ObjectPlace) -> bool
        ensures { (old : GoodLink) (link : KnownLink) → knows self.now old link → result ≡ true
            → HasWhollyStayed old link (range self.now) object };

    /// Whether a symbol of this object, of which a section stayed, may have another value than in the previous link. If
    /// the answer is no, none has.
    fn is_dirty(&self, object: ObjectPlace) -> bool
        ensures { (old : GoodLink) (link : KnownLink) → knows self.now old link → HasSomeStayed (range self.now) object
            → result ≡ false → HasSameValues old link object };

    /// The values that the symbols of this object, of which a section stayed, had in the previous link to relocations
    /// of the object, by their numbers. The object has `count` symbols.
    fn values(&self, object: ObjectPlace, count: usize) -> &[SymbolValue]
        ensures { (old : GoodLink) (link : KnownLink) (named : NamedObject) → knows self.now old link
            → HasSomeStayed (range self.now) object → named_object link object ≡ Some named
            → length named.object.symbols ≡ count → AreValuesOf old.project old.layout named result.now };
}
