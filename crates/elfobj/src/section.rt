//! Sections as callers see them, and how one is found by its number.

ghost use Rattle.std.specs.Prelude.{◌≢◌, ◌<◌, IfNone, IfSome};
ghost use Rattle.std.specs.List.{All, AllPairs};
ghost use Rattle.elfobj.specs.Numbering.{IsNumberedAt};

pub use elfobj_file::section::{LinkedIndex, Section, SectionIndex, SectionKind};

/// The index of the section with this number, by binary search.
pub fn find_number(sections: &[Section], number: SectionIndex) -> Option<LinkedIndex>
    requires { AllPairs (λ earlier later. earlier.number.0 < later.number.0) sections.now }
    ensures found { IfSome result (λ i. IsNumberedAt sections.now number i.0) }
    ensures absent { IfNone result (All (λ section. section.number.0 ≢ number.0) sections.now) }
{
    match sections.binary_search_by_key(&number.0, |s| s.number.0) {
        Ok(i) => Some(LinkedIndex(i)),
        Err(_) => None,
    }
}
