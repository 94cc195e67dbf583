//! An object as the look-ups of its symbols need it.

ghost use Rattle.std.specs.Prelude.{◌≡◌, ℕ, None, slice_get, slice_index_or};
ghost use Rattle.std.specs.Option.{option_map};
ghost use Rattle.elfobj.specs.Symbols.{NamedSymbol};
ghost use Rattle.ldmodel.specs.Live.{symbol_at};
ghost use Rattle.ldmodel.specs.Project.{Project};
ghost use Rattle.emit_relocate.specs.ObjectParts.{AreAddresses, AreSymbols};

use elfobj::section::SectionIndex;
use elfobj::symbol::Symbol;
use ldmodel::names::ObjectPlace;
use ldmodel_project::view::ProjectView;
use place::indexed_layout::{IndexedLayout, SectionAddress};

/// An object of a link: its symbols, and where its sections are. It is looked up once for many symbols.
#[derive(Clone, Copy)]
pub(crate) struct ObjectParts<'a> {
    /// Its place.
    pub place: ObjectPlace,
    /// Its symbols, by their numbers; none for an object that is not there.
    pub symbols: &'a [Symbol],
    /// Where its sections are, by their header numbers. That of a number past the end is not in the output.
    pub addresses: &'a [Option<SectionAddress>],
}

/// The symbols of the object at a place.
fn symbols_of<'a>(project: &'a ProjectView<'_>, place: ObjectPlace) -> &'a [Symbol]
    ensures { (n : ℕ) → slice_get result.now n
        ≡ option_map (λ (symbol : NamedSymbol). symbol.symbol) (symbol_at project.now place.0 n) }
{
    match project.object(place) {
        None => &[],
        Some(object) => object.symbols(),
    }
}

impl<'a> ObjectParts<'a> {
    /// The object at a place.
    pub fn of(
        project: &'a ProjectView<'_>,
        indexed_layout: &'a IndexedLayout,
        place: ObjectPlace,
    ) -> ObjectParts<'a>
        ensures place { result.place ≡ place }
        ensures symbols { AreSymbols project.now result }
        ensures addresses { AreAddresses indexed_layout.now result }
    {
        ObjectParts {
            place,
            symbols: symbols_of(project, place),
            addresses: indexed_layout.addresses_of(place),
        }
    }

    /// Where a section is, if it is in the output.
    #[inline(always)]
    pub fn address(self, section: SectionIndex) -> Option<SectionAddress>
        ensures { result ≡ slice_index_or self.entry.addresses.now section.0 None }
    {
        self.addresses
            .get(usize::from(section.0))
            .copied()
            .unwrap_or(None)
    }
}
