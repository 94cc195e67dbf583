//! What the evaluation of relocations asks of a link.

ghost use Rattle.std.specs.Prelude.{◌≡◌, ◌<◌, ℕ, List, Some};
ghost use Rattle.std.specs.Option.{option_map};
ghost use Rattle.ldmodel.specs.Layout.{Layout, PlacedPiece};
ghost use Rattle.ldmodel.specs.NameFaults.{object_name};
ghost use Rattle.ldmodel.specs.Project.{Project};
ghost use Rattle.ldmodel.specs.SymbolValues.{placed_part};
ghost use Rattle.place.specs.IndexedLayout.{IsIndexedLayout};
ghost use Rattle.emit_relocate.specs.KnownLink.{IsCaseOf, IsScriptValueOf, KnownLink, start_of};
ghost use Rattle.emit_relocate.specs.LinkView.{IsLinkView};

use crate::link_view::LinkView;
use crate::name_row::start_at;
use ldmodel::names::{Case, NameKey, ObjectPlace};
use ldmodel::sections::SectionRef;
use place::indexed_layout::IndexedLayout;

/// Where an input section starts, if it is in the output.
fn start_in(indexed_layout: &IndexedLayout, section: SectionRef) -> Option<u64>
    ensures { (project : Project) (layout : Layout) → IsIndexedLayout project layout indexed_layout.now → result
        ≡ option_map (λ (placed : PlacedPiece). placed.start)
        (placed_part layout (object_name project section.object.0) section.part) }
{
    start_at(indexed_layout.find(section))
}

impl<'a, 'p> LinkView<'a, 'p> {
    /// Where an input section starts, if it is in the output.
    pub(crate) fn start(&self, section: SectionRef) -> Option<u64>
        ensures { (link : KnownLink) → IsLinkView link self.now → result ≡ start_of link section }
    {
        start_in(self.indexed_layout, section)
    }

    /// A number that is greater than each key of a name.
    pub(crate) fn name_limit(&self) -> usize
        ensures { (link : KnownLink) → IsLinkView link self.now → (k : ℕ) (name : List ℕ) → link.name k ≡ Some name → k
            < result }
    {
        self.symbol_table.limit()
    }

    /// How the name of a key is resolved.
    pub(crate) fn case(&self, name: NameKey) -> Option<Case<ObjectPlace>>
        ensures { (link : KnownLink) → IsLinkView link self.now → IsCaseOf link name result }
    {
        self.symbol_table.case_of(name)
    }

    /// The value that the script gives the name of a key, if it gives one.
    pub(crate) fn script_value(&self, name: NameKey) -> Option<u64>
        ensures { (link : KnownLink) → IsLinkView link self.now → IsScriptValueOf link name result }
    {
        self.given.get(name.0).copied().unwrap_or(None)
    }
}
