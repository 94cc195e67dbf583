//! What the conditions of ASSERTs may name.

ghost use Rattle.std.specs.Prelude.{◌≡◌};
ghost use Rattle.ldmodel.specs.Assertions.{number_if_any};
ghost use Rattle.emit_relocate.specs.Values.{value_of};

use crate::symbols_by_name::SymbolsByName;
use ldmodel::placed::{Placed, PlacedRegion, PlacementView};
use ldscript::Script;
use place::terms::scope::Scope;

/// The scope of ASSERTs: the symbols, output sections and memory regions of a link.
#[derive(Clone, Copy)]
pub struct FinalScope<'a, 'b> {
    /// The script.
    pub script: &'a Script,
    /// Where the output sections and memory regions are.
    pub placement: PlacementView<'a>,
    /// The symbols of the output.
    pub symbols: SymbolsByName<'a, 'b>,
}

impl<'a, 'b> Scope for FinalScope<'a, 'b> {
    ghost use Rattle.std.specs.Prelude.{⊤};
    ghost use Rattle.emit_relocate.specs.FinalScope.{meaning_of};

    ghost can_look_up = { λ _. ⊤ };

    ghost meaning = { λ f. meaning_of f };

    fn symbol(&self, name: &[u8]) -> Option<u64> {
        self.symbols.value(name).number()
    }

    fn section(&self, name: &[u8]) -> Option<Placed> {
        match self.script.section_number(name) {
            Some(number) => self.placement.sections.get(number).copied(),
            None => None,
        }
    }

    fn region(&self, name: &[u8]) -> Option<PlacedRegion> {
        match self.script.region_number(name) {
            Some(number) => self.placement.regions.get(number).copied(),
            None => None,
        }
    }
}
