//! What the map of a link is made of; `emit_text::maps` writes it.

ghost use Rattle.std.specs.Prelude.{◌≡◌, IfOk};
ghost use Rattle.place.specs.LinkLayout.{IsLinkLayout};
ghost use Rattle.ldmodel.specs.Layout.{Layout};
ghost use Rattle.ldmodel.specs.MapText as definition;
ghost use Rattle.ldmodel.specs.Rows as model;
ghost use Rattle.symres.specs.SymbolTable.{SymbolTableState};
ghost use Rattle.ldmodel_project.specs.ByPlace.{rows_in};
ghost use Rattle.emit_relocate.specs.LinkValues.{AreValues};

use emit_relocate::values::{OutputSymbol, Values};
use emit_text::maps;
use emit_text::maps::MapParts;
use emit_text::symbols::{MapSymbol, MapSymbols};
use growth::NoMemory;
use ldmodel::rows::Piece;
use ldmodel_laws::layout::placed_are_rows;
use ldmodel_project::view::ProjectView;
use place::LinkLayout;
use place::sections::law::outputs_are_of_script;
use std::alloc::Global;

/// The symbols of the output as the map takes them.
#[derive(Clone, Copy)]
struct ListedSymbols<'a> {
    symbols: &'a [OutputSymbol<'a>],
}

impl<'a> MapSymbols for ListedSymbols<'a> {
    ghost use Rattle.std.specs.Prelude.{map};
    ghost use Rattle.emit.specs.Listed.{map_symbol};

    ghost list = { λ t. map map_symbol t.symbols.now };

    fn count(&self) -> usize {
        self.symbols.len()
    }

    #[inline(always)]
    fn symbol(&self, place: usize) -> MapSymbol<'_> {
        let symbol = &self.symbols[place];
        MapSymbol {
            name: symbol.name,
            definer: symbol.row.definer(),
            value: symbol.row.value().number(),
        }
    }
}

/// The map of a link without faults.
///
/// # Errors
///
/// If memory runs out.
pub fn map_text(
    alloc: Global,
    project: &ProjectView<'_>,
    rows: &[Vec<Piece>],
    link_layout: &LinkLayout,
    values: &Values<'_>,
) -> Result<Vec<u8>, NoMemory>
    requires { rows_in project.now rows.now ≡ model.rows project.now }
    ensures { IfOk result (λ text. (layout : Layout) (table : SymbolTableState)
        → IsLinkLayout project.now layout link_layout.now
        → AreValues project.now layout table values.now
        → text.items ≡ definition.map_text project.now layout) }
{
    // for the prover: bring in these laws
    placed_are_rows();
    outputs_are_of_script();
    let script = project.script();
    let sections = script.output_sections(alloc)?;
    let symbols = ListedSymbols {
        symbols: &values.symbols,
    };
    let parts = MapParts {
        entry: values.entry.number_or_0(),
        sections: &sections,
        placement: link_layout.placement.view(),
        rows,
    };
    maps::render_map(alloc, &parts, &symbols, project)
}
