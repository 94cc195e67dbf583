//! Values of expressions, at the place of the layout where they stand.

ghost use Rattle.std.specs.Prelude.{◌≡◌};
ghost use Rattle.ldscript.specs.terms.CodeTerms.{expr_of};
ghost use Rattle.ldmodel.specs.Layout.{number};
ghost use Rattle.place_terms.specs.Naming.{Naming};
ghost use Rattle.place_sections.specs.State.{layout_of, outcome};

use crate::state::{LayoutCursor, PlacedOutputs};
use crate::stop::LayoutStop;
use ldmodel::placed::{Placed, PlacedRegion};
use ldscript::tree::{Expr, Formula};
use place_terms::scope::Scope;
use place_terms::value::{ValueFault, value};

/// What an expression may name in a state of the layout.
#[derive(Clone, Copy)]
struct Ready<'s, 'a> {
    here: &'s LayoutCursor<'a>,
    done: &'s PlacedOutputs<'a>,
}

impl<'s, 'a> Scope for Ready<'s, 'a> {
    ghost use Rattle.std.specs.Prelude.{⊤};
    ghost use Rattle.ldmodel.specs.Layout.{scope_of};
    ghost use Rattle.place_terms.specs.SectionTable.{nameless};
    ghost use Rattle.place_sections.specs.State.{layout_of};

    ghost can_look_up = { λ _. ⊤ };

    ghost meaning = { λ s. scope_of (layout_of nameless s.here.now s.done.now) };

    fn symbol(&self, name: &[u8]) -> Option<u64> {
        self.here.symbols.value(name)
    }

    fn section(&self, name: &[u8]) -> Option<Placed> {
        self.done.sections.placed(name)
    }

    fn region(&self, name: &[u8]) -> Option<PlacedRegion> {
        let region = self.done.regions.get(name)?;
        Some(PlacedRegion {
            origin: region.origin,
            extent: region.extent,
        })
    }
}

impl<'a> LayoutCursor<'a> {
    /// The number of an expression on a line.
    pub fn number(
        &self,
        done: &PlacedOutputs<'a>,
        line: u32,
        expr: &'a Expr,
    ) -> Result<u64, LayoutStop<'a>>
        ghost naming: { Naming }
        ensures { outcome result ≡ number (layout_of naming self.now done.now) line (expr_of expr.now) }
    {
        let scope = Ready { here: self, done };
        match value(expr, &scope, self.dot) {
            Ok(number) => Ok(number),
            Err(ValueFault::NotReady(name)) => Err(LayoutStop::NotReady { line, name }),
            Err(ValueFault::NoValue) => Err(LayoutStop::NoValue { line }),
        }
    }

    /// The number of a formula on a line.
    pub fn formula(
        &self,
        done: &PlacedOutputs<'a>,
        line: u32,
        formula: &'a Formula,
    ) -> Result<u64, LayoutStop<'a>>
        ghost naming: { Naming }
        ensures { outcome result ≡ number (layout_of naming self.now done.now) line formula.now }
    {
        self.number(done, line, formula.expr())
    }
}
