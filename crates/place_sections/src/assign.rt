//! Assignments of symbols.

ghost use Rattle.std.specs.Prelude.{◌≡◌};
ghost use Rattle.ldmodel.specs.Placement.{assigned, directive_step};
ghost use Rattle.place_terms.specs.Naming.{Naming};
ghost use Rattle.place_sections.specs.State.{layout_of, Gives};

use crate::state::{LayoutCursor, PlacedOutputs};
use crate::stop::LayoutStop;
use ldscript::tree::{Assignment, Directive};
use place_terms::provided::Provided;

impl<'a> LayoutCursor<'a> {
    /// `NAME = e`.
    fn assign(
        &mut self,
        done: &PlacedOutputs<'a>,
        line: u32,
        a: &'a Assignment,
    ) -> Result<(), LayoutStop<'a>>
        ghost naming: { Naming }
        ensures gives { Gives (assigned (layout_of naming self.old done.now) line a.now)
            (layout_of naming self.new done.now) result }
        ensures script { self.new.symbols.script ≡ self.old.symbols.script }
        ensures pieces { self.new.pieces.items ≡ self.old.pieces.items }
        ensures data_commands { self.new.data_commands.items ≡ self.old.data_commands.items }
        ensures anew { self.new.anew ≡ self.old.anew }
    {
        let value = self.formula(done, line, &a.value)?;
        self.symbols.assign(a.name.as_bytes(), value)?;
        Ok(())
    }

    /// An assignment of a symbol, a PROVIDE or an ASSERT.
    #[tactic(auto, unfolding(ldmodel::specs::Placement::directive_step))]
    pub fn directive(
        &mut self,
        done: &PlacedOutputs<'a>,
        provided: &Provided<'a>,
        line: u32,
        command: &'a Directive,
    ) -> Result<(), LayoutStop<'a>>
        ghost naming: { Naming }
        ensures gives { Gives (directive_step provided.now (layout_of naming self.old done.now) line command.now)
            (layout_of naming self.new done.now) result }
        ensures script { self.new.symbols.script ≡ self.old.symbols.script }
        ensures pieces { self.new.pieces.items ≡ self.old.pieces.items }
        ensures data_commands { self.new.data_commands.items ≡ self.old.data_commands.items }
        ensures anew { self.new.anew ≡ self.old.anew }
    {
        match command {
            Directive::Assign(a) => self.assign(done, line, a),
            Directive::Provide(a) => {
                if provided.is_in_force(a.name.as_bytes()) {
                    self.assign(done, line, a)
                } else {
                    Ok(())
                }
            }
            Directive::Assert(_) => Ok(()),
        }
    }
}
