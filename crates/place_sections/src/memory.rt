//! The memory regions of a script.

ghost use Rattle.std.specs.Prelude.{◌≡◌};
ghost use Rattle.ldmodel.specs.Chain.{run};
ghost use Rattle.ldmodel.specs.Placement.{region_step};
ghost use Rattle.place_terms.specs.Naming.{Naming};
ghost use Rattle.place_sections.specs.State.{layout_of, Gives};

use crate::state::{LayoutCursor, PlacedOutputs};
use crate::stop::LayoutStop;
use ldscript::Region;

impl<'a> LayoutCursor<'a> {
    /// A region of MEMORY.
    #[tactic(auto, unfolding(ldmodel::specs::Placement::region_step))]
    fn declare(
        &self,
        done: &mut PlacedOutputs<'a>,
        region: &'a Region,
    ) -> Result<(), LayoutStop<'a>>
        ghost naming: { Naming }
        ensures sections { done.new.sections ≡ done.old.sections }
        ensures gives { Gives (region_step (layout_of naming self.now done.old) region.now)
            (layout_of naming self.now done.new) result }
    {
        let origin = self.formula(done, region.line, &region.origin)?;
        let extent = self.formula(done, region.line, &region.extent)?;
        done.regions.push(region.name.as_bytes(), origin, extent)?;
        Ok(())
    }

    /// The regions of MEMORY.
    #[tactic(auto, unfolding(ldmodel::specs::Chain::run))]
    pub fn declare_all(
        &self,
        done: &mut PlacedOutputs<'a>,
        regions: &'a [Region],
    ) -> Result<(), LayoutStop<'a>>
        ghost naming: { Naming }
        ensures sections { done.new.sections ≡ done.old.sections }
        ensures gives { Gives (run region_step (layout_of naming self.now done.old) regions.now)
            (layout_of naming self.now done.new) result }
    {
        for region in regions {
            self.declare(done, region)?;
        }
        Ok(())
    }
}
