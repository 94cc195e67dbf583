//! The layout of a project, or its faults.

ghost use Rattle.std.specs.Prelude.{◌≡◌, IfErr, IfOk, IfSome, map};
ghost use Rattle.ldmodel.specs.Names.{provided};
ghost use Rattle.ldmodel.specs.Project.{Project};
ghost use Rattle.ldmodel.specs.Rows as model;
ghost use Rattle.place.specs.LinkLayout.{HasLayout, HasPlaces, IsOne, IsWhy};
ghost use Rattle.ldmodel_project.specs.ByPlace.{rows_in};
ghost use Rattle.elfobj.specs.Raised.{raised};
ghost use Rattle.elfobj.specs.declared.meter.Count.TheVariants.{Pieces};
ghost use Rattle.place_sections.specs.Counted.{CountsPieces, entries, first_of, placed_from};
ghost use Rattle.place_sections.specs.Resumable.{IsResumable};
ghost use Rattle.place_terms.specs.ProvidedTable.{provided_names};
ghost use Rattle.place_sections.specs.Outcomes as outcomes;

use crate::offsets::offsets;
use crate::segments::segments;
use elfobj::Meter;
use growth::{NoMemory, vec};
use ldmodel::fault::Fault;
use ldmodel::rows::Piece;
use ldmodel::script_symbol::DirectiveIndex;
use ldmodel::segment::Segment;
use ldmodel_project::view::ProjectView;
use place_sections::fault::PlaceFault;
use place_sections::law::outputs_are_of_script;
use place_sections::place::place;
use place_sections::placement::Placement;
use place_sections::resume_point::ResumePoint;
use std::alloc::Global;

/// The layout of a project.
#[derive(Drop)]
pub struct LinkLayout {
    /// The places in memory.
    pub placement: Placement,
    /// The places in the file: the segments.
    pub segments: Vec<Segment>,
    /// Where each output section begins in the file; 0 if its size is 0.
    pub offsets: Vec<u128>,
}

/// Why a project has no layout.
#[derive(Debug, Drop)]
pub enum LayoutFault {
    /// The project has these faults: `F4` to `F10`.
    Faulty(Vec<Fault>),
    /// Out of memory.
    NoMemory(NoMemory),
}

impl From<NoMemory> for LayoutFault {
    ghost use Rattle.std.specs.Prelude.{◌≡◌};
    ghost use Rattle.place.specs.declared.link_layout.LayoutFault.TheVariants.{NoMemory};

    ghost from_gives = { λ no_memory e. e ≡ NoMemory no_memory };

    fn from(no_memory: NoMemory) -> LayoutFault {
        LayoutFault::NoMemory(no_memory)
    }
}

/// One fault, or out of memory.
fn one(alloc: Global, fault: Fault) -> LayoutFault
    ensures { IsOne result fault }
{
    match vec::of_one(alloc, fault) {
        Ok(faults) => LayoutFault::Faulty(faults),
        Err(no_memory) => LayoutFault::NoMemory(no_memory),
    }
}

/// What a fault of the placement says of the project.
#[tactic(auto, unfolding(ldmodel::specs::Link::layout))]
fn reported(alloc: Global, fault: PlaceFault) -> LayoutFault
    ensures { (project : Project) → outcomes.IsWhy project.script (model.rows project) (provided project) fault
        → IsWhy project result }
{
    match fault {
        PlaceFault::First(fault) => one(alloc, fault),
        PlaceFault::Overlapping(faults) => LayoutFault::Faulty(faults),
        PlaceFault::NoMemory(no_memory) => LayoutFault::NoMemory(no_memory),
    }
}

/// The placement of a project. The ghost `lent` is the project whose keys are in the rows.
fn place_rows(
    alloc: Global,
    project: &ProjectView<'_>,
    in_force: &[DirectiveIndex],
    rows: &[Vec<Piece>],
    kept: Option<ResumePoint<'_>>,
    meter: &mut Meter,
) -> Result<Placement, LayoutFault>
    ghost lent: { Project }
    requires project { project.now ≡ lent }
    requires in_force { provided_names lent.script in_force.now ≡ provided lent }
    requires rows { rows_in lent rows.now ≡ model.rows lent }
    requires kept { IfSome kept (λ k. IsResumable lent.script (model.rows lent) k.placement.now k.first_row) }
    ensures good { IfOk result (λ l. HasPlaces lent l) }
    ensures faulty { IfErr result (λ f. IsWhy lent f) }
    ensures counted { CountsPieces meter.old meter.new (entries 0 (map (λ v. v.items) rows.now)) }
    ensures resumed { IfOk result (λ _. IfSome kept.entry (λ k.
        CountsPieces meter.old meter.new (entries k.first_row (map (λ v. v.items) rows.now)))) }
    ensures exact { IfOk result (λ p. meter.new ≡ raised meter.old Pieces
        (placed_from (first_of kept.entry) p.counts)) }
{
    match place(alloc, project.script(), rows, in_force, kept, meter) {
        Ok(placement) => Ok(placement),
        Err(fault) => Err(reported(alloc, fault)),
    }
}

impl LinkLayout {
    /// Lays out the rows of a project. `in_force` are the numbers of the PROVIDEs that are in force. The length of the
    /// image isn't tested: it is known only when the symbols have their values. The entries of the rows are counted as
    /// placed.
    ///
    /// `kept` is a previous placement of the same script, and the first row that differs from it. The layout is the
    /// same with and without it; with it only the entries of the rows from that one on are counted.
    ///
    /// # Errors
    ///
    /// `Faulty` has the first fault of the layout, or else all output sections that meet; `NoMemory` if memory runs
    /// out.
    pub fn of(
        alloc: Global,
        project: &ProjectView<'_>,
        in_force: &[DirectiveIndex],
        rows: &[Vec<Piece>],
        kept: Option<ResumePoint<'_>>,
        meter: &mut Meter,
    ) -> Result<LinkLayout, LayoutFault>
        requires in_force { provided_names project.now.script in_force.now ≡ provided project.now }
        requires rows { rows_in project.now rows.now ≡ model.rows project.now }
        requires kept { IfSome kept (λ k.
            IsResumable project.now.script (model.rows project.now) k.placement.now k.first_row) }
        ensures good { IfOk result (λ l. HasLayout project.now l) }
        ensures faulty { IfErr result (λ f. IsWhy project.now f) }
        ensures counted { CountsPieces meter.old meter.new (entries 0 (map (λ v. v.items) rows.now)) }
        ensures resumed { IfOk result (λ _. IfSome kept.entry (λ k.
            CountsPieces meter.old meter.new (entries k.first_row (map (λ v. v.items) rows.now)))) }
        ensures exact { IfOk result (λ l. meter.new
            ≡ raised meter.old Pieces (placed_from (first_of kept.entry) l.placement.counts)) }
    {
        // for the prover: brings in this law
        outputs_are_of_script();
        // for the prover: brings in the invariant of `project.script()`
        let _statements = project.script().statements();
        let placement = place_rows(alloc, project, in_force, rows, kept, meter)?;
        let segments = segments(alloc, placement.view())?;
        let offsets = offsets(alloc, placement.sections(), &segments)?;
        Ok(LinkLayout {
            placement,
            segments,
            offsets,
        })
    }
}
