//! The layout of a script.

ghost use Rattle.std.specs.Prelude.{◌≡◌, [], map, IfErr, IfOk, IfSome};
ghost use Rattle.elfobj.specs.Raised.{raised};
ghost use Rattle.place_terms.specs.Naming.{Naming, rows_named};
ghost use Rattle.place_terms.specs.ProvidedTable.{provided_names};
ghost use Rattle.place_sections.specs.Counted.{CountsPieces, entries, first_of, placed_from};
ghost use Rattle.place_sections.specs.Resumable.{IsResumable};
ghost use Rattle.place_sections.specs.Outcomes.{IsGood, IsWhy, Stops};
ghost use Rattle.place_sections.specs.Places.{IsPlacement};

use crate::fault::{PlaceFault, reported};
use crate::overlaps::overlaps;
use crate::placement::Placement;
use crate::resume_point::ResumePoint;
use crate::reusable_placement::ReusablePlacement;
use crate::script::Input;
use crate::state::{LayoutCursor, PlacedOutputs};
use crate::whole::whole;
use growth::{NoMemory, vec};
use ldmodel::meter::{Count, Meter};
use ldmodel::rows::Piece;
use ldmodel::script_symbol::DirectiveIndex;
use ldmodel_laws::layout::steps_stay_alike;
use ldscript::Script;
use place_terms::provided::Provided;
use place_terms::regions::Regions;
use place_terms::sections::Sections;
use place_terms::symbols::AssignedSymbols;
use std::alloc::Global;

/// The symbols of a layout before any has a value. The layout has this many output sections, of which some are taken
/// over.
fn no_symbols<'a>(
    alloc: Global,
    script: &'a Script,
    kept: ReusablePlacement<'_>,
    sections: usize,
) -> Result<AssignedSymbols<'a>, NoMemory>
    ensures script { IfOk result (λ s. s.script ≡ script.now) }
    ensures none { IfOk result (λ s. s.list ≡ []) }
{
    if kept.count().unwrap_or(0) > sections / 2 {
        AssignedSymbols::taken_over(alloc, script, kept.symbols.len())
    } else {
        AssignedSymbols::new(alloc, script)
    }
}

/// Nothing is placed yet, and `.` is 0.
fn nowhere<'a>(
    alloc: Global,
    script: &'a Script,
    kept: ReusablePlacement<'_>,
    sections: usize,
) -> Result<LayoutCursor<'a>, NoMemory>
    ensures dot { IfOk result (λ h. h.dot ≡ 0) }
    ensures dots { IfOk result (λ h. h.dots.items ≡ []) }
    ensures inputs { IfOk result (λ h. h.inputs ≡ 0) }
    ensures anew { IfOk result (λ h. h.anew ≡ 0) }
    ensures script { IfOk result (λ h. h.symbols.script ≡ script.now) }
    ensures symbols { IfOk result (λ h. h.symbols.list ≡ []) }
{
    let symbols = no_symbols(alloc, script, kept, sections)?;
    let dots = vec::with_capacity(alloc, kept.dots.len())?;
    Ok(LayoutCursor {
        dot: 0,
        dots,
        inputs: 0,
        symbols,
        pieces: Vec::new(alloc),
        data_commands: Vec::new(alloc),
        anew: 0,
    })
}

/// The layout of a script, or its first fault.
#[tactic(auto, unfolding(ldmodel::specs::Placement::placement))]
fn lay_out(
    alloc: Global,
    script: &Script,
    rows: &[Vec<Piece>],
    provided: &[DirectiveIndex],
    kept: Option<ResumePoint<'_>>,
    meter: &mut Meter,
) -> Result<Placement, PlaceFault>
    ghost naming: { Naming }
    requires kept { IfSome kept (λ k.
        IsResumable script.now (rows_named naming (map (λ v. v.items) rows.now)) k.placement.now k.first_row) }
    ensures counted { CountsPieces meter.old meter.new (entries 0 (map (λ v. v.items) rows.now)) }
    ensures resumed { IfOk result (λ _. IfSome kept.entry (λ k.
        IsResumable script.now (rows_named naming (map (λ v. v.items) rows.now)) k.placement.now k.first_row
        → CountsPieces meter.old meter.new (entries k.first_row (map (λ v. v.items) rows.now)))) }
    ensures exact { IfOk result (λ p. meter.new
        ≡ raised meter.old Count.Pieces (placed_from (first_of kept.entry) p.counts)) }
    ensures placed { IfOk result (λ p.
        IsPlacement script.now (rows_named naming (map (λ v. v.items) rows.now))
        (provided_names script.now provided.now) p) }
    ensures faulty { IfErr result (λ f.
        Stops script.now (rows_named naming (map (λ v. v.items) rows.now)) (provided_names script.now provided.now) f) }
{
    // for the prover: brings in this law
    steps_stay_alike();
    let in_force = Provided::new(alloc, script, provided)?;
    let kept = ReusablePlacement::new(kept, provided);
    let mut here = nowhere(alloc, script, kept, rows.len())?;
    let taken = kept.count().unwrap_or(0);
    let sections = Sections::new(alloc, script, rows.len(), kept.previous, taken)?;
    let regions = Regions::new(alloc, script);
    let mut done = PlacedOutputs { sections, regions };
    let input = Input {
        alloc,
        provided: &in_force,
        rows,
        kept,
    };
    let laid = input.place_script(&mut here, &mut done, script.statements());
    meter.raise(Count::Pieces, here.anew);
    match laid {
        Ok(boundaries) => Ok(whole(alloc, here, &done, boundaries, provided)?),
        Err(stop) => Err(reported(alloc, script, stop)),
    }
}

/// Lays a script out: one pass over its statements, in which the rows' entries take their places.
///
/// `rows` has one row for each output section, in the order of the script, `provided` the PROVIDEs that are in force.
/// `kept` is a previous placement of the same script, with the first row that differs. The layout is the same with and
/// without `kept`. If the same PROVIDEs were in force, the pass resumes right before the output section of that row:
/// everything before it in SECTIONS is taken over and not evaluated, and memory regions are filled as far as the
/// sections taken over reach. If other PROVIDEs were in force, the statements before it are evaluated anew, but input
/// sections keep their addresses. The meter counts the pieces that were placed anew.
///
/// What the pieces' objects and sections are called does not matter: the contract holds with any names.
///
/// # Errors
///
/// `First` is the first fault of the layout (`F4` to `F8`). Without one, `Overlapping` has one fault for each output
/// section that shares an address with an earlier one (`F9`), and then one for each that shares a load address (`F10`).
pub fn place(
    alloc: Global,
    script: &Script,
    rows: &[Vec<Piece>],
    provided: &[DirectiveIndex],
    kept: Option<ResumePoint<'_>>,
    meter: &mut Meter,
) -> Result<Placement, PlaceFault>
    ghost naming: { Naming }
    requires kept { IfSome kept (λ k.
        IsResumable script.now (rows_named naming (map (λ v. v.items) rows.now)) k.placement.now k.first_row) }
    ensures counted { CountsPieces meter.old meter.new (entries 0 (map (λ v. v.items) rows.now)) }
    ensures resumed { IfOk result (λ _. IfSome kept.entry (λ k.
        IsResumable script.now (rows_named naming (map (λ v. v.items) rows.now)) k.placement.now k.first_row
        → CountsPieces meter.old meter.new (entries k.first_row (map (λ v. v.items) rows.now)))) }
    ensures exact { IfOk result (λ p. meter.new
        ≡ raised meter.old Count.Pieces (placed_from (first_of kept.entry) p.counts)) }
    ensures placed { IfOk result (λ p.
        IsPlacement script.now (rows_named naming (map (λ v. v.items) rows.now))
        (provided_names script.now provided.now) p) }
    ensures good { IfOk result (λ p.
        IsGood script.now (rows_named naming (map (λ v. v.items) rows.now))
        (provided_names script.now provided.now) p) }
    ensures faulty { IfErr result (λ f.
        IsWhy script.now (rows_named naming (map (λ v. v.items) rows.now)) (provided_names script.now provided.now) f) }
{
    let placement = lay_out(alloc, script, rows, provided, kept, meter)?;
    let overlapping = overlaps(alloc, placement.sections())?;
    if overlapping.as_slice().is_empty() {
        Ok(placement)
    } else {
        Err(PlaceFault::Overlapping(overlapping))
    }
}
