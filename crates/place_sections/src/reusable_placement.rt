//! What is kept of a previous layout.

ghost use Rattle.std.specs.Prelude.{◌≡◌, ◌≤◌, ◌<◌, ◌-◌, min, length, true, IfSome, IfNone};
ghost use Rattle.place_sections.specs.Leads.{Keeps};

use crate::boundary::Boundary;
use crate::resume_point::ResumePoint;
use ldmodel::script_symbol::{DirectiveIndex, ScriptSymbol};
use place_terms::previous_layout::PreviousLayout;

/// What is kept of a previous layout, and how far it holds.
#[derive(Clone, Copy)]
pub(crate) struct ReusablePlacement<'k> {
    /// The output sections.
    pub previous: PreviousLayout<'k>,
    /// `.` before each statement.
    pub dots: &'k [u64],
    /// The symbols.
    pub symbols: &'k [ScriptSymbol],
    /// The state of the previous layout before each output section, and after all.
    pub boundaries: &'k [Boundary],
    /// The number of the first output section whose row differs: before it the layout is the same but for symbols.
    pub first: usize,
    /// Whether the same PROVIDEs were in force, so that before that output section symbols are the same too.
    pub same_provided: bool,
}

impl<'k> ReusablePlacement<'k> {
    /// What is kept of a previous placement before its first row that differs, if these PROVIDEs are in force; or
    /// nothing.
    pub fn new(kept: Option<ResumePoint<'k>>, provided: &[DirectiveIndex]) -> ReusablePlacement<'k>
        ensures some { IfSome kept.entry (λ k. Keeps k.placement.now k.first_row provided.now result) }
        ensures none { IfNone kept.entry (result.first ≡ 0) }
    {
        match kept {
            Some(point) => point.placement.reusable(point.first_row, provided),
            None => ReusablePlacement {
                previous: PreviousLayout {
                    sections: &[],
                    counts: &[],
                    starts: &[],
                    data_commands: &[],
                },
                dots: &[],
                symbols: &[],
                boundaries: &[],
                first: 0,
                same_provided: false,
            },
        }
    }

    /// How many output sections are taken over with all that is before them, if any are: those before the first whose
    /// row differs.
    pub fn count(&self) -> Option<usize>
        ensures same { IfSome result (λ _. self.now.same_provided ≡ true) }
        ensures first { IfSome result (λ k. (0 < self.now.first) × (k ≤ self.now.first)) }
        ensures boundary { IfSome result (λ k. k < length self.now.boundaries.now) }
        ensures all { IfSome result (λ k. k ≡ min self.now.first (length self.now.boundaries.now - 1)) }
        ensures none { IfNone result (self.now.same_provided ≡ true
            → min self.now.first (length self.now.boundaries.now - 1) ≡ 0) }
    {
        if !self.same_provided || self.first == 0 {
            return None;
        }
        let last = self.boundaries.len().checked_sub(1)?;
        Some(self.first.min(last))
    }
}
