//! The ASSERTs of a link that do not hold.

ghost use Rattle.std.specs.Prelude.{◌≡◌, ◌++◌, IfOk, OnOk};
ghost use Rattle.emit_relocate.specs.FinalScope.{fault_unless, holds_in, meaning_of};
ghost use Rattle.place.specs.LinkLayout.{IsLinkLayout};
ghost use Rattle.ldmodel.specs.Assertions as definition;
ghost use Rattle.ldmodel.specs.Layout.{Layout};
ghost use Rattle.symres.specs.SymbolTable.{SymbolTableState};
ghost use Rattle.ldmodel_project.specs.ByPlace.{faults_in};
ghost use Rattle.place.specs.terms.Outcomes.{outcome_of};
ghost use Rattle.emit_relocate.specs.LinkValues.{AreValues};

use crate::final_scope::FinalScope;
use crate::symbols_by_name::SymbolsByName;
use crate::values::Values;
use emit_text::assertion::assertions;
use growth::{NoMemory, impossible, vec};
use ldmodel::fault::{AssertionIndex, Fault};
use ldmodel_laws::layout::layout_by_effects;
use ldmodel_project::view::ProjectView;
use ldscript::tree::Assertion;
use place::sections::law::outputs_are_of_script;
use place::{LinkLayout, ValueFault, value};
use std::alloc::Global;

/// Whether a value counts as true; where there is none, it does not.
fn is_true(outcome: Result<u64, ValueFault<'_>>) -> bool
    ensures { result ≡ definition.is_true_value (outcome_of outcome.entry) }
{
    match outcome {
        Ok(number) => number != 0,
        Err(_) => false,
    }
}

/// Whether the condition of an ASSERT holds.
fn holds(scope: &FinalScope<'_, '_>, assertion: &Assertion) -> bool
    ensures { result ≡ holds_in (meaning_of scope.now) assertion.now.condition }
{
    is_true(value(assertion.condition.expr(), scope, 0))
}

/// Adds the fault of an ASSERT, by its number, unless it holds.
fn add_unless_holds(
    scope: &FinalScope<'_, '_>,
    number: usize,
    assertion: &Assertion,
    faults: &mut Vec<Fault>,
) -> Result<(), NoMemory>
    ensures { OnOk result (faults.new.items ≡ faults.old.items
        ++ fault_unless (holds_in (meaning_of scope.now) assertion.now.condition) number) }
{
    if holds(scope, assertion) {
        return Ok(());
    }
    match u32::try_from(number) {
        Ok(number) => {
            vec::push(faults, Fault::AssertionFailed(AssertionIndex(number)))?;
            Ok(())
        }
        // no script is long enough for 2^32 ASSERTs, but no contract says so
        Err(_) => Err(impossible()),
    }
}

/// The faults of the ASSERTs whose conditions do not hold, in the order of the text: `F15`.
///
/// # Errors
///
/// If memory runs out.
pub fn assertion_faults(
    alloc: Global,
    project: &ProjectView<'_>,
    link_layout: &LinkLayout,
    values: &Values<'_>,
) -> Result<Vec<Fault>, NoMemory>
    ensures { IfOk result (λ faults. (layout : Layout) (table : SymbolTableState)
        → IsLinkLayout project.now layout link_layout.now
        → AreValues project.now layout table values.now
        → faults_in project.now faults.items ≡ definition.assertion_faults project.now layout) }
{
    // for the prover: bring in these laws
    layout_by_effects();
    outputs_are_of_script();
    let script = project.script();
    let commands = script.all_directives(alloc)?;
    let assertions = assertions(alloc, &commands)?;
    if assertions.is_empty() {
        // without ASSERTs no name is looked up
        return Ok(Vec::new(alloc));
    }
    let scope = FinalScope {
        script,
        placement: link_layout.placement.view(),
        symbols: SymbolsByName::of(&values.symbols),
    };
    let mut faults = Vec::new(alloc);
    for (number, at) in assertions.iter().enumerate() {
        add_unless_holds(&scope, number, at.assertion, &mut faults)?;
    }
    Ok(faults)
}
