//! Why a link ends before its last pass.

ghost use Rattle.std.specs.Prelude.{◌≡◌, List, IfErr, IfOk, OnOk};
ghost use Rattle.ldmodel.specs.Fault as model;
ghost use Rattle.ldmodel.specs.Link.{Link, faulty, unless};
ghost use Rattle.ldmodel_project.specs.ByPlace.{faults_in};
ghost use Rattle.relink_driver.specs.PassEnds.{IsPassEnd};

use emit::fault_text;
use growth::NoMemory;
use ldmodel::fault::Fault;
use ldmodel_project::view::ProjectView;
use std::alloc::Global;

/// Why a link ends before its last pass.
#[derive(Drop)]
pub(crate) enum PassEnd {
    /// A phase has faults: their lines.
    Faulty(Vec<u8>),
    /// Out of memory.
    NoMemory(NoMemory),
}

impl From<NoMemory> for PassEnd {
    ghost use Rattle.std.specs.Prelude.{◌≡◌};
    ghost use Rattle.relink_driver.specs.declared.pass_end.PassEnd.TheVariants as stop;

    ghost from_gives = { λ no_memory result. result ≡ stop.NoMemory no_memory };

    fn from(no_memory: NoMemory) -> PassEnd {
        PassEnd::NoMemory(no_memory)
    }
}

/// Ends the link if a phase has faults.
#[tactic(auto, using(crate::proofs::EarlyEnds::unless_none, crate::proofs::EarlyEnds::unless_some))]
pub(crate) fn end_if_faulty(
    alloc: Global,
    project: &ProjectView<'_>,
    faults: &[Fault],
) -> Result<(), PassEnd>
    ensures good { OnOk result ((fs : List model.Fault) (next : Link) → faults_in project.now faults.now ≡ fs
        → unless fs next ≡ next) }
    ensures stop { IfErr result (λ stop. (fs : List model.Fault) (next : Link)
        → faults_in project.now faults.now ≡ fs → IsPassEnd (unless fs next) stop) }
{
    if faults.is_empty() {
        return Ok(());
    }
    let lines = fault_text(alloc, project, faults)?;
    Err(PassEnd::Faulty(lines))
}
