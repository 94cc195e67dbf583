//! The cases of all known names.

ghost use Rattle.std.specs.Prelude.{◌≡◌, ◌<◌, ℕ, None, IfOk, length};
ghost use Rattle.symres_decisions.specs.Counted.{CountsNames, declared_names};
ghost use Rattle.symres_decisions.specs.Decided.{AreCases, case_at, HasCase};
ghost use Rattle.symres_table.specs.State.{HasName};

use crate::cases::Cases;
use crate::single::case_for;
use elfobj::Meter;
use growth::NoMemory;
use ldscript::Script;
use std::alloc::Global;
use symres_table::names::Names;

/// A place for the case of each known name, empty so far.
pub fn places_for(alloc: Global, names: &Names) -> Result<Cases, NoMemory>
    ensures room { IfOk result (λ cases. (k : ℕ) → HasName names.now.names k → k < length cases) }
    ensures empty { IfOk result (λ cases. (k : ℕ) → case_at cases k ≡ None) }
{
    let mut cases = Cases::new(alloc);
    let count = names.known();
    cases.reserve(count)?;
    for number in 0..count {
        cases.grow_to(names.key_listed(number))?;
    }
    Ok(cases)
}

/// Gives each known name its case. Those that have entries are decided and counted.
pub fn decide_all(names: &Names, script: &Script, cases: &mut Cases, meter: &mut Meter)
    requires room { (k : ℕ) → HasName names.now.names k → k < length cases.old }
    requires only { (k : ℕ) → HasCase cases.old k → HasName names.now.names k }
    ensures long { length cases.new ≡ length cases.old }
    ensures sound { AreCases script.now names.now cases.new }
    ensures complete { (k : ℕ) → HasName names.now.names k → HasCase cases.new k }
    ensures counted { CountsNames meter.old meter.new (declared_names names.now.objects) }
{
    // for the prover: brings in that the count of names fits a u64
    let _names = meter.names();
    let count = names.known();
    for number in 0..count {
        let key = names.key_listed(number);
        let case = case_for(names, script, key, meter);
        cases.set(key, Some(case));
    }
}
