//! How one name is resolved.

ghost use Rattle.std.specs.Prelude.{◌≡◌, ℕ, List, []};
ghost use Rattle.elfobj.specs.Raised.{raised};
ghost use Rattle.elfobj.specs.declared.meter.Count.TheVariants as counts;
ghost use Rattle.ldmodel.specs.CodeValues.{decision_under_keys};
ghost use Rattle.ldmodel.specs.Names.{decided};
ghost use Rattle.ldmodel.specs.ScriptNames.{is_assigned, is_provided};
ghost use Rattle.symres_decisions.specs.Decided.{IsCase};
ghost use Rattle.symres_decisions.specs.Counted.{uses};
ghost use Rattle.symres_table.specs.State.{HasName, IsNamed};

use elfobj::Meter;
use ldmodel::given::is_assigned;
use ldmodel::names::{Case, NameKey, ObjectKey};
use ldscript::Script;
use symres_table::names::Names;

/// What the script alone makes of a name.
pub fn given_case(script: &Script, name: &[u8]) -> Case<ObjectKey>
    ensures { decision_under_keys result
        ≡ decided (is_assigned script.now name.now) (is_provided script.now name.now) [] }
{
    if is_assigned(script.given(name)) {
        Case::Script
    } else {
        Case::Undefined
    }
}

/// How the name of a key is resolved. It is resolved and counted if it has entries; else it follows from the script
/// alone.
pub fn case_for(names: &Names, script: &Script, key: NameKey, meter: &mut Meter) -> Case<ObjectKey>
    requires { HasName names.now.names key.0 }
    ensures case { IsCase script.now names.now key.0 result }
    ensures counted { (name : List ℕ) → IsNamed names.now.names key.0 name → meter.new
        ≡ raised meter.old counts.Names (uses names.now.objects name) }
{
    // for the prover: brings in that the count of names fits a u64
    let _names = meter.names();
    if names.entries(key).len() > 0 {
        return *names.decide_key(script, key, meter).case();
    }
    match names.name_of(key) {
        Some(name) => given_case(script, name),
        None => unreachable!(),
    }
}
