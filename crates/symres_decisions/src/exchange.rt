//! An object is taken out of a table of names, and another one entered.

ghost use Rattle.symres_decisions.specs.Change.{CanCome, CanGo, MayCome, PutsIn, TakesOut};
ghost use Rattle.symres_table.specs.State.{IsFresh};

use crate::change::ObjectAt;
use ldmodel::names::ObjectKey;
use symres_table::names::Names;

/// Takes out the object of a key, if one goes.
pub fn take_out(names: &mut Names, key: ObjectKey, out: Option<ObjectAt<'_>>)
    requires { CanGo names.old.objects key.0 out }
    ensures { TakesOut names.old names.new key.0 out.entry }
{
    if let Some(_at) = out {
        names.withdraw(key);
    }
}

/// Enters an object under a key, if one comes.
pub fn put_in(names: &mut Names, key: ObjectKey, into: Option<ObjectAt<'_>>)
    requires place { CanCome names.old.objects into }
    requires fresh { IsFresh key.0 names.old.objects }
    requires room { MayCome names.old into }
    ensures { PutsIn names.old names.new key.0 into.entry }
{
    if let Some(at) = into {
        names.enter(key, at.place, at.object);
    }
}
