//! Tests of edits, and how it is reported that a reader refuses.

ghost use Rattle.std.specs.Prelude.{◌≡◌};
ghost use Rattle.std.specs.List.{list_all};
ghost use Rattle.elfobj.specs.Names.{is_graphic};
ghost use Rattle.ldmodel.specs.Edits.{is_object_name, is_too_long};
ghost use Rattle.ldmodel_project.specs.Refused.{object_refused, script_refused};

use elfobj::ObjectRefusal;
use ldmodel::edit::{EditRefusal, MAX_OBJECT_NAME, MAX_PAYLOAD};
use ldscript::ScriptRefusal;

/// How it is reported that an object is refused.
pub(crate) fn object_refused(why: ObjectRefusal) -> EditRefusal
    ensures { result ≡ object_refused why }
{
    match why {
        ObjectRefusal::NoMemory(no_memory) => EditRefusal::NoMemory(no_memory),
        _ => EditRefusal::NotAnObject(why),
    }
}

/// How it is reported that a script is refused.
pub(crate) fn script_refused(why: ScriptRefusal) -> EditRefusal
    ensures { result ≡ script_refused why }
{
    match why {
        ScriptRefusal::NoMemory(no_memory) => EditRefusal::NoMemory(no_memory),
        _ => EditRefusal::NotAScript(why),
    }
}

/// Whether a byte is from `!` to `~`.
fn is_graphic(b: u8) -> bool
    ensures { result ≡ is_graphic b }
{
    matches!(b, b'!'..=b'~')
}

/// Whether all bytes of a name are from `!` to `~`.
fn is_all_graphic(name: &[u8]) -> bool
    ensures { result ≡ list_all is_graphic name.now }
{
    name.iter().all(|b| is_graphic(*b))
}

/// Whether a name may be that of an object: 1 to 255 bytes from `!` to `~`.
#[tactic(auto, unfolding(ldmodel::specs::Edits::is_object_name))]
pub fn is_object_name(name: &[u8]) -> bool
    ensures { result ≡ is_object_name name.now }
{
    1 <= name.len() && name.len() <= MAX_OBJECT_NAME && is_all_graphic(name)
}

/// Whether these are more bytes than an object or a script may have: 2^26.
#[tactic(auto, unfolding(ldmodel::specs::Edits::is_too_long))]
pub fn is_too_long(bytes: &[u8]) -> bool
    ensures { result ≡ is_too_long bytes.now }
{
    bytes.len() > MAX_PAYLOAD
}
