//! Edits of a project, and the answers to them.

ghost use Rattle.std.specs.Prelude.{◌≡◌};
ghost use Rattle.ldmodel.specs.EditMeaning.{refusal_of};
ghost use Rattle.ldmodel.specs.Edits.{inner_number, edit_refusal_number};

use elfobj::ObjectRefusal;
use growth::NoMemory;
use ldscript::ScriptRefusal;

/// The greatest number of bytes that an object or a script may have: 2^26.
pub const MAX_PAYLOAD: usize = 0x400_0000;
/// The greatest number of bytes of an object's name.
pub const MAX_OBJECT_NAME: usize = 255;
/// The greatest number of objects of a project.
pub const MAX_OBJECTS: usize = 4096;

/// A change of the project.
#[derive(Drop)]
pub enum Edit<'a> {
    /// Adds an object.
    Add {
        /// The name of the object: 1 to 255 bytes from `!` to `~`.
        name: &'a [u8],
        /// The position before which it is inserted, from 0 to the number of objects.
        at: u64,
        /// The bytes of the object.
        bytes: Vec<u8>,
    },
    /// Replaces an object by another one, under its name and in its place.
    Replace {
        /// The name of both.
        name: &'a [u8],
        /// The bytes of the new object.
        bytes: Vec<u8>,
    },
    /// Moves an object to another place.
    Move {
        /// The name of the object.
        name: &'a [u8],
        /// The position among the other objects before which it is inserted, from 0 to their number.
        to: u64,
    },
    /// Removes an object.
    Remove {
        /// The name of the object.
        name: &'a [u8],
    },
    /// Sets the script.
    Script {
        /// The text of the script.
        text: &'a [u8],
    },
}

/// The answer to an accepted edit.
#[derive(Clone, Copy, Debug, PartialEq, Eq)]
pub struct LinkSummary {
    /// 0 for a good link, 1 for one with faults.
    pub status: u8,
    /// The length of the image in bytes.
    pub length: u64,
}

/// Why an edit is refused.
#[derive(Clone, Copy, Debug, PartialEq, Eq)]
pub enum EditRefusal {
    /// 1: an object has the name already.
    InUse,
    /// 2: no object has the name.
    Unknown,
    /// 3: the position is past the end.
    PastEnd,
    /// 4: the bytes are no object of the profile.
    NotAnObject(ObjectRefusal),
    /// 5: the text is no script of the profile.
    NotAScript(ScriptRefusal),
    /// 6: the name, the bytes or the number of objects is outside the limits.
    Limit,
    /// 7: out of memory.
    NoMemory(NoMemory),
}

impl EditRefusal {
    /// The number under which the refusal is reported, from 1 to 7.
    pub fn number(self) -> u8
        ensures { result ≡ edit_refusal_number (refusal_of self) }
    {
        match self {
            EditRefusal::InUse => 1,
            EditRefusal::Unknown => 2,
            EditRefusal::PastEnd => 3,
            EditRefusal::NotAnObject(_) => 4,
            EditRefusal::NotAScript(_) => 5,
            EditRefusal::Limit => 6,
            EditRefusal::NoMemory(_) => 7,
        }
    }

    /// The number of the object's or the script's own refusal, else 0.
    pub fn inner_number(self) -> u8
        ensures { result ≡ inner_number (refusal_of self) }
    {
        match self {
            EditRefusal::NotAnObject(why) => why.number(),
            EditRefusal::NotAScript(why) => why.number(),
            _ => 0,
        }
    }
}
