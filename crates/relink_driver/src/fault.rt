//! Why a link of files gives nothing.

use growth::NoMemory;
use ldmodel::edit::EditRefusal;

/// Why a link of files gives nothing.
#[derive(Clone, Copy, Debug, PartialEq, Eq)]
pub enum LinkFault {
    /// An edit is refused, though there is memory.
    Refused {
        /// Which input the edit is of: 0 is the script, `i` is object number `i`, from 1.
        input: usize,
        /// Why it is refused.
        why: EditRefusal,
    },
    /// Memory ran out.
    Memory(NoMemory),
}
