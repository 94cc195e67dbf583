//! Why a layout stops.

use growth::NoMemory;

/// Why a layout stops, with names in place of their numbers.
#[derive(Clone, Copy)]
pub(crate) enum LayoutStop<'a> {
    /// An expression names something that is not complete there.
    NotReady {
        /// The line of the statement.
        line: u32,
        /// The name.
        name: &'a [u8],
    },
    /// An expression has no value.
    NoValue {
        /// The line of the statement.
        line: u32,
    },
    /// `.` goes back inside an output section.
    MovedBack {
        /// The line of the statement.
        line: u32,
    },
    /// An output section does not lie in its memory region.
    RegionFull {
        /// The output section.
        section: &'a [u8],
        /// The region.
        region: &'a [u8],
    },
    /// An address, an end or `.` is 2^64 or more.
    PastAddressSpace {
        /// The line of the statement.
        line: u32,
    },
    /// Out of memory.
    NoMemory(NoMemory),
}

impl<'a> From<NoMemory> for LayoutStop<'a> {
    ghost use Rattle.std.specs.Prelude.{◌≡◌};
    ghost use Rattle.place_sections.specs.declared.stop.LayoutStop.TheVariants.{NoMemory};

    ghost from_gives = { λ no_memory e. e ≡ NoMemory no_memory };

    fn from(no_memory: NoMemory) -> LayoutStop<'a> {
        LayoutStop::NoMemory(no_memory)
    }
}
