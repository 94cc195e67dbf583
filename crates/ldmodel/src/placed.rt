//! What a placement lends to the layers above it.

use crate::script_symbol::ScriptSymbol;
use ldscript::statements::section::Width;

/// An output section: its index among those of the script, of which `/DISCARD/` is none.
#[derive(Clone, Copy, Debug, PartialEq, Eq)]
pub struct OutputIndex(pub u32);

/// A memory region: its index among those of the script.
#[derive(Clone, Copy, Debug, PartialEq, Eq)]
pub struct RegionIndex(pub u32);

/// An output section with its addresses. Its end and its load end are below 2^64.
#[derive(Clone, Copy, Debug, PartialEq, Eq)]
pub struct Placed {
    /// The first address.
    pub start: u64,
    /// Its size in memory.
    pub size: u64,
    /// The load address (LMA) of its first byte.
    pub load: u64,
    /// Whether it has bytes in the file, all or none.
    pub has_file_bytes: bool,
    /// The load size: `size` if it has bytes in the file, else 0.
    pub load_size: u64,
    /// The alignment, a power of two. An address that the script gives need not be a multiple of it.
    pub alignment: u64,
    /// `SHF_WRITE`: it may be written.
    pub writable: bool,
    /// `SHF_EXECINSTR`: it holds code.
    pub executable: bool,
}

/// A BYTE, SHORT, LONG or QUAD with its address.
#[derive(Clone, Copy, Debug, PartialEq, Eq)]
pub struct PlacedData {
    /// The output section that it is in.
    pub section: OutputIndex,
    /// The address of its first byte.
    pub start: u64,
    /// How many bytes it has.
    pub width: Width,
    /// The number whose low bytes are written, little-endian.
    pub value: u64,
}

/// A memory region.
#[derive(Clone, Copy, Debug, PartialEq, Eq)]
pub struct PlacedRegion {
    /// ORIGIN: the first address.
    pub origin: u64,
    /// LENGTH: how many bytes it has.
    pub extent: u64,
}

/// All addresses of a layout, lent by a placement (`specs/PlacementView.antt`).
#[derive(Clone, Copy, Debug)]
pub struct PlacementView<'a> {
    /// The output sections, in the order of the script.
    pub sections: &'a [Placed],
    /// The addresses of the input sections, row by row.
    pub starts: &'a [u64],
    /// The data commands, in the order of the script.
    pub data_commands: &'a [PlacedData],
    /// The value of `.` before each statement of SECTIONS and, after that of an output section, before each statement
    /// of its body.
    pub dots: &'a [u64],
    /// The symbols that the script gives values, in the order of the text.
    pub symbols: &'a [ScriptSymbol],
    /// The memory regions, in the order of the text.
    pub regions: &'a [PlacedRegion],
}
