//! What the image is made of: headers, output sections with their contents, and the tail.

use emit_fields::patch::Patch;
use ldmodel::placed::PlacedData;

/// An input section in its place.
#[derive(Clone, Copy)]
pub struct ImagePiece<'a> {
    /// The first address.
    pub start: u64,
    /// How many bytes it has in memory.
    pub size: u64,
    /// The bytes; none if they are all 0, as in NOBITS and in a common block.
    pub bytes: &'a [u8],
    /// The fields over these bytes, in the order of their offsets; none if the input section stays.
    pub fields: &'a [Patch],
    /// Whether its bytes are on the canvas already, but for the patches that `redraw` is given.
    pub stays: bool,
}

/// An output section that has bytes in the file.
#[derive(Clone, Copy)]
pub struct ImageSection<'a> {
    /// Where it begins in the file.
    pub offset: u64,
    /// The first address.
    pub start: u64,
    /// How many bytes it has.
    pub size: u64,
    /// What its gaps are filled with, over and over: 1 to 8 bytes; one zero byte if the script says nothing.
    pub fill: &'a [u8],
    /// The input sections, in the order of their addresses.
    pub pieces: &'a [ImagePiece<'a>],
    /// The data commands, in the order of their addresses.
    pub data_commands: &'a [PlacedData],
}

/// A part of the tail.
#[derive(Clone, Copy)]
pub struct ImagePart<'a> {
    /// Where it begins in the file.
    pub offset: u64,
    /// The bytes.
    pub bytes: &'a [u8],
}

/// All that an image is made of. What lies between is 0.
#[derive(Clone, Copy)]
pub struct Drawing<'a> {
    /// The ELF header and the program headers.
    pub headers: &'a [u8],
    /// The output sections that have bytes in the file, in their order there.
    pub sections: &'a [ImageSection<'a>],
    /// The parts of the tail, in their order; the image ends where the last of them does.
    pub tail: &'a [ImagePart<'a>],
}
