//! Segments of the image.

use crate::placed::OutputIndex;

/// A segment: one PT_LOAD of the image (`specs/PlacementView.antt` says which).
#[derive(Clone, Copy, Debug, PartialEq, Eq)]
pub struct Segment {
    /// `p_offset`: where it begins in the file; with padding it can be 2^64 or more.
    pub offset: u128,
    /// `p_vaddr`: the first address of its first output section.
    pub start: u64,
    /// `p_paddr`: the load address of its first output section.
    pub load: u64,
    /// `p_filesz`: how many bytes it has in the file.
    pub file_size: u64,
    /// `p_memsz`: how many bytes it has in memory.
    pub memory_size: u64,
    /// `PF_W`.
    pub writable: bool,
    /// `PF_X`.
    pub executable: bool,
    /// The first output section.
    pub first: OutputIndex,
    /// The last output section; output sections of size 0 between the two are in no segment.
    pub last: OutputIndex,
}
