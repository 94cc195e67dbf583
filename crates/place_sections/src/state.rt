//! What is known while a layout is made: the cursor, which each statement moves, and the output sections so far.

use ldmodel::rows::Piece;
use place_terms::provided::Provided;
use place_terms::regions::Regions;
use place_terms::sections::{DataAt, PieceAt, Sections};
use place_terms::symbols::AssignedSymbols;

/// The state of a layout that changes from statement to statement, in the body of an output section too.
#[derive(Drop)]
pub(crate) struct LayoutCursor<'a> {
    /// `.`, the location counter.
    pub dot: u64,
    /// `.` before each statement so far.
    pub dots: Vec<u64>,
    /// The number of the next input statement.
    pub inputs: u128,
    /// The symbols that have values.
    pub symbols: AssignedSymbols<'a>,
    /// The input sections of the present output section that have their places.
    pub pieces: Vec<PieceAt<'a>>,
    /// The data commands of the present output section so far.
    pub data_commands: Vec<DataAt>,
    /// How many input sections were placed anew.
    pub anew: u64,
}

/// What is complete: it changes between output sections alone.
#[derive(Drop)]
pub(crate) struct PlacedOutputs<'a> {
    /// The output sections.
    pub sections: Sections<'a>,
    /// The memory regions.
    pub regions: Regions<'a>,
}

/// The present output section: what does not change while its body is placed.
#[derive(Clone, Copy)]
pub(crate) struct CurrentOutput<'d, 'a> {
    /// What is complete.
    pub done: &'d PlacedOutputs<'a>,
    /// The PROVIDEs that are in force.
    pub provided: &'d Provided<'a>,
    /// The row.
    pub row: &'a [Piece],
    /// Where the entries of the row start, if they stay where they were in a previous layout.
    pub starts: Option<&'a [u64]>,
    /// Where the output section starts.
    pub start: u64,
}
