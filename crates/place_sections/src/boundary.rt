//! The state of a layout before an output section.

ghost use Rattle.std.specs.Prelude.{◌≤◌, ◌*◌, ◌^◌};

/// The state of a layout right before the statement of an output section, or after the last statement of SECTIONS.
/// The statements from there on depend on this and on the output sections before it, and on nothing else.
#[derive(Clone, Copy)]
pub(crate) struct Boundary {
    /// How many statements of SECTIONS come before it.
    pub items: usize,
    /// `.`, the location counter.
    pub dot: u64,
    /// How many values of `.` before statements there are.
    pub dots: usize,
    /// The number of the next input statement.
    pub inputs: u128,
    /// How many symbols have values.
    pub symbols: usize,
    /// How many data commands there are.
    pub data_commands: usize,
    // each statement of SECTIONS has fewer than 2^64 input statements
    ghost few: { inputs ≤ items * 2 ^ 64 },
}
