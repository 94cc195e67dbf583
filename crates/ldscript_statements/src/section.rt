//! Output sections and their bodies.

use crate::directive::{Directive, DotCommand};
use crate::fill::Fill;
use crate::formula::Formula;
use crate::input::Input;
use crate::sequence::Sequence;
use ldscript_tokens::name::ScriptName;

/// The width of a data command.
#[derive(Clone, Copy, Debug, PartialEq, Eq)]
pub enum Width {
    /// `BYTE`: one.
    Byte,
    /// `SHORT`: two.
    Short,
    /// `LONG`: four.
    Long,
    /// `QUAD`: eight.
    Quad,
}

impl Width {
    ghost use Rattle.std.specs.Prelude.{◌≡◌};
    ghost use Rattle.ldscript_statements.specs.Widths.{byte_count};

    /// The width in bytes: 1, 2, 4 or 8.
    pub fn byte_count(self) -> u8
        ensures { result ≡ byte_count self }
    {
        match self {
            Width::Byte => 1,
            Width::Short => 2,
            Width::Long => 4,
            Width::Quad => 8,
        }
    }
}

/// What a statement in an output section says.
#[derive(Drop)]
pub enum BodyCommand {
    /// `. = e` or `. += e`.
    Dot(DotCommand),
    /// `NAME = e`, `PROVIDE` or `ASSERT`.
    Directive(Directive),
    /// `BYTE(e)` and its like.
    Data(Width, Formula),
    /// The input sections that go here.
    Input(Input),
}

/// A statement in an output section.
#[derive(Drop)]
pub struct BodyStatement {
    /// The line of its first token.
    pub line: u32,
    /// What it says.
    pub command: BodyCommand,
}

/// The load address (LMA) that an output section's head and tail give.
#[derive(Drop)]
pub enum Load {
    /// Nothing.
    Unstated,
    /// `AT(e)`: the load address is this.
    At(Formula),
    /// `AT>region`: the load address is in this region.
    InRegion(ScriptName),
}

/// An output section.
#[derive(Drop)]
pub struct OutputSection {
    /// The name.
    pub name: ScriptName,
    /// The address, if one is given.
    pub address: Option<Formula>,
    /// The load address.
    pub load: Load,
    /// The alignment that `ALIGN(e)` in its head gives.
    pub alignment: Option<Formula>,
    /// Its statements, in order.
    pub body: Sequence<BodyStatement>,
    /// The memory region of `>region`.
    pub region: Option<ScriptName>,
    /// The fill of its gaps.
    pub fill: Option<Fill>,
}
