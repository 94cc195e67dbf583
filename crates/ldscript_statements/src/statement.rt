//! The statements of a script.

use crate::directive::{Directive, DotCommand};
use crate::formula::Formula;
use crate::held::Held;
use crate::input::InputStatement;
use crate::section::OutputSection;
use crate::sequence::Sequence;
use ldscript_tokens::name::ScriptName;

/// A memory region.
#[derive(Drop)]
pub struct Region {
    /// The line of its name.
    pub line: u32,
    /// The name.
    pub name: ScriptName,
    /// The first address.
    pub origin: Formula,
    /// How many bytes it has.
    pub extent: Formula,
}

/// What a statement of `SECTIONS` says.
#[derive(Drop)]
pub enum ItemCommand {
    /// `. = e` or `. += e`.
    Dot(DotCommand),
    /// `NAME = e`, `PROVIDE` or `ASSERT`.
    Directive(Directive),
    /// An output section.
    Section(Held<OutputSection>),
    /// `/DISCARD/`: the input sections that are discarded.
    Discard(Sequence<InputStatement>),
}

/// A statement of `SECTIONS`.
#[derive(Drop)]
pub struct Item {
    /// The line of its first token.
    pub line: u32,
    /// What it says.
    pub command: ItemCommand,
}

/// What a statement of a script says.
#[derive(Drop)]
pub enum Command {
    /// `ENTRY(NAME)`
    Entry(ScriptName),
    /// `MEMORY`: the regions of the target's memory.
    Memory(Sequence<Region>),
    /// `SECTIONS`: the layout.
    Sections(Sequence<Item>),
    /// `NAME = e`, `PROVIDE` or `ASSERT`.
    Directive(Directive),
}

/// A statement of a script.
#[derive(Drop)]
pub struct Statement {
    /// The line of its first token.
    pub line: u32,
    /// What it says.
    pub command: Command,
}
