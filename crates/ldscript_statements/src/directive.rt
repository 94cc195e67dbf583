//! Directives: an assignment, a PROVIDE, an ASSERT; and the commands that move the location counter.

use crate::formula::Formula;
use ldscript_tokens::name::ScriptName;

/// A name and the value that it is given.
#[derive(Drop)]
pub struct Assignment {
    /// The name.
    pub name: ScriptName,
    /// The value.
    pub value: Formula,
}

/// A condition that must hold of the finished link.
#[derive(Drop)]
pub struct Assertion {
    /// The condition: any number but 0.
    pub condition: Formula,
    /// What is reported if it does not hold, without the quotes.
    pub message: ScriptName,
}

/// A directive: a command that may occur in a script, in `SECTIONS` and in an output section (GNU ld manual, "Assigning
/// Values to Symbols", and ASSERT). It places no bytes.
#[derive(Drop)]
pub enum Directive {
    /// `NAME = e`
    Assign(Assignment),
    /// `PROVIDE(NAME = e)`
    Provide(Assignment),
    /// `ASSERT(e, "message")`
    Assert(Assertion),
}

/// A command that moves the location counter.
#[derive(Drop)]
pub enum DotCommand {
    /// `. = e`
    Set(Formula),
    /// `. += e`
    Add(Formula),
}
