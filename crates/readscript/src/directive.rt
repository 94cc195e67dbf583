//! Directives: assignments, `PROVIDE`, `ASSERT`.

use crate::text::push_bytes;
use ldscript::tree::{Assignment, Directive, DotCommand};
use std::alloc::AllocError;
use std::fmt::Write;

/// Adds `NAME = e`.
fn push_assignment(out: &mut String, assignment: &Assignment) -> Result<(), AllocError> {
    push_bytes(out, assignment.name.as_bytes())?;
    write!(out, " = {}", assignment.value)
}

/// `NAME = e`, `PROVIDE` or `ASSERT`.
pub fn push_directive(out: &mut String, command: &Directive) -> Result<(), AllocError> {
    match command {
        Directive::Assign(assignment) => push_assignment(out, assignment),
        Directive::Provide(assignment) => {
            out.push_str("provide ")?;
            push_assignment(out, assignment)
        }
        Directive::Assert(assertion) => {
            write!(out, "assert {} \"", assertion.condition)?;
            push_bytes(out, assertion.message.as_bytes())?;
            out.push_str("\"")
        }
    }
}

/// `. = e` or `. += e`.
pub fn push_dot(out: &mut String, command: &DotCommand) -> Result<(), AllocError> {
    match command {
        DotCommand::Set(value) => write!(out, ". = {value}"),
        DotCommand::Add(value) => write!(out, ". += {value}"),
    }
}
