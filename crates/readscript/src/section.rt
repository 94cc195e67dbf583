//! Output sections.

use crate::directive::{push_directive, push_dot};
use crate::input::push_input;
use crate::text::push_bytes;
use ldscript::tree::{BodyCommand, BodyStatement, Load, OutputSection, Width};
use std::alloc::AllocError;
use std::fmt::Write;

/// The word of a data command.
fn width_word(width: Width) -> &'static str {
    match width {
        Width::Byte => "byte",
        Width::Short => "short",
        Width::Long => "long",
        Width::Quad => "quad",
    }
}

/// Adds the line of a statement of the body.
fn push_body(out: &mut String, statement: &BodyStatement) -> Result<(), AllocError> {
    let line = statement.line;
    write!(out, "{line}     ")?;
    match &statement.command {
        BodyCommand::Dot(command) => push_dot(out, command)?,
        BodyCommand::Directive(command) => push_directive(out, command)?,
        BodyCommand::Data(width, value) => write!(out, "{} {value}", width_word(*width))?,
        BodyCommand::Input(input) => push_input(out, input)?,
    }
    out.push_str("\n")
}

/// Adds the load address.
fn push_load(out: &mut String, load: &Load) -> Result<(), AllocError> {
    match load {
        Load::Unstated => Ok(()),
        Load::At(address) => write!(out, " at {address}"),
        Load::InRegion(region) => {
            out.push_str(" at> ")?;
            push_bytes(out, region.as_bytes())
        }
    }
}

/// Adds the bytes of the fill.
fn push_fill(out: &mut String, fill: &[u8]) -> Result<(), AllocError> {
    out.push_str(" fill")?;
    for byte in fill {
        write!(out, " {}", *byte)?;
    }
    Ok(())
}

/// What its head and its tail give.
fn push_head(out: &mut String, section: &OutputSection) -> Result<(), AllocError> {
    out.push_str("section ")?;
    push_bytes(out, section.name.as_bytes())?;
    if let Some(address) = &section.address {
        write!(out, " address {address}")?;
    }
    push_load(out, &section.load)?;
    if let Some(alignment) = &section.alignment {
        write!(out, " align {alignment}")?;
    }
    if let Some(region) = &section.region {
        out.push_str(" > ")?;
        push_bytes(out, region.as_bytes())?;
    }
    if let Some(fill) = &section.fill {
        push_fill(out, fill.as_bytes())?;
    }
    out.push_str("\n")
}

/// An output section, a line for its head and one for each statement in it.
pub fn push_section(out: &mut String, section: &OutputSection) -> Result<(), AllocError> {
    push_head(out, section)?;
    for statement in section.body.as_slice() {
        push_body(out, statement)?;
    }
    Ok(())
}
