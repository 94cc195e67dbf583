//! Statements of a script.

use crate::directive::{push_directive, push_dot};
use crate::input::push_input;
use crate::section::push_section;
use crate::text::push_bytes;
use ldscript::tree::{Command, InputStatement, Item, ItemCommand, Region, Statement};
use std::alloc::AllocError;
use std::fmt::Write;

/// Adds a `/DISCARD/`, a line for each input statement.
fn push_discard(out: &mut String, inputs: &[InputStatement]) -> Result<(), AllocError> {
    out.push_str("discard\n")?;
    for statement in inputs {
        let line = statement.line;
        write!(out, "{line}     ")?;
        push_input(out, &statement.input)?;
        out.push_str("\n")?;
    }
    Ok(())
}

/// A statement of `SECTIONS`.
fn push_item(out: &mut String, item: &Item) -> Result<(), AllocError> {
    let line = item.line;
    write!(out, "{line}   ")?;
    match &item.command {
        ItemCommand::Dot(command) => push_dot(out, command)?,
        ItemCommand::Directive(command) => push_directive(out, command)?,
        ItemCommand::Section(section) => return push_section(out, section.get()),
        ItemCommand::Discard(inputs) => return push_discard(out, inputs.as_slice()),
    }
    out.push_str("\n")
}

/// Adds the line of a memory region.
fn push_region(out: &mut String, region: &Region) -> Result<(), AllocError> {
    let line = region.line;
    write!(out, "{line}   region ")?;
    push_bytes(out, region.name.as_bytes())?;
    writeln!(out, " origin {} length {}", region.origin, region.extent)
}

/// `MEMORY`, a line for each region.
fn push_memory(out: &mut String, regions: &[Region]) -> Result<(), AllocError> {
    out.push_str("memory\n")?;
    for region in regions {
        push_region(out, region)?;
    }
    Ok(())
}

/// `SECTIONS`, a line or more for each statement in it.
fn push_sections(out: &mut String, items: &[Item]) -> Result<(), AllocError> {
    out.push_str("sections\n")?;
    for item in items {
        push_item(out, item)?;
    }
    Ok(())
}

/// A statement of a script.
pub fn push_statement(out: &mut String, statement: &Statement) -> Result<(), AllocError> {
    let line = statement.line;
    write!(out, "{line} ")?;
    match &statement.command {
        Command::Memory(regions) => return push_memory(out, regions.as_slice()),
        Command::Sections(items) => return push_sections(out, items.as_slice()),
        Command::Directive(command) => push_directive(out, command)?,
        Command::Entry(name) => {
            out.push_str("entry ")?;
            push_bytes(out, name.as_bytes())?;
        }
    }
    out.push_str("\n")
}
