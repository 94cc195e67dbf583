//! The numbers of statements, and the names in the tables of a script.

use crate::directive::push_directive;
use crate::input::push_input;
use crate::text::{is_shown, push_bytes, push_text};
use ldscript::Script;
use ldscript::tree::{Directive, Given, InputPlace};
use std::alloc::{AllocError, Global};
use std::fmt::Write;

/// The number of a name in a table.
fn push_found(
    out: &mut String,
    name: &[u8],
    table: &str,
    number: Option<usize>,
) -> Result<(), AllocError> {
    push_bytes(out, name)?;
    match number {
        Some(number) => writeln!(out, " is {table} {number}"),
        None => writeln!(out, " is no {table}"),
    }
}

/// Adds the memory regions.
fn push_regions(alloc: Global, out: &mut String, script: &Script) -> Result<(), AllocError> {
    for (number, region) in script.regions(alloc)?.iter().enumerate() {
        let line = region.line;
        let name = region.name.as_bytes();
        write!(out, "region {number}: {line} ")?;
        push_bytes(out, name)?;
        out.push_str("; ")?;
        push_found(out, name, "region", script.region_number(name))?;
    }
    Ok(())
}

/// Adds the output sections.
fn push_sections(alloc: Global, out: &mut String, script: &Script) -> Result<(), AllocError> {
    for (number, found) in script.output_sections(alloc)?.iter().enumerate() {
        let line = found.line;
        let name = found.section.name.as_bytes();
        write!(out, "section {number}: {line} ")?;
        push_bytes(out, name)?;
        out.push_str("; ")?;
        push_found(out, name, "section", script.section_number(name))?;
    }
    Ok(())
}

/// Adds the place of an input statement.
fn push_place(out: &mut String, place: InputPlace) -> Result<(), AllocError> {
    match place {
        InputPlace::InSection(number) => write!(out, "in section {number}: "),
        InputPlace::InDiscard => out.push_str("in /DISCARD/: "),
    }
}

/// Adds the input statements.
fn push_inputs(alloc: Global, out: &mut String, script: &Script) -> Result<(), AllocError> {
    for (number, found) in script.input_statements(alloc)?.iter().enumerate() {
        let line = found.line;
        write!(out, "input {number}: {line} ")?;
        push_place(out, found.place)?;
        push_input(out, found.input)?;
        out.push_str("\n")?;
    }
    Ok(())
}

/// How a symbol is defined.
fn push_given(out: &mut String, name: &[u8], given: Option<Given>) -> Result<(), AllocError> {
    push_bytes(out, name)?;
    match given {
        Some(Given::Assigned(number)) => write!(out, " is assigned by {number}"),
        Some(Given::Provided(number)) => write!(out, " is provided by {number}"),
        None => out.push_str(" is not given"),
    }
}

/// Adds the directives.
fn push_commands(alloc: Global, out: &mut String, script: &Script) -> Result<(), AllocError> {
    for (number, found) in script.all_directives(alloc)?.iter().enumerate() {
        let line = found.line;
        write!(out, "command {number}: {line} ")?;
        push_directive(out, found.command)?;
        if let Directive::Assign(assignment) | Directive::Provide(assignment) = found.command {
            let name = assignment.name.as_bytes();
            out.push_str("; ")?;
            push_given(out, name, script.given(name))?;
        }
        out.push_str("\n")?;
    }
    Ok(())
}

/// Adds the name of `ENTRY`.
fn push_entry(out: &mut String, script: &Script) -> Result<(), AllocError> {
    if let Some(name) = script.entry() {
        out.push_str("entry ")?;
        push_bytes(out, name)?;
        out.push_str("\n")?;
    }
    Ok(())
}

/// The answer to a `numbers`.
pub fn push_numbers(alloc: Global, out: &mut String, text: &[u8]) -> Result<(), AllocError> {
    let length = text.len();
    writeln!(out, "\nnumbers {length}")?;
    if is_shown(text) {
        push_text(out, text)?;
    }
    match Script::read(alloc, text) {
        Ok(script) => {
            push_entry(out, &script)?;
            push_regions(alloc, out, &script)?;
            push_sections(alloc, out, &script)?;
            push_inputs(alloc, out, &script)?;
            push_commands(alloc, out, &script)
        }
        Err(refusal) => {
            let number = refusal.number();
            writeln!(out, "refused {number}")
        }
    }
}
