//! Lists of a script's statements in text order. A statement's number is its index in its list.

ghost use Rattle.std.specs.Prelude.{◌≡◌, ◌≤◌, [], ◌∷◌, OnOk, IfOk, length};
ghost use Rattle.std.specs.Option.{option_copied};
ghost use Rattle.ldscript_statements.specs.Numbering.{items, items_of, item_sections, sections_in, output_sections};
ghost use Rattle.ldscript_statements.specs.Numbering.{inputs_of, inputs_in, discarded_inputs, item_inputs, inputs_from};
ghost use Rattle.ldscript_statements.specs.Numbering.{input_statements, directives_of, directives_in, item_directives};
ghost use Rattle.ldscript_statements.specs.Numbering.{
  items_directives,
  top_directives,
  all_directives,
  regions,
  regions_in,
};
ghost use Rattle.ldscript_statements.specs.Numbering.{entry_of};
ghost use Rattle.ldscript_statements.specs.Numbered.{AddsItems, AddsSections, AddsInputs, AddsDirectives, AddsRegions};
ghost use Rattle.ldscript_statements.specs.Numbered.{shown_items};
ghost use Rattle.ldscript_statements.specs.Numbered.{shown_sections, shown_inputs, shown_directives, shown_regions};

use crate::directive::Directive;
use crate::input::{Input, InputStatement};
use crate::place::InputPlace;
use crate::section::{BodyCommand, BodyStatement, OutputSection};
use crate::statement::{Command, Item, ItemCommand, Region, Statement};
use growth::{NoMemory, vec};
use std::alloc::Global;

/// An output section, and the line of its name.
#[derive(Clone, Copy)]
pub struct OutputSectionAt<'a> {
    /// The line.
    pub line: u32,
    /// The section.
    pub section: &'a OutputSection,
}

/// An input statement.
#[derive(Clone, Copy)]
pub struct InputStatementAt<'a> {
    /// The line of the first token, which is `KEEP` if the statement has it.
    pub line: u32,
    /// The output section that it is in, or `/DISCARD/`.
    pub place: InputPlace,
    /// What it takes.
    pub input: &'a Input,
}

/// An assignment of a symbol, a `PROVIDE` or an `ASSERT`.
#[derive(Clone, Copy)]
pub struct DirectiveAt<'a> {
    /// The line of its first token.
    pub line: u32,
    /// What it says.
    pub command: &'a Directive,
}

/// Adds statements of `SECTIONS` to a list.
fn add_items<'a>(list: &mut Vec<&'a Item>, these: &'a [Item]) -> Result<(), NoMemory>
    ensures { OnOk result (AddsItems list.old.items list.new.items these.now) }
{
    for item in these {
        vec::push(list, item)?;
    }
    Ok(())
}

/// Adds the statements of a command if it is `SECTIONS`.
fn add_command_items<'a>(list: &mut Vec<&'a Item>, command: &'a Command) -> Result<(), NoMemory>
    ensures { OnOk result (AddsItems list.old.items list.new.items (items_of command.now)) }
{
    match command {
        Command::Sections(items) => add_items(list, items.as_slice()),
        Command::Entry(_) | Command::Memory(_) | Command::Directive(_) => Ok(()),
    }
}

/// The statements of `SECTIONS`.
fn items<'a>(alloc: Global, statements: &'a [Statement]) -> Result<Vec<&'a Item>, NoMemory>
    ensures { IfOk result (λ v. shown_items v.items ≡ items statements.now) }
{
    let mut list = Vec::new(alloc);
    for statement in statements {
        add_command_items(&mut list, &statement.command)?;
    }
    Ok(list)
}

/// Adds a statement of `SECTIONS` if it is an output section.
fn add_section<'a>(list: &mut Vec<OutputSectionAt<'a>>, item: &'a Item) -> Result<(), NoMemory>
    ensures { OnOk result (AddsSections list.old.items list.new.items (item_sections item.now.line item.now.command)) }
{
    match &item.command {
        ItemCommand::Section(section) => {
            let line = item.line;
            let section = section.get();
            vec::push(list, OutputSectionAt { line, section })?;
            Ok(())
        }
        ItemCommand::Dot(_) | ItemCommand::Directive(_) | ItemCommand::Discard(_) => Ok(()),
    }
}

/// The output sections among these statements of `SECTIONS`.
fn sections_of_items<'a>(
    alloc: Global,
    items: &[&'a Item],
) -> Result<Vec<OutputSectionAt<'a>>, NoMemory>
    ensures { IfOk result (λ v. shown_sections v.items ≡ sections_in (shown_items items.now)) }
{
    let mut list = Vec::new(alloc);
    for item in items {
        add_section(&mut list, *item)?;
    }
    Ok(list)
}

/// The output sections of a script, without `/DISCARD/`.
pub fn output_sections<'a>(
    alloc: Global,
    statements: &'a [Statement],
) -> Result<Vec<OutputSectionAt<'a>>, NoMemory>
    ensures { IfOk result (λ found. shown_sections found.items ≡ output_sections statements.now) }
{
    let items = items(alloc, statements)?;
    sections_of_items(alloc, &items)
}

/// Adds a statement of an output section if it is an input statement.
fn add_input<'a>(
    list: &mut Vec<InputStatementAt<'a>>,
    place: InputPlace,
    statement: &'a BodyStatement,
) -> Result<(), NoMemory>
    ensures { OnOk result (AddsInputs list.old.items list.new.items
        (inputs_of place statement.now.line statement.now.command)) }
{
    match &statement.command {
        BodyCommand::Input(input) => {
            let line = statement.line;
            vec::push(list, InputStatementAt { line, place, input })?;
            Ok(())
        }
        BodyCommand::Dot(_) | BodyCommand::Directive(_) | BodyCommand::Data(_, _) => Ok(()),
    }
}

/// Adds the input statements of an output section.
fn add_body_inputs<'a>(
    list: &mut Vec<InputStatementAt<'a>>,
    place: InputPlace,
    body: &'a [BodyStatement],
) -> Result<(), NoMemory>
    ensures { OnOk result (AddsInputs list.old.items list.new.items (inputs_in place body.now)) }
{
    for statement in body {
        add_input(list, place, statement)?;
    }
    Ok(())
}

/// Adds the input statements of a `/DISCARD/`.
fn add_discarded<'a>(
    list: &mut Vec<InputStatementAt<'a>>,
    inputs: &'a [InputStatement],
) -> Result<(), NoMemory>
    ensures { OnOk result (AddsInputs list.old.items list.new.items (discarded_inputs inputs.now)) }
{
    for statement in inputs {
        vec::push(
            list,
            InputStatementAt {
                line: statement.line,
                place: InputPlace::InDiscard,
                input: &statement.input,
            },
        )?;
    }
    Ok(())
}

/// The input statements of a statement of `SECTIONS`; `number` is that of the next output section.
fn add_item_inputs<'a>(
    list: &mut Vec<InputStatementAt<'a>>,
    number: usize,
    command: &'a ItemCommand,
) -> Result<(), NoMemory>
    ensures { OnOk result (AddsInputs list.old.items list.new.items (item_inputs number command.now)) }
{
    match command {
        ItemCommand::Section(section) => {
            let body = section.get().body.as_slice();
            add_body_inputs(list, InputPlace::InSection(number), body)
        }
        ItemCommand::Discard(inputs) => add_discarded(list, inputs.as_slice()),
        ItemCommand::Dot(_) | ItemCommand::Directive(_) => Ok(()),
    }
}

/// 1 if a statement of `SECTIONS` is an output section, else 0.
fn section_count(item: &Item) -> usize
    ensures count { result ≡ length (item_sections item.now.line item.now.command) }
    ensures small { result ≤ 1 }
{
    match &item.command {
        ItemCommand::Section(_) => 1,
        ItemCommand::Dot(_) | ItemCommand::Directive(_) | ItemCommand::Discard(_) => 0,
    }
}

/// The input statements of these statements of `SECTIONS`.
fn inputs_of_items<'a>(
    alloc: Global,
    items: &[&'a Item],
) -> Result<Vec<InputStatementAt<'a>>, NoMemory>
    ensures { IfOk result (λ v. shown_inputs v.items ≡ inputs_from 0 (shown_items items.now)) }
{
    let mut list = Vec::new(alloc);
    let mut number = 0;
    for item in items {
        let item: &'a Item = *item;
        add_item_inputs(&mut list, number, &item.command)?;
        number += section_count(item);
    }
    Ok(list)
}

/// The input statements of a script, with those of `/DISCARD/`.
pub fn input_statements<'a>(
    alloc: Global,
    statements: &'a [Statement],
) -> Result<Vec<InputStatementAt<'a>>, NoMemory>
    ensures { IfOk result (λ found. shown_inputs found.items ≡ input_statements statements.now) }
{
    let items = items(alloc, statements)?;
    inputs_of_items(alloc, &items)
}

/// Adds a directive.
fn add_directive<'a>(
    list: &mut Vec<DirectiveAt<'a>>,
    line: u32,
    command: &'a Directive,
) -> Result<(), NoMemory>
    ensures { OnOk result (AddsDirectives list.old.items list.new.items
        (record { line = line; command = command.now } ∷ [])) }
{
    vec::push(list, DirectiveAt { line, command })?;
    Ok(())
}

/// Adds a statement of an output section if it is a directive.
fn add_body_directive<'a>(
    list: &mut Vec<DirectiveAt<'a>>,
    statement: &'a BodyStatement,
) -> Result<(), NoMemory>
    ensures { OnOk result (AddsDirectives list.old.items list.new.items
        (directives_of statement.now.line statement.now.command)) }
{
    match &statement.command {
        BodyCommand::Directive(command) => add_directive(list, statement.line, command),
        BodyCommand::Dot(_) | BodyCommand::Data(_, _) | BodyCommand::Input(_) => Ok(()),
    }
}

/// Adds the directives of an output section.
fn add_body_directives<'a>(
    list: &mut Vec<DirectiveAt<'a>>,
    body: &'a [BodyStatement],
) -> Result<(), NoMemory>
    ensures { OnOk result (AddsDirectives list.old.items list.new.items (directives_in body.now)) }
{
    for statement in body {
        add_body_directive(list, statement)?;
    }
    Ok(())
}

/// Adds the directives of a statement of `SECTIONS`.
fn add_item_directives<'a>(list: &mut Vec<DirectiveAt<'a>>, item: &'a Item) -> Result<(), NoMemory>
    ensures { OnOk result (AddsDirectives list.old.items list.new.items (item_directives item.now.line
        item.now.command)) }
{
    match &item.command {
        ItemCommand::Directive(command) => add_directive(list, item.line, command),
        ItemCommand::Section(section) => add_body_directives(list, section.get().body.as_slice()),
        ItemCommand::Dot(_) | ItemCommand::Discard(_) => Ok(()),
    }
}

/// Adds the directives of `SECTIONS`.
fn add_items_directives<'a>(
    list: &mut Vec<DirectiveAt<'a>>,
    items: &'a [Item],
) -> Result<(), NoMemory>
    ensures { OnOk result (AddsDirectives list.old.items list.new.items (items_directives items.now)) }
{
    for item in items {
        add_item_directives(list, item)?;
    }
    Ok(())
}

/// Adds the directives of a statement of a script.
fn add_top_directives<'a>(
    list: &mut Vec<DirectiveAt<'a>>,
    statement: &'a Statement,
) -> Result<(), NoMemory>
    ensures { OnOk result (AddsDirectives list.old.items list.new.items
        (top_directives statement.now.line statement.now.command)) }
{
    match &statement.command {
        Command::Directive(command) => add_directive(list, statement.line, command),
        Command::Sections(items) => add_items_directives(list, items.as_slice()),
        Command::Entry(_) | Command::Memory(_) => Ok(()),
    }
}

/// The assignments of symbols, `PROVIDE`s and `ASSERT`s of a script: outside of `SECTIONS`, in it, and in output
/// sections.
pub fn all_directives<'a>(
    alloc: Global,
    statements: &'a [Statement],
) -> Result<Vec<DirectiveAt<'a>>, NoMemory>
    ensures { IfOk result (λ found. shown_directives found.items ≡ all_directives statements.now) }
{
    let mut list = Vec::new(alloc);
    for statement in statements {
        add_top_directives(&mut list, statement)?;
    }
    Ok(list)
}

/// Adds memory regions to a list.
fn add_regions<'a>(list: &mut Vec<&'a Region>, these: &'a [Region]) -> Result<(), NoMemory>
    ensures { OnOk result (AddsRegions list.old.items list.new.items these.now) }
{
    for region in these {
        vec::push(list, region)?;
    }
    Ok(())
}

/// Adds the memory regions of a command if it is `MEMORY`.
fn add_command_regions<'a>(list: &mut Vec<&'a Region>, command: &'a Command) -> Result<(), NoMemory>
    ensures { OnOk result (AddsRegions list.old.items list.new.items (regions_in command.now)) }
{
    match command {
        Command::Memory(regions) => add_regions(list, regions.as_slice()),
        Command::Entry(_) | Command::Sections(_) | Command::Directive(_) => Ok(()),
    }
}

/// The memory regions of a script.
pub fn regions<'a>(alloc: Global, statements: &'a [Statement]) -> Result<Vec<&'a Region>, NoMemory>
    ensures { IfOk result (λ found. shown_regions found.items ≡ regions statements.now) }
{
    let mut list = Vec::new(alloc);
    for statement in statements {
        add_command_regions(&mut list, &statement.command)?;
    }
    Ok(list)
}

/// The name that `ENTRY` gives.
pub fn entry(statements: &[Statement]) -> Option<&[u8]>
    ensures { option_copied result ≡ entry_of statements.now }
{
    for statement in statements {
        match &statement.command {
            Command::Entry(name) => return Some(name.as_bytes()),
            Command::Memory(_) | Command::Sections(_) | Command::Directive(_) => {}
        }
    }
    None
}
