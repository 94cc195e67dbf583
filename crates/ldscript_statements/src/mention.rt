//! What a script does with names, as a list in the order of the text.

ghost use Rattle.std.specs.Prelude.{[], ◌∷◌, OnOk};
ghost use Rattle.ldscript_terms.specs.CodeTerms.{expr_of};
ghost use Rattle.ldscript_statements.specs.Mentions.{in_assignment, in_body, in_body_command, in_directive};
ghost use Rattle.ldscript_statements.specs.Mentions.{in_dot_command};
ghost use Rattle.ldscript_statements.specs.Mentions.{in_expression, in_item_command, in_items, in_load_head};
ghost use Rattle.ldscript_statements.specs.Mentions.{in_load_tail};
ghost use Rattle.ldscript_statements.specs.Mentions.{in_optional, in_region_name, in_regions, in_section};
ghost use Rattle.ldscript_statements.specs.Mentions.{in_top_command, mentions};
ghost use Rattle.ldscript_statements.specs.Listed.{Adds, mention_of};

use crate::directive::{Assignment, Directive, DotCommand};
use crate::formula::Formula;
use crate::section::{BodyCommand, BodyStatement, Load, OutputSection};
use crate::statement::{Command, Item, ItemCommand, Region, Statement};
use growth::{NoMemory, vec};
use ldscript_terms::expression::Expr;
use ldscript_tokens::name::ScriptName;

/// A use of a name in a script, or a command that a script may have once.
#[derive(Clone, Copy, PartialEq, Eq, PartialOrd, Ord)]
pub(crate) enum Mention<'a> {
    /// `ENTRY`
    EntryGiven,
    /// `MEMORY`
    MemoryGiven,
    /// `SECTIONS`
    SectionsGiven,
    /// An output section of this name.
    SectionNamed(&'a [u8]),
    /// A symbol that is assigned or provided.
    SymbolGiven(&'a [u8]),
    /// A memory region, at the end of its declaration.
    RegionDeclared(&'a [u8]),
    /// A memory region that is named here.
    RegionUsed(&'a [u8]),
}

/// Adds a mention at the end.
fn note<'a>(list: &mut Vec<Mention<'a>>, mention: Mention<'a>) -> Result<(), NoMemory>
    ensures { OnOk result (Adds list.old.items list.new.items (mention_of mention.entry ∷ [])) }
{
    vec::push(list, mention)?;
    Ok(())
}

/// Adds what an expression mentions.
fn note_expression<'a>(list: &mut Vec<Mention<'a>>, expr: &'a Expr) -> Result<(), NoMemory>
    ensures { OnOk result (Adds list.old.items list.new.items (in_expression (expr_of expr.now))) }
{
    match expr {
        Expr::Number(_) | Expr::Dot | Expr::Name(_) | Expr::OfSection(_, _) => Ok(()),
        Expr::OfRegion(_, name) => note(list, Mention::RegionUsed(name.as_bytes())),
        Expr::Unary(_, a) | Expr::AlignDot(a) => note_expression(list, a),
        Expr::Binary(_, a, b) | Expr::Align(a, b) => {
            note_expression(list, a)?;
            note_expression(list, b)?;
            Ok(())
        }
        Expr::Choice(of) => {
            note_expression(list, &of.test)?;
            note_expression(list, &of.first)?;
            note_expression(list, &of.second)?;
            Ok(())
        }
    }
}

/// Adds what an expression of a statement mentions.
fn note_formula<'a>(list: &mut Vec<Mention<'a>>, value: &'a Formula) -> Result<(), NoMemory>
    ensures { OnOk result (Adds list.old.items list.new.items (in_expression value.now)) }
{
    note_expression(list, value.expr())
}

/// Adds what an expression mentions, if there is one.
fn note_optional<'a>(
    list: &mut Vec<Mention<'a>>,
    value: &'a Option<Formula>,
) -> Result<(), NoMemory>
    ensures { OnOk result (Adds list.old.items list.new.items (in_optional value.now)) }
{
    match value {
        Some(value) => note_formula(list, value),
        None => Ok(()),
    }
}

/// Adds what an assignment mentions.
fn note_assignment<'a>(
    list: &mut Vec<Mention<'a>>,
    assignment: &'a Assignment,
) -> Result<(), NoMemory>
    ensures { OnOk result (Adds list.old.items list.new.items (in_assignment assignment.now)) }
{
    note(list, Mention::SymbolGiven(assignment.name.as_bytes()))?;
    note_formula(list, &assignment.value)?;
    Ok(())
}

/// Adds what a directive mentions.
fn note_directive<'a>(list: &mut Vec<Mention<'a>>, command: &'a Directive) -> Result<(), NoMemory>
    ensures { OnOk result (Adds list.old.items list.new.items (in_directive command.now)) }
{
    match command {
        Directive::Assign(assignment) | Directive::Provide(assignment) => {
            note_assignment(list, assignment)
        }
        Directive::Assert(assertion) => note_formula(list, &assertion.condition),
    }
}

/// Adds what an assignment to `.` mentions.
fn note_dot_command<'a>(
    list: &mut Vec<Mention<'a>>,
    command: &'a DotCommand,
) -> Result<(), NoMemory>
    ensures { OnOk result (Adds list.old.items list.new.items (in_dot_command command.now)) }
{
    match command {
        DotCommand::Set(value) | DotCommand::Add(value) => note_formula(list, value),
    }
}

/// Adds what a statement of an output section mentions.
fn note_body_command<'a>(
    list: &mut Vec<Mention<'a>>,
    command: &'a BodyCommand,
) -> Result<(), NoMemory>
    ensures { OnOk result (Adds list.old.items list.new.items (in_body_command command.now)) }
{
    match command {
        BodyCommand::Dot(command) => note_dot_command(list, command),
        BodyCommand::Directive(command) => note_directive(list, command),
        BodyCommand::Data(_, value) => note_formula(list, value),
        BodyCommand::Input(_) => Ok(()),
    }
}

/// Adds what the statements of an output section mention.
fn note_body<'a>(list: &mut Vec<Mention<'a>>, body: &'a [BodyStatement]) -> Result<(), NoMemory>
    ensures { OnOk result (Adds list.old.items list.new.items (in_body body.now)) }
{
    for statement in body {
        note_body_command(list, &statement.command)?;
    }
    Ok(())
}

/// Adds the region that is named, if there is one.
fn note_region_name<'a>(
    list: &mut Vec<Mention<'a>>,
    region: &'a Option<ScriptName>,
) -> Result<(), NoMemory>
    ensures { OnOk result (Adds list.old.items list.new.items (in_region_name region.now)) }
{
    match region {
        Some(name) => note(list, Mention::RegionUsed(name.as_bytes())),
        None => Ok(()),
    }
}

/// Adds what a section's head mentions for its load address.
fn note_load_head<'a>(list: &mut Vec<Mention<'a>>, load: &'a Load) -> Result<(), NoMemory>
    ensures { OnOk result (Adds list.old.items list.new.items (in_load_head load.now)) }
{
    match load {
        Load::At(address) => note_formula(list, address),
        Load::Unstated | Load::InRegion(_) => Ok(()),
    }
}

/// Adds what a section mentions after its body for its load address.
fn note_load_tail<'a>(list: &mut Vec<Mention<'a>>, load: &'a Load) -> Result<(), NoMemory>
    ensures { OnOk result (Adds list.old.items list.new.items (in_load_tail load.now)) }
{
    match load {
        Load::InRegion(name) => note(list, Mention::RegionUsed(name.as_bytes())),
        Load::Unstated | Load::At(_) => Ok(()),
    }
}

/// Adds what an output section mentions.
fn note_section<'a>(list: &mut Vec<Mention<'a>>, section: &'a OutputSection) -> Result<(), NoMemory>
    ensures { OnOk result (Adds list.old.items list.new.items (in_section section.now)) }
{
    note(list, Mention::SectionNamed(section.name.as_bytes()))?;
    note_optional(list, &section.address)?;
    note_load_head(list, &section.load)?;
    note_optional(list, &section.alignment)?;
    note_body(list, section.body.as_slice())?;
    note_region_name(list, &section.region)?;
    note_load_tail(list, &section.load)?;
    Ok(())
}

/// Adds what a statement of `SECTIONS` mentions.
fn note_item_command<'a>(
    list: &mut Vec<Mention<'a>>,
    command: &'a ItemCommand,
) -> Result<(), NoMemory>
    ensures { OnOk result (Adds list.old.items list.new.items (in_item_command command.now)) }
{
    match command {
        ItemCommand::Dot(command) => note_dot_command(list, command),
        ItemCommand::Directive(command) => note_directive(list, command),
        ItemCommand::Section(section) => note_section(list, section.get()),
        ItemCommand::Discard(_) => Ok(()),
    }
}

/// Adds what the statements of `SECTIONS` mention.
fn note_items<'a>(list: &mut Vec<Mention<'a>>, items: &'a [Item]) -> Result<(), NoMemory>
    ensures { OnOk result (Adds list.old.items list.new.items (in_items items.now)) }
{
    for item in items {
        note_item_command(list, &item.command)?;
    }
    Ok(())
}

/// Adds what the regions of `MEMORY` mention.
fn note_regions<'a>(list: &mut Vec<Mention<'a>>, regions: &'a [Region]) -> Result<(), NoMemory>
    ensures { OnOk result (Adds list.old.items list.new.items (in_regions regions.now)) }
{
    for region in regions {
        note_formula(list, &region.origin)?;
        note_formula(list, &region.extent)?;
        note(list, Mention::RegionDeclared(region.name.as_bytes()))?;
    }
    Ok(())
}

/// Adds what a statement of a script mentions.
fn note_command<'a>(list: &mut Vec<Mention<'a>>, command: &'a Command) -> Result<(), NoMemory>
    ensures { OnOk result (Adds list.old.items list.new.items (in_top_command command.now)) }
{
    match command {
        Command::Entry(_) => note(list, Mention::EntryGiven),
        Command::Memory(regions) => {
            note(list, Mention::MemoryGiven)?;
            note_regions(list, regions.as_slice())?;
            Ok(())
        }
        Command::Sections(items) => {
            note(list, Mention::SectionsGiven)?;
            note_items(list, items.as_slice())?;
            Ok(())
        }
        Command::Directive(command) => note_directive(list, command),
    }
}

/// Adds all that these statements mention, in the order of the text.
pub(crate) fn note_statements<'a>(
    list: &mut Vec<Mention<'a>>,
    statements: &'a [Statement],
) -> Result<(), NoMemory>
    ensures { OnOk result (Adds list.old.items list.new.items (mentions statements.now)) }
{
    for statement in statements {
        note_command(list, &statement.command)?;
    }
    Ok(())
}
