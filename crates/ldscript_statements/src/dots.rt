//! Uses of `.` that the profile does not have.

ghost use Rattle.std.specs.Prelude.{◌≡◌};
ghost use Rattle.std.specs.List.{list_any};
ghost use Rattle.ldscript_statements.specs.Dots.{assert_misplaces, body_command_misplaces, body_misplaces};
ghost use Rattle.ldscript_statements.specs.Dots.{directive_uses_dot};
ghost use Rattle.ldscript_statements.specs.Dots.{dot_misplaces, has_misplaced_dot, item_command_misplaces};
ghost use Rattle.ldscript_statements.specs.Dots.{item_misplaces};
ghost use Rattle.ldscript_statements.specs.Dots.{region_misplaces, top_command_misplaces, top_misplaces, uses_dot};

use crate::directive::{Directive, DotCommand};
use crate::formula::Formula;
use crate::section::{BodyCommand, BodyStatement};
use crate::statement::{Command, Item, ItemCommand, Region, Statement};

impl Formula {
    /// Whether the expression has `.`, or an `ALIGN` of one argument, which means one with `.`.
    fn uses_dot(&self) -> bool
        ensures { result ≡ uses_dot self.now }
    {
        let expr = self.expr();
        expr.has_dot() || expr.has_align_dot()
    }
}

/// Whether a command is an `ASSERT` with `.`.
fn assert_misplaces(command: &Directive) -> bool
    ensures { result ≡ assert_misplaces command.now }
{
    match command {
        Directive::Assert(assertion) => assertion.condition.uses_dot(),
        Directive::Assign(_) | Directive::Provide(_) => false,
    }
}

/// Whether an expression of a command has `.`.
fn directive_uses_dot(command: &Directive) -> bool
    ensures { result ≡ directive_uses_dot command.now }
{
    match command {
        Directive::Assign(assignment) | Directive::Provide(assignment) => assignment
            .value
            .uses_dot(),
        Directive::Assert(assertion) => assertion.condition.uses_dot(),
    }
}

/// Whether a command sets `.` in an output section in none of the allowed forms.
fn dot_misplaces(command: &DotCommand) -> bool
    ensures { result ≡ dot_misplaces command.now }
{
    match command {
        DotCommand::Set(value) => value.expr().dot_form().is_none(),
        DotCommand::Add(_) => false,
    }
}

/// Whether a statement of an output section uses `.` where it may not be used.
fn body_misplaces(statement: &BodyStatement) -> bool
    ensures { result ≡ body_misplaces statement.now }
{
    match &statement.command {
        BodyCommand::Dot(command) => dot_misplaces(command),
        BodyCommand::Directive(command) => assert_misplaces(command),
        BodyCommand::Data(_, _) | BodyCommand::Input(_) => false,
    }
}

/// Whether one of these statements of an output section uses `.` where it may not be used.
fn any_body_misplaces(all: &[BodyStatement]) -> bool
    ensures { result ≡ list_any body_misplaces all.now }
{
    all.iter().any(|x| body_misplaces(x))
}

/// Whether a statement of `SECTIONS` uses `.` where it may not be used.
fn item_misplaces(item: &Item) -> bool
    ensures { result ≡ item_misplaces item.now }
{
    match &item.command {
        ItemCommand::Directive(command) => assert_misplaces(command),
        ItemCommand::Section(section) => any_body_misplaces(section.get().body.as_slice()),
        ItemCommand::Dot(_) | ItemCommand::Discard(_) => false,
    }
}

/// Whether a region uses `.`.
fn region_misplaces(region: &Region) -> bool
    ensures { result ≡ region_misplaces region.now }
{
    region.origin.uses_dot() || region.extent.uses_dot()
}

/// Whether one of these regions uses `.`.
fn any_region_misplaces(all: &[Region]) -> bool
    ensures { result ≡ list_any region_misplaces all.now }
{
    all.iter().any(|x| region_misplaces(x))
}

/// Whether one of these statements of `SECTIONS` uses `.` where it may not be used.
fn any_item_misplaces(all: &[Item]) -> bool
    ensures { result ≡ list_any item_misplaces all.now }
{
    all.iter().any(|x| item_misplaces(x))
}

/// Whether a statement of a script uses `.` where it may not be used.
fn top_misplaces(statement: &Statement) -> bool
    ensures { result ≡ top_misplaces statement.now }
{
    match &statement.command {
        Command::Entry(_) => false,
        Command::Memory(regions) => any_region_misplaces(regions.as_slice()),
        Command::Sections(items) => any_item_misplaces(items.as_slice()),
        Command::Directive(command) => directive_uses_dot(command),
    }
}

/// Whether a script uses `.` where it may not be used (refusal 4).
pub fn has_misplaced_dot(statements: &[Statement]) -> bool
    ensures { result ≡ has_misplaced_dot statements.now }
{
    statements.iter().any(|s| top_misplaces(s))
}
