//! Readers of the body of an output section.

ghost use Rattle.std.specs.Prelude.{◌≡◌, ◌<◌, ℕ, List, IsTrue, length};
ghost use Rattle.ldscript.specs.Steps.{◌▸◌, mark, statements};
ghost use Rattle.ldscript.specs.Grammar.{body_command as body_command_part, body_statement};
ghost use Rattle.ldscript.specs.Readings.{Reads, Finds, data_part, width_part};

use crate::read_directive::{directive, dot_command};
use crate::read_input::input;
use crate::steps::{after, after_key, in_parentheses};
use ldscript_statements::formula::Formula;
use ldscript_statements::section::{BodyCommand, BodyStatement, Width};
use ldscript_statements::sequence::Sequence;
use ldscript_terms::reader::Parsed;
use ldscript_tokens::cursor::Cursor;
use ldscript_tokens::token::{Mark, Mode};
use std::alloc::Global;

/// The word of a data command, and the cursor after it.
fn width<'a>(tokens: Cursor<'a>) -> Option<(Width, Cursor<'a>)>
    ensures { Finds width_part tokens.entry (λ x. x.0) (λ x. x.1) result }
{
    if let Some(rest) = after_key(Mode::Pattern, b"BYTE", tokens.copy()) {
        return Some((Width::Byte, rest));
    }
    if let Some(rest) = after_key(Mode::Pattern, b"SHORT", tokens.copy()) {
        return Some((Width::Short, rest));
    }
    if let Some(rest) = after_key(Mode::Pattern, b"LONG", tokens.copy()) {
        return Some((Width::Long, rest));
    }
    let rest = after_key(Mode::Pattern, b"QUAD", tokens)?;
    Some((Width::Quad, rest))
}

/// A data command and its value.
fn data<'a>(alloc: Global, tokens: Cursor<'a>) -> Parsed<'a, (Width, Formula)>
    ensures { Reads data_part tokens.entry (λ x. x.0) (λ x. x.1) result }
{
    let Some((width, rest)) = width(tokens) else {
        return Ok(None);
    };
    let Some((value, rest)) = in_parentheses(alloc, rest)? else {
        return Ok(None);
    };
    Ok(Some(((width, value), rest)))
}

/// What a statement in an output section says.
#[tactic(auto, using(crate::proofs::Bodies::body_none))]
fn body_command<'a>(alloc: Global, tokens: Cursor<'a>) -> Parsed<'a, BodyCommand>
    ensures { Reads body_command_part tokens.entry (λ x. x.0) (λ x. x.1) result }
{
    if let Some((command, rest)) = dot_command(alloc, Mode::Pattern, tokens.copy())? {
        return Ok(Some((BodyCommand::Dot(command), rest)));
    }
    if let Some((command, rest)) = directive(alloc, Mode::Pattern, tokens.copy())? {
        return Ok(Some((BodyCommand::Directive(command), rest)));
    }
    if let Some(((width, value), rest)) = data(alloc, tokens.copy())? {
        return Ok(Some((BodyCommand::Data(width, value), rest)));
    }
    let Some((input, rest)) = input(alloc, tokens)? else {
        return Ok(None);
    };
    Ok(Some((BodyCommand::Input(input), rest)))
}

/// {body} `}`
pub fn body<'a>(alloc: Global, tokens: Cursor<'a>) -> Parsed<'a, Sequence<BodyStatement>>
    ensures { Reads (λ block. statements body_statement block ▸ mark Mark.CloseBrace) tokens.entry (λ x. x.0)
        (λ x. x.1) result }
{
    let mut body = Sequence::new(alloc);
    let mut rest = tokens;
    'reading: loop {
        if let Some(more) = after(Mark::Semicolon, rest.copy()) {
            rest = more;
            continue;
        }
        if let Some(behind) = after(Mark::CloseBrace, rest.copy()) {
            return Ok(Some((body, behind)));
        }
        let line = rest.line();
        let Some((command, more)) = body_command(alloc, rest)? else {
            return Ok(None);
        };
        body.push(BodyStatement { line, command })?;
        rest = more;
    }
}
