//! Readers of the statements of `SECTIONS`.

ghost use Rattle.std.specs.Prelude.{◌≡◌, ◌<◌, ℕ, List, IsTrue, length};
ghost use Rattle.ldscript.specs.Steps.{◌▸◌, mark, statements, token};
ghost use Rattle.ldscript_tokens.specs.Tokens.{Discard};
ghost use Rattle.ldscript.specs.Grammar.{discard as discard_part, item_command as item_command_part, item_statement};
ghost use Rattle.ldscript.specs.Readings.{EndsSection, Follows, Reads, ReadsOnly, discard_head as discard_head_part};

use crate::read_directive::{directive, dot_command};
use crate::read_input::inputs;
use crate::read_section::section;
use crate::steps::after;
use ldscript_statements::held::Held;
use ldscript_statements::input::InputStatement;
use ldscript_statements::sequence::Sequence;
use ldscript_statements::statement::{Item, ItemCommand};
use ldscript_terms::reader::Parsed;
use ldscript_tokens::cursor::Cursor;
use ldscript_tokens::token::{Mark, Mode, TokenKind};
use std::alloc::Global;

/// What follows `/DISCARD/`
fn after_discard(tokens: Cursor<'_>) -> Option<Cursor<'_>>
    ensures { Follows (token Discard) tokens.entry (λ x. x) result }
{
    let (kind, _, _, rest) = tokens.next()?;
    if kind == TokenKind::Discard {
        Some(rest)
    } else {
        None
    }
}

/// What follows `/DISCARD/ : {`
fn discard_head(tokens: Cursor<'_>) -> Option<Cursor<'_>>
    ensures { Follows discard_head_part tokens.entry (λ x. x) result }
{
    let rest = after_discard(tokens)?;
    let rest = after(Mark::Colon, rest)?;
    after(Mark::OpenBrace, rest)
}

/// `/DISCARD/ : {` {`;` | input} `}`
fn discard<'a>(alloc: Global, tokens: Cursor<'a>) -> Parsed<'a, Sequence<InputStatement>>
    ensures { Reads discard_part tokens.entry (λ x. x.0) (λ x. x.1) result }
{
    match discard_head(tokens) {
        Some(rest) => inputs(alloc, rest),
        None => Ok(None),
    }
}

/// What a statement of `SECTIONS` says.
#[tactic(auto, using(crate::proofs::Items::item_none))]
fn item_command<'a>(alloc: Global, tokens: Cursor<'a>) -> Parsed<'a, ItemCommand>
    ensures { ReadsOnly EndsSection item_command_part tokens.entry (λ x. x.0) (λ x. x.1) result }
{
    if let Some((command, rest)) = dot_command(alloc, Mode::Expression, tokens.copy())? {
        return Ok(Some((ItemCommand::Dot(command), rest)));
    }
    if let Some((command, rest)) = directive(alloc, Mode::Expression, tokens.copy())? {
        return Ok(Some((ItemCommand::Directive(command), rest)));
    }
    if let Some((inputs, rest)) = discard(alloc, tokens.copy())? {
        return Ok(Some((ItemCommand::Discard(inputs), rest)));
    }
    let Some((section, rest)) = section(alloc, tokens)? else {
        return Ok(None);
    };
    Ok(Some((ItemCommand::Section(Held::new(alloc, section)?), rest)))
}

/// {item} `}`
pub fn items<'a>(alloc: Global, tokens: Cursor<'a>) -> Parsed<'a, Sequence<Item>>
    ensures { Reads (λ items. statements item_statement items ▸ mark Mark.CloseBrace) tokens.entry (λ x. x.0)
        (λ x. x.1) result }
{
    let mut items = Sequence::new(alloc);
    let mut rest = tokens;
    'reading: loop {
        if let Some(more) = after(Mark::Semicolon, rest.copy()) {
            rest = more;
            continue;
        }
        if let Some(behind) = after(Mark::CloseBrace, rest.copy()) {
            return Ok(Some((items, behind)));
        }
        let line = rest.line();
        let Some((command, more)) = item_command(alloc, rest)? else {
            return Ok(None);
        };
        items.push(Item { line, command })?;
        rest = more;
    }
}
