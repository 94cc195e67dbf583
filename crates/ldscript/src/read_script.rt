//! Readers of the statements of a script.

ghost use Rattle.std.specs.Prelude.{◌≡◌, ◌<◌, ℕ, List, IsTrue, IfOk, MatchOption, length};
ghost use Rattle.ldscript.specs.Steps.{◌▸◌, mark};
ghost use Rattle.ldscript.specs.Grammar.{entry as entry_part, memory as memory_part, sections as sections_part};
ghost use Rattle.ldscript.specs.Grammar.{top_command as top_command_part, script};
ghost use Rattle.ldscript.specs.Readings.{Reads, Finds};
ghost use Rattle.ldscript_statements.specs.declared.statement.Statement.{Statement};

use crate::read_directive::directive;
use crate::read_item::items;
use crate::read_region::regions;
use crate::steps::{after, after_key, name_in_parentheses};
use growth::NoMemory;
use ldscript_statements::sequence::Sequence;
use ldscript_statements::statement::{Command, Item, Region, Statement};
use ldscript_terms::reader::Parsed;
use ldscript_tokens::cursor::Cursor;
use ldscript_tokens::name::ScriptName;
use ldscript_tokens::token::{Mark, Mode};
use std::alloc::Global;

/// `ENTRY ( NAME )`
fn entry<'a>(alloc: Global, tokens: Cursor<'a>) -> Parsed<'a, ScriptName>
    ensures { Reads entry_part tokens.entry (λ x. x.0) (λ x. x.1) result }
{
    let Some(rest) = after_key(Mode::Expression, b"ENTRY", tokens) else {
        return Ok(None);
    };
    let Some((name, rest)) = name_in_parentheses(rest) else {
        return Ok(None);
    };
    Ok(Some((ScriptName::new(alloc, name)?, rest)))
}

/// `MEMORY {` {region} `}`
fn memory<'a>(alloc: Global, tokens: Cursor<'a>) -> Parsed<'a, Sequence<Region>>
    ensures { Reads memory_part tokens.entry (λ x. x.0) (λ x. x.1) result }
{
    let Some(rest) = after_key(Mode::Expression, b"MEMORY", tokens) else {
        return Ok(None);
    };
    match after(Mark::OpenBrace, rest) {
        Some(rest) => regions(alloc, rest),
        None => Ok(None),
    }
}

/// `SECTIONS {` {item} `}`
fn sections<'a>(alloc: Global, tokens: Cursor<'a>) -> Parsed<'a, Sequence<Item>>
    ensures { Reads sections_part tokens.entry (λ x. x.0) (λ x. x.1) result }
{
    let Some(rest) = after_key(Mode::Expression, b"SECTIONS", tokens) else {
        return Ok(None);
    };
    match after(Mark::OpenBrace, rest) {
        Some(rest) => items(alloc, rest),
        None => Ok(None),
    }
}

/// What a statement of a script says.
#[tactic(auto, using(crate::proofs::Tops::top_none))]
fn top_command<'a>(alloc: Global, tokens: Cursor<'a>) -> Parsed<'a, Command>
    ensures { Reads top_command_part tokens.entry (λ x. x.0) (λ x. x.1) result }
{
    if let Some((items, rest)) = sections(alloc, tokens.copy())? {
        return Ok(Some((Command::Sections(items), rest)));
    }
    if let Some((regions, rest)) = memory(alloc, tokens.copy())? {
        return Ok(Some((Command::Memory(regions), rest)));
    }
    if let Some((name, rest)) = entry(alloc, tokens.copy())? {
        return Ok(Some((Command::Entry(name), rest)));
    }
    let Some((command, rest)) = directive(alloc, Mode::Expression, tokens)? else {
        return Ok(None);
    };
    Ok(Some((Command::Directive(command), rest)))
}

/// All statements of a script, or `None` if the tokens are no script.
pub fn statements_of(
    alloc: Global,
    tokens: Cursor<'_>,
) -> Result<Option<Sequence<Statement>>, NoMemory>
    ensures { IfOk result (λ found. MatchOption found ((tree : List Statement) → script tree tokens.entry → ⊥)
        (λ tree. script tree tokens.entry)) }
{
    let mut statements = Sequence::new(alloc);
    let mut rest = tokens;
    'reading: loop {
        if let Some(more) = after(Mark::Semicolon, rest.copy()) {
            rest = more;
            continue;
        }
        if rest.is_empty() {
            return Ok(Some(statements));
        }
        let line = rest.line();
        let Some((command, more)) = top_command(alloc, rest)? else {
            return Ok(None);
        };
        statements.push(Statement { line, command })?;
        rest = more;
    }
}
