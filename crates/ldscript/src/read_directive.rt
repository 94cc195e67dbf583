//! Readers of directives, which occur in several lists.

ghost use Rattle.std.specs.Prelude.{◌≡◌, ◌<◌, ℕ, List, IsTrue, length};
ghost use Rattle.ldscript_tokens.specs.Tokens.{Lexeme};
ghost use Rattle.ldscript.specs.Steps.{◌▸◌, mark, string};
ghost use Rattle.ldscript.specs.Grammar.{assign as assign_part, asserted as asserted_part, assertion as assertion_part};
ghost use Rattle.ldscript.specs.Grammar.{directive as directive_part, dot_change as dot_change_part};
ghost use Rattle.ldscript.specs.Grammar.{dot_command as dot_command_part, provide as provide_part};
ghost use Rattle.ldscript.specs.Grammar.{provided_assignment as provided_part, provided_name as provided_name_part};
ghost use Rattle.ldscript.specs.Grammar.{dot_set_to as set_to_part};
ghost use Rattle.ldscript.specs.Readings.{Reads, Finds};

use crate::steps::{after, after_key, ended, front_name, plain_name};
use ldscript_statements::directive::{Assertion, Assignment, Directive, DotCommand};
use ldscript_statements::formula::Formula;
use ldscript_terms::reader::Parsed;
use ldscript_tokens::cursor::Cursor;
use ldscript_tokens::name::ScriptName;
use ldscript_tokens::token::{Mark, Mode};
use std::alloc::Global;

/// `= e ;`
fn set_to<'a>(alloc: Global, tokens: Cursor<'a>) -> Parsed<'a, Formula>
    ensures { Reads set_to_part tokens.entry (λ x. x.0) (λ x. x.1) result }
{
    match after(Mark::Assign, tokens) {
        Some(rest) => ended(alloc, rest, Mark::Semicolon),
        None => Ok(None),
    }
}

/// `= e ;` or `+= e ;`
fn dot_change<'a>(alloc: Global, tokens: Cursor<'a>) -> Parsed<'a, DotCommand>
    ensures { Reads dot_change_part tokens.entry (λ x. x.0) (λ x. x.1) result }
{
    if let Some(rest) = after(Mark::AddAssign, tokens.copy()) {
        let Some((value, rest)) = ended(alloc, rest, Mark::Semicolon)? else {
            return Ok(None);
        };
        return Ok(Some((DotCommand::Add(value), rest)));
    }
    let Some((value, rest)) = set_to(alloc, tokens)? else {
        return Ok(None);
    };
    Ok(Some((DotCommand::Set(value), rest)))
}

/// `. = e ;` or `. += e ;`
pub fn dot_command<'a>(alloc: Global, mode: Mode, tokens: Cursor<'a>) -> Parsed<'a, DotCommand>
    ensures { Reads (dot_command_part mode) tokens.entry (λ x. x.0) (λ x. x.1) result }
{
    match after_key(mode, b".", tokens) {
        Some(rest) => dot_change(alloc, rest),
        None => Ok(None),
    }
}

/// NAME `= e ;`
fn assign<'a>(alloc: Global, mode: Mode, tokens: Cursor<'a>) -> Parsed<'a, Assignment>
    ensures { Reads (assign_part mode) tokens.entry (λ x. x.0) (λ x. x.1) result }
{
    let Some((name, rest)) = front_name(mode, tokens) else {
        return Ok(None);
    };
    let Some((value, rest)) = set_to(alloc, rest)? else {
        return Ok(None);
    };
    let name = ScriptName::new(alloc, name)?;
    Ok(Some((Assignment { name, value }, rest)))
}

/// `(` NAME `=`
fn provided_name<'a>(tokens: Cursor<'a>) -> Option<(&'a [u8], Cursor<'a>)>
    ensures { Finds provided_name_part tokens.entry (λ x. x.0.now) (λ x. x.1) result }
{
    let rest = after(Mark::OpenParenthesis, tokens)?;
    let (name, rest) = plain_name(rest)?;
    let rest = after(Mark::Assign, rest)?;
    Some((name, rest))
}

/// `(` NAME `= e )`
fn provided<'a>(alloc: Global, tokens: Cursor<'a>) -> Parsed<'a, Assignment>
    ensures { Reads provided_part tokens.entry (λ x. x.0) (λ x. x.1) result }
{
    let Some((name, rest)) = provided_name(tokens) else {
        return Ok(None);
    };
    let Some((value, rest)) = ended(alloc, rest, Mark::CloseParenthesis)? else {
        return Ok(None);
    };
    let name = ScriptName::new(alloc, name)?;
    Ok(Some((Assignment { name, value }, rest)))
}

/// `PROVIDE (` NAME `= e )`
fn provide<'a>(alloc: Global, mode: Mode, tokens: Cursor<'a>) -> Parsed<'a, Assignment>
    ensures { Reads (provide_part mode) tokens.entry (λ x. x.0) (λ x. x.1) result }
{
    match after_key(mode, b"PROVIDE", tokens) {
        Some(rest) => provided(alloc, rest),
        None => Ok(None),
    }
}

/// STRING `)`
fn message<'a>(tokens: Cursor<'a>) -> Option<(&'a [u8], Cursor<'a>)>
    ensures { Finds (λ s. string s ▸ mark Mark.CloseParenthesis) tokens.entry (λ x. x.0.now) (λ x. x.1) result }
{
    let (text, rest) = tokens.text_in_quotes()?;
    let rest = after(Mark::CloseParenthesis, rest)?;
    Some((text, rest))
}

/// `( e ,` STRING `)`
fn asserted<'a>(alloc: Global, tokens: Cursor<'a>) -> Parsed<'a, Assertion>
    ensures { Reads asserted_part tokens.entry (λ x. x.0) (λ x. x.1) result }
{
    let Some(rest) = after(Mark::OpenParenthesis, tokens) else {
        return Ok(None);
    };
    let Some((condition, rest)) = ended(alloc, rest, Mark::Comma)? else {
        return Ok(None);
    };
    let Some((message, rest)) = message(rest) else {
        return Ok(None);
    };
    let message = ScriptName::new(alloc, message)?;
    Ok(Some((Assertion { condition, message }, rest)))
}

/// `ASSERT ( e ,` STRING `)`
fn assertion<'a>(alloc: Global, mode: Mode, tokens: Cursor<'a>) -> Parsed<'a, Assertion>
    ensures { Reads (assertion_part mode) tokens.entry (λ x. x.0) (λ x. x.1) result }
{
    match after_key(mode, b"ASSERT", tokens) {
        Some(rest) => asserted(alloc, rest),
        None => Ok(None),
    }
}

/// NAME `= e ;`, `PROVIDE` or `ASSERT`
#[tactic(auto, using(crate::proofs::Directives::directive_none))]
pub fn directive<'a>(alloc: Global, mode: Mode, tokens: Cursor<'a>) -> Parsed<'a, Directive>
    ensures { Reads (directive_part mode) tokens.entry (λ x. x.0) (λ x. x.1) result }
{
    if let Some((assignment, rest)) = assign(alloc, mode, tokens.copy())? {
        return Ok(Some((Directive::Assign(assignment), rest)));
    }
    if let Some((assignment, rest)) = provide(alloc, mode, tokens.copy())? {
        return Ok(Some((Directive::Provide(assignment), rest)));
    }
    let Some((assertion, rest)) = assertion(alloc, mode, tokens)? else {
        return Ok(None);
    };
    Ok(Some((Directive::Assert(assertion), rest)))
}
