//! Readers of output sections.

ghost use Rattle.std.specs.Prelude.{◌≡◌, ◌<◌, ℕ, List, IsTrue, MatchOption, codes, length};
ghost use Rattle.ldscript.specs.Steps.{◌▸◌, key, mark, statements};
ghost use Rattle.ldscript.specs.Grammar.{stated_address as address_part, at_region, filled as filled_part, in_region};
ghost use Rattle.ldscript.specs.Grammar.{load_in_head, load_in_tail, section as section_part};
ghost use Rattle.ldscript.specs.Readings.{EndsSection, IsOfParts, Reads, ReadsMaybe, ReadsOnly, ReadsTail};
ghost use Rattle.ldscript.specs.Readings.{opened_part, head_part};
ghost use Rattle.ldscript_statements.specs.declared.section.Load.{Load};

use crate::read_body::body;
use crate::steps::{after, after_key, ended, in_parentheses, plain_name};
use ldscript_statements::fill::Fill;
use ldscript_statements::formula::Formula;
use ldscript_statements::section::{BodyStatement, Load, OutputSection};
use ldscript_statements::sequence::Sequence;
use ldscript_terms::reader::Parsed;
use ldscript_tokens::cursor::Cursor;
use ldscript_tokens::name::ScriptName;
use ldscript_tokens::token::{Mark, Mode};
use std::alloc::Global;

/// [e] `:`
fn address<'a>(alloc: Global, tokens: Cursor<'a>) -> Parsed<'a, Option<Formula>>
    ensures { Reads address_part tokens.entry (λ x. x.0) (λ x. x.1) result }
{
    if let Some(rest) = after(Mark::Colon, tokens.copy()) {
        return Ok(Some((None, rest)));
    }
    let Some((address, rest)) = ended(alloc, tokens, Mark::Colon)? else {
        return Ok(None);
    };
    Ok(Some((Some(address), rest)))
}

/// [`ALIGN ( e )`] `{`
fn alignment<'a>(alloc: Global, tokens: Cursor<'a>) -> Parsed<'a, Option<Formula>>
    ensures { Reads opened_part tokens.entry (λ x. x.0) (λ x. x.1) result }
{
    if let Some(rest) = after(Mark::OpenBrace, tokens.copy()) {
        return Ok(Some((None, rest)));
    }
    let Some(rest) = after_key(Mode::Expression, b"ALIGN", tokens) else {
        return Ok(None);
    };
    let Some((alignment, rest)) = in_parentheses(alloc, rest)? else {
        return Ok(None);
    };
    match after(Mark::OpenBrace, rest) {
        Some(rest) => Ok(Some((Some(alignment), rest))),
        None => Ok(None),
    }
}

/// What the head of an output section gives after its address.
#[derive(Drop)]
struct SectionHead {
    load: Option<Formula>,
    alignment: Option<Formula>,
}

/// [`AT ( e )`] [`ALIGN ( e )`] `{`
fn head<'a>(alloc: Global, tokens: Cursor<'a>) -> Parsed<'a, SectionHead>
    ensures { Reads head_part tokens.entry (λ x. x.0) (λ x. x.1) result }
{
    let Some(rest) = after_key(Mode::Expression, b"AT", tokens.copy()) else {
        let Some((alignment, rest)) = alignment(alloc, tokens)? else {
            return Ok(None);
        };
        let head = SectionHead {
            load: None,
            alignment,
        };
        return Ok(Some((head, rest)));
    };
    let Some((load, rest)) = in_parentheses(alloc, rest)? else {
        return Ok(None);
    };
    let Some((alignment, rest)) = alignment(alloc, rest)? else {
        return Ok(None);
    };
    let head = SectionHead {
        load: Some(load),
        alignment,
    };
    Ok(Some((head, rest)))
}

/// What the tail of an output section gives.
#[derive(Drop)]
struct SectionTail {
    region: Option<ScriptName>,
    load: Option<ScriptName>,
    fill: Option<Fill>,
}

/// [`> NAME`]
fn region<'a>(alloc: Global, tokens: Cursor<'a>) -> Parsed<'a, Option<ScriptName>>
    ensures { ReadsMaybe (mark Mark.Greater) in_region tokens.entry (λ x. x.0) (λ x. x.1) result }
{
    let Some(rest) = after(Mark::Greater, tokens.copy()) else {
        return Ok(Some((None, tokens)));
    };
    let Some((name, rest)) = plain_name(rest) else {
        return Ok(None);
    };
    Ok(Some((Some(ScriptName::new(alloc, name)?), rest)))
}

/// [`AT > NAME`]
fn load_region<'a>(alloc: Global, tokens: Cursor<'a>) -> Parsed<'a, Option<ScriptName>>
    ensures { ReadsMaybe (key Mode.Expression (codes "AT")) at_region tokens.entry (λ x. x.0) (λ x. x.1) result }
{
    let Some(rest) = after_key(Mode::Expression, b"AT", tokens.copy()) else {
        return Ok(Some((None, tokens)));
    };
    let Some(rest) = after(Mark::Greater, rest) else {
        return Ok(None);
    };
    let Some((name, rest)) = plain_name(rest) else {
        return Ok(None);
    };
    Ok(Some((Some(ScriptName::new(alloc, name)?), rest)))
}

/// [`= fill`]
fn filled<'a>(alloc: Global, tokens: Cursor<'a>) -> Parsed<'a, Option<Fill>>
    ensures { ReadsMaybe (mark Mark.Assign) filled_part tokens.entry (λ x. x.0) (λ x. x.1) result }
{
    let Some(rest) = after(Mark::Assign, tokens.copy()) else {
        return Ok(Some((None, tokens)));
    };
    let Some((spelled, rest)) = rest.number() else {
        return Ok(None);
    };
    let Some(bytes) = Fill::read(alloc, spelled)? else {
        return Ok(None);
    };
    Ok(Some((Some(bytes), rest)))
}

/// [`> NAME`] [`AT > NAME`] [`= fill`]
fn tail<'a>(alloc: Global, tokens: Cursor<'a>) -> Parsed<'a, SectionTail>
    ensures { ReadsTail tokens.entry (λ x. x.0) (λ x. x.1) result }
{
    let Some((region, rest)) = region(alloc, tokens)? else {
        return Ok(None);
    };
    let Some((load, rest)) = load_region(alloc, rest)? else {
        return Ok(None);
    };
    let Some((fill, rest)) = filled(alloc, rest)? else {
        return Ok(None);
    };
    Ok(Some((SectionTail { region, load, fill }, rest)))
}

/// The load address (LMA) of an output section, unless its head and its tail both give one.
fn load_of(head: Option<Formula>, tail: Option<ScriptName>) -> Option<Load>
    ensures { MatchOption result ((l : Load) → load_in_head l ≡ head → load_in_tail l ≡ tail → ⊥)
        (λ l. (load_in_head l ≡ head) × (load_in_tail l ≡ tail)) }
{
    match (head, tail) {
        (None, None) => Some(Load::Unstated),
        (Some(address), None) => Some(Load::At(address)),
        (None, Some(region)) => Some(Load::InRegion(region)),
        (Some(_), Some(_)) => None,
    }
}

/// The output section of these parts, unless its head and its tail both give a load address.
fn section_of(
    name: ScriptName,
    address: Option<Formula>,
    head: SectionHead,
    body: Sequence<BodyStatement>,
    tail: SectionTail,
) -> Option<OutputSection>
    ensures { MatchOption result ((l : Load) → load_in_head l ≡ head.load → load_in_tail l ≡ tail.load → ⊥)
        (λ s. IsOfParts s name address head body tail) }
{
    let SectionHead {
        load: load_given,
        alignment,
    } = head;
    let SectionTail { region, load, fill } = tail;
    match load_of(load_given, load) {
        None => None,
        Some(load) => Some(OutputSection {
            name,
            address,
            load,
            alignment,
            body,
            region,
            fill,
        }),
    }
}

/// An output section.
pub fn section<'a>(alloc: Global, tokens: Cursor<'a>) -> Parsed<'a, OutputSection>
    ensures { ReadsOnly EndsSection section_part tokens.entry (λ x. x.0) (λ x. x.1) result }
{
    let Some((name, rest)) = plain_name(tokens) else {
        return Ok(None);
    };
    let name = ScriptName::new(alloc, name)?;
    let Some((address, rest)) = address(alloc, rest)? else {
        return Ok(None);
    };
    let Some((head, rest)) = head(alloc, rest)? else {
        return Ok(None);
    };
    let Some((body, rest)) = body(alloc, rest)? else {
        return Ok(None);
    };
    let Some((tail, rest)) = tail(alloc, rest)? else {
        return Ok(None);
    };
    match section_of(name, address, head, body, tail) {
        None => Ok(None),
        Some(section) => Ok(Some((section, rest))),
    }
}
