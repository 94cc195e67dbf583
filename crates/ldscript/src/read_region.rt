//! Readers of memory regions.

ghost use Rattle.std.specs.Prelude.{◌≡◌, ◌<◌, ℕ, List, IsTrue, length};
ghost use Rattle.ldscript.specs.Steps.{◌▸◌, each, expression, mark};
ghost use Rattle.ldscript.specs.Grammar.{region as region_part, region_head as region_head_part};
ghost use Rattle.ldscript.specs.Grammar.{region_middle as region_middle_part};
ghost use Rattle.ldscript.specs.Readings.{Reads, ReadsOnly, Finds, Follows};
ghost use Rattle.ldscript_terms.specs.Reading.{Stops};
ghost use Rattle.ldscript_terms.specs.Grammar.{Whole};

use crate::steps::{after, after_key, ended, plain_name};
use ldscript_statements::formula::Formula;
use ldscript_statements::sequence::Sequence;
use ldscript_statements::statement::Region;
use ldscript_terms::reader::{Parsed, expr};
use ldscript_tokens::cursor::Cursor;
use ldscript_tokens::name::ScriptName;
use ldscript_tokens::token::{Mark, Mode};
use std::alloc::Global;

/// NAME `: ORIGIN =`
fn region_head<'a>(tokens: Cursor<'a>) -> Option<(&'a [u8], Cursor<'a>)>
    ensures { Finds region_head_part tokens.entry (λ x. x.0.now) (λ x. x.1) result }
{
    let (name, rest) = plain_name(tokens)?;
    let rest = after(Mark::Colon, rest)?;
    let rest = after_key(Mode::Expression, b"ORIGIN", rest)?;
    let rest = after(Mark::Assign, rest)?;
    Some((name, rest))
}

/// `LENGTH =`
fn region_middle(tokens: Cursor<'_>) -> Option<Cursor<'_>>
    ensures { Follows region_middle_part tokens.entry (λ x. x) result }
{
    let rest = after_key(Mode::Expression, b"LENGTH", tokens)?;
    after(Mark::Assign, rest)
}

/// An expression.
fn formula<'a>(alloc: Global, tokens: Cursor<'a>) -> Parsed<'a, Formula>
    ensures { ReadsOnly (Stops Whole) expression tokens.entry (λ x. x.0) (λ x. x.1) result }
{
    let Some((expr, rest)) = expr(alloc, tokens)? else {
        return Ok(None);
    };
    Ok(Some((Formula::new(expr), rest)))
}

/// A memory region.
fn region<'a>(alloc: Global, tokens: Cursor<'a>) -> Parsed<'a, Region>
    ensures { ReadsOnly (Stops Whole) region_part tokens.entry (λ x. x.0) (λ x. x.1) result }
{
    let line = tokens.line();
    let Some((name, rest)) = region_head(tokens) else {
        return Ok(None);
    };
    let Some((origin, rest)) = ended(alloc, rest, Mark::Comma)? else {
        return Ok(None);
    };
    let Some(rest) = region_middle(rest) else {
        return Ok(None);
    };
    let Some((extent, rest)) = formula(alloc, rest)? else {
        return Ok(None);
    };
    let region = Region {
        line,
        name: ScriptName::new(alloc, name)?,
        origin,
        extent,
    };
    Ok(Some((region, rest)))
}

/// {region} `}`
pub fn regions<'a>(alloc: Global, tokens: Cursor<'a>) -> Parsed<'a, Sequence<Region>>
    ensures { Reads (λ regions. each region_part regions ▸ mark Mark.CloseBrace) tokens.entry (λ x. x.0)
        (λ x. x.1) result }
{
    let mut regions = Sequence::new(alloc);
    let mut rest = tokens;
    'reading: loop {
        if let Some(behind) = after(Mark::CloseBrace, rest.copy()) {
            return Ok(Some((regions, behind)));
        }
        let Some((region, more)) = region(alloc, rest)? else {
            return Ok(None);
        };
        regions.push(region)?;
        rest = more;
    }
}
