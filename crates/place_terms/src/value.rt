//! The value of an expression.

ghost use Rattle.std.specs.Prelude.{◌≡◌};
ghost use Rattle.std.specs.Option.{option_map};
ghost use Rattle.ldscript.specs.terms.CodeTerms.{expr_of};
ghost use Rattle.ldmodel.specs.Value.{asked_of_region, asked_of_section, named, value};
ghost use Rattle.place_terms.specs.Outcomes.{outcome_of, value_if_any};
ghost use Rattle.place_terms.specs.Scopes.{section_numbers, region_numbers};

use crate::operator::{align, apply_binary, apply_unary, is_decided};
use crate::scope::Scope;
use ldmodel::placed::{Placed, PlacedRegion};
use ldscript::tree::{Expr, RegionQuery, SectionQuery};

/// Why an expression has no value.
#[derive(Clone, Copy, Debug)]
pub enum ValueFault<'e> {
    /// A name in the expression that is not in scope.
    NotReady(&'e [u8]),
    /// A division by 0, or an `ALIGN` to what is no power of two.
    NoValue,
}

/// What a query asks of an output section.
fn ask_section(query: SectionQuery, section: &Placed) -> u64
    ensures { result ≡ asked_of_section query (section_numbers section.now) }
{
    match query {
        SectionQuery::Address => section.start,
        SectionQuery::LoadAddress => section.load,
        SectionQuery::Size => section.size,
    }
}

/// What a query asks of a memory region.
fn ask_region(query: RegionQuery, region: &PlacedRegion) -> u64
    ensures { result ≡ asked_of_region query (region_numbers region.now) }
{
    match query {
        RegionQuery::Origin => region.origin,
        RegionQuery::Length => region.extent,
    }
}

/// The number of a name.
fn found<'e>(name: &'e [u8], number: Option<u64>) -> Result<u64, ValueFault<'e>>
    ensures { outcome_of result ≡ named name.now number }
{
    match number {
        Some(x) => Ok(x),
        None => Err(ValueFault::NotReady(name)),
    }
}

/// The value of an operator that may have none.
fn given<'e>(number: Option<u64>) -> Result<u64, ValueFault<'e>>
    ensures { outcome_of result ≡ value_if_any number }
{
    match number {
        Some(x) => Ok(x),
        None => Err(ValueFault::NoValue),
    }
}

/// `ADDR`, `LOADADDR` or `SIZEOF` of an output section.
fn value_of_section<'e, S: Scope>(
    scope: &S,
    query: SectionQuery,
    name: &'e [u8],
) -> Result<u64, ValueFault<'e>>
    requires { S.can_look_up scope.now }
    ensures { outcome_of result
        ≡ named name.now (option_map (asked_of_section query) ((S.meaning scope.now).section name.now)) }
{
    match scope.section(name) {
        Some(section) => Ok(ask_section(query, &section)),
        None => Err(ValueFault::NotReady(name)),
    }
}

/// `ORIGIN` or `LENGTH` of a memory region.
fn value_of_region<'e, S: Scope>(
    scope: &S,
    query: RegionQuery,
    name: &'e [u8],
) -> Result<u64, ValueFault<'e>>
    requires { S.can_look_up scope.now }
    ensures { outcome_of result
        ≡ named name.now (option_map (asked_of_region query) ((S.meaning scope.now).region name.now)) }
{
    match scope.region(name) {
        Some(region) => Ok(ask_region(query, &region)),
        None => Err(ValueFault::NotReady(name)),
    }
}

/// The value of an expression, with `.` at a number. Numbers are unsigned, of 64 bits, and arithmetic is modulo 2^64.
/// `&&`, `||` and `?:` evaluate only the operands that C does.
///
/// # Errors
///
/// The first name, from left to right among those that are evaluated, that is not in scope; or a division by 0, or an
/// `ALIGN` to no power of two, if that comes first.
#[tactic(auto, unfolding(ldmodel::specs::Value::value))]
pub fn value<'e, S: Scope>(e: &'e Expr, scope: &S, dot: u64) -> Result<u64, ValueFault<'e>>
    requires { S.can_look_up scope.now }
    ensures { outcome_of result ≡ value (S.meaning scope.now) dot (expr_of e.now) }
{
    match e {
        Expr::Number(n) => Ok(*n),
        Expr::Dot => Ok(dot),
        Expr::Name(name) => found(name.as_bytes(), scope.symbol(name.as_bytes())),
        Expr::Unary(operator, a) => {
            let x = value(a, scope, dot)?;
            Ok(apply_unary(*operator, x))
        }
        Expr::Binary(operator, a, b) => {
            let x = value(a, scope, dot)?;
            if is_decided(*operator, x) {
                given(apply_binary(*operator, x, 0))
            } else {
                let y = value(b, scope, dot)?;
                given(apply_binary(*operator, x, y))
            }
        }
        Expr::Choice(of) => {
            let x = value(&of.test, scope, dot)?;
            if x != 0 {
                value(&of.first, scope, dot)
            } else {
                value(&of.second, scope, dot)
            }
        }
        Expr::OfRegion(query, name) => value_of_region(scope, *query, name.as_bytes()),
        Expr::OfSection(query, name) => value_of_section(scope, *query, name.as_bytes()),
        Expr::AlignDot(a) => {
            let x = value(a, scope, dot)?;
            given(align(dot, x))
        }
        Expr::Align(a, b) => {
            let x = value(a, scope, dot)?;
            let y = value(b, scope, dot)?;
            given(align(x, y))
        }
    }
}
