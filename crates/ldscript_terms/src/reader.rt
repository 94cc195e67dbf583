//! The reader of expressions: one function for each kind of rule of the grammar, and one loop for all levels of
//! operators between operands.

ghost use Rattle.std.specs.Prelude.{suc, ◌<◌, ◌≤◌};
ghost use Rattle.ldscript_terms.specs.CodeTerms.{expr_of};
ghost use Rattle.ldscript_terms.specs.Reading.{Reads};
ghost use Rattle.ldscript_terms.specs.Grammar.{Primary, Arguments, Within, Whole};

use crate::expression::{Branches, Expr};
use crate::opening::{
    Opening, after, binary_ahead, name_in_parentheses, read_opening, unary_ahead,
};
use growth::{NoMemory, boxed};
use ldscript_tokens::cursor::Cursor;
use ldscript_tokens::name::ScriptName;
use ldscript_tokens::token::Mark;
use std::alloc::Global;

/// What a reader returns: what it read at the front of the tokens, with the cursor after it, or `None` if it is not
/// there. The only error is out of memory.
pub type Parsed<'a, T> = Result<Option<(T, Cursor<'a>)>, NoMemory>;

/// The loosest level of precedence.
const LOOSEST: u8 = 9;

/// A number, `.`, a name, an expression in parentheses, or a function with its arguments.
#[cycle(reader)]
fn primary<'a>(alloc: Global, tokens: Cursor<'a>) -> Parsed<'a, Expr>
    ensures { Reads Primary tokens.entry (λ x. expr_of x.0) (λ x. x.1) result }
{
    let Some((opening, rest)) = read_opening(&tokens) else {
        return Ok(None);
    };
    match opening {
        Opening::Number(value) => Ok(Some((Expr::Number(value), rest))),
        Opening::Dot => Ok(Some((Expr::Dot, rest))),
        Opening::Name(name) => {
            let name = ScriptName::new(alloc, name)?;
            Ok(Some((Expr::Name(name), rest)))
        }
        Opening::OfRegion(query) => {
            let Some((name, rest)) = name_in_parentheses(&rest) else {
                return Ok(None);
            };
            let name = ScriptName::new(alloc, name)?;
            Ok(Some((Expr::OfRegion(query, name), rest)))
        }
        Opening::OfSection(query) => {
            let Some((name, rest)) = name_in_parentheses(&rest) else {
                return Ok(None);
            };
            let name = ScriptName::new(alloc, name)?;
            Ok(Some((Expr::OfSection(query, name), rest)))
        }
        Opening::Align => arguments(alloc, rest),
        Opening::Group => {
            let Some((tree, rest)) = whole(alloc, rest)? else {
                return Ok(None);
            };
            let Some(rest) = after(&rest, Mark::CloseParenthesis) else {
                return Ok(None);
            };
            Ok(Some((tree, rest)))
        }
    }
}

/// The arguments of `ALIGN` in their parentheses, one or two.
#[cycle(reader)]
fn arguments<'a>(alloc: Global, tokens: Cursor<'a>) -> Parsed<'a, Expr>
    ensures { Reads Arguments tokens.entry (λ x. expr_of x.0) (λ x. x.1) result }
{
    let Some(rest) = after(&tokens, Mark::OpenParenthesis) else {
        return Ok(None);
    };
    let Some((first, rest)) = whole(alloc, rest)? else {
        return Ok(None);
    };
    if let Some(rest) = after(&rest, Mark::CloseParenthesis) {
        let tree = Expr::AlignDot(boxed::new(alloc, first)?);
        return Ok(Some((tree, rest)));
    }
    let Some(rest) = after(&rest, Mark::Comma) else {
        return Ok(None);
    };
    let Some((second, rest)) = whole(alloc, rest)? else {
        return Ok(None);
    };
    let Some(rest) = after(&rest, Mark::CloseParenthesis) else {
        return Ok(None);
    };
    let tree = Expr::Align(boxed::new(alloc, first)?, boxed::new(alloc, second)?);
    Ok(Some((tree, rest)))
}

/// A primary expression after any number of `! - ~`.
#[cycle(reader)]
fn unary<'a>(alloc: Global, tokens: Cursor<'a>) -> Parsed<'a, Expr>
    ensures { Reads (Within 0) tokens.entry (λ x. expr_of x.0) (λ x. x.1) result }
{
    let Some((operator, rest)) = unary_ahead(&tokens) else {
        return primary(alloc, tokens);
    };
    let Some((operand, rest)) = unary(alloc, rest)? else {
        return Ok(None);
    };
    let tree = Expr::Unary(operator, boxed::new(alloc, operand)?);
    Ok(Some((tree, rest)))
}

/// Binary operators of the level above `below`, from left to right.
#[cycle(reader)]
fn binary<'a>(alloc: Global, below: u8, tokens: Cursor<'a>) -> Parsed<'a, Expr>
    requires { below < 9 }
    ensures { Reads (Within (suc below)) tokens.entry (λ x. expr_of x.0) (λ x. x.1) result }
{
    let Some((mut tree, mut rest)) = operand(alloc, below, tokens)? else {
        return Ok(None);
    };
    loop {
        let Some((operator, more)) = binary_ahead(below, &rest) else {
            return Ok(Some((tree, rest)));
        };
        let Some((right, behind)) = operand(alloc, below, more)? else {
            return Ok(None);
        };
        tree = Expr::Binary(
            operator,
            boxed::new(alloc, tree)?,
            boxed::new(alloc, right)?,
        );
        rest = behind;
    }
}

/// An expression of operators of this level and tighter ones.
#[cycle(reader)]
fn operand<'a>(alloc: Global, level: u8, tokens: Cursor<'a>) -> Parsed<'a, Expr>
    requires { level ≤ 9 }
    ensures { Reads (Within level) tokens.entry (λ x. expr_of x.0) (λ x. x.1) result }
{
    if level == 0 {
        unary(alloc, tokens)
    } else {
        binary(alloc, level - 1, tokens)
    }
}

/// An expression with its choices.
#[cycle(reader)]
fn whole<'a>(alloc: Global, tokens: Cursor<'a>) -> Parsed<'a, Expr>
    ensures { Reads Whole tokens.entry (λ x. expr_of x.0) (λ x. x.1) result }
{
    let Some((test, rest)) = operand(alloc, LOOSEST, tokens)? else {
        return Ok(None);
    };
    let Some(more) = after(&rest, Mark::Question) else {
        return Ok(Some((test, rest)));
    };
    let Some((first, rest)) = whole(alloc, more)? else {
        return Ok(None);
    };
    let Some(rest) = after(&rest, Mark::Colon) else {
        return Ok(None);
    };
    let Some((second, rest)) = whole(alloc, rest)? else {
        return Ok(None);
    };
    let branches = Branches {
        test,
        first,
        second,
    };
    let tree = Expr::Choice(boxed::new(alloc, branches)?);
    Ok(Some((tree, rest)))
}

/// Reads the expression at the front of the tokens, and returns it with the cursor after it: the only one that the next
/// token cannot continue. `None` if there is none, as with a number of 2^64 or more or a reserved word as a name. The
/// operators are those of the GNU ld manual's "Expressions in Linker Scripts", in C's order.
pub fn expr<'a>(alloc: Global, tokens: Cursor<'a>) -> Parsed<'a, Expr>
    ensures { Reads Whole tokens.entry (λ x. expr_of x.0) (λ x. x.1) result }
{
    whole(alloc, tokens)
}
