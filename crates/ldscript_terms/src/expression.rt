//! Trees of expressions.

ghost use Rattle.std.specs.Prelude.{◌≡◌};
ghost use Rattle.ldscript_terms.specs.CodeTerms.{expr_of};
ghost use Rattle.ldscript_terms.specs.Expressions.{has_dot, has_align_dot, has_align};

use crate::operator::{BinaryOperator, UnaryOperator};
use ldscript_tokens::name::ScriptName;

/// What an expression asks of a memory region.
#[derive(Clone, Copy, Debug, PartialEq, Eq)]
pub enum RegionQuery {
    /// `ORIGIN`: its first address.
    Origin,
    /// `LENGTH`: its size in bytes.
    Length,
}

/// What an expression asks of an output section.
#[derive(Clone, Copy, Debug, PartialEq, Eq)]
pub enum SectionQuery {
    /// `ADDR`: its first address.
    Address,
    /// `LOADADDR`: its load address.
    LoadAddress,
    /// `SIZEOF`: its size in bytes.
    Size,
}

/// An expression. It does not keep parentheses.
#[derive(Drop)]
#[cycle(expr)]
pub enum Expr {
    /// A number, scaled by its suffix.
    Number(u64),
    /// `.`, the location counter.
    Dot,
    /// A symbol.
    Name(ScriptName),
    /// An operator and its operand.
    Unary(UnaryOperator, Box<Expr>),
    /// An operator with its left and right operand.
    Binary(BinaryOperator, Box<Expr>, Box<Expr>),
    /// `test ? first : second`. Its parts are in a box of their own, so that no expression takes more than 24 bytes.
    Choice(Box<Branches>),
    /// `ORIGIN(region)` or `LENGTH(region)`.
    OfRegion(RegionQuery, ScriptName),
    /// `ADDR(section)`, `LOADADDR(section)` or `SIZEOF(section)`.
    OfSection(SectionQuery, ScriptName),
    /// `ALIGN(a)`: the location counter, aligned to `a`.
    AlignDot(Box<Expr>),
    /// `ALIGN(a, b)`: `a`, aligned to `b`.
    Align(Box<Expr>, Box<Expr>),
}

/// The parts of a `test ? first : second`.
#[derive(Drop)]
#[cycle(expr)]
pub struct Branches {
    /// What is tested.
    pub test: Expr,
    /// The value if the test is not 0.
    pub first: Expr,
    /// The value if the test is 0.
    pub second: Expr,
}

impl Expr {
    /// Whether it contains the token `.`.
    pub fn has_dot(&self) -> bool
        ensures { result ≡ has_dot (expr_of self.now) }
    {
        match self {
            Expr::Dot => true,
            Expr::Number(_) | Expr::Name(_) | Expr::OfRegion(_, _) | Expr::OfSection(_, _) => false,
            Expr::Unary(_, a) | Expr::AlignDot(a) => a.has_dot(),
            Expr::Binary(_, a, b) | Expr::Align(a, b) => a.has_dot() || b.has_dot(),
            Expr::Choice(of) => of.test.has_dot() || of.first.has_dot() || of.second.has_dot(),
        }
    }

    /// Whether it contains an `ALIGN` of one argument.
    pub fn has_align_dot(&self) -> bool
        ensures { result ≡ has_align_dot (expr_of self.now) }
    {
        match self {
            Expr::AlignDot(_) => true,
            Expr::Number(_)
            | Expr::Dot
            | Expr::Name(_)
            | Expr::OfRegion(_, _)
            | Expr::OfSection(_, _) => false,
            Expr::Unary(_, a) => a.has_align_dot(),
            Expr::Binary(_, a, b) | Expr::Align(a, b) => a.has_align_dot() || b.has_align_dot(),
            Expr::Choice(of) => {
                of.test.has_align_dot() || of.first.has_align_dot() || of.second.has_align_dot()
            }
        }
    }

    /// Whether it contains an `ALIGN` of one or two arguments.
    pub fn has_align(&self) -> bool
        ensures { result ≡ has_align (expr_of self.now) }
    {
        match self {
            Expr::AlignDot(_) | Expr::Align(_, _) => true,
            Expr::Number(_)
            | Expr::Dot
            | Expr::Name(_)
            | Expr::OfRegion(_, _)
            | Expr::OfSection(_, _) => false,
            Expr::Unary(_, a) => a.has_align(),
            Expr::Binary(_, a, b) => a.has_align() || b.has_align(),
            Expr::Choice(of) => of.test.has_align()
                || of.first.has_align()
                || of.second.has_align(),
        }
    }
}
