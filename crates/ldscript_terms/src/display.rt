//! Expressions as text: the notation of scripts, with parentheses round each operation, so that no two trees have one
//! text. An operator between operands has spaces around it, since a name may contain a `-`.

use crate::expression::{Expr, RegionQuery, SectionQuery};
use crate::operator::{BinaryOperator, UnaryOperator};
use std::fmt;

impl fmt::Display for UnaryOperator {
    fn fmt<W: fmt::Write>(&self, f: &mut fmt::Formatter<W>) -> fmt::Result {
        f.write_str(match self {
            UnaryOperator::Not => "!",
            UnaryOperator::Negate => "-",
            UnaryOperator::Complement => "~",
        })
    }
}

impl fmt::Display for BinaryOperator {
    fn fmt<W: fmt::Write>(&self, f: &mut fmt::Formatter<W>) -> fmt::Result {
        f.write_str(match self {
            BinaryOperator::Multiply => "*",
            BinaryOperator::Divide => "/",
            BinaryOperator::Remainder => "%",
            BinaryOperator::Add => "+",
            BinaryOperator::Subtract => "-",
            BinaryOperator::ShiftLeft => "<<",
            BinaryOperator::ShiftRight => ">>",
            BinaryOperator::Less => "<",
            BinaryOperator::LessOrEqual => "<=",
            BinaryOperator::Greater => ">",
            BinaryOperator::GreaterOrEqual => ">=",
            BinaryOperator::Equal => "==",
            BinaryOperator::NotEqual => "!=",
            BinaryOperator::BitAnd => "&",
            BinaryOperator::BitOr => "|",
            BinaryOperator::And => "&&",
            BinaryOperator::Or => "||",
        })
    }
}

impl fmt::Display for RegionQuery {
    fn fmt<W: fmt::Write>(&self, f: &mut fmt::Formatter<W>) -> fmt::Result {
        f.write_str(match self {
            RegionQuery::Origin => "ORIGIN",
            RegionQuery::Length => "LENGTH",
        })
    }
}

impl fmt::Display for SectionQuery {
    fn fmt<W: fmt::Write>(&self, f: &mut fmt::Formatter<W>) -> fmt::Result {
        f.write_str(match self {
            SectionQuery::Address => "ADDR",
            SectionQuery::LoadAddress => "LOADADDR",
            SectionQuery::Size => "SIZEOF",
        })
    }
}

impl fmt::Display for Expr {
    fn fmt<W: fmt::Write>(&self, f: &mut fmt::Formatter<W>) -> fmt::Result {
        match self {
            Expr::Number(value) => write!(f, "{value}"),
            Expr::Dot => f.write_str("."),
            Expr::Name(name) => write!(f, "{}", name.as_bytes().escape_ascii()),
            Expr::Unary(operator, a) => write!(f, "({operator}{a})"),
            Expr::Binary(operator, a, b) => write!(f, "({a} {operator} {b})"),
            Expr::Choice(of) => write!(f, "({} ? {} : {})", of.test, of.first, of.second),
            Expr::OfRegion(query, name) => write!(f, "{query}({})", name.as_bytes().escape_ascii()),
            Expr::OfSection(query, name) => {
                write!(f, "{query}({})", name.as_bytes().escape_ascii())
            }
            Expr::AlignDot(a) => write!(f, "ALIGN({a})"),
            Expr::Align(a, b) => write!(f, "ALIGN({a}, {b})"),
        }
    }
}
