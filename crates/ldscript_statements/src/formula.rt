//! Expressions as parts of a tree.

ghost use Rattle.std.specs.Prelude.{◌≡◌};
ghost use Rattle.ldscript_terms.specs.CodeTerms.{expr_of};

use ldscript_terms::expression::Expr;
use std::fmt;
use std::marker::Model;

/// An expression of a statement. Contracts see its value, not where its parts are in memory.
#[derive(Drop)]
pub struct Formula {
    expr: Expr,
}

impl Model for Formula {
    ghost use Rattle.ldscript_terms.specs.Expressions.{Expr};
    ghost use Rattle.ldscript_terms.specs.CodeTerms.{expr_of};
    ghost use Rattle.std.specs.Prelude.{List};
    ghost use Rattle.std.specs.Coded.{codes, code_by};
    ghost use Rattle.ldscript_statements.specs.FormulaCode.{Instruction, to_instructions, from_instructions, from_to};

    ghost Value = { Expr };

    ghost coded = { code_by (List Instruction) (Prim.hlevel codes) to_instructions from_instructions from_to };

    ghost view = { λ formula. expr_of formula.expr };
}

impl Formula {
    /// The formula of an expression.
    pub fn new(expr: Expr) -> Formula
        ensures { result ≡ expr_of expr }
    {
        Formula { expr }
    }

    /// The expression itself.
    pub fn expr(&self) -> &Expr
        ensures { expr_of result.now ≡ self.now }
    {
        &self.expr
    }
}

impl fmt::Display for Formula {
    fn fmt<W: fmt::Write>(&self, f: &mut fmt::Formatter<W>) -> fmt::Result {
        write!(f, "{}", self.expr)
    }
}
