//! The forms of assignments to `.` in an output section.

ghost use Rattle.std.specs.Prelude.{◌≡◌};
ghost use Rattle.ldscript_terms.specs.DotForms.{dot_form};
ghost use Rattle.ldscript_terms.specs.CodeTerms.{maybe_form_of, expr_of};

use crate::expression::Expr;
use crate::operator::BinaryOperator;

/// The form of an assignment to `.` in an output section.
#[derive(Clone, Copy)]
pub enum DotForm<'a> {
    /// `. + e`: `.` advances by `e`.
    Advance(&'a Expr),
    /// `ALIGN(e)`, `.` not in `e`: `.` is aligned to `e`.
    Align(&'a Expr),
    /// `e`, with neither `.` nor `ALIGN`: `.` is the section's start plus `e`.
    Offset(&'a Expr),
}

impl Expr {
    /// The form of `. = self` in an output section, or `None` if it has none of the three.
    pub fn dot_form(&self) -> Option<DotForm<'_>>
        ensures { maybe_form_of result ≡ dot_form (expr_of self.now) }
    {
        match self {
            Expr::Binary(BinaryOperator::Add, left, e) if matches!(**left, Expr::Dot) => {
                Some(DotForm::Advance(e))
            }
            Expr::AlignDot(e) => {
                if e.has_dot() {
                    None
                } else {
                    Some(DotForm::Align(e))
                }
            }
            _ => {
                if self.has_dot() || self.has_align() {
                    None
                } else {
                    Some(DotForm::Offset(self))
                }
            }
        }
    }
}
