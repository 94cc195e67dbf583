//! The symbols that an expression names.

ghost use Rattle.std.specs.Prelude.{OnOk};
ghost use Rattle.ldscript_terms.specs.CodeTerms.{expr_of};
ghost use Rattle.ldscript_statements.specs.Given.{expression_symbols};
ghost use Rattle.ldscript_statements.specs.Tables.{AddsNames};

use growth::{NoMemory, vec};
use ldscript_terms::expression::Expr;

/// Adds the symbols that an expression names to a list, from left to right, each as often as it is named.
pub fn add_symbols<'a>(list: &mut Vec<&'a [u8]>, expr: &'a Expr) -> Result<(), NoMemory>
    ensures { OnOk result (AddsNames list.old.items list.new.items (expression_symbols (expr_of expr.now))) }
{
    match expr {
        Expr::Number(_) | Expr::Dot | Expr::OfRegion(_, _) | Expr::OfSection(_, _) => Ok(()),
        Expr::Name(name) => {
            vec::push(list, name.as_bytes())?;
            Ok(())
        }
        Expr::Unary(_, a) | Expr::AlignDot(a) => add_symbols(list, a),
        Expr::Binary(_, a, b) | Expr::Align(a, b) => {
            add_symbols(list, a)?;
            add_symbols(list, b)?;
            Ok(())
        }
        Expr::Choice(of) => {
            add_symbols(list, &of.test)?;
            add_symbols(list, &of.first)?;
            add_symbols(list, &of.second)?;
            Ok(())
        }
    }
}
