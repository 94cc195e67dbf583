//! Laws of expressions.

ghost use Rattle.std.specs.Prelude.{◌≡◌, ◌<◌, ◌^◌, ℕ, Ok};
ghost use Rattle.ldscript.specs.terms.Expressions.{Expr};
ghost use Rattle.ldmodel.specs.Value.{Scope, value};
ghost use Rattle.ldmodel_laws.specs.Bounds.{DoAgree, HasSmallNumbers, IsSmallScope};

/// The value of an expression is below 2^64, if its numbers, `.` and the numbers of its scope are.
pub fn value_is_small()
    ensures { (scope : Scope) (dot : ℕ) (expression : Expr) (x : ℕ) → IsSmallScope scope → dot < 2 ^ 64
        → HasSmallNumbers expression
        → value scope dot expression ≡ Ok x → x < 2 ^ 64 }
{}

/// If an expression has values in two scopes that agree on what both have, they are equal: so a layout with another
/// PROVIDE in force has the same addresses, as long as it has no fault.
pub fn values_agree()
    ensures { (one other : Scope) (dot : ℕ) (expression : Expr) (x y : ℕ) → DoAgree one other
        → value one dot expression ≡ Ok x → value other dot expression ≡ Ok y
        → x ≡ y }
{}
