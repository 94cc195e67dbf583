//! The values of operators and of `ALIGN`, on numbers of 64 bits.

ghost use Rattle.std.specs.Prelude.{◌≡◌, Ok};
ghost use Rattle.ldscript.specs.terms.declared.operator.BinaryOperator.TheVariants.{ShiftLeft, ShiftRight};
ghost use Rattle.ldmodel.specs.Value.{aligned, binary_value, decides_alone, unary_value};
ghost use Rattle.place_terms.specs.Outcomes.{value_if_any};

use ldscript::tree::{BinaryOperator, UnaryOperator};

/// The value of an operator before its operand.
pub(crate) fn apply_unary(operator: UnaryOperator, x: u64) -> u64
    ensures { result ≡ unary_value operator x }
{
    match operator {
        UnaryOperator::Not => u64::from(x == 0),
        UnaryOperator::Negate => x.wrapping_neg(),
        UnaryOperator::Complement => !x,
    }
}

/// Whether the first operand alone gives the value, as in C.
pub(crate) fn is_decided(operator: BinaryOperator, x: u64) -> bool
    ensures { result ≡ decides_alone operator x }
{
    match operator {
        BinaryOperator::And => x == 0,
        BinaryOperator::Or => x != 0,
        _ => false,
    }
}

/// The value of an operator at its operands; `None` if there is none.
pub(crate) fn apply_binary(operator: BinaryOperator, x: u64, y: u64) -> Option<u64>
    ensures { value_if_any result ≡ binary_value operator x y }
{
    match operator {
        BinaryOperator::Multiply => Some(x.wrapping_mul(y)),
        BinaryOperator::Divide => x.checked_div(y),
        BinaryOperator::Remainder => x.checked_rem(y),
        BinaryOperator::Add => Some(x.wrapping_add(y)),
        BinaryOperator::Subtract => Some(x.wrapping_sub(y)),
        BinaryOperator::ShiftLeft => Some(shift_left(x, y)),
        BinaryOperator::ShiftRight => Some(shift_right(x, y)),
        BinaryOperator::Less => Some(u64::from(x < y)),
        BinaryOperator::LessOrEqual => Some(u64::from(x <= y)),
        BinaryOperator::Greater => Some(u64::from(x > y)),
        BinaryOperator::GreaterOrEqual => Some(u64::from(x >= y)),
        BinaryOperator::Equal => Some(u64::from(x == y)),
        BinaryOperator::NotEqual => Some(u64::from(x != y)),
        BinaryOperator::BitAnd => Some(x & y),
        BinaryOperator::BitOr => Some(x | y),
        BinaryOperator::And => Some(u64::from(x != 0 && y != 0)),
        BinaryOperator::Or => Some(u64::from(x != 0 || y != 0)),
    }
}

/// `x * 2^y`, modulo 2^64.
fn shift_left(x: u64, y: u64) -> u64
    ensures { Ok result ≡ binary_value ShiftLeft x y }
{
    if y < 64 { x.wrapping_shl(y as u32) } else { 0 }
}

/// The whole part of `x / 2^y`.
fn shift_right(x: u64, y: u64) -> u64
    ensures { Ok result ≡ binary_value ShiftRight x y }
{
    if y < 64 { x >> y } else { 0 }
}

/// The least multiple of a power of two that is not below `x`, modulo 2^64; `None` if `to` is no power of two.
pub(crate) fn align(x: u64, to: u64) -> Option<u64>
    ensures { value_if_any result ≡ aligned x to }
{
    if !to.is_power_of_two() {
        return None;
    }
    Some(x.wrapping_add((to - x % to) % to))
}
