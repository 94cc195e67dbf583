//! The value of a number.

ghost use Rattle.std.specs.Prelude.{◌≡◌, ◌<◌, ◌+◌, ◌*◌, ◌^◌, SomeIff};
ghost use Rattle.ldscript_tokens.specs.Numbers.{digit_value, value_in, scale_of, number_value};

use super::bytes::byte_at;
use super::front::{digits_length, is_hex};

/// The value of a digit of any base.
fn digit_value(digit: u8) -> u64
    ensures { result ≡ digit_value digit }
{
    let value = match digit {
        b'0'..=b'9' => digit - b'0',
        ..=b'F' => digit.saturating_sub(b'A' - 10),
        _ => digit.saturating_sub(b'a' - 10),
    };
    u64::from(value)
}

/// The value with one more digit, or `None` from 2^64 on.
fn with_digit(value: u64, base: u64, digit: u8) -> Option<u64>
    ensures { SomeIff result (value * base + digit_value digit < 2 ^ 64) (value * base + digit_value digit) }
{
    let shifted = value.checked_mul(base)?;
    shifted.checked_add(digit_value(digit))
}

/// The value of digits, or `None` from 2^64 on.
fn value_in(base: u64, digits: &[u8]) -> Option<u64>
    requires { 0 < base }
    ensures { SomeIff result (value_in base digits.now < 2 ^ 64) (value_in base digits.now) }
{
    let mut value: u64 = 0;
    for digit in digits {
        let Some(next) = with_digit(value, base, *digit) else {
            return None;
        };
        value = next;
    }
    Some(value)
}

/// The factor of a suffix.
fn scale_of(suffix: u8) -> u64
    ensures value { result ≡ scale_of suffix }
    ensures some { 0 < result }
{
    match suffix {
        b'K' => 1 << 10,
        b'M' => 1 << 20,
        _ => 1,
    }
}

/// The value of a number's spelling, with its suffix, or `None` from 2^64 on.
#[tactic(auto, unfolding(crate::specs::Numbers::number_value))]
pub fn number_value(spelled: &[u8]) -> Option<u64>
    ensures { SomeIff result (number_value spelled.now < 2 ^ 64) (number_value spelled.now) }
{
    let end = digits_length(spelled);
    let unscaled = if is_hex(spelled) {
        value_in(16, &spelled[2..end])?
    } else if byte_at(spelled, 0) == b'0' {
        value_in(8, &spelled[..end])?
    } else {
        value_in(10, &spelled[..end])?
    };
    unscaled.checked_mul(scale_of(byte_at(spelled, end)))
}
