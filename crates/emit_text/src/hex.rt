//! Numbers as 16 hex digits.

ghost use Rattle.std.specs.Prelude.{◌≡◌};
ghost use Rattle.ldmodel.specs.Lines.{hex};

use std::simd::prelude::*;

/// A number as 16 hex digits, `0` to `9` and `a` to `f`, all made at once.
#[inline(always)]
pub fn hex_digits(value: u64) -> [u8; 16]
    ensures { result ≡ hex value }
{
    // the highest byte first: then the digits are the halves of the bytes in their order, the high half of each first,
    // and one instruction of any x86-64 puts eight high halves and eight low halves side by side
    let swapped = value.swap_bytes();
    let high = u64x2::from_array([swapped >> 4, 0]).to_le_bytes();
    let low = u64x2::from_array([swapped, 0]).to_le_bytes();
    let both = high.shuffle(
        low,
        [0, 16, 1, 17, 2, 18, 3, 19, 4, 20, 5, 21, 6, 22, 7, 23],
    );
    let halves = both & u8x16::splat(15);
    let past_nine = halves
        .simd_gt(u8x16::splat(9))
        .select(u8x16::splat(b'a' - b'0' - 10), u8x16::splat(0));
    (halves + u8x16::splat(b'0') + past_nine).to_array()
}
