//! The length of a run of bytes that may occur in a name, tested a load of bytes at a time.

ghost use Rattle.std.specs.Prelude.{◌≡◌, ◌+◌, ◌≤◌, length};
ghost use Rattle.elfobj_file.specs.GraphicRuns.{IsGraphicFrom, first_set};

use std::simd::prelude::*;

/// The number of bytes in one load.
pub(crate) const LANES: usize = 16;

/// The index of the lowest bit that is set, or the number of lanes if none is.
#[inline(always)]
fn first_set(mask: u64) -> usize
    ensures { result ≡ first_set mask LANES }
{
    if mask == 0 {
        LANES
    } else {
        mask.trailing_zeros() as usize
    }
}

/// How many bytes from `at` on may occur in a name, up to the first that may not; at most one load.
#[inline(always)]
pub(crate) fn graphic_run(bytes: &[u8], at: usize) -> usize
    requires { at + LANES ≤ length bytes.now }
    ensures { IsGraphicFrom bytes.now at LANES result }
{
    let loaded = u8x16::from_slice(&bytes[at..]);
    let stops = loaded.simd_lt(u8x16::splat(b'!')) | loaded.simd_ge(u8x16::splat(0x7f));
    first_set(stops.to_bitmask())
}
