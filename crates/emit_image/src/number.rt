//! Numbers of the standard's records, the lowest byte first, at the end of a list of bytes.

ghost use Rattle.std.specs.Prelude.{◌≡◌, ◌++◌, OnOk};
ghost use Rattle.std.specs.Int.{to_le_bytes, w16, w32, w64};

use growth::{NoMemory, vec};

/// The two lowest bytes of a number.
pub(crate) fn put_u16(out: &mut Vec<u8>, n: u64) -> Result<(), NoMemory>
    ensures { OnOk result (out.new.items ≡ out.old.items ++ to_le_bytes w16 n) }
{
    vec::extend_from_slice(out, &n.to_le_bytes()[..2])
}

/// The four lowest bytes of a number.
pub(crate) fn put_u32(out: &mut Vec<u8>, n: u64) -> Result<(), NoMemory>
    ensures { OnOk result (out.new.items ≡ out.old.items ++ to_le_bytes w32 n) }
{
    vec::extend_from_slice(out, &n.to_le_bytes()[..4])
}

/// The eight bytes of a number.
pub(crate) fn put_u64(out: &mut Vec<u8>, n: u64) -> Result<(), NoMemory>
    ensures { OnOk result (out.new.items ≡ out.old.items ++ to_le_bytes w64 n) }
{
    vec::extend_from_slice(out, &n.to_le_bytes())
}

/// The eight lowest bytes of a number.
pub(crate) fn put_low_u64(out: &mut Vec<u8>, n: u128) -> Result<(), NoMemory>
    ensures { OnOk result (out.new.items ≡ out.old.items ++ to_le_bytes w64 n) }
{
    vec::extend_from_slice(out, &n.to_le_bytes()[..8])
}
