//! Numbers in an ELF file: the lowest byte first (gABI, "Data Encoding", `ELFDATA2LSB`).

ghost use Rattle.std.specs.Prelude.{◌≡◌, ◌≤◌, ◌+◌, length};
ghost use Rattle.elfobj_file.specs.Numbers.{u16_at, u32_at, u64_at, i64_at};

use byteorder::{ByteOrder, LittleEndian};

/// The `Elf64_Half` in the two bytes from `at` on.
#[inline(always)]
#[tactic(auto, unfolding(crate::specs::Numbers::u16_at))]
pub fn read_u16(bytes: &[u8], at: usize) -> u16
    requires { at + 2 ≤ length bytes.now }
    ensures { result ≡ u16_at bytes.now at }
{
    LittleEndian::read_u16(&bytes[at..])
}

/// The `Elf64_Word` in the four bytes from `at` on.
#[inline(always)]
#[tactic(auto, unfolding(crate::specs::Numbers::u32_at))]
pub fn read_u32(bytes: &[u8], at: usize) -> u32
    requires { at + 4 ≤ length bytes.now }
    ensures { result ≡ u32_at bytes.now at }
{
    LittleEndian::read_u32(&bytes[at..])
}

/// The `Elf64_Xword`, `Elf64_Off` or `Elf64_Addr` in the eight bytes from `at` on.
#[inline(always)]
#[tactic(auto, unfolding(crate::specs::Numbers::u64_at))]
pub fn read_u64(bytes: &[u8], at: usize) -> u64
    requires { at + 8 ≤ length bytes.now }
    ensures { result ≡ u64_at bytes.now at }
{
    LittleEndian::read_u64(&bytes[at..])
}

/// The `Elf64_Sxword` in the eight bytes from `at` on.
#[inline(always)]
pub fn read_i64(bytes: &[u8], at: usize) -> i64
    requires { at + 8 ≤ length bytes.now }
    ensures { result ≡ i64_at bytes.now at }
{
    read_u64(bytes, at).cast_signed()
}
