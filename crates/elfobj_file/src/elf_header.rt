//! Tests of the ELF header (gABI, "ELF Header", `Elf64_Ehdr`: 64 bytes).

ghost use Rattle.std.specs.Prelude.{◌≡◌, ◌≤◌, IfNone, false, find, length};
ghost use Rattle.elfobj_file.specs.ElfHeader.{e_shoff, e_shnum, e_shstrndx};
ghost use Rattle.elfobj_file.specs.Refusal.{holds, header_refusals};
ghost use Rattle.elfobj_file.specs.SectionTable.{IsTableWithin, IsCountRight, HasSectionTable};
ghost use Rattle.elfobj_file.specs.declared.refusal.ObjectRefusal.TheVariants.{Short, NotElf, Machine, SectionTable};
ghost use Rattle.elfobj_file.specs.declared.refusal.ObjectRefusal.TheVariants.{SectionCount};

use crate::constants::{
    EHDR_SIZE, ELFCLASS64, ELFDATA2LSB, EM_X86_64, ET_REL, EV_CURRENT, MAX_SECTION_HEADERS,
    SHDR_SIZE,
};
use crate::numbers::{read_u16, read_u32, read_u64};
use crate::refusal::ObjectRefusal;

/// `e_shoff`: the file offset of the section headers.
pub fn section_table_offset(bytes: &[u8]) -> u64
    requires { 64 ≤ length bytes.now }
    ensures { result ≡ e_shoff bytes.now }
{
    read_u64(bytes, 40)
}

/// `e_shnum`: the number of section headers.
pub fn section_count(bytes: &[u8]) -> u16
    requires { 64 ≤ length bytes.now }
    ensures { result ≡ e_shnum bytes.now }
{
    read_u16(bytes, 60)
}

/// `e_shstrndx`: the index of the header of the section name table.
pub fn name_table_number(bytes: &[u8]) -> u16
    requires { 64 ≤ length bytes.now }
    ensures { result ≡ e_shstrndx bytes.now }
{
    read_u16(bytes, 62)
}

/// Refusal 1: the file is shorter than an ELF header.
#[tactic(auto, unfolding(crate::specs::Refusal::holds))]
fn is_short(bytes: &[u8]) -> bool
    ensures value { result ≡ holds bytes.now Short }
    ensures long { result ≡ false → 64 ≤ length bytes.now }
{
    bytes.len() < usize::from(EHDR_SIZE)
}

/// Refusal 2: the magic number is not that of ELF.
#[tactic(auto, unfolding(crate::specs::Refusal::holds))]
fn is_not_elf(bytes: &[u8]) -> bool
    requires { 64 ≤ length bytes.now }
    ensures { result ≡ holds bytes.now NotElf }
{
    !(bytes[0] == 0x7f && bytes[1] == b'E' && bytes[2] == b'L' && bytes[3] == b'F')
}

/// Refusal 3: not a little-endian 64-bit relocatable object of version 1 for x86-64.
#[tactic(auto, unfolding(crate::specs::Refusal::holds))]
fn is_other_machine(bytes: &[u8]) -> bool
    requires { 64 ≤ length bytes.now }
    ensures { result ≡ holds bytes.now Machine }
{
    let is_class = bytes[4] == ELFCLASS64 && bytes[5] == ELFDATA2LSB && bytes[6] == EV_CURRENT;
    let is_object = is_class && read_u16(bytes, 16) == ET_REL;
    !(is_object && read_u16(bytes, 18) == EM_X86_64 && read_u32(bytes, 20) == u32::from(EV_CURRENT))
}

/// Refusal 4: section headers of another size, or not all inside the file.
#[tactic(auto, unfolding(crate::specs::Refusal::holds))]
fn is_table_outside(bytes: &[u8]) -> bool
    requires { 64 ≤ length bytes.now }
    ensures value { result ≡ holds bytes.now SectionTable }
    ensures within { result ≡ false → IsTableWithin bytes.now }
{
    if read_u16(bytes, 58) != SHDR_SIZE {
        return true;
    }
    let size = u64::from(SHDR_SIZE) * u64::from(section_count(bytes));
    let room = bytes.len() as u64;
    room < size || room - size < section_table_offset(bytes)
}

/// Refusal 5: no section header, too many, or a name table that is not among them.
#[tactic(auto, unfolding(crate::specs::Refusal::holds))]
fn is_count_wrong(bytes: &[u8]) -> bool
    requires { 64 ≤ length bytes.now }
    ensures value { result ≡ holds bytes.now SectionCount }
    ensures right { result ≡ false → IsCountRight bytes.now }
{
    let count = section_count(bytes);
    count == 0 || count > MAX_SECTION_HEADERS || count <= name_table_number(bytes)
}

/// The lowest refusal whose condition the ELF header alone decides. If there is none, the section headers can be read.
pub fn header_refusal(bytes: &[u8]) -> Option<ObjectRefusal>
    ensures value { result ≡ find (holds bytes.now) header_refusals }
    ensures table { IfNone result (HasSectionTable bytes.now) }
{
    if is_short(bytes) {
        return Some(ObjectRefusal::Short);
    }
    if is_not_elf(bytes) {
        return Some(ObjectRefusal::NotElf);
    }
    if is_other_machine(bytes) {
        return Some(ObjectRefusal::Machine);
    }
    if is_table_outside(bytes) {
        return Some(ObjectRefusal::SectionTable);
    }
    if is_count_wrong(bytes) {
        return Some(ObjectRefusal::SectionCount);
    }
    None
}
