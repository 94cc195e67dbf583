//! What to do about an object that is refused.

use crate::why::explain::Subject;
use crate::why::look::{entry, header, symbol_of};
use crate::why::psabi::{SHF_GROUP, SHF_TLS, STB_GNU_UNIQUE, STT_GNU_IFUNC, STT_TLS};
use elfobj::ObjectRefusal;
use elfobj::file::constants::{ELFCLASS64, ET_REL};
use elfobj::file::numbers::read_u16;

/// Position-independent code.
const POSITION: &str =
    "compile with -fno-pic -mcmodel=small, or -mcmodel=kernel for the upper 2 GB, and without -fno-plt";
/// Thread-local variables.
const THREADS: &str = "there is no TLS: no __thread, thread_local or #[thread_local]";
/// COMDAT groups.
const GROUPS: &str =
    "there is no COMDAT: compile with -fno-gnu-unique, and make plain sections by `ld -r --force-group-allocation`";
/// Link-time optimization.
const LTO: &str = "compile without -flto";
/// Relocations that a linker makes.
const DYNAMIC: &str =
    "only a linker makes this type, for a dynamic linker: give the objects that it was made of";

/// Whether a file holds LLVM's bitcode.
fn is_bitcode(bytes: &[u8]) -> bool {
    bytes.starts_with(b"BC\xc0\xde") || bytes.starts_with(b"\xde\xc0\x17\x0b")
}

/// Whether a file is an archive.
fn is_archive(bytes: &[u8]) -> bool {
    bytes.starts_with(b"!<arch>\n") || bytes.starts_with(b"!<thin>\n")
}

/// What to do about a file that is of no ELF format.
fn of_format(bytes: &[u8]) -> Option<&'static str> {
    if is_bitcode(bytes) {
        Some(LTO)
    } else if is_archive(bytes) {
        Some("it is an archive: `ar x` unpacks its objects")
    } else {
        None
    }
}

/// What to do about an object for another machine.
fn of_machine(bytes: &[u8]) -> Option<&'static str> {
    if bytes.len() < 64 {
        None
    } else if bytes[4] != ELFCLASS64 {
        Some("compile with -m64")
    } else if read_u16(bytes, 16) != ET_REL {
        Some("give what `gcc -c` makes, not what a linker made of it")
    } else {
        None
    }
}

/// What to do about a section with such flags.
fn of_flags(flags: u64) -> Option<&'static str> {
    if flags & SHF_TLS != 0 {
        Some(THREADS)
    } else if flags & SHF_GROUP != 0 {
        Some(GROUPS)
    } else {
        None
    }
}

/// What to do about a symbol of this binding and type.
fn of_symbol(binding: u8, kind: u8) -> Option<&'static str> {
    if binding == STB_GNU_UNIQUE {
        Some("compile with -fno-gnu-unique")
    } else if kind == STT_TLS {
        Some(THREADS)
    } else if kind == STT_GNU_IFUNC {
        Some("there is no ifunc: nothing chooses a function when the program starts")
    } else {
        None
    }
}

/// What to do about a relocation of this type.
fn of_relocation(number: u32) -> Option<&'static str> {
    match number {
        3 | 9 | 25..=31 | 41 | 42 => Some(POSITION),
        16..=23 | 34..=36 => Some(THREADS),
        5..=8 | 37 | 38 => Some(DYNAMIC),
        _ => None,
    }
}

/// What to do about a refusal at a place, if anything is known.
pub fn advice(bytes: &[u8], refusal: ObjectRefusal, subject: Subject) -> Option<&'static str> {
    match subject {
        Subject::Header => match refusal {
            ObjectRefusal::Short | ObjectRefusal::NotElf => of_format(bytes),
            ObjectRefusal::Machine => of_machine(bytes),
            _ => None,
        },
        Subject::Section(number) if refusal == ObjectRefusal::SectionProfile => {
            of_flags(header(bytes, number).sh_flags)
        }
        Subject::Symbol(number) if refusal == ObjectRefusal::Symbol => {
            let entry = symbol_of(bytes, number)?;
            of_symbol(entry.bind(), entry.kind_number())
        }
        Subject::Entry(table, number) if refusal == ObjectRefusal::RelocationType => {
            let entry = entry(bytes, &header(bytes, table), number)?;
            of_relocation((entry.r_info & 0xffff_ffff) as u32)
        }
        Subject::Section(_) | Subject::Symbol(_) | Subject::Entry(_, _) => None,
    }
}
