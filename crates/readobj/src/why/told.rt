//! The message on a refused object: what it is about with its name, the reason with numbers and names, and what to do.

use crate::why::advice::advice;
use crate::why::explain::{Explanation, Subject};
use crate::why::look::{entry, header, section_name, symbol_name, symbol_of};
use crate::why::psabi::{FLAGS, binding_name, relocation_name, symbol_kind_name};
use elfobj::ObjectRefusal;
use elfobj::file::constants::{PROFILE_FLAGS, STB_WEAK, STT_COMMON};
use elfobj::section::SectionKind;
use std::fmt;

/// Details of what a refusal is about.
#[derive(Clone, Copy)]
enum Detail {
    /// None.
    Nothing,
    /// A section of this type.
    SectionType(u32),
    /// A section with these flags.
    Flags(u64),
    /// A symbol of this binding.
    Binding(u8),
    /// A symbol of this type.
    SymbolKind(u8),
    /// A relocation of this type, against the symbol of this number.
    Relocation(u32, u64),
}

/// A number and its name, if it has one.
fn write_number<W: fmt::Write>(
    f: &mut fmt::Formatter<W>,
    number: u32,
    name: Option<&'static str>,
) -> fmt::Result {
    match name {
        Some(name) => write!(f, "{name} ({number})"),
        None => write!(f, "{number}"),
    }
}

/// The flags that the profile does not have, by their names, and the others in one number.
fn write_flags<W: fmt::Write>(f: &mut fmt::Formatter<W>, flags: u64) -> fmt::Result {
    let mut rest = flags & !PROFILE_FLAGS;
    for (flag, name) in FLAGS.iter() {
        if rest & *flag != 0 {
            rest &= !*flag;
            write!(f, " {name}")?;
        }
    }
    if rest != 0 {
        write!(f, " 0x{rest:x}")?;
    }
    Ok(())
}

impl fmt::Display for Detail {
    fn fmt<W: fmt::Write>(&self, f: &mut fmt::Formatter<W>) -> fmt::Result {
        match self {
            Detail::Nothing => Ok(()),
            Detail::SectionType(number) => write!(f, ": 0x{number:x}"),
            Detail::Flags(flags) => {
                write!(f, ":")?;
                write_flags(f, *flags)
            }
            Detail::Binding(number) => {
                write!(f, ": ")?;
                write_number(f, u32::from(*number), binding_name(*number))
            }
            Detail::SymbolKind(number) => {
                write!(f, ": ")?;
                write_number(f, u32::from(*number), symbol_kind_name(*number))
            }
            Detail::Relocation(number, symbol) => {
                match relocation_name(*number) {
                    Some(kind) => write!(f, ": R_X86_64_{kind} ({number})")?,
                    None => write!(f, ": {number}")?,
                }
                write!(f, ", symbol {symbol}")
            }
        }
    }
}

/// Where a file is refused and why, with names, and what to do.
#[derive(Clone, Copy)]
pub struct Told<'a> {
    explanation: Explanation,
    /// The name of the section or the symbol.
    name: Option<&'a str>,
    detail: Detail,
    /// The name of the symbol that a relocation is against.
    symbol: Option<&'a str>,
    advice: Option<&'static str>,
}

impl fmt::Display for Subject {
    fn fmt<W: fmt::Write>(&self, f: &mut fmt::Formatter<W>) -> fmt::Result {
        match self {
            Subject::Header => write!(f, "the ELF header"),
            Subject::Section(number) => write!(f, "section {number}"),
            Subject::Symbol(number) => write!(f, "symbol {number}"),
            Subject::Entry(section, number) => write!(f, "entry {number} of section {section}"),
        }
    }
}

impl<'a> fmt::Display for Told<'a> {
    fn fmt<W: fmt::Write>(&self, f: &mut fmt::Formatter<W>) -> fmt::Result {
        let (subject, reason, detail) = (
            &self.explanation.subject,
            self.explanation.reason,
            &self.detail,
        );
        match self.name {
            Some(name) => write!(f, "{subject} ({name}): {reason}{detail}")?,
            None => write!(f, "{subject}: {reason}{detail}")?,
        }
        if let Some(symbol) = self.symbol {
            write!(f, " ({symbol})")?;
        }
        match self.advice {
            Some(advice) => write!(f, "\n    to do: {advice}"),
            None => Ok(()),
        }
    }
}

/// The name of the section or the symbol that a refusal is about.
fn subject_name(bytes: &[u8], subject: Subject) -> Option<&str> {
    match subject {
        Subject::Header => None,
        Subject::Section(number) | Subject::Entry(number, _) => section_name(bytes, number),
        Subject::Symbol(number) => symbol_name(bytes, number),
    }
}

/// The details of a section outside of the profile.
fn section_detail(bytes: &[u8], number: u16) -> Detail {
    let header = header(bytes, number);
    if SectionKind::of_type(header.sh_type).is_none() {
        Detail::SectionType(header.sh_type)
    } else if header.sh_flags | PROFILE_FLAGS != PROFILE_FLAGS {
        Detail::Flags(header.sh_flags)
    } else {
        Detail::Nothing
    }
}

/// The details of a symbol outside of the profile.
fn symbol_detail(bytes: &[u8], number: u64) -> Detail {
    match symbol_of(bytes, number) {
        Some(entry) if entry.bind() > STB_WEAK => Detail::Binding(entry.bind()),
        Some(entry) if entry.kind_number() > STT_COMMON => Detail::SymbolKind(entry.kind_number()),
        _ => Detail::Nothing,
    }
}

/// The details of an entry of a relocation section.
fn entry_detail(bytes: &[u8], table: u16, number: u64) -> Detail {
    match entry(bytes, &header(bytes, table), number) {
        Some(entry) => {
            let kind = (entry.r_info & 0xffff_ffff) as u32;
            Detail::Relocation(kind, entry.r_info >> 32)
        }
        None => Detail::Nothing,
    }
}

/// The name of the symbol of a relocation, if the refusal is about one.
fn target_name(bytes: &[u8], subject: Subject) -> Option<&str> {
    match subject {
        Subject::Entry(table, number) => {
            let entry = entry(bytes, &header(bytes, table), number)?;
            symbol_name(bytes, entry.r_info >> 32)
        }
        _ => None,
    }
}

/// The details of a refusal about this.
fn detail_of(bytes: &[u8], refusal: ObjectRefusal, subject: Subject) -> Detail {
    match subject {
        Subject::Header => Detail::Nothing,
        Subject::Section(number) if refusal == ObjectRefusal::SectionProfile => {
            section_detail(bytes, number)
        }
        Subject::Symbol(number) if refusal == ObjectRefusal::Symbol => symbol_detail(bytes, number),
        Subject::Section(_) | Subject::Symbol(_) => Detail::Nothing,
        Subject::Entry(table, number) => entry_detail(bytes, table, number),
    }
}

/// The message on bytes that are refused for this reason.
pub fn tell(bytes: &[u8], refusal: ObjectRefusal, explanation: Explanation) -> Told<'_> {
    let subject = explanation.subject;
    let name = subject_name(bytes, subject);
    let detail = detail_of(bytes, refusal, subject);
    let symbol = target_name(bytes, subject);
    let advice = advice(bytes, refusal, subject);
    Told {
        explanation,
        name,
        detail,
        symbol,
        advice,
    }
}
