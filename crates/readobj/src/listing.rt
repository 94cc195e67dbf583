//! The lines of an object.

use crate::names;
use elfobj::Object;
use elfobj::file::constants::{SHF_ALLOC, SHF_EXECINSTR, SHF_MERGE, SHF_STRINGS, SHF_WRITE};
use elfobj::relocation::{Relocation, SymbolIndex};
use elfobj::section::{LinkedIndex, Section};
use elfobj::symbol::{Symbol, SymbolPlace};
use std::io;
use std::io::Write;

/// The letter of each flag, in the order of printing.
const LETTERS: [(u64, &str); 5] = [
    (SHF_WRITE, "W"),
    (SHF_ALLOC, "A"),
    (SHF_EXECINSTR, "X"),
    (SHF_MERGE, "M"),
    (SHF_STRINGS, "S"),
];

/// The letters of the flags of a section.
fn print_flags<W: Write>(out: &mut W, flags: u64) -> io::Result<()> {
    for (flag, letter) in LETTERS.iter() {
        if flags & *flag != 0 {
            write!(out, "{letter}")?;
        }
    }
    Ok(())
}

/// The line of a section.
fn print_section<W: Write>(out: &mut W, section: &Section, name: &[u8]) -> io::Result<()> {
    let kind = names::section_kind(section.kind);
    write!(out, "section {} {kind} ", section.number.0)?;
    print_flags(out, section.flags)?;
    write!(out, " {} {} ", section.size, section.alignment)?;
    out.write_all(name)?;
    out.write_all(b"\n")
}

/// The place of a symbol: `UND`, `ABS`, `COM` or the number of a section.
fn print_place<W: Write>(out: &mut W, place: SymbolPlace) -> io::Result<()> {
    match place {
        SymbolPlace::Undefined => out.write_all(b"UND"),
        SymbolPlace::Absolute => out.write_all(b"ABS"),
        SymbolPlace::Common => out.write_all(b"COM"),
        SymbolPlace::Section(index) => write!(out, "{}", index.0),
    }
}

/// The line of a symbol.
fn print_symbol<W: Write>(out: &mut W, i: u32, symbol: &Symbol, name: &[u8]) -> io::Result<()> {
    let binding = names::binding(symbol.binding);
    let kind = names::symbol_kind(symbol.kind);
    write!(out, "symbol {i} {binding} {kind} ")?;
    print_place(out, symbol.place)?;
    write!(out, " {} {}", symbol.value, symbol.size)?;
    if !name.is_empty() {
        out.write_all(b" ")?;
        out.write_all(name)?;
    }
    out.write_all(b"\n")
}

/// The line of a relocation.
fn print_relocation<W: Write>(
    out: &mut W,
    section: u16,
    relocation: &Relocation,
) -> io::Result<()> {
    let kind = names::relocation_kind(relocation.kind);
    let Relocation {
        offset,
        symbol,
        addend,
        ..
    } = *relocation;
    writeln!(
        out,
        "relocation {section} {offset} {kind} {} {addend}",
        symbol.0
    )
}

/// The lines of its linked sections.
fn print_sections<W: Write>(out: &mut W, object: &Object) -> io::Result<()> {
    for (i, section) in object.sections().iter().enumerate() {
        print_section(out, section, object.section_name(LinkedIndex(i)))?;
    }
    Ok(())
}

/// The lines of its symbols.
fn print_symbols<W: Write>(out: &mut W, object: &Object) -> io::Result<()> {
    for (i, symbol) in object.symbols().iter().enumerate() {
        let index = i as u32;
        print_symbol(out, index, symbol, object.name_of(SymbolIndex(index)))?;
    }
    Ok(())
}

/// The lines of the relocations of its linked sections.
fn print_relocations<W: Write>(out: &mut W, object: &Object) -> io::Result<()> {
    for (i, section) in object.sections().iter().enumerate() {
        for relocation in object.relocations(LinkedIndex(i)) {
            print_relocation(out, section.number.0, relocation)?;
        }
    }
    Ok(())
}

/// All lines of an object.
pub fn print_object<W: Write>(out: &mut W, object: &Object) -> io::Result<()> {
    print_sections(out, object)?;
    print_symbols(out, object)?;
    print_relocations(out, object)
}
