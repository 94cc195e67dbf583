//! Reads parts of a file that may be no object.

ghost use Rattle.std.specs.Prelude.{◌≡◌, IfSome, length};

use elfobj::file::constants::{
    EHDR_SIZE, MAX_NAME_LENGTH, RELA_SIZE, SHDR_SIZE, STT_SECTION, SYM_SIZE,
};
use elfobj::file::elf_header::{name_table_number, section_count, section_table_offset};
use elfobj::file::names::is_graphic;
use elfobj::file::relocation_entry::{RelocationEntry, read_relocation_entry};
use elfobj::file::section_header::{NULL_HEADER, SectionHeader, read_header};
use elfobj::file::symbol_entry::{SymbolEntry, read_symbol_entry};
use std::str::from_utf8;

/// The greatest length of a name that is shown, in bytes.
const LONGEST_SHOWN: usize = 255;

/// The `size` bytes from an offset on, if the file has them.
pub fn part(bytes: &[u8], offset: u64, size: usize) -> Option<&[u8]>
    ensures { IfSome result (λ s. length s.now ≡ size) }
{
    let rest = bytes.get(offset as usize..)?;
    rest.get(..size)
}

/// A section header, by its number; NULL if there is none.
pub fn header(bytes: &[u8], number: u16) -> SectionHeader {
    if number == 0 || bytes.len() < usize::from(EHDR_SIZE) {
        return NULL_HEADER;
    }
    let offset = u64::from(SHDR_SIZE) * u64::from(number);
    match part(
        bytes,
        section_table_offset(bytes).saturating_add(offset),
        64,
    ) {
        Some(bytes) => read_header(bytes, 0),
        None => NULL_HEADER,
    }
}

/// The number of section headers.
pub fn header_count(bytes: &[u8]) -> u16 {
    if bytes.len() < usize::from(EHDR_SIZE) {
        return 0;
    }
    section_count(bytes)
}

/// An entry of a table of symbols.
pub fn symbol(bytes: &[u8], table: &SectionHeader, number: u64) -> Option<SymbolEntry> {
    let offset = (SYM_SIZE as u64).saturating_mul(number);
    let bytes = part(bytes, table.sh_offset.saturating_add(offset), 24)?;
    Some(read_symbol_entry(bytes, 0))
}

/// An entry of a table of relocations.
pub fn entry(bytes: &[u8], table: &SectionHeader, number: u64) -> Option<RelocationEntry> {
    let offset = (RELA_SIZE as u64).saturating_mul(number);
    let bytes = part(bytes, table.sh_offset.saturating_add(offset), 24)?;
    Some(read_relocation_entry(bytes, 0))
}

/// Whether a name begins at an offset of a string table.
pub fn is_name_at(bytes: &[u8], table: &SectionHeader, at: u32) -> bool {
    let size = table.sh_size.saturating_sub(u64::from(at)) as usize;
    let Some(text) = part(bytes, table.sh_offset.saturating_add(u64::from(at)), size) else {
        return false;
    };
    match text.iter().position(|b| *b == 0) {
        Some(end) => {
            end > 0
                && end <= usize::from(MAX_NAME_LENGTH)
                && text[..end].iter().all(|b| is_graphic(*b))
        }
        None => false,
    }
}

/// The number of the first table of symbols.
pub fn symbol_table(bytes: &[u8]) -> Option<u16> {
    (0..header_count(bytes)).find(|number| header(bytes, *number).is_symbol_table())
}

/// The name at an offset of a string table, if it may be shown.
pub fn name_at<'a>(bytes: &'a [u8], table: &SectionHeader, at: u32) -> Option<&'a str> {
    let left = table.sh_size.saturating_sub(u64::from(at));
    let size = usize::try_from(left).unwrap_or(0).min(LONGEST_SHOWN + 1);
    let text = part(bytes, table.sh_offset.saturating_add(u64::from(at)), size)?;
    let end = text.iter().position(|b| *b == 0)?;
    let name = text.get(..end)?;
    if name.is_empty() || !name.iter().all(|b| is_graphic(*b)) {
        return None;
    }
    from_utf8(name).ok()
}

/// The name of a section, if it may be shown.
pub fn section_name(bytes: &[u8], number: u16) -> Option<&str> {
    if bytes.len() < usize::from(EHDR_SIZE) {
        return None;
    }
    let names = header(bytes, name_table_number(bytes));
    name_at(bytes, &names, header(bytes, number).sh_name)
}

/// An entry of the table of symbols, if there is one.
pub fn symbol_of(bytes: &[u8], number: u64) -> Option<SymbolEntry> {
    let table = header(bytes, symbol_table(bytes)?);
    if number >= table.sh_size / SYM_SIZE as u64 {
        return None;
    }
    symbol(bytes, &table, number)
}

/// The name of a symbol, if it may be shown; for a symbol of a section, that of the section.
pub fn symbol_name(bytes: &[u8], number: u64) -> Option<&str> {
    let table = header(bytes, symbol_table(bytes)?);
    let entry = symbol_of(bytes, number)?;
    if entry.kind_number() == STT_SECTION {
        return section_name(bytes, entry.st_shndx);
    }
    let strings = header(bytes, u16::try_from(table.sh_link).unwrap_or(0));
    name_at(bytes, &strings, entry.st_name)
}
