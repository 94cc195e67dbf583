//! Why bytes are refused, for people: where in the file, and what is wrong there. The file is examined anew, and only
//! the safety of that is proved.

use crate::why::look::{entry, header, header_count, is_name_at, symbol, symbol_table};
use crate::why::told::{Told, tell};
use elfobj::field::{is_outside, put_in_order};
use elfobj::file::constants::{
    EHDR_SIZE, ELFCLASS64, ELFDATA2LSB, EM_X86_64, ET_REL, EV_CURRENT, MAX_SECTION_HEADERS,
    MAX_SECTION_SIZE, PROFILE_FLAGS, RELA_SIZE, SHDR_SIZE, SHN_ABS, SHN_COMMON, SHN_UNDEF,
    SHT_NOBITS, SHT_NULL, SHT_REL, SHT_STRTAB, STB_GLOBAL, STB_WEAK, STT_COMMON, STT_FILE,
    STT_SECTION, SYM_SIZE,
};
use elfobj::file::elf_header::name_table_number;
use elfobj::file::numbers::{read_u16, read_u32};
use elfobj::file::relocation_entry::RelocationEntry;
use elfobj::file::section_header::SectionHeader;
use elfobj::file::symbol_entry::SymbolEntry;
use elfobj::section::{Section, SectionIndex, SectionKind};
use elfobj::{ObjectRefusal, Relocation};
use std::alloc::{AllocError, Global};

/// What a refusal is about.
#[derive(Clone, Copy)]
pub enum Subject {
    /// The ELF header.
    Header,
    /// The section with this header number.
    Section(u16),
    /// An entry of the symbol table.
    Symbol(u64),
    /// An entry of the relocation section with this header number.
    Entry(u16, u64),
}

/// Where a file is refused, and why.
#[derive(Clone, Copy)]
pub struct Explanation {
    /// What is wrong.
    pub subject: Subject,
    /// What is wrong with it.
    pub reason: &'static str,
}

// The ELF header

/// Why the file is not a relocatable object for x86-64.
fn machine_reason(bytes: &[u8]) -> &'static str {
    if bytes.len() < usize::from(EHDR_SIZE) {
        "it is short"
    } else if bytes[4] != ELFCLASS64 {
        "it is not of a 64-bit file"
    } else if bytes[5] != ELFDATA2LSB {
        "it is not of a little-endian file"
    } else if bytes[6] != EV_CURRENT || read_u32(bytes, 20) != u32::from(EV_CURRENT) {
        "its version is not 1"
    } else if read_u16(bytes, 16) != ET_REL {
        "it is not of a relocatable object"
    } else if read_u16(bytes, 18) != EM_X86_64 {
        "its machine is not x86-64"
    } else {
        "it is that of an object"
    }
}

/// What is wrong with the place of the section headers.
fn section_table_reason(bytes: &[u8]) -> &'static str {
    if bytes.len() >= usize::from(EHDR_SIZE) && read_u16(bytes, 58) != SHDR_SIZE {
        "its section headers are not of 64 bytes"
    } else {
        "its section headers end past the end of the file"
    }
}

/// What is wrong with the number of section headers.
fn section_count_reason(bytes: &[u8]) -> &'static str {
    match header_count(bytes) {
        0 => "it has no section headers",
        count if count > MAX_SECTION_HEADERS => "it has more than 65,279 section headers",
        _ => "its table of names is not one of its sections",
    }
}

// Section headers

/// Why a section is out of bounds.
fn bounds_reason(header: &SectionHeader, len: u64) -> Option<&'static str> {
    let end = header.sh_offset.saturating_add(header.sh_size);
    if header.sh_type == SHT_NULL {
        None
    } else if header.sh_type != SHT_NOBITS && end > len {
        Some("it ends past the end of the file")
    } else if header.sh_size > MAX_SECTION_SIZE {
        Some("it has more than 2^31 bytes")
    } else if header.sh_addralign != 0 && !header.sh_addralign.is_power_of_two() {
        Some("its alignment is no power of two")
    } else {
        None
    }
}

/// The first section that is out of bounds.
fn bounds(bytes: &[u8]) -> Option<Explanation> {
    if bytes.len() >= usize::from(EHDR_SIZE) {
        let names = name_table_number(bytes);
        if header(bytes, names).sh_type != SHT_STRTAB {
            let reason = "it is to have the names of sections, but is no string table";
            return Some(Explanation {
                subject: Subject::Section(names),
                reason,
            });
        }
    }
    for number in 0..header_count(bytes) {
        if let Some(reason) = bounds_reason(&header(bytes, number), bytes.len() as u64) {
            return Some(Explanation {
                subject: Subject::Section(number),
                reason,
            });
        }
    }
    None
}

/// Why an allocated section is outside the profile.
fn profile_reason(
    bytes: &[u8],
    header: &SectionHeader,
    names: &SectionHeader,
) -> Option<&'static str> {
    if header.sh_type == SHT_NULL || !header.is_alloc() {
        None
    } else if SectionKind::of_type(header.sh_type).is_none() {
        Some("it has the flag ALLOC, but is of a type that is not linked")
    } else if header.sh_flags | PROFILE_FLAGS != PROFILE_FLAGS {
        Some("it has a flag other than WRITE, ALLOC, EXECINSTR, MERGE and STRINGS")
    } else if !is_name_at(bytes, names, header.sh_name) {
        Some("its name does not end in the table of names, or is not of 1 to 65,535 graphic bytes")
    } else {
        None
    }
}

/// The first allocated section that is outside the profile.
fn profile(bytes: &[u8]) -> Option<Explanation> {
    if bytes.len() < usize::from(EHDR_SIZE) {
        return None;
    }
    let names = header(bytes, name_table_number(bytes));
    for number in 0..header_count(bytes) {
        if let Some(reason) = profile_reason(bytes, &header(bytes, number), &names) {
            return Some(Explanation {
                subject: Subject::Section(number),
                reason,
            });
        }
    }
    None
}

// The symbol table

/// What is wrong with the header of the symbol table.
fn symbol_table_reason(bytes: &[u8], table: &SectionHeader) -> Option<&'static str> {
    let count = table.sh_size / SYM_SIZE as u64;
    let strings = u16::try_from(table.sh_link).unwrap_or(0);
    if table.sh_entsize != SYM_SIZE as u64 {
        Some("its entries are not of 24 bytes")
    } else if table.sh_size == 0 {
        Some("it has no entries")
    } else if table.sh_size % SYM_SIZE as u64 != 0 {
        Some("its size is no multiple of 24")
    } else if strings >= header_count(bytes) || header(bytes, strings).sh_type != SHT_STRTAB {
        Some("its sh_link is not the number of a string table")
    } else if table.sh_info == 0 {
        Some("its sh_info is 0")
    } else if count < u64::from(table.sh_info) {
        Some("its sh_info is above the number of its entries")
    } else {
        None
    }
}

/// The first entry past the null entry that is on the wrong side of `sh_info`.
fn misplaced(bytes: &[u8], table: &SectionHeader) -> Option<Explanation> {
    for number in 1..table.sh_size / SYM_SIZE as u64 {
        let is_first = number < u64::from(table.sh_info);
        let is_local = symbol(bytes, table, number)?.is_local();
        if is_first && !is_local {
            return Some(Explanation {
                subject: Subject::Symbol(number),
                reason: "it is not local, but stands below sh_info",
            });
        }
        if !is_first && is_local {
            return Some(Explanation {
                subject: Subject::Symbol(number),
                reason: "it is local, but does not stand below sh_info",
            });
        }
    }
    None
}

/// What is wrong with the symbol table, apart from single symbols.
fn symbols(bytes: &[u8]) -> Option<Explanation> {
    let first = symbol_table(bytes)?;
    for number in first..header_count(bytes) {
        if number > first && header(bytes, number).is_symbol_table() {
            return Some(Explanation {
                subject: Subject::Section(number),
                reason: "it is a second symbol table",
            });
        }
    }
    let table = header(bytes, first);
    match symbol_table_reason(bytes, &table) {
        Some(reason) => Some(Explanation {
            subject: Subject::Section(first),
            reason,
        }),
        None => misplaced(bytes, &table),
    }
}

/// What is wrong with a common block.
fn common_reason(entry: &SymbolEntry) -> Option<&'static str> {
    if entry.st_shndx != SHN_COMMON {
        None
    } else if entry.bind() != STB_GLOBAL {
        Some("it is a common block, but not global")
    } else if !entry.st_value.is_power_of_two() {
        Some("it is a common block whose alignment is no power of two")
    } else if entry.st_size > MAX_SECTION_SIZE {
        Some("it is a common block of more than 2^31 bytes")
    } else {
        None
    }
}

/// Why a symbol is outside the profile.
fn symbol_reason(
    bytes: &[u8],
    entry: &SymbolEntry,
    sections: u16,
    strings: &SectionHeader,
) -> Option<&'static str> {
    let subject = entry.st_shndx;
    let kind = entry.kind_number();
    if entry.bind() > STB_WEAK {
        Some("its binding is not LOCAL, GLOBAL or WEAK")
    } else if kind > STT_COMMON {
        Some("its type is above 5 (COMMON)")
    } else if subject >= sections && subject != SHN_ABS && subject != SHN_COMMON {
        Some("its section is not one of the object's, ABS or COMMON")
    } else if entry.is_local() && (subject == SHN_UNDEF || subject == SHN_COMMON) {
        Some("it is local, but UNDEF or COMMON")
    } else if !entry.is_local() && (kind == STT_SECTION || kind == STT_FILE) {
        Some("it is of type SECTION or FILE, but not local")
    } else if !entry.is_local() && !is_name_at(bytes, strings, entry.st_name) {
        Some("its name does not end in the string table, or is not of 1 to 65,535 graphic bytes")
    } else {
        common_reason(entry)
    }
}

/// The first symbol that is outside the profile.
fn symbol_entries(bytes: &[u8]) -> Option<Explanation> {
    let table = header(bytes, symbol_table(bytes)?);
    let strings = header(bytes, u16::try_from(table.sh_link).unwrap_or(0));
    for number in 1..table.sh_size / SYM_SIZE as u64 {
        let entry = symbol(bytes, &table, number)?;
        if let Some(reason) = symbol_reason(bytes, &entry, header_count(bytes), &strings) {
            return Some(Explanation {
                subject: Subject::Symbol(number),
                reason,
            });
        }
    }
    None
}

// Relocation sections

/// The section of a relocation section, if it is linked.
fn changed(bytes: &[u8], table: &SectionHeader) -> Option<Section> {
    let number = u16::try_from(table.sh_info).unwrap_or(0);
    let header = header(bytes, number);
    let kind = header.linked_kind()?;
    Some(Section {
        number: SectionIndex(number),
        kind,
        flags: header.sh_flags,
        size: header.sh_size,
        alignment: header.sh_addralign,
    })
}

/// Whether an earlier relocation section is for the same section.
fn is_second(bytes: &[u8], number: u16, table: &SectionHeader) -> bool {
    (0..number).any(|k| {
        let other = header(bytes, k);
        other.is_relocation_section() && other.sh_info == table.sh_info
    })
}

/// What is wrong with the header of a relocation section.
fn relocation_section_reason(
    bytes: &[u8],
    number: u16,
    table: &SectionHeader,
) -> Option<&'static str> {
    if table.sh_info >= u32::from(header_count(bytes)) {
        Some("its sh_info is not the number of a section")
    } else if changed(bytes, table).is_none() {
        None
    } else if table.sh_type == SHT_REL {
        Some("its entries have no addends")
    } else if is_second(bytes, number, table) {
        Some("it is the second with relocations of its section")
    } else if table.sh_entsize != RELA_SIZE as u64 {
        Some("its entries are not of 24 bytes")
    } else if table.sh_size % RELA_SIZE as u64 != 0 {
        Some("its size is no multiple of 24")
    } else if symbol_table(bytes).map(u32::from) != Some(table.sh_link) {
        Some("its sh_link is not the number of the symbol table")
    } else {
        None
    }
}

/// The first relocation section whose header is outside the profile.
fn relocation_sections(bytes: &[u8]) -> Option<Explanation> {
    for number in 0..header_count(bytes) {
        let table = header(bytes, number);
        if table.is_relocation_section() {
            if let Some(reason) = relocation_section_reason(bytes, number, &table) {
                return Some(Explanation {
                    subject: Subject::Section(number),
                    reason,
                });
            }
        }
    }
    None
}

/// Why an entry of a relocation section has this refusal.
fn entry_reason(
    refusal: ObjectRefusal,
    entry: &RelocationEntry,
    section: &Section,
    symbols: usize,
) -> Option<&'static str> {
    let relocation = entry.relocation();
    match refusal {
        ObjectRefusal::RelocationSection if entry.names_no_symbol(symbols) => {
            Some("its symbol is not one of the object's")
        }
        ObjectRefusal::RelocationType if entry.is_strange_type() => {
            Some("its type is not one of the profile")
        }
        ObjectRefusal::FieldBounds if is_outside(&relocation, section.kind, section.size) => {
            Some("its field ends past the end of its section, or the section has no bytes")
        }
        _ => None,
    }
}

/// The first entry of a linked section's relocations that gives this refusal.
fn entries(bytes: &[u8], refusal: ObjectRefusal) -> Option<Explanation> {
    let symbols = header(bytes, symbol_table(bytes)?).sh_size as usize / SYM_SIZE;
    for number in 0..header_count(bytes) {
        let table = header(bytes, number);
        if !table.is_relocation_section() {
            continue;
        }
        let Some(section) = changed(bytes, &table) else {
            continue;
        };
        for k in 0..table.sh_size / RELA_SIZE as u64 {
            let entry = entry(bytes, &table, k)?;
            if let Some(reason) = entry_reason(refusal, &entry, &section, symbols) {
                return Some(Explanation {
                    subject: Subject::Entry(number, k),
                    reason,
                });
            }
        }
    }
    None
}

/// Whether two of these, in the order of their offsets, share a byte.
fn do_neighbours_meet(relocations: &[Relocation]) -> bool {
    let mut end = 0;
    for relocation in relocations {
        let width = relocation.kind.width();
        if width > 0 && relocation.offset < end {
            return true;
        }
        if width > 0 {
            end = relocation.offset.saturating_add(width);
        }
    }
    false
}

/// Whether two relocations of a table share a byte.
fn is_shared(alloc: Global, bytes: &[u8], table: &SectionHeader) -> Result<bool, AllocError> {
    let mut relocations = Vec::new(alloc);
    for k in 0..table.sh_size / RELA_SIZE as u64 {
        if let Some(entry) = entry(bytes, table, k) {
            relocations.push(entry.relocation())?;
        }
    }
    let mut sorted = Vec::new(alloc);
    put_in_order(&relocations, &mut sorted)?;
    Ok(do_neighbours_meet(&sorted))
}

/// The first relocation section of which two entries share a byte.
fn overlap(alloc: Global, bytes: &[u8]) -> Result<Option<Explanation>, AllocError> {
    for number in 0..header_count(bytes) {
        let table = header(bytes, number);
        if table.is_relocation_section()
            && changed(bytes, &table).is_some()
            && is_shared(alloc, bytes, &table)?
        {
            return Ok(Some(Explanation {
                subject: Subject::Section(number),
                reason: "two of its entries share a byte",
            }));
        }
    }
    Ok(None)
}

/// Where and why these bytes have this refusal.
fn find_explanation(
    alloc: Global,
    bytes: &[u8],
    refusal: ObjectRefusal,
) -> Result<Option<Explanation>, AllocError> {
    let reason = match refusal {
        ObjectRefusal::Short => "it has fewer than 64 bytes",
        ObjectRefusal::NotElf => "it does not begin with 7F 45 4C 46",
        ObjectRefusal::Machine => machine_reason(bytes),
        ObjectRefusal::SectionTable => section_table_reason(bytes),
        ObjectRefusal::SectionCount => section_count_reason(bytes),
        ObjectRefusal::SectionBounds => return Ok(bounds(bytes)),
        ObjectRefusal::SectionProfile => return Ok(profile(bytes)),
        ObjectRefusal::SymbolTable => return Ok(symbols(bytes)),
        ObjectRefusal::Symbol => return Ok(symbol_entries(bytes)),
        ObjectRefusal::RelocationSection => {
            let section = relocation_sections(bytes);
            return Ok(section.or_else(|| entries(bytes, refusal)));
        }
        ObjectRefusal::RelocationType | ObjectRefusal::FieldBounds => {
            return Ok(entries(bytes, refusal));
        }
        ObjectRefusal::FieldOverlap => return overlap(alloc, bytes),
        ObjectRefusal::NoMemory(_) => return Ok(None),
    };
    Ok(Some(Explanation {
        subject: Subject::Header,
        reason,
    }))
}

/// Where and why `Object::read` refused these bytes with this refusal, and what to do, for people; `None` if it did
/// not.
pub fn explain(
    alloc: Global,
    bytes: &[u8],
    refusal: ObjectRefusal,
) -> Result<Option<Told<'_>>, AllocError> {
    match find_explanation(alloc, bytes, refusal)? {
        Some(explanation) => Ok(Some(tell(bytes, refusal, explanation))),
        None => Ok(None),
    }
}
