//! Numbers of the System V gABI (ELF-64) and of the x86-64 psABI, under their standard names.

/// Class of a 64-bit file, byte `EI_CLASS` of the identification.
pub const ELFCLASS64: u8 = 2;
/// Little-endian data, byte `EI_DATA` of the identification.
pub const ELFDATA2LSB: u8 = 1;
/// The current version, byte `EI_VERSION` of the identification and field `e_version`.
pub const EV_CURRENT: u8 = 1;
/// A relocatable object, in `e_type`.
pub const ET_REL: u16 = 1;
/// An executable file, in `e_type`.
pub const ET_EXEC: u16 = 2;
/// AMD x86-64, in `e_machine`.
pub const EM_X86_64: u16 = 62;
/// The greatest number of section headers that needs no extended numbering.
pub const MAX_SECTION_HEADERS: u16 = 65279;

/// The size of an `Elf64_Ehdr`, the ELF header, in bytes; `e_ehsize`.
pub const EHDR_SIZE: u16 = 64;
/// The size of an `Elf64_Phdr`, a program header, in bytes; `e_phentsize`.
pub const PHDR_SIZE: u16 = 56;
/// The size of an `Elf64_Shdr`, a section header, in bytes; `e_shentsize`.
pub const SHDR_SIZE: u16 = 64;
/// The size of an `Elf64_Sym`, an entry of a symbol table, in bytes; its `sh_entsize`.
pub const SYM_SIZE: usize = 24;
/// The size of an `Elf64_Rela`, an entry of a relocation section with addends, in bytes; its `sh_entsize`.
pub const RELA_SIZE: usize = 24;

/// A loadable segment, in `p_type`.
pub const PT_LOAD: u32 = 1;
/// The segment may be executed, in `p_flags`.
pub const PF_X: u32 = 1;
/// The segment may be written, in `p_flags`.
pub const PF_W: u32 = 2;
/// The segment may be read, in `p_flags`.
pub const PF_R: u32 = 4;

/// An unused section header, in `sh_type`.
pub const SHT_NULL: u32 = 0;
/// Contents defined by the program: code or data.
pub const SHT_PROGBITS: u32 = 1;
/// The symbol table.
pub const SHT_SYMTAB: u32 = 2;
/// A string table.
pub const SHT_STRTAB: u32 = 3;
/// Relocations with addends.
pub const SHT_RELA: u32 = 4;
/// Notes.
pub const SHT_NOTE: u32 = 7;
/// Zeros, without bytes in the file.
pub const SHT_NOBITS: u32 = 8;
/// Relocations without addends.
pub const SHT_REL: u32 = 9;
/// Addresses of functions to call at the start.
pub const SHT_INIT_ARRAY: u32 = 14;
/// Addresses of functions to call at the end.
pub const SHT_FINI_ARRAY: u32 = 15;
/// Addresses of functions to call before all others.
pub const SHT_PREINIT_ARRAY: u32 = 16;
/// Unwind tables (psABI).
pub const SHT_X86_64_UNWIND: u32 = 0x7000_0001;

/// The section may be written.
pub const SHF_WRITE: u64 = 1;
/// The section takes memory when the program runs.
pub const SHF_ALLOC: u64 = 2;
/// The section holds code.
pub const SHF_EXECINSTR: u64 = 4;
/// The section may be merged.
pub const SHF_MERGE: u64 = 0x10;
/// The section holds strings that end with a zero byte.
pub const SHF_STRINGS: u64 = 0x20;
/// All flags that an allocated section may have: WRITE, ALLOC, EXECINSTR, MERGE and STRINGS.
pub const PROFILE_FLAGS: u64 = SHF_WRITE | SHF_ALLOC | SHF_EXECINSTR | SHF_MERGE | SHF_STRINGS;

/// Binding of a symbol: local to its object.
pub const STB_LOCAL: u8 = 0;
/// Binding of a symbol: global.
pub const STB_GLOBAL: u8 = 1;
/// Binding of a symbol: weak.
pub const STB_WEAK: u8 = 2;

/// Type of a symbol: none given.
pub const STT_NOTYPE: u8 = 0;
/// Type of a symbol: data.
pub const STT_OBJECT: u8 = 1;
/// Type of a symbol: code.
pub const STT_FUNC: u8 = 2;
/// Type of a symbol: a section.
pub const STT_SECTION: u8 = 3;
/// Type of a symbol: the source file.
pub const STT_FILE: u8 = 4;
/// Type of a symbol: data of a common block.
pub const STT_COMMON: u8 = 5;

/// Section index of an undefined symbol.
pub const SHN_UNDEF: u16 = 0;
/// Section index of an absolute symbol.
pub const SHN_ABS: u16 = 0xfff1;
/// Section index of a common block.
pub const SHN_COMMON: u16 = 0xfff2;

/// Type of a relocation: nothing.
pub const R_X86_64_NONE: u32 = 0;
/// Type of a relocation: S + A in 8 bytes.
pub const R_X86_64_64: u32 = 1;
/// Type of a relocation: S + A - P in 4 bytes.
pub const R_X86_64_PC32: u32 = 2;
/// Type of a relocation: L + A - P in 4 bytes.
pub const R_X86_64_PLT32: u32 = 4;
/// Type of a relocation: S + A in 4 bytes, zero-extended.
pub const R_X86_64_32: u32 = 10;
/// Type of a relocation: S + A in 4 bytes, sign-extended.
pub const R_X86_64_32S: u32 = 11;
/// Type of a relocation: S + A in 2 bytes.
pub const R_X86_64_16: u32 = 12;
/// Type of a relocation: S + A - P in 2 bytes.
pub const R_X86_64_PC16: u32 = 13;
/// Type of a relocation: S + A in 1 byte.
pub const R_X86_64_8: u32 = 14;
/// Type of a relocation: S + A - P in 1 byte.
pub const R_X86_64_PC8: u32 = 15;
/// Type of a relocation: S + A - P in 8 bytes.
pub const R_X86_64_PC64: u32 = 24;

/// The greatest size of a section or of a common block, in bytes.
pub const MAX_SECTION_SIZE: u64 = 0x8000_0000;
/// The greatest length of the name of a section or of a symbol that isn't local, in bytes.
pub const MAX_NAME_LENGTH: u16 = 65535;
