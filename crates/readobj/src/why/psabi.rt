//! Names of the gABI and the psABI that the profile does not have.

/// The relocation types of the x86-64 psABI by their numbers, without `R_X86_64_`.
const RELOCATIONS: [&str; 43] = [
    "NONE",
    "64",
    "PC32",
    "GOT32",
    "PLT32",
    "COPY",
    "GLOB_DAT",
    "JUMP_SLOT",
    "RELATIVE",
    "GOTPCREL",
    "32",
    "32S",
    "16",
    "PC16",
    "8",
    "PC8",
    "DTPMOD64",
    "DTPOFF64",
    "TPOFF64",
    "TLSGD",
    "TLSLD",
    "DTPOFF32",
    "GOTTPOFF",
    "TPOFF32",
    "PC64",
    "GOTOFF64",
    "GOTPC32",
    "GOT64",
    "GOTPCREL64",
    "GOTPC64",
    "GOTPLT64",
    "PLTOFF64",
    "SIZE32",
    "SIZE64",
    "GOTPC32_TLSDESC",
    "TLSDESC_CALL",
    "TLSDESC",
    "IRELATIVE",
    "RELATIVE64",
    "PC32_BND",
    "PLT32_BND",
    "GOTPCRELX",
    "REX_GOTPCRELX",
];

/// The flag of sections with thread-local variables.
pub const SHF_TLS: u64 = 0x400;
/// The flag of sections that belong to a group.
pub const SHF_GROUP: u64 = 0x200;

/// The flags of sections that the profile does not have, without `SHF_`.
pub const FLAGS: [(u64, &str); 9] = [
    (0x40, "INFO_LINK"),
    (0x80, "LINK_ORDER"),
    (0x100, "OS_NONCONFORMING"),
    (SHF_GROUP, "GROUP"),
    (SHF_TLS, "TLS"),
    (0x800, "COMPRESSED"),
    (0x20_0000, "GNU_RETAIN"),
    (0x1000_0000, "X86_64_LARGE"),
    (0x8000_0000, "EXCLUDE"),
];

/// The type of symbols of thread-local variables.
pub const STT_TLS: u8 = 6;
/// The type of symbols of indirect functions (IFUNC).
pub const STT_GNU_IFUNC: u8 = 10;
/// The binding of symbols that are unique in a process.
pub const STB_GNU_UNIQUE: u8 = 10;

/// The name of a relocation type, without `R_X86_64_`.
pub fn relocation_name(number: u32) -> Option<&'static str> {
    let number = usize::try_from(number).ok()?;
    RELOCATIONS.get(number).copied()
}

/// The name of a type of symbols that the profile does not have.
pub fn symbol_kind_name(number: u8) -> Option<&'static str> {
    match number {
        STT_TLS => Some("TLS"),
        STT_GNU_IFUNC => Some("GNU_IFUNC"),
        _ => None,
    }
}

/// The name of a binding that the profile does not have.
pub fn binding_name(number: u8) -> Option<&'static str> {
    match number {
        STB_GNU_UNIQUE => Some("GNU_UNIQUE"),
        _ => None,
    }
}
