//! The numbers of the standards, each written a second time, so that a wrong one in `constants` is not proved.

ghost use Rattle.std.specs.Prelude.{◌≡◌, ◌^◌};
ghost use Rattle.elfobj_file.specs.declared.constants.TheConstants.{ELFCLASS64, ELFDATA2LSB, EV_CURRENT, ET_REL};
ghost use Rattle.elfobj_file.specs.declared.constants.TheConstants.{ET_EXEC};
ghost use Rattle.elfobj_file.specs.declared.constants.TheConstants.{EM_X86_64, MAX_SECTION_HEADERS, EHDR_SIZE};
ghost use Rattle.elfobj_file.specs.declared.constants.TheConstants.{PHDR_SIZE};
ghost use Rattle.elfobj_file.specs.declared.constants.TheConstants.{SHDR_SIZE, SYM_SIZE, RELA_SIZE, PT_LOAD, PF_X};
ghost use Rattle.elfobj_file.specs.declared.constants.TheConstants.{PF_W};
ghost use Rattle.elfobj_file.specs.declared.constants.TheConstants.{PF_R, SHT_NULL, SHT_PROGBITS, SHT_SYMTAB};
ghost use Rattle.elfobj_file.specs.declared.constants.TheConstants.{SHT_STRTAB};
ghost use Rattle.elfobj_file.specs.declared.constants.TheConstants.{SHT_RELA, SHT_NOTE, SHT_NOBITS, SHT_REL};
ghost use Rattle.elfobj_file.specs.declared.constants.TheConstants.{SHT_INIT_ARRAY, SHT_FINI_ARRAY, SHT_PREINIT_ARRAY};
ghost use Rattle.elfobj_file.specs.declared.constants.TheConstants.{SHT_X86_64_UNWIND, SHF_WRITE, SHF_ALLOC};
ghost use Rattle.elfobj_file.specs.declared.constants.TheConstants.{SHF_EXECINSTR};
ghost use Rattle.elfobj_file.specs.declared.constants.TheConstants.{SHF_MERGE, SHF_STRINGS, PROFILE_FLAGS, STB_LOCAL};
ghost use Rattle.elfobj_file.specs.declared.constants.TheConstants.{STB_GLOBAL, STB_WEAK, STT_NOTYPE, STT_OBJECT};
ghost use Rattle.elfobj_file.specs.declared.constants.TheConstants.{STT_FUNC};
ghost use Rattle.elfobj_file.specs.declared.constants.TheConstants.{STT_SECTION, STT_FILE, STT_COMMON, SHN_UNDEF};
ghost use Rattle.elfobj_file.specs.declared.constants.TheConstants.{SHN_ABS};
ghost use Rattle.elfobj_file.specs.declared.constants.TheConstants.{SHN_COMMON, R_X86_64_NONE, R_X86_64_64};
ghost use Rattle.elfobj_file.specs.declared.constants.TheConstants.{R_X86_64_PC32};
ghost use Rattle.elfobj_file.specs.declared.constants.TheConstants.{R_X86_64_PLT32, R_X86_64_32, R_X86_64_32S};
ghost use Rattle.elfobj_file.specs.declared.constants.TheConstants.{R_X86_64_16};
ghost use Rattle.elfobj_file.specs.declared.constants.TheConstants.{R_X86_64_PC16, R_X86_64_8, R_X86_64_PC8};
ghost use Rattle.elfobj_file.specs.declared.constants.TheConstants.{R_X86_64_PC64};
ghost use Rattle.elfobj_file.specs.declared.constants.TheConstants.{MAX_SECTION_SIZE, MAX_NAME_LENGTH};

/// The constants are those of the System V gABI (ELF-64), of the x86-64 psABI, and of the limits in `docs/objects.md`.
pub fn standard_numbers()
    ensures file_header { (ELFCLASS64 ≡ 2) × (ELFDATA2LSB ≡ 1) × (EV_CURRENT ≡ 1) × (ET_REL ≡ 1) × (ET_EXEC ≡ 2)
        × (EM_X86_64 ≡ 62) }
    ensures sizes { (EHDR_SIZE ≡ 64) × (PHDR_SIZE ≡ 56) × (SHDR_SIZE ≡ 64) × (SYM_SIZE ≡ 24) × (RELA_SIZE ≡ 24) }
    ensures program_headers { (PT_LOAD ≡ 1) × (PF_X ≡ 1) × (PF_W ≡ 2) × (PF_R ≡ 4) }
    ensures section_types { (SHT_NULL ≡ 0) × (SHT_PROGBITS ≡ 1) × (SHT_SYMTAB ≡ 2) × (SHT_STRTAB ≡ 3) × (SHT_RELA ≡ 4)
        × (SHT_NOTE ≡ 7) × (SHT_NOBITS ≡ 8) × (SHT_REL ≡ 9) × (SHT_INIT_ARRAY ≡ 14) × (SHT_FINI_ARRAY ≡ 15)
        × (SHT_PREINIT_ARRAY ≡ 16) × (SHT_X86_64_UNWIND ≡ 0x70000001) }
    ensures section_flags { (SHF_WRITE ≡ 1) × (SHF_ALLOC ≡ 2) × (SHF_EXECINSTR ≡ 4) × (SHF_MERGE ≡ 0x10)
        × (SHF_STRINGS ≡ 0x20) × (PROFILE_FLAGS ≡ 0x37) }
    ensures bindings { (STB_LOCAL ≡ 0) × (STB_GLOBAL ≡ 1) × (STB_WEAK ≡ 2) }
    ensures symbol_types { (STT_NOTYPE ≡ 0) × (STT_OBJECT ≡ 1) × (STT_FUNC ≡ 2) × (STT_SECTION ≡ 3) × (STT_FILE ≡ 4)
        × (STT_COMMON ≡ 5) }
    ensures symbol_places { (SHN_UNDEF ≡ 0) × (SHN_ABS ≡ 0xFFF1) × (SHN_COMMON ≡ 0xFFF2) }
    ensures relocation_types { (R_X86_64_NONE ≡ 0) × (R_X86_64_64 ≡ 1) × (R_X86_64_PC32 ≡ 2) × (R_X86_64_PLT32 ≡ 4)
        × (R_X86_64_32 ≡ 10) × (R_X86_64_32S ≡ 11) × (R_X86_64_16 ≡ 12) × (R_X86_64_PC16 ≡ 13) × (R_X86_64_8 ≡ 14)
        × (R_X86_64_PC8 ≡ 15) × (R_X86_64_PC64 ≡ 24) }
    ensures limits { (MAX_SECTION_HEADERS ≡ 65279) × (MAX_SECTION_SIZE ≡ 2 ^ 31) × (MAX_NAME_LENGTH ≡ 65535) }
{}
