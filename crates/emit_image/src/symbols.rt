//! The symbol table and the names in it (gABI, "Symbol Table").

ghost use Rattle.std.specs.Prelude.{◌≡◌, ◌+◌, ◌*◌, ◌≤◌, IfOk, OnOk, if◌then◌else◌};
ghost use Rattle.ldmodel.specs.Tail.{SymbolEntry, kind_number, symbol_bytes};
ghost use Rattle.emit_image.specs.Tables.{AreTablesOf, binding_number};

use crate::table_entries::{ENTRY_SIZE, Entries};
use crate::table_names::Names;
use elfobj::file::constants::{
    STB_GLOBAL, STB_WEAK, STT_FILE, STT_FUNC, STT_NOTYPE, STT_OBJECT, STT_SECTION,
};
use elfobj::file::symbol::SymbolKind;
use growth::NoMemory;
use std::alloc::Global;

/// A symbol of the output that has a value.
#[derive(Clone, Copy, Debug)]
pub struct TableSymbol<'a> {
    /// The name.
    pub name: &'a [u8],
    /// Whether a weak definition defines it.
    pub weak: bool,
    /// The type of the object's symbol that defines it, or `Object` for a common block, or `NoType` for the script's.
    pub kind: SymbolKind,
    /// `st_shndx`: the number of the header of its output section, or `SHN_ABS`.
    pub section: u32,
    /// The value.
    pub value: u64,
    /// The size of the object's symbol or of the common block, else 0.
    pub size: u64,
}

/// The symbol table and its names, `.symtab` and `.strtab`, to which symbols are added.
#[derive(Drop)]
pub struct SymbolTables {
    entries: Entries,
    names: Names,
}

/// The type of a symbol; a common one is data in the output.
fn type_of(kind: SymbolKind) -> u8
    ensures number { result ≡ kind_number kind }
    ensures most { result ≤ 4 }
{
    match kind {
        SymbolKind::NoType => STT_NOTYPE,
        SymbolKind::Object | SymbolKind::Common => STT_OBJECT,
        SymbolKind::Function => STT_FUNC,
        SymbolKind::Section => STT_SECTION,
        SymbolKind::File => STT_FILE,
    }
}

/// `st_info`: binding and type.
fn info_of(x: &TableSymbol<'_>) -> u8
    ensures { result ≡ 16 * binding_number x.now.weak + kind_number x.now.kind }
{
    let binding = if x.weak { STB_WEAK } else { STB_GLOBAL };
    16 * binding + type_of(x.kind)
}

/// The entry of a symbol whose name begins at `name`.
fn symbol_entry(name: u64, x: &TableSymbol<'_>) -> [u8; ENTRY_SIZE]
    ensures { result ≡ symbol_bytes (record {
      name = name;
      binding = binding_number x.now.weak;
      type = kind_number x.now.kind;
      section = x.now.section;
      value = x.now.value;
      size = x.now.size;
    }) }
{
    let name = name.to_le_bytes();
    let info = info_of(x);
    let section = u64::from(x.section).to_le_bytes();
    let value = x.value.to_le_bytes();
    let size = x.size.to_le_bytes();
    [
        name[0], name[1], name[2], name[3], info, 0, section[0], section[1], value[0], value[1],
        value[2], value[3], value[4], value[5], value[6], value[7], size[0], size[1], size[2],
        size[3], size[4], size[5], size[6], size[7],
    ]
}

impl SymbolTables {
    ghost use Rattle.std.specs.Prelude.{◌++◌, ◌∷◌, [], List};
    ghost use Rattle.emit_image.specs.declared.symbols.TableSymbol.{TableSymbol as SymbolOf};

    /// The tables of no symbols, with room for this number of them, whose names have this number of bytes in all.
    ///
    /// # Errors
    ///
    /// If memory runs out.
    pub fn with_capacity(
        alloc: Global,
        symbols: usize,
        names: usize,
    ) -> Result<SymbolTables, NoMemory>
        ensures { IfOk result (AreTablesOf []) }
    {
        let room = symbols.saturating_add(1).saturating_mul(ENTRY_SIZE);
        let mut entries = Entries::with_capacity(alloc, room)?;
        entries.push(&[0; ENTRY_SIZE])?;
        let room = names.saturating_add(symbols).saturating_add(1);
        let names = Names::with_capacity(alloc, room)?;
        Ok(SymbolTables { entries, names })
    }

    /// Adds a symbol, and its name. Symbols come in byte order of their names.
    ///
    /// # Errors
    ///
    /// If memory runs out.
    #[inline(always)]
    pub fn push(&mut self, x: &TableSymbol<'_>) -> Result<(), NoMemory>
        ensures { OnOk result ((symbols : List SymbolOf) → AreTablesOf symbols self.old
            → AreTablesOf (symbols ++ x.now ∷ []) self.new) }
    {
        // the entry first: so no more than the name is kept until the name is added
        let at = self.names.len();
        self.entries.push(&symbol_entry(at as u64, x))?;
        self.names.push(x.name)?;
        Ok(())
    }

    /// The entries, and the names.
    pub(crate) fn into_bytes(self) -> Result<(Vec<u8>, Vec<u8>), NoMemory>
        ensures { IfOk result (λ bytes. (bytes.0.items ≡ self.entries) × (bytes.1.items ≡ self.names)) }
    {
        let SymbolTables { entries, names } = self;
        Ok((entries.into_bytes()?, names.into_bytes()?))
    }
}
