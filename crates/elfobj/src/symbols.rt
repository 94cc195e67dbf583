//! The symbols of an object, and the pass that reads them if all are within the profile, as compilers write them. It
//! gives up on others.

ghost use Rattle.std.specs.Prelude.{◌≡◌, ℕ, ◌≤◌, ◌+◌, ◌/◌, ◌++◌, ◌∷◌, [], IfOk, IfSome, List, OnOk, drop, false};
ghost use Rattle.std.specs.Prelude.{length};
ghost use Rattle.std.specs.List.{list_any};
ghost use Rattle.elfobj_file.specs.SectionHeaders.{file_bytes};
ghost use Rattle.elfobj_file.specs.Symbols.{entries_of, null_symbol, symbols_from};
ghost use Rattle.elfobj_file.specs.Tables.{has_misplaced_entry, is_wrong_symbol};
ghost use Rattle.elfobj.specs.PartSpans.{AreNamed};

use crate::symbol::{Binding, Symbol, SymbolKind, SymbolPlace};
use elfobj_file::constants::SYM_SIZE;
use elfobj_file::section_header::SectionHeader;
use elfobj_file::span::{EMPTY_SPAN, Span};
use elfobj_file::symbol_entry::read_symbol_entry;
use growth::{NoMemory, vec};
use std::alloc::Global;

/// The symbols in table order, with the ranges of their names in the file.
#[derive(Drop)]
pub struct Symbols {
    /// The symbols.
    pub symbols: Vec<Symbol>,
    /// The ranges of their names; empty for local ones.
    pub names: Vec<Span>,
}

/// Entry number 0, which is the null entry, whatever its bytes are.
const NULL_SYMBOL: Symbol = Symbol {
    binding: Binding::Local,
    kind: SymbolKind::NoType,
    place: SymbolPlace::Undefined,
    value: 0,
    size: 0,
};

impl Symbols {
    /// The null symbol alone, with room for `count` symbols.
    pub fn of_null(alloc: Global, count: usize) -> Result<Symbols, NoMemory>
        ensures { (file : List ℕ)
            → IfOk result (λ read. AreNamed file (null_symbol ∷ []) read.symbols.items read.names.items) }
    {
        let mut symbols = Symbols {
            symbols: vec::with_capacity(alloc, count)?,
            names: vec::with_capacity(alloc, count)?,
        };
        symbols.push(NULL_SYMBOL, EMPTY_SPAN)?;
        Ok(symbols)
    }

    /// Adds a symbol and the range of its name.
    pub fn push(&mut self, symbol: Symbol, name: Span) -> Result<(), NoMemory>
        ensures symbols { OnOk result (self.new.symbols.items ≡ self.old.symbols.items ++ symbol ∷ []) }
        ensures names { OnOk result (self.new.names.items ≡ self.old.names.items ++ name ∷ []) }
    {
        vec::push(&mut self.symbols, symbol)?;
        vec::push(&mut self.names, name)?;
        Ok(())
    }
}

/// The symbols of a table with names in this string table, if all entries are within the profile, and their names are
/// together no longer than the file.
#[inline(never)]
pub fn read_passing(
    alloc: Global,
    bytes: &[u8],
    table: &SectionHeader,
    strings: &SectionHeader,
    sections: u16,
) -> Result<Option<Symbols>, NoMemory>
    requires some { 1 ≤ table.now.sh_size / 24 }
    requires low { 1 ≤ table.now.sh_info }
    requires high { table.now.sh_info ≤ table.now.sh_size / 24 }
    requires within { table.now.sh_offset + table.now.sh_size ≤ length bytes.now }
    requires strings { strings.now.sh_offset + strings.now.sh_size ≤ length bytes.now }
    ensures placed { IfOk result
        (λ found. IfSome found (λ read. has_misplaced_entry table.now (entries_of bytes.now table.now) ≡ false)) }
    ensures right { IfOk result
        (λ found. IfSome found (λ read. list_any (is_wrong_symbol sections (file_bytes bytes.now strings.now))
        (drop 1 (entries_of bytes.now table.now)) ≡ false)) }
    ensures symbols { IfOk result
        (λ found. IfSome found (λ read. AreNamed bytes.now
        (symbols_from (file_bytes bytes.now strings.now) (entries_of bytes.now table.now)) read.symbols.items
        read.names.items)) }
{
    let start = table.sh_offset as usize;
    let count = table.sh_size as usize / SYM_SIZE;
    let first = table.sh_info as usize;
    let mut symbols = Symbols::of_null(alloc, count)?;
    let mut left = bytes.len();
    for number in 1..count {
        let entry = read_symbol_entry(bytes, start + SYM_SIZE * number);
        if entry.is_local() != (number < first) {
            return Ok(None);
        }
        let Some(name) = entry.looked_name(sections, bytes, strings) else {
            return Ok(None);
        };
        let length = name.end - name.start;
        if left < length {
            return Ok(None);
        }
        left -= length;
        symbols.push(entry.symbol(), name)?;
    }
    Ok(Some(symbols))
}
