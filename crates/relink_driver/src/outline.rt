//! Whether two objects differ only in the contents of their sections, and whether these refer to the same symbols.

ghost use Rattle.std.specs.Prelude.{◌≡◌, ◌↔◌, map, true};
ghost use Rattle.ldmodel_laws.specs.Outline.{section_outline, section_targets};

use elfobj::relocation::{Relocation, SymbolIndex};
use elfobj::section::LinkedIndex;
use elfobj::{Object, Section, Symbol};

/// Whether two names are the same.
fn is_same_name(a: &[u8], b: &[u8]) -> bool
    ensures { (result ≡ true) ↔ (a.now ≡ b.now) }
{
    a == b
}

/// Whether two symbols are the same.
fn is_same_symbol(a: Symbol, b: Symbol) -> bool
    ensures { (result ≡ true) ↔ (a ≡ b) }
{
    a == b
}

/// Whether two sections are the same, whatever they hold.
fn is_same_section(a: Section, b: Section) -> bool
    ensures { (result ≡ true) ↔ (a ≡ b) }
{
    a == b
}

/// Whether two indices are the same.
fn is_same_index(a: SymbolIndex, b: SymbolIndex) -> bool
    ensures { (result ≡ true) ↔ (a ≡ b) }
{
    a == b
}

/// Whether two objects have the same symbol table.
fn same_symbols(a: &Object, b: &Object) -> bool
    ensures { (result ≡ true) ↔ (a.now.symbols ≡ b.now.symbols) }
{
    let before = a.symbols();
    let now = b.symbols();
    if before.len() != now.len() {
        return false;
    }
    for number in 0..before.len() {
        let index = SymbolIndex(number as u32);
        if !is_same_symbol(before[number], now[number])
            || !is_same_name(a.name_of(index), b.name_of(index))
        {
            return false;
        }
    }
    true
}

/// Whether two objects have the same sections, whatever these hold.
fn same_sections(a: &Object, b: &Object) -> bool
    ensures { (result ≡ true) ↔ (map section_outline a.now.sections ≡ map section_outline b.now.sections) }
{
    let before = a.sections();
    let now = b.sections();
    if before.len() != now.len() {
        return false;
    }
    for number in 0..before.len() {
        let index = LinkedIndex(number);
        if !is_same_section(before[number], now[number])
            || !is_same_name(a.section_name(index), b.section_name(index))
        {
            return false;
        }
    }
    true
}

/// Whether two objects have the same symbol table, and sections that differ only in their bytes and relocations.
pub(crate) fn same_outline(a: &Object, b: &Object) -> bool
    ensures symbols { result ≡ true → a.now.symbols ≡ b.now.symbols }
    ensures sections { result ≡ true → map section_outline a.now.sections ≡ map section_outline b.now.sections }
    ensures found { a.now.symbols ≡ b.now.symbols
        → map section_outline a.now.sections ≡ map section_outline b.now.sections
        → result ≡ true }
{
    same_symbols(a, b) && same_sections(a, b)
}

/// Whether two lists of relocations name the same symbols, in their order.
fn same_references(a: &[Relocation], b: &[Relocation]) -> bool
    ensures { (result ≡ true) ↔ (map (λ r. r.symbol) a.now ≡ map (λ r. r.symbol) b.now) }
{
    if a.len() != b.len() {
        return false;
    }
    for number in 0..a.len() {
        if !is_same_index(a[number].symbol, b[number].symbol) {
            return false;
        }
    }
    true
}

/// Whether the relocations of each section of two objects name the same symbols, in their order.
pub(crate) fn same_targets(a: &Object, b: &Object) -> bool
    ensures { (result ≡ true) ↔ (map section_targets a.now.sections ≡ map section_targets b.now.sections) }
{
    let before = a.sections();
    let now = b.sections();
    if before.len() != now.len() {
        return false;
    }
    for number in 0..before.len() {
        let index = LinkedIndex(number);
        if !same_references(a.relocations(index), b.relocations(index)) {
            return false;
        }
    }
    true
}
