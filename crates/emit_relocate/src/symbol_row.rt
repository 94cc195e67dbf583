//! What a name is in the output, in 32 bytes: there is such a row for each name of a link, and one for each symbol of
//! its output.

ghost use Rattle.std.specs.Prelude.{◌≡◌};
ghost use Rattle.emit_relocate.specs.NameRows.{shown_row, shown_in};
ghost use Rattle.emit_relocate.specs.SymbolRows.{definer_with, value_with};

use crate::name_row::{NameRow, SymbolFacts};
use crate::value::SymbolValue;
use elfobj::symbol::SymbolKind;
use emit_text::definer::Definer;
use ldmodel::names::ObjectPlace;

/// A case of `Definer`, without the object.
#[derive(Clone, Copy, Debug)]
enum DefinerKind {
    Nothing,
    Script,
    Object,
    WeakOf,
}

/// A case of `SymbolValue`, without the number.
#[derive(Clone, Copy, Debug)]
enum ValueKind {
    Number,
    NotDefined,
    NotInOutput,
}

/// What a name is in the output: what defines it, its value, and what the symbol table says of it.
///
/// Rows are read in byte order of the names, which is no order of the rows. So their parts lie without gaps, and the
/// cases of enums apart from the numbers that belong to them.
#[derive(Clone, Copy, Debug)]
pub struct SymbolRow {
    /// The object that defines the name, if one does, else 0.
    object: ObjectPlace,
    /// The value, if it is a number, else 0.
    number: u64,
    /// The size, as in `SymbolFacts`.
    size: u64,
    /// The number of a section header, as in `SymbolFacts`.
    section: u32,
    /// The type, as in `SymbolFacts`.
    kind: SymbolKind,
    definer_kind: DefinerKind,
    value_kind: ValueKind,
}

/// What defines a name, in two parts.
#[inline(always)]
fn definer_parts(definer: Definer) -> (DefinerKind, ObjectPlace)
    ensures { definer_with result.0 result.1 ≡ definer }
{
    match definer {
        Definer::Nothing => (DefinerKind::Nothing, ObjectPlace(0)),
        Definer::Script => (DefinerKind::Script, ObjectPlace(0)),
        Definer::Object(place) => (DefinerKind::Object, place),
        Definer::WeakOf(place) => (DefinerKind::WeakOf, place),
    }
}

/// A value, in two parts.
#[inline(always)]
fn value_parts(value: SymbolValue) -> (ValueKind, u64)
    ensures { value_with result.0 result.1 ≡ value }
{
    match value {
        SymbolValue::Number(number) => (ValueKind::Number, number),
        SymbolValue::NotDefined => (ValueKind::NotDefined, 0),
        SymbolValue::NotInOutput => (ValueKind::NotInOutput, 0),
    }
}

impl SymbolRow {
    ghost use Rattle.emit_relocate.specs.SymbolRows.{definer_in, facts_in, value_in};

    /// The row of a name.
    #[inline(always)]
    pub(crate) fn of(definer: Definer, row: NameRow) -> SymbolRow
        ensures definer { definer_in result ≡ definer }
        ensures row { shown_in result ≡ shown_row row }
    {
        let (definer_kind, object) = definer_parts(definer);
        let (value_kind, number) = value_parts(row.value);
        SymbolRow {
            object,
            number,
            size: row.facts.size,
            section: row.facts.section,
            kind: row.facts.kind,
            definer_kind,
            value_kind,
        }
    }

    /// What defines the name.
    #[inline(always)]
    pub fn definer(&self) -> Definer
        ensures { result ≡ definer_in self.now }
    {
        match self.definer_kind {
            DefinerKind::Nothing => Definer::Nothing,
            DefinerKind::Script => Definer::Script,
            DefinerKind::Object => Definer::Object(self.object),
            DefinerKind::WeakOf => Definer::WeakOf(self.object),
        }
    }

    /// The value of the name, if it has one.
    #[inline(always)]
    pub fn value(&self) -> SymbolValue
        ensures { result ≡ value_in self.now }
    {
        match self.value_kind {
            ValueKind::Number => SymbolValue::Number(self.number),
            ValueKind::NotDefined => SymbolValue::NotDefined,
            ValueKind::NotInOutput => SymbolValue::NotInOutput,
        }
    }

    /// What the symbol table says of it.
    #[inline(always)]
    pub fn facts(&self) -> SymbolFacts
        ensures { result ≡ facts_in self.now }
    {
        SymbolFacts {
            kind: self.kind,
            section: self.section,
            size: self.size,
        }
    }
}
