//! The symbols of the output: the defined names, in byte order.

ghost use Rattle.std.specs.Prelude.{◌≡◌, ◌<◌, ◌≤◌, ◌++◌, ◌∷◌, [], ℕ, All, IfOk, IfSome, List, OnOk, length};
ghost use Rattle.std.specs.Prelude.{vec_capacity, vec_len};
ghost use Rattle.ldmodel.specs.CodeValues.{decision_of};
ghost use Rattle.ldmodel.specs.Layout.{Layout, script_value};
ghost use Rattle.ldmodel.specs.OutputSymbols.{output_symbols};
ghost use Rattle.ldmodel.specs.Project.{Project};
ghost use Rattle.symres.specs.Sorted.{AreSorted};
ghost use Rattle.symres.specs.table.State.{IsNamed};
ghost use Rattle.emit_text.specs.Definer.{defines};
ghost use Rattle.emit_relocate.specs.AssertedSymbols.{AreInOrder};
ghost use Rattle.emit_relocate.specs.NameRows.{decided_row, shown_row};
ghost use Rattle.emit_relocate.specs.ScriptNames.{texts, AreScriptNames};
ghost use Rattle.emit_relocate.specs.Sizes.{plus_symbols};
ghost use Rattle.emit_relocate.specs.SymbolRows.{definer_in};
ghost use Rattle.emit_relocate.specs.Symbols.{ends_with, keyed_names, shown, AddsAtMost, AddsIf, AddsSome, AddsSymbols};
ghost use Rattle.emit_relocate.specs.Symbols.{AreKeyed, AreSources, AreUp, IsPlaceAmong, IsWithinRoom, KeepsCount};
ghost use Rattle.emit_relocate.specs.Symbols.{KeepsFacts, symbol_with, with_name};
ghost use Rattle.emit_relocate.specs.LinkValues.{HasFacts};

use crate::name_row::{NameRow, bare_row, given_value};
use crate::script_values::ScriptValues;
use crate::sizes::{NO_SYMBOLS, SymbolSizes, plus_last};
use crate::symbol_row::SymbolRow;
use crate::value::SymbolValue;
use crate::values::OutputSymbol;
use emit_text::definer::Definer;
use growth::{NoMemory, impossible, vec};
use ldmodel::names::{Case, NameKey, ObjectPlace};
use ldscript::Script;
use symres::SymbolTable;
use symres::sorted::NamedKey;

/// What the symbols of the output are made of.
#[derive(Clone, Copy)]
pub(crate) struct Sources<'a> {
    /// The script.
    pub script: &'a Script,
    /// The resolutions of names.
    pub symbol_table: &'a SymbolTable,
    /// What defines names, and what they are in the output, under their keys.
    pub rows: &'a [SymbolRow],
    /// The values that the script gives names.
    pub given: &'a ScriptValues<'a>,
}

/// The row of a name that no object defines.
fn row_by_script(case: Case<ObjectPlace>, given: Option<u64>) -> Option<NameRow>
    ensures { IfSome result (λ x. (project : Project) (layout : Layout) (name : List ℕ) → given
        ≡ script_value layout name
        → shown_row x ≡ decided_row project layout name (decision_of (λ key. key) case)) }
{
    match case {
        Case::Script | Case::Provided => Some(bare_row(given_value(given))),
        Case::Undefined | Case::Duplicate => Some(bare_row(SymbolValue::NotDefined)),
        Case::Strong(_) | Case::Weak(_) | Case::Common { .. } => None,
    }
}

/// Adds the symbol of a name with a row, if something defines the name. There is room for it.
#[inline(always)]
fn add_if_defined<'a>(list: &mut Vec<OutputSymbol<'a>>, name: &'a [u8], row: &SymbolRow)
    requires { vec_len list.old < vec_capacity list.old }
    ensures added { AddsIf (defines (definer_in row.now)) (symbol_with name.entry row.now) list.old.items
        list.new.items }
    ensures facts { (project : Project) (layout : Layout)
        → HasFacts project layout (symbol_with name.entry row.now)
        → KeepsFacts project layout list.old.items list.new.items }
    ensures name { AddsAtMost name.now list.old.items list.new.items }
    ensures room { IsWithinRoom list.old list.new }
{
    if !row.definer().defines() {
        return;
    }
    list.push_reserved(OutputSymbol { name, row: *row });
}

/// Adds the symbol of a name with a key. There is room for it.
#[inline(always)]
fn add_named<'a>(
    sources: &Sources<'_>,
    name: &'a [u8],
    key: NameKey,
    list: &mut Vec<OutputSymbol<'a>>,
)
    requires named { IsNamed sources.now.symbol_table.now.names key.0 name.now }
    requires room { vec_len list.old < vec_capacity list.old }
    ensures symbol { (project : Project) (layout : Layout) → AreSources project layout sources.now
        → AddsSymbols project layout (name.now ∷ []) list.old.items list.new.items }
    ensures facts { (project : Project) (layout : Layout) → AreSources project layout sources.now
        → KeepsFacts project layout list.old.items list.new.items }
    ensures name { AddsAtMost name.now list.old.items list.new.items }
    ensures room { IsWithinRoom list.old list.new }
{
    // in the tables of a link each key of a name has a row
    let Some(row) = sources.rows.get(key.0) else {
        return;
    };
    add_if_defined(list, name, row);
}

/// Adds the symbol of a name without a key, for which there is room. The name is looked up.
fn add_unnamed<'a>(
    sources: &Sources<'_>,
    name: &'a [u8],
    list: &mut Vec<OutputSymbol<'a>>,
) -> Result<(), NoMemory>
    requires { vec_len list.old < vec_capacity list.old }
    ensures symbol { OnOk result ((project : Project) (layout : Layout) → AreSources project layout sources.now
        → AddsSymbols project layout (name.now ∷ []) list.old.items list.new.items) }
    ensures facts { OnOk result ((project : Project) (layout : Layout) → AreSources project layout sources.now
        → KeepsFacts project layout list.old.items list.new.items) }
    ensures name { OnOk result (AddsAtMost name.now list.old.items list.new.items) }
    ensures room { IsWithinRoom list.old list.new }
{
    let symbol_table = sources.symbol_table;
    let given = sources.given;
    let case = symbol_table.case_named(sources.script, name);
    let Some(row) = row_by_script(case, given.value(name)) else {
        // a name that an object defines has a key, but no contract here says that each such name has one
        return Err(impossible());
    };
    let definer = Definer::of(case);
    let defined = SymbolRow::of(definer, row);
    add_if_defined(list, name, &defined);
    Ok(())
}

/// The number of names, in a list in byte order, that do not come after a name. The time is logarithmic.
fn count_up_to(sorted: &[NamedKey<'_>], name: &[u8]) -> usize
    requires { AreUp sorted.now }
    ensures place { IsPlaceAmong name.now sorted.now result }
    ensures within { result ≤ length sorted.now }
{
    sorted.partition_point(|named| named.name <= name)
}

/// Whether the last of these names is this one.
fn ends_with(sorted: &[NamedKey<'_>], name: &[u8]) -> bool
    ensures { result ≡ ends_with (keyed_names sorted.now) name.now }
{
    if sorted.is_empty() {
        return false;
    }
    sorted[sorted.len() - 1].name == name
}

/// Adds the symbols of names with keys to those that are counted. Each is counted while it is in the cache.
fn add_keyed<'a>(
    sources: &Sources<'_>,
    names: &[NamedKey<'a>],
    list: &mut Vec<OutputSymbol<'a>>,
    counted: SymbolSizes,
) -> Result<SymbolSizes, NoMemory>
    requires { AreKeyed sources.now names.now }
    ensures symbols { OnOk result ((project : Project) (layout : Layout) → AreSources project layout sources.now
        → AddsSymbols project layout (keyed_names names.now) list.old.items list.new.items) }
    ensures facts { OnOk result ((project : Project) (layout : Layout) → AreSources project layout sources.now
        → KeepsFacts project layout list.old.items list.new.items) }
    ensures picked { OnOk result (AddsSome (keyed_names names.now) list.old.items list.new.items) }
    ensures sizes { IfOk result (λ t. (project : Project) (layout : Layout) → AreSources project layout sources.now
        → KeepsCount counted t list.old.items list.new.items) }
{
    vec::reserve(list, names.len())?;
    let mut sizes = counted;
    for named in names {
        let count = list.len();
        add_named(sources, named.name, named.key, list);
        sizes = plus_last(sizes, list, count)?;
    }
    Ok(sizes)
}

/// Adds the symbol of a name that the script gives a value to, to those that are counted.
fn add_given<'a>(
    sources: &Sources<'_>,
    name: &'a [u8],
    list: &mut Vec<OutputSymbol<'a>>,
    counted: SymbolSizes,
) -> Result<SymbolSizes, NoMemory>
    ensures symbols { OnOk result ((project : Project) (layout : Layout) → AreSources project layout sources.now
        → AddsSymbols project layout (name.now ∷ []) list.old.items list.new.items) }
    ensures facts { OnOk result ((project : Project) (layout : Layout) → AreSources project layout sources.now
        → KeepsFacts project layout list.old.items list.new.items) }
    ensures picked { OnOk result (AddsSome (name.now ∷ []) list.old.items list.new.items) }
    ensures sizes { IfOk result (λ t. (project : Project) (layout : Layout) → AreSources project layout sources.now
        → KeepsCount counted t list.old.items list.new.items) }
{
    vec::reserve(list, 1)?;
    let count = list.len();
    add_unnamed(sources, name, list)?;
    plus_last(counted, list, count)
}

/// Adds the symbols of names with keys, and after them that of a name that the script gives a value to, unless it is
/// the last of them, to those that are counted.
fn add_up_to<'a>(
    sources: &Sources<'_>,
    before: &[NamedKey<'a>],
    name: &'a [u8],
    list: &mut Vec<OutputSymbol<'a>>,
    counted: SymbolSizes,
) -> Result<SymbolSizes, NoMemory>
    requires { AreKeyed sources.now before.now }
    ensures symbols { OnOk result ((project : Project) (layout : Layout) → AreSources project layout sources.now
        → AddsSymbols project layout (with_name (keyed_names before.now) name.now) list.old.items list.new.items) }
    ensures facts { OnOk result ((project : Project) (layout : Layout) → AreSources project layout sources.now
        → KeepsFacts project layout list.old.items list.new.items) }
    ensures picked { OnOk result
        (AddsSome (with_name (keyed_names before.now) name.now) list.old.items list.new.items) }
    ensures sizes { IfOk result (λ t. (project : Project) (layout : Layout) → AreSources project layout sources.now
        → KeepsCount counted t list.old.items list.new.items) }
{
    let sizes = add_keyed(sources, before, list, counted)?;
    if ends_with(before, name) {
        return Ok(sizes);
    }
    add_given(sources, name, list, sizes)
}

/// Adds the symbols of the output, in byte order of their names, to an empty list. `sorted` has the names with keys and
/// `given` the names that the script gives values to, both in byte order, each name once. They are merged as they are
/// added: a name of `given` is searched for among those with keys, which are not compared with one another.
///
/// # Errors
///
/// If memory runs out.
pub(crate) fn add_symbols<'a>(
    sources: &Sources<'_>,
    sorted: &[NamedKey<'a>],
    given: &[&'a [u8]],
    list: &mut Vec<OutputSymbol<'a>>,
) -> Result<SymbolSizes, NoMemory>
    requires sorted { AreSorted sources.now.symbol_table.now sorted.now }
    requires given { AreScriptNames sources.now.script.now (texts given.now) }
    requires empty { list.old.items ≡ [] }
    ensures symbols { OnOk result ((project : Project) (layout : Layout) → AreSources project layout sources.now
        → shown project list.new.items ≡ output_symbols project layout) }
    ensures facts { OnOk result ((project : Project) (layout : Layout) → AreSources project layout sources.now
        → All (HasFacts project layout) list.new.items) }
    ensures order { OnOk result (AreInOrder list.new.items) }
    ensures sizes { IfOk result (λ t. (project : Project) (layout : Layout) → AreSources project layout sources.now
        → t ≡ plus_symbols (record { count = 0; names = 0 }) list.new.items) }
{
    let mut sizes = NO_SYMBOLS;
    let mut at: usize = 0;
    for name in given {
        let left = &sorted[at..];
        let count = count_up_to(left, name);
        sizes = add_up_to(sources, &left[..count], name, list, sizes)?;
        at += count;
    }
    add_keyed(sources, &sorted[at..], list, sizes)
}
