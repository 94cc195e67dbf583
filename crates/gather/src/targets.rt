//! The sections that symbols, names and the entry symbol are defined in.

ghost use Rattle.std.specs.Prelude.{◌≡◌};
ghost use Rattle.std.specs.Option.{option_map};
ghost use Rattle.elfobj.specs.Symbols.{NamedSymbol};
ghost use Rattle.ldmodel.specs.CodeValues.{decision_of, entry_of, section_id};
ghost use Rattle.ldmodel.specs.Live.{entry_section, section_of_place, section_of_decision, section_of_entry};
ghost use Rattle.ldmodel.specs.Live.{symbol_at};
ghost use Rattle.symres.specs.SymbolTable.{IsSymbolTable};

use elfobj::symbol::SymbolPlace;
use ldmodel::names::{Case, Entry, ObjectPlace};
use ldmodel::sections::{Part, SectionRef};
use ldmodel_project::view::ProjectView;
use symres::SymbolTable;

/// The section that a symbol of the object at a place is defined in, if it is in one.
pub(crate) fn section_at(object: ObjectPlace, at: SymbolPlace) -> Option<SectionRef>
    ensures { option_map (section_id (λ key. key)) result ≡ section_of_place object.0 at }
{
    match at {
        SymbolPlace::Section(number) => Some(SectionRef {
            object,
            part: Part::InTable(number),
        }),
        SymbolPlace::Undefined | SymbolPlace::Absolute | SymbolPlace::Common => None,
    }
}

/// Where a symbol is defined, if there is such a symbol.
fn place_of(project: &ProjectView<'_>, entry: Entry<ObjectPlace>) -> Option<SymbolPlace>
    ensures { result ≡ option_map (λ (symbol : NamedSymbol). symbol.symbol.place)
        (symbol_at project.now entry.object.0 entry.symbol.0) }
{
    let object = project.object(entry.object)?;
    let symbol = object.symbols().get(entry.symbol.0 as usize)?;
    Some(symbol.place)
}

/// The section that an entry is defined in, if it is in one.
fn section_of_entry(project: &ProjectView<'_>, entry: Entry<ObjectPlace>) -> Option<SectionRef>
    ensures { option_map (section_id (λ key. key)) result
        ≡ section_of_entry project.now (entry_of (λ key. key) entry) }
{
    let at = place_of(project, entry)?;
    section_at(entry.object, at)
}

/// The section that a name is defined in, by its resolution; `None` for a number.
pub(crate) fn section_of_case(
    project: &ProjectView<'_>,
    case: Case<ObjectPlace>,
) -> Option<SectionRef>
    ensures { option_map (section_id (λ key. key)) result
        ≡ section_of_decision project.now (decision_of (λ key. key) case) }
{
    match case {
        Case::Strong(entry) | Case::Weak(entry) => section_of_entry(project, entry),
        Case::Common { owner, .. } => Some(SectionRef {
            object: owner.object,
            part: Part::InCommon(owner.symbol),
        }),
        Case::Script | Case::Provided | Case::Undefined | Case::Duplicate => None,
    }
}

/// The section of the entry symbol, if it is in one. The symbol's name is hashed and looked up.
#[tactic(auto, unfolding(ldmodel::specs::Live::entry_section))]
pub(crate) fn entry_section(
    project: &ProjectView<'_>,
    symbol_table: &SymbolTable,
) -> Option<SectionRef>
    requires { IsSymbolTable project.now symbol_table.now }
    ensures { option_map (section_id (λ key. key)) result ≡ entry_section project.now }
{
    let name = project.entry_symbol()?;
    section_of_case(project, symbol_table.case_named(project.script(), name))
}
