//! What the value of a relocation's symbol depends on, and its number: under these `Index` has relocations, for callers
//! without a table of the values of symbols.

ghost use Rattle.std.specs.Prelude.{◌≡◌, Some};
ghost use Rattle.elfobj.specs.Symbols.{NamedSymbol};
ghost use Rattle.elfobj.specs.declared.relocation.SymbolIndex.{SymbolIndex};
ghost use Rattle.ldmodel.specs.Names.{is_local};
ghost use Rattle.ldmodel.specs.Project.{NamedObject};
ghost use Rattle.ldmodel.specs.SymbolValues.{number_or_0};
ghost use Rattle.ldmodel.specs.Targets.{target_number, target_of};
ghost use Rattle.ldmodel.specs.Targets as model;
ghost use Rattle.emit_relocate.specs.KnownLink.{AreNameValues, IsNameOf, IsSymbolOf, KnownLink, named_target};
ghost use Rattle.emit_relocate.specs.KnownLink.{value_under};
ghost use Rattle.emit_relocate.specs.LinkView.{IsLinkView};

use crate::link_view::LinkView;
use crate::value::SymbolValue;
use elfobj::symbol::{Binding, Symbol, SymbolPlace};
use ldmodel::names::{NameKey, ObjectPlace};
use ldmodel::sections::{Part, SectionRef};
use ldmodel::target::Target;

/// Whether a symbol is seen in its own object alone.
fn is_local(binding: Binding) -> bool
    ensures { result ≡ is_local binding }
{
    matches!(binding, Binding::Local)
}

/// What the value of a symbol of an object depends on: its name, unless it is local; the section that a local one lies
/// in; or nothing. `name` is the key of its name if it is not local.
pub fn target_of(object: ObjectPlace, symbol: &Symbol, name: NameKey) -> Target
    ensures { (known : KnownLink) (index : SymbolIndex) → IsNameOf known object index name
        → (named : NamedObject) (referenced : NamedSymbol)
        → IsSymbolOf known object index symbol.now named referenced
        → named_target known result ≡ Some (target_of named referenced) }
{
    if !is_local(symbol.binding) {
        return Target::Name(name);
    }
    match symbol.place {
        SymbolPlace::Section(section) => Target::Section(object, section),
        SymbolPlace::Undefined | SymbolPlace::Absolute | SymbolPlace::Common => Target::Fixed,
    }
}

/// The value of the name of a key, in a table of the values of all names.
fn value_under(values: &[SymbolValue], name: NameKey) -> SymbolValue
    ensures { result ≡ value_under values.now name }
{
    match values.get(name.0) {
        None => SymbolValue::NotDefined,
        Some(value) => *value,
    }
}

/// The number of a target: the value of a name, which is 0 if it has no number, or the address of a section.
/// `values` are the values of all names. While the number of a target stays the same, so do the fields of all
/// relocations against it.
pub fn target_number(link: &LinkView<'_, '_>, values: &[SymbolValue], target: Target) -> u64
    ensures { (known : KnownLink) → IsLinkView known link.now → AreNameValues known values.now
        → (referenced : model.Target)
        → named_target known target ≡ Some referenced → result ≡ target_number known.project known.layout referenced }
{
    match target {
        Target::Name(name) => value_under(values, name).number_or_0(),
        Target::Section(object, section) => {
            let part = Part::InTable(section);
            link.start(SectionRef { object, part }).unwrap_or(0)
        }
        Target::Fixed => 0,
    }
}
