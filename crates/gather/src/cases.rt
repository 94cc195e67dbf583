//! How the names of symbols are resolved.

ghost use Rattle.std.specs.Prelude.{◌≡◌, ◌<◌, length, slice_index_or};
ghost use Rattle.elfobj.specs.Symbols.{NamedSymbol};
ghost use Rattle.gather.specs.Symbols.{IsCaseOf, IsObjectAt};
ghost use Rattle.symres.specs.SymbolTable.{IsSymbolTable};

use elfobj::Object;
use elfobj::relocation::SymbolIndex;
use ldmodel::names::{Case, ObjectPlace};
use ldmodel_project::view::ProjectView;
use symres::SymbolTable;
use symres::declaring::declares;

/// How the name of a symbol of the object at a place is resolved; `None` for a local symbol. The time is constant.
pub(crate) fn case_of_symbol(
    project: &ProjectView<'_>,
    symbol_table: &SymbolTable,
    place: usize,
    object: &Object,
    number: usize,
) -> Option<Case<ObjectPlace>>
    requires symbol_table { IsSymbolTable project.now symbol_table.now }
    requires object { IsObjectAt project.now place object.now }
    requires number { number < length object.now.symbols }
    ensures { (d : NamedSymbol) → IsCaseOf project.now (slice_index_or object.now.symbols number d) result }
{
    if declares(object.symbols()[number].binding) {
        return symbol_table.case_of(symbol_table.key_of(
            ObjectPlace(place),
            SymbolIndex(number as u32),
        ));
    }
    None
}
