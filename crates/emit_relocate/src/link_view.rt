//! A link as the evaluation of relocations asks for it.

ghost use Rattle.std.specs.Prelude.{◌≡◌, IfOk};
ghost use Rattle.ldmodel.specs.Layout.{Layout};
ghost use Rattle.symres.specs.SymbolTable.{IsSymbolTable};
ghost use Rattle.place.specs.IndexedLayout.{IsIndexedLayout};

use crate::given::GivenValues;
use crate::given_table::given_table;
use growth::NoMemory;
use ldmodel_project::view::ProjectView;
use place::indexed_layout::IndexedLayout;
use std::alloc::Global;
use symres::SymbolTable;

/// A link whose names are resolved and whose parts are placed: what the evaluation of relocations asks of it is in
/// `known`.
#[derive(Drop)]
pub struct LinkView<'a, 'p> {
    pub(crate) project: &'a ProjectView<'p>,
    pub(crate) symbol_table: &'a SymbolTable,
    pub(crate) indexed_layout: &'a IndexedLayout,
    // what the script gives the name of each key
    pub(crate) given: Vec<Option<u64>>,
}

impl<'a, 'p> LinkView<'a, 'p> {
    ghost use Rattle.emit_relocate.specs.ScriptValues.{AreScriptValues};
    ghost use Rattle.emit_relocate.specs.LinkView.{IsLinkView, known_link};

    /// The link of a project with these names, at the layout of `indexed_layout` and `given`.
    ///
    /// # Errors
    ///
    /// If memory runs out.
    pub fn new(
        alloc: Global,
        project: &'a ProjectView<'p>,
        symbol_table: &'a SymbolTable,
        indexed_layout: &'a IndexedLayout,
        given: &GivenValues<'_>,
    ) -> Result<LinkView<'a, 'p>, NoMemory>
        requires { IsSymbolTable project.now symbol_table.now }
        ensures { IfOk result (λ view. (layout : Layout) → AreScriptValues layout given.now.values
            → IsIndexedLayout project.now layout indexed_layout.now
            → IsLinkView (known_link project.now layout symbol_table.now) view) }
    {
        let given = given_table(alloc, symbol_table, &given.values)?;
        Ok(LinkView {
            project,
            symbol_table,
            indexed_layout,
            given,
        })
    }
}
