//! What the passes of a link are handed.

use crate::stayed_sections::PreviousView;
use gather::matches::Matches;
use ldmodel_project::view::ProjectView;
use std::alloc::Global;
use symres::SymbolTable;

/// What each pass of a link is handed.
#[derive(Clone, Copy)]
pub(crate) struct PassContext<'a, 'p> {
    /// The allocator.
    pub alloc: Global,
    /// The project.
    pub project: &'a ProjectView<'p>,
    /// Its symbol names, resolved.
    pub symbol_table: &'a SymbolTable,
    /// For each of its objects the input statements that take its sections.
    pub matches: &'a [&'a Matches],
    /// The previous link, if there is one.
    pub previous: Option<PreviousView<'a>>,
    /// Whether the map is asked for.
    pub with_map: bool,
}
