//! What the input sections of an image are drawn from.

use crate::relocated::Relocated;
use ldmodel_project::view::ProjectView;
use place::indexed_layout::IndexedLayout;

/// What the input sections of an image are drawn from, and those of the previous image that stay.
#[derive_where(Clone, Copy)]
pub struct ImageSources<'a, 'p, E> {
    /// The project, whose objects hold the bytes.
    pub project: &'a ProjectView<'p>,
    /// Where everything lies.
    pub indexed_layout: &'a IndexedLayout,
    /// The fields of relocations.
    pub relocated: &'a Relocated,
    /// The previous link, which says which input sections stayed.
    pub previous: &'a E,
}
