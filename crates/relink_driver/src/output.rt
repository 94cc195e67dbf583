//! What a link gives.

ghost use Rattle.std.specs.Prelude.{◌≡◌, [], IfOk};
ghost use Rattle.ldmodel.specs.EditMeaning.{linked_of};
ghost use Rattle.ldmodel.specs.Link.{link};
ghost use Rattle.relink_driver.specs.WithoutMap.{without_map};

use crate::from_scratch::link;
use emit::Canvas;
use growth::NoMemory;
use ldmodel::edit::LinkSummary;
use ldmodel::meter::Meter;
use ldmodel_project::view::ProjectView;
use std::alloc::Global;
use std::hash::RandomState;
use std::marker::Model;

/// What a link gives: the image and, if it is asked for, the map; or the fault lines.
#[derive(Drop)]
pub struct Output {
    content: Content,
}

/// What an output holds: only a link without faults has an image.
#[derive(Drop)]
enum Content {
    /// The map is empty if it was not asked for.
    Good { image: Canvas, map: Vec<u8> },
    /// The fault lines.
    Faulty(Vec<u8>),
}

impl Model for Output {
    ghost use Rattle.ldmodel.specs.Link.{Link};
    ghost use Rattle.relink_driver.specs.Output.{link_of};

    ghost Value = { Link };

    ghost view = { λ o. link_of o.content };
}

impl Output {
    /// Links a project from scratch. `seed` is for hash tables; nothing of the link depends on it.
    ///
    /// # Errors
    ///
    /// If memory runs out.
    pub fn of(
        alloc: Global,
        seed: RandomState,
        project: &ProjectView<'_>,
        meter: &mut Meter,
    ) -> Result<Output, NoMemory>
        ensures { IfOk result (λ output. output ≡ link project.now) }
    {
        link(alloc, seed, project, true, meter)
    }

    /// Links a project from scratch, as `of` does, and makes no map: the image, the fault lines and the status are
    /// those of the link.
    ///
    /// # Errors
    ///
    /// If memory runs out.
    pub fn without_map(
        alloc: Global,
        seed: RandomState,
        project: &ProjectView<'_>,
        meter: &mut Meter,
    ) -> Result<Output, NoMemory>
        ensures { IfOk result (λ output. output ≡ without_map (link project.now)) }
    {
        link(alloc, seed, project, false, meter)
    }

    /// A good link.
    pub(crate) fn good(image: Canvas, map: Vec<u8>) -> Output
        ensures { result ≡ record { status = 0; image = image.bytes; map = map.items; faults = [] } }
    {
        Output {
            content: Content::Good { image, map },
        }
    }

    /// A link with faults.
    pub(crate) fn faulty(faults: Vec<u8>) -> Output
        ensures { result ≡ record { status = 1; image = []; map = []; faults = faults.items } }
    {
        Output {
            content: Content::Faulty(faults),
        }
    }

    /// 0 if the link has no faults, else 1.
    pub fn status(&self) -> u8
        ensures { result ≡ self.now.status }
    {
        match &self.content {
            Content::Good { .. } => 0,
            Content::Faulty(_) => 1,
        }
    }

    /// The image; empty if the link has faults.
    pub fn image(&self) -> &[u8]
        ensures { result.now ≡ self.now.image }
    {
        match &self.content {
            Content::Good { image, .. } => image.bytes(),
            Content::Faulty(_) => &[],
        }
    }

    /// The map: the entry point, the output sections with their input sections, and the symbols. Empty if the link has
    /// faults, or was made without a map.
    pub fn map(&self) -> &[u8]
        ensures { result.now ≡ self.now.map }
    {
        match &self.content {
            Content::Good { map, .. } => map,
            Content::Faulty(_) => &[],
        }
    }

    /// The fault lines; empty if the link has none.
    pub fn faults(&self) -> &[u8]
        ensures { result.now ≡ self.now.faults }
    {
        match &self.content {
            Content::Good { .. } => &[],
            Content::Faulty(lines) => lines,
        }
    }

    /// The status, and the length of the image.
    pub fn summary(&self) -> LinkSummary
        ensures { result ≡ linked_of self.now }
    {
        LinkSummary {
            status: self.status(),
            length: self.image().len() as u64,
        }
    }
}
