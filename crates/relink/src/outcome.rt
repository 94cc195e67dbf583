//! What a session answers of its link.

ghost use Rattle.std.specs.Prelude.{◌≡◌, ℕ, List};
ghost use Rattle.ldmodel.specs.EditMeaning.{linked_of};
ghost use Rattle.relink.specs.Outcome.{is_good, shown};

use ldmodel::edit::LinkSummary;
use relink_driver::Canvas;

/// What a session answers of its link, beside the image, which a canvas holds. It is made from a `RelinkOutcome`, by
/// way of an `UpdateOutcome`: a link that was rewritten in place leaves the outcome of the link before it.
#[derive(Drop)]
pub(crate) enum LinkOutcome {
    /// The link has no faults: its map.
    Good(Vec<u8>),
    /// The link has faults: these lines.
    Faulty(Vec<u8>),
}

impl LinkOutcome {
    /// Whether the link has no faults.
    pub(crate) fn is_good(&self) -> bool
        ensures { result ≡ is_good self.now }
    {
        match self {
            LinkOutcome::Good(_) => true,
            LinkOutcome::Faulty(_) => false,
        }
    }

    /// 0 if the link has no faults, else 1.
    pub(crate) fn status(&self) -> u8
        ensures { (bytes : List ℕ) → result ≡ (shown bytes self.now).status }
    {
        match self {
            LinkOutcome::Good(_) => 0,
            LinkOutcome::Faulty(_) => 1,
        }
    }

    /// The image, which the canvas holds if there is one.
    pub(crate) fn image<'a>(&self, canvas: &'a Canvas) -> &'a [u8]
        ensures { result.now ≡ (shown canvas.now.bytes self.now).image }
    {
        match self {
            LinkOutcome::Good(_) => canvas.bytes(),
            LinkOutcome::Faulty(_) => &[],
        }
    }

    /// The map.
    pub(crate) fn map(&self) -> &[u8]
        ensures { (bytes : List ℕ) → result.now ≡ (shown bytes self.now).map }
    {
        match self {
            LinkOutcome::Good(map) => map,
            LinkOutcome::Faulty(_) => &[],
        }
    }

    /// The fault lines.
    pub(crate) fn faults(&self) -> &[u8]
        ensures { (bytes : List ℕ) → result.now ≡ (shown bytes self.now).faults }
    {
        match self {
            LinkOutcome::Good(_) => &[],
            LinkOutcome::Faulty(text) => text,
        }
    }

    /// The status, and the length of the image.
    pub(crate) fn summary(&self, canvas: &Canvas) -> LinkSummary
        ensures { result ≡ linked_of (shown canvas.now.bytes self.now) }
    {
        LinkSummary {
            status: self.status(),
            length: self.image(canvas).len() as u64,
        }
    }
}
