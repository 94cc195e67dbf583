//! A tree of ranges of addresses, each around those below it, to find all ranges that overlap a given one.

ghost use Rattle.std.specs.Prelude.{◌≡◌, ℕ, ◌+◌, ◌*◌, ◌≤◌, ◌<◌, List, length, get_or, None, false};
ghost use Rattle.place_sections.specs.Extents.{overlap};
ghost use Rattle.place_sections.specs.Hulls.{around, may_overlap, Kept, Marked, Missed};

use crate::extent::Extent;

/// A range of addresses that contains each of some ranges.
#[derive(Clone, Copy, Debug)]
pub(crate) struct Hull {
    pub(crate) low: u64,
    pub(crate) end: u128,
}

impl Hull {
    /// No range; it keeps the lower bound.
    fn emptied(self) -> Hull
        ensures { result ≡ record { low = self.low; end = 0 } }
    {
        Hull {
            low: self.low,
            end: 0,
        }
    }

    pub(crate) fn of(extent: &Extent) -> Hull
        ensures { result ≡ record { low = extent.now.start; end = extent.now.start + extent.now.size } }
    {
        Hull {
            low: extent.start,
            end: extent.end(),
        }
    }

    /// The range around both.
    pub(crate) fn around(self, other: Hull) -> Hull
        ensures { result ≡ around self other }
    {
        Hull {
            low: self.low.min(other.low),
            end: self.end.max(other.end),
        }
    }

    /// Whether a range within this one can overlap the other.
    fn may_overlap(self, extent: &Extent) -> bool
        ensures { result ≡ may_overlap self extent.now }
    {
        u128::from(self.low) < extent.end() && u128::from(extent.start) < self.end
    }
}

/// Marks a range of a leaf, if it overlaps the given one and has no mark.
fn mark_leaf(
    extents: &[Extent],
    nodes: &mut [Hull],
    firsts: &mut [Option<usize>],
    leaf: usize,
    extent: &Extent,
    by: usize,
)
    requires lengths { length nodes.old ≡ 2 * length extents.now }
    requires marks { length firsts.old ≡ length extents.now }
    requires leaf { leaf < length extents.now }
    requires kept { Kept extents.now nodes.old firsts.old }
    ensures kept { Kept extents.now nodes.new firsts.new }
    ensures marked { Marked extents.now extent.now by firsts.old firsts.new }
    ensures missed { (d : Extent) → get_or firsts.new leaf None ≡ None
        → overlap (get_or extents.now leaf d) extent.now ≡ false }
{
    let node = extents.len() + leaf;
    if firsts[leaf].is_some() || extents[leaf].size == 0 {
        nodes[node] = nodes[node].emptied();
        return;
    }
    if extents[leaf].overlaps(extent) {
        firsts[leaf] = Some(by);
        nodes[node] = nodes[node].emptied();
        return;
    }
    nodes[node] = Hull::of(&extents[leaf]);
}

/// Marks all ranges below a node that overlap the given one and have no mark. Where the range around them does not
/// overlap it, none of them does.
pub(crate) fn mark_overlapping(
    extents: &[Extent],
    nodes: &mut [Hull],
    firsts: &mut [Option<usize>],
    node: usize,
    extent: &Extent,
    by: usize,
)
    requires lengths { length nodes.old ≡ 2 * length extents.now }
    requires marks { length firsts.old ≡ length extents.now }
    requires positive { 0 < node }
    requires node { node < length nodes.old }
    requires kept { Kept extents.now nodes.old firsts.old }
    ensures kept { Kept extents.now nodes.new firsts.new }
    ensures marked { Marked extents.now extent.now by firsts.old firsts.new }
    ensures missed { Missed extents.now extent.now node firsts.new }
{
    if !nodes[node].may_overlap(extent) {
        return;
    }
    if node >= extents.len() {
        mark_leaf(extents, nodes, firsts, node - extents.len(), extent, by);
        return;
    }
    mark_overlapping(extents, nodes, firsts, 2 * node, extent, by);
    mark_overlapping(extents, nodes, firsts, 2 * node + 1, extent, by);
    nodes[node] = nodes[2 * node].around(nodes[2 * node + 1]);
}
