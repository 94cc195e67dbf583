//! Which relocations are against a target. No link keeps such an index: it is for callers that have no table of the
//! values of symbols, from which a link sees what to evaluate anew (docs/DECISIONS.md).

ghost use Rattle.std.specs.Prelude.{◌≡◌, ◌≢◌, ◌≤◌, ◌<◌, ◌+◌, ◌++◌, ℕ, [], ◌∷◌, List, All, OnOk, count_by, filter};
ghost use Rattle.std.specs.Prelude.{length, map, not, slice_index};
ghost use Rattle.std.specs.List.Sorted.{IsPermutation};
ghost use Rattle.emit_relocate.specs.Index.{HasRoomFor, cleared, cleared_one, is_against, is_of_object, site_of};
ghost use Rattle.emit_relocate.specs.Index.{room_at};
ghost use Rattle.emit_relocate.specs.Index.{sites_at, slot, slots_at, spot_room, spots_at, wanted_at};
ghost use Rattle.emit_relocate.specs.declared.index.TargetSite.{TargetSite};
ghost use Rattle.ldmodel.specs.declared.names.ObjectPlace.{ObjectPlace};

use crate::bucket::Bucket;
use crate::sites_of_target::Sites;
use elfobj::section::SectionIndex;
use growth::{NoMemory, vec};
use ldmodel::fault::SiteRef;
use ldmodel::names::ObjectPlace;
use std::alloc::Global;
use std::marker::Model;

/// The number of a target, a name or a section of an object, one number each. They are best dense: an index has room
/// for each number below the greatest.
#[derive(Clone, Copy, Debug, PartialEq, Eq)]
pub struct TargetIndex(pub usize);

/// A relocation of an object and the number of its target.
#[derive(Clone, Copy, Debug, PartialEq, Eq)]
pub struct TargetSite {
    /// The number of the target.
    pub target: TargetIndex,
    /// The section that the relocation changes.
    pub section: SectionIndex,
    /// The number of its entry among the relocations of the section.
    pub entry: u32,
}

/// The place of a site in the index.
#[derive(Clone, Copy, Debug, PartialEq, Eq)]
pub struct IndexSlot {
    target: usize,
    place: usize,
}

/// For each target the relocations against it, in any order.
#[derive(Drop)]
pub struct Index {
    alloc: Global,
    targets: Vec<Bucket>,
    objects: Vec<Vec<IndexSlot>>,
}

impl Model for Index {
    ghost use Rattle.std.specs.Prelude.{◌-◌, List, map, vec_capacity, vec_len};
    ghost use Rattle.slab.specs.Slab.{slab_len, values};
    ghost use Rattle.emit_relocate.specs.Index.{IsSound, SiteTable};

    ghost Value = { SiteTable };

    ghost view = { λ x. record {
      targets = map (λ b. values b.sites) x.targets.items;
      target_room = map (λ b. b.sites.capacity - slab_len b.sites) x.targets.items;
      object_room = map (λ v. vec_capacity v - vec_len v) x.objects.items;
    } };

    ghost invariant = { λ x. IsSound x.targets.items (map (λ v. v.items) x.objects.items) };
}

/// Takes the site at a place out of its target.
fn remove_one(targets: &mut Vec<Bucket>, spot: IndexSlot)
    ensures slots { (t k : ℕ) → slot targets.new.items t k ≡ cleared_one t k spot (slot targets.old.items t k) }
    ensures lengths { (t : ℕ) → length (slots_at targets.new.items t) ≡ length (slots_at targets.old.items t) }
    ensures rooms { (t : ℕ) → room_at targets.old.items t ≤ room_at targets.new.items t }
{
    if spot.target >= targets.len() {
        return;
    }
    targets[spot.target].remove(spot.place);
}

/// Takes the sites at these places out of their targets.
fn remove_all(targets: &mut Vec<Bucket>, spots: &[IndexSlot])
    ensures slots { (t k : ℕ) → slot targets.new.items t k ≡ cleared t k spots.now (slot targets.old.items t k) }
    ensures lengths { (t : ℕ) → length (slots_at targets.new.items t) ≡ length (slots_at targets.old.items t) }
    ensures rooms { (t : ℕ) → room_at targets.old.items t ≤ room_at targets.new.items t }
{
    for spot in spots {
        remove_one(targets, *spot);
    }
}

/// Makes a bucket for each target up to this one.
fn grow_targets(targets: &mut Vec<Bucket>, alloc: Global, target: usize) -> Result<(), NoMemory>
    ensures slots { (t : ℕ) → slots_at targets.new.items t ≡ slots_at targets.old.items t }
    ensures kept { length targets.old.items ≤ length targets.new.items }
    ensures there { OnOk result (target < length targets.new.items) }
{
    while targets.len() <= target {
        vec::push(targets, Bucket::new(alloc))?;
    }
    Ok(())
}

/// Makes a bucket for the target of each of these sites.
fn grow_all(targets: &mut Vec<Bucket>, alloc: Global, sites: &[TargetSite]) -> Result<(), NoMemory>
    ensures slots { (t : ℕ) → slots_at targets.new.items t ≡ slots_at targets.old.items t }
    ensures there { OnOk result (All (λ s. s.target.0 < length targets.new.items) sites.now) }
{
    for site in sites {
        grow_targets(targets, alloc, site.target.0)?;
    }
    Ok(())
}

/// Begins to count what is wanted of the target of each of these sites.
fn want_none(targets: &mut Vec<Bucket>, sites: &[TargetSite])
    requires { All (λ s. s.target.0 < length targets.old.items) sites.now }
    ensures slots { (t : ℕ) → slots_at targets.new.items t ≡ slots_at targets.old.items t }
    ensures len { length targets.new.items ≡ length targets.old.items }
    ensures wanted { All (λ s. wanted_at targets.new.items s.target.0 ≡ 0) sites.now }
{
    for site in sites {
        targets[site.target.0].want_none();
    }
}

/// Counts these sites with their targets, and makes room for them there.
fn want_all(targets: &mut Vec<Bucket>, sites: &[TargetSite]) -> Result<(), NoMemory>
    requires there { All (λ s. s.target.0 < length targets.old.items) sites.now }
    requires none { All (λ s. wanted_at targets.old.items s.target.0 ≡ 0) sites.now }
    ensures slots { (t : ℕ) → slots_at targets.new.items t ≡ slots_at targets.old.items t }
    ensures room { OnOk result ((t : ℕ) → count_by (is_against t) sites.now ≤ room_at targets.new.items t) }
{
    for site in sites {
        targets[site.target.0].want_one()?;
    }
    Ok(())
}

/// Makes room for these sites with their targets.
fn reserve_targets(
    targets: &mut Vec<Bucket>,
    alloc: Global,
    sites: &[TargetSite],
) -> Result<(), NoMemory>
    ensures slots { (t : ℕ) → slots_at targets.new.items t ≡ slots_at targets.old.items t }
    ensures room { OnOk result ((t : ℕ) → count_by (is_against t) sites.now ≤ room_at targets.new.items t) }
{
    grow_all(targets, alloc, sites)?;
    want_none(targets, sites);
    want_all(targets, sites)
}

/// Makes a list for each object up to this one.
fn grow_objects(
    objects: &mut Vec<Vec<IndexSlot>>,
    alloc: Global,
    object: usize,
) -> Result<(), NoMemory>
    ensures spots { (o : ℕ) → spots_at objects.new.items o ≡ spots_at objects.old.items o }
    ensures there { OnOk result (object < length objects.new.items) }
{
    while objects.len() <= object {
        vec::push(objects, Vec::new(alloc))?;
    }
    Ok(())
}

/// Makes room for these sites with their object.
fn reserve_object(
    objects: &mut Vec<Vec<IndexSlot>>,
    alloc: Global,
    object: usize,
    count: usize,
) -> Result<(), NoMemory>
    ensures spots { (o : ℕ) → spots_at objects.new.items o ≡ spots_at objects.old.items o }
    ensures room { OnOk result (count ≤ spot_room objects.new.items object) }
{
    grow_objects(objects, alloc, object)?;
    vec::reserve(&mut objects[object], count)?;
    Ok(())
}

impl Index {
    /// An index without sites.
    pub fn new(alloc: Global) -> Index
        ensures { (target : ℕ) → sites_at result target ≡ [] }
    {
        Index {
            alloc,
            targets: Vec::new(alloc),
            objects: Vec::new(alloc),
        }
    }

    /// The sites of a target, in any order. It takes no memory.
    pub fn sites_of(&self, target: TargetIndex) -> Sites<'_>
        ensures { result ≡ sites_at self.now target.0 }
    {
        match self.targets.get(target.0) {
            None => Sites::none(),
            Some(bucket) => Sites::of(bucket),
        }
    }

    /// Takes the sites of an object out. It takes no memory, and time in the number of these sites. What there was room
    /// for, of any object, there still is.
    pub fn drop_object(&mut self, object: ObjectPlace)
        ensures sites { (target : ℕ) → sites_at self.new target
            ≡ filter (λ site. not (is_of_object object site)) (sites_at self.old target) }
        ensures rooms { (other : ObjectPlace) (sites : List TargetSite) → HasRoomFor self.old other sites
            → HasRoomFor self.new other sites }
    {
        if object.0 >= self.objects.len() {
            return;
        }
        remove_all(&mut self.targets, &self.objects[object.0]);
        self.objects[object.0].clear();
    }

    /// Makes room for these sites of an object.
    ///
    /// # Errors
    ///
    /// If memory runs out. All sites are then as they were.
    pub fn reserve(&mut self, object: ObjectPlace, sites: &[TargetSite]) -> Result<(), NoMemory>
        ensures same { (target : ℕ) → sites_at self.new target ≡ sites_at self.old target }
        ensures room { OnOk result (HasRoomFor self.new object sites.now) }
    {
        reserve_targets(&mut self.targets, self.alloc, sites)?;
        reserve_object(&mut self.objects, self.alloc, object.0, sites.len())?;
        Ok(())
    }

    /// Adds a site of an object, for which there is room.
    fn add_one(&mut self, object: ObjectPlace, site: TargetSite)
        requires target { 0 < slice_index self.old.target_room site.target.0 }
        requires object { 0 < slice_index self.old.object_room object.0 }
        ensures added { IsPermutation (site_of object site ∷ sites_at self.old site.target.0)
            (sites_at self.new site.target.0) }
        ensures others { (t : ℕ) → t ≢ site.target.0 → sites_at self.new t ≡ sites_at self.old t }
        ensures target_room { slice_index self.old.target_room site.target.0 ≤ slice_index self.new.target_room
            site.target.0 + 1 }
        ensures other_rooms { (t : ℕ) → t ≢ site.target.0 → slice_index self.new.target_room t
            ≡ slice_index self.old.target_room t }
        ensures object_room { slice_index self.old.object_room object.0 ≤ slice_index self.new.object_room
            object.0 + 1 }
    {
        let target = site.target.0;
        let place = self.targets[target].add(SiteRef {
            object,
            section: site.section,
            entry: site.entry,
        });
        self.objects[object.0]
            .push(IndexSlot { target, place })
            .unwrap();
    }

    /// Adds sites of an object, for which there is room. It takes no memory.
    pub fn add_reserved(&mut self, object: ObjectPlace, sites: &[TargetSite])
        requires { HasRoomFor self.old object sites.now }
        ensures { (target : ℕ) → IsPermutation (sites_at self.old target
            ++ map (site_of object) (filter (is_against target) sites.now)) (sites_at self.new target) }
    {
        for site in sites {
            self.add_one(object, *site);
        }
    }
}
