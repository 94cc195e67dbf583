//! The sites of one target in an `Index`.

ghost use Rattle.std.specs.Prelude.{◌≡◌, ◌≤◌, ◌<◌, ◌+◌, ◌-◌, ◌^◌, [], None, OnOk, Some, length};
ghost use Rattle.slab.specs.Slab.{HasRoomFor, Updates, get, slab_len};

use growth::{NoMemory, slabs};
use ldmodel::fault::SiteRef;
use slab::Slab;
use std::alloc::Global;

/// The sites of one target, each at a place that it keeps.
#[derive(Drop)]
pub(crate) struct Bucket {
    /// The sites.
    pub(crate) sites: Slab<SiteRef>,
    /// How many sites are to be added: counted while an object is looked through, and without a meaning after that.
    pub(crate) wanted: usize,
}

impl Bucket {
    /// No sites.
    pub(crate) fn new(alloc: Global) -> Bucket
        ensures { result.sites.slots ≡ [] }
    {
        Bucket {
            sites: Slab::new(alloc),
            wanted: 0,
        }
    }

    /// Begins to count.
    pub(crate) fn want_none(&mut self)
        ensures wanted { self.new.wanted ≡ 0 }
        ensures sites { self.new.sites ≡ self.old.sites }
    {
        self.wanted = 0;
    }

    /// Counts one site more, and makes room for all that were counted.
    pub(crate) fn want_one(&mut self) -> Result<(), NoMemory>
        requires { self.old.wanted + 1 < 2 ^ 64 }
        ensures wanted { self.new.wanted ≡ self.old.wanted + 1 }
        ensures sites { self.new.sites.slots ≡ self.old.sites.slots }
        ensures capacity { self.old.sites.capacity ≤ self.new.sites.capacity }
        ensures room { OnOk result (HasRoomFor self.new.sites self.new.wanted) }
    {
        self.wanted += 1;
        slabs::reserve(&mut self.sites, self.wanted)
    }

    /// Adds a site, for which there is room; returns its place, which was free.
    pub(crate) fn add(&mut self, site: SiteRef) -> usize
        requires { HasRoomFor self.old.sites 1 }
        ensures free { get self.old.sites result ≡ None }
        ensures sites { Updates self.old.sites self.new.sites result (Some site) }
        ensures capacity { self.new.sites.capacity ≡ self.old.sites.capacity }
        ensures len { slab_len self.new.sites ≡ slab_len self.old.sites + 1 }
    {
        self.sites.insert_reserved(site)
    }

    /// Takes the site at a place out, if there is one.
    pub(crate) fn remove(&mut self, place: usize)
        ensures sites { Updates self.old.sites self.new.sites place None }
        ensures len { length self.new.sites.slots ≡ length self.old.sites.slots }
        ensures room { self.old.sites.capacity - slab_len self.old.sites
            ≤ self.new.sites.capacity - slab_len self.new.sites }
    {
        let _site = self.sites.try_remove(place);
    }
}
