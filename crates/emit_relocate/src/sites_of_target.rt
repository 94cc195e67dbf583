//! A walk over the sites of a target in an `Index`.

ghost use Rattle.std.specs.Prelude.{◌≡◌, []};
ghost use Rattle.std.specs.Iterator.{YieldsFirst, item_count};
ghost use Rattle.slab.specs.Slab.{values};

use crate::bucket::Bucket;
use ldmodel::fault::SiteRef;
use std::iter::FusedIterator;
use std::marker::Model;

/// The sites of a target that are left, in any order.
#[derive(Drop)]
pub struct Sites<'a> {
    left: Option<slab::Iter<'a, SiteRef>>,
}

impl<'a> Model for Sites<'a> {
    ghost use Rattle.std.specs.Prelude.{List, [], map};
    ghost use Rattle.std.specs.Option.{option_map_or};
    ghost use Rattle.ldmodel.specs.declared.fault.SiteRef.{SiteRef};

    ghost Value = { List SiteRef };

    ghost view = { λ s. option_map_or (map (λ e. e.1)) s.left [] };
}

impl<'a> Sites<'a> {
    /// No sites.
    pub(crate) fn none() -> Sites<'a>
        ensures { result ≡ [] }
    {
        Sites { left: None }
    }

    /// The sites of a bucket.
    pub(crate) fn of(bucket: &'a Bucket) -> Sites<'a>
        ensures { result ≡ values bucket.now.sites }
    {
        Sites {
            left: Some(bucket.sites.iter()),
        }
    }
}

impl<'a> Iterator for Sites<'a> {
    type Item = SiteRef;

    ghost next_gives = { YieldsFirst (λ left. left) };

    ghost remaining = { item_count (λ left. left) };

    fn next(&mut self) -> Option<SiteRef> {
        match &mut self.left {
            None => None,
            Some(left) => match left.next() {
                None => None,
                Some((_place, site)) => Some(*site),
            },
        }
    }
}

impl<'a> FusedIterator for Sites<'a> {}
