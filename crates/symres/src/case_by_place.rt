//! Cases with the places of objects for their keys.

ghost use Rattle.std.specs.Prelude.{◌≡◌};
ghost use Rattle.symres.specs.Placed.{place_case, place_entry};

use ldmodel::names::{Case, Entry, ObjectKey, ObjectPlace};
use ldmodel_project::order::Order;

#[inline(always)]
fn place_entry(order: &Order, entry: Entry<ObjectKey>) -> Entry<ObjectPlace>
    ensures { result ≡ place_entry order.now entry }
{
    Entry {
        object: ObjectPlace(order.place_of(entry.object).unwrap_or(0)),
        symbol: entry.symbol,
    }
}

/// A case, with the places of objects for their keys. The time is constant.
#[inline(always)]
pub fn place_case(order: &Order, case: Case<ObjectKey>) -> Case<ObjectPlace>
    ensures { result ≡ place_case order.now case }
{
    match case {
        Case::Strong(entry) => Case::Strong(place_entry(order, entry)),
        Case::Common { owner, size, align } => Case::Common {
            owner: place_entry(order, owner),
            size,
            align,
        },
        Case::Weak(entry) => Case::Weak(place_entry(order, entry)),
        Case::Script => Case::Script,
        Case::Provided => Case::Provided,
        Case::Undefined => Case::Undefined,
        Case::Duplicate => Case::Duplicate,
    }
}
