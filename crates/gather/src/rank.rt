//! Where parts of objects come among all.

ghost use Rattle.std.specs.Prelude.{◌≡◌, ◌<◌, IfSome, length, position};
ghost use Rattle.std.specs.List.Sorted.{IsSortedByKey};
ghost use Rattle.gather.specs.Ranks.{is_ranked, rank_cmp, rank_of, rank_self};

use ldmodel::sections::Part;

/// Where a part of an object comes among all: by the place of the object, then sections before common blocks, then by
/// the number of the part.
pub type Rank = (usize, bool, u32);

/// The rank of a part.
pub fn rank(object: usize, part: Part) -> Rank
    ensures { result ≡ rank_of object part }
{
    match part {
        Part::InTable(section) => (object, false, u32::from(section.0)),
        Part::InCommon(symbol) => (object, true, symbol.0),
    }
}

/// The place of a rank among ranks in their order. The time is logarithmic.
pub(crate) fn find_rank(ranks: &[Rank], sought: Rank) -> Option<usize>
    ensures is { IsSortedByKey rank_self rank_cmp ranks.now → result ≡ position (is_ranked sought) ranks.now }
    ensures below { IfSome result (λ i. i < length ranks.now) }
{
    let first = ranks.partition_point(|other| *other < sought);
    let found = *ranks.get(first)?;
    if found == sought { Some(first) } else { None }
}
