//! For each of some ranges the first that it overlaps, by a tree of the ranges in the order of their starts. Each
//! range, in the order of the script, marks all that overlap it and have no mark yet.

ghost use Rattle.std.specs.Prelude.{◌≡◌, ℕ, ◌+◌, ◌*◌, ◌≤◌, ◌<◌, List, [], length, get_or, map, IfOk, Option, None};
ghost use Rattle.place_sections.specs.Firsts.{AreFirst, AreNumbered, IsRanking, extent_of};
ghost use Rattle.place_sections.specs.Hulls.{Around, Kept};

use crate::extent::Extent;
use crate::hull::{Hull, mark_overlapping};
use growth::{NoMemory, iterator, vec};
use std::alloc::Global;

/// A range and its number in the order of the script.
#[derive(Clone, Copy, Debug)]
pub(crate) struct Numbered {
    pub(crate) extent: Extent,
    pub(crate) number: usize,
}

fn with_numbers(alloc: Global, extents: &[Extent]) -> Result<Vec<Numbered>, NoMemory>
    ensures { IfOk result (λ v. AreNumbered extents.now v.items) }
{
    let mut numbered = vec::with_capacity(alloc, extents.len())?;
    for number in 0..extents.len() {
        vec::push(
            &mut numbered,
            Numbered {
                extent: extents[number],
                number,
            },
        )?;
    }
    Ok(numbered)
}

/// The ranges in the order of where they begin.
fn ranking(alloc: Global, extents: &[Extent]) -> Result<Vec<Numbered>, NoMemory>
    ensures { IfOk result (λ v. IsRanking extents.now v.items) }
{
    let mut ranking = with_numbers(alloc, extents)?;
    ranking.sort_unstable_by_key(|r| r.extent.start);
    Ok(ranking)
}

fn extents_of(alloc: Global, ranking: &[Numbered]) -> Result<Vec<Extent>, NoMemory>
    ensures { IfOk result (λ v. v.items ≡ map extent_of ranking.now) }
{
    iterator::collect(ranking.iter().map(|r| r.extent), alloc)
}

/// The range around all.
fn around_all(extents: &[Extent]) -> Hull
    ensures { (j : ℕ) → (d : Extent) → j < length extents.now → Around result (get_or extents.now j d) }
{
    let mut all = Hull { low: 0, end: 0 };
    for extent in extents {
        all = all.around(Hull::of(extent));
    }
    all
}

/// Marks each of the ranges in order by the first that it overlaps.
fn mark_all(
    extents: &[Extent],
    in_order: &[Extent],
    nodes: &mut [Hull],
    firsts: &mut [Option<usize>],
)
    requires lengths { length in_order.now ≡ length extents.now }
    requires nodes { length nodes.old ≡ 2 * length in_order.now }
    requires kept { Kept in_order.now nodes.old firsts.old }
    requires unmarked { AreFirst [] in_order.now firsts.old }
    ensures { AreFirst extents.now in_order.now firsts.new }
{
    for k in 0..extents.len() {
        mark_overlapping(in_order, nodes, firsts, 1, &extents[k], k);
    }
}

/// For each of the ranges in order the number of the first that it overlaps.
fn marks(
    alloc: Global,
    extents: &[Extent],
    in_order: &[Extent],
) -> Result<Vec<Option<usize>>, NoMemory>
    requires { length in_order.now ≡ length extents.now }
    ensures { IfOk result (λ v. AreFirst extents.now in_order.now v.items) }
{
    let mut nodes = vec::from_elem(alloc, around_all(in_order), 2 * in_order.len())?;
    let mut firsts = vec::from_elem(alloc, None, in_order.len())?;
    mark_all(extents, in_order, &mut nodes, &mut firsts);
    Ok(firsts)
}

/// The marks in the order of the script.
fn by_number(
    alloc: Global,
    extents: &[Extent],
    ranking: &[Numbered],
    marks: &[Option<usize>],
) -> Result<Vec<Option<usize>>, NoMemory>
    requires ranking { IsRanking extents.now ranking.now }
    requires marks { AreFirst extents.now (map extent_of ranking.now) marks.now }
    ensures { IfOk result (λ v. AreFirst extents.now extents.now v.items) }
{
    let mut firsts = vec::from_elem(alloc, None, extents.len())?;
    for j in 0..ranking.len() {
        firsts[ranking[j].number] = marks[j];
    }
    Ok(firsts)
}

/// For each range the number of the first that it overlaps. The time is that of a sort.
pub(crate) fn firsts(alloc: Global, extents: &[Extent]) -> Result<Vec<Option<usize>>, NoMemory>
    ensures { IfOk result (λ v. AreFirst extents.now extents.now v.items) }
{
    let ranking = ranking(alloc, extents)?;
    let in_order = extents_of(alloc, &ranking)?;
    let marks = marks(alloc, extents, &in_order)?;
    by_number(alloc, extents, &ranking, &marks)
}
