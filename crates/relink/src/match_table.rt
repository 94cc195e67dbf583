//! The matches of all objects, in the order of the objects.

ghost use Rattle.std.specs.Prelude.{◌≡◌, ◌+◌, ◌<◌, ◌≤◌, IfOk, IfSome, map};
ghost use Rattle.std.specs.Option.{option_map_or};
ghost use Rattle.std.specs.VecDeque.{deque_capacity, deque_len};
ghost use Rattle.ldmodel_project.specs.Listing.{found_under};
ghost use Rattle.relink.specs.Matches.{IsMatchedOr, Renews, exchanged, gone_at, put_at, taken_at};

use gather::Matcher;
use gather::matches::{Matches, match_all, match_object};
use gather::same_inputs::have_same_inputs;
use growth::{NoMemory, iterator};
use ldmodel::names::ObjectKey;
use ldmodel_project::project::Next;
use ldscript::Script;
use std::alloc::Global;
use std::collections::VecDeque;
use std::mem;

/// The matches of the object under a key of the next project, if there is one.
///
/// # Errors
///
/// If memory runs out.
pub(crate) fn match_under(
    alloc: Global,
    next: &Next<'_>,
    key: ObjectKey,
) -> Result<Option<Matches>, NoMemory>
    ensures { IfOk result (λ m. IsMatchedOr next.now.script (found_under next.now.entries key.0) m) }
{
    let Some(named) = next.named(key) else {
        return Ok(None);
    };
    let matcher = Matcher::new(alloc, next.script())?;
    let matches = match_object(alloc, &matcher, named.name(), named.object())?;
    Ok(Some(matches))
}

/// The matches of all objects under the script of the next project; none if its input statements are those of the
/// script before, under which no object is matched anew.
///
/// # Errors
///
/// If memory runs out.
pub(crate) fn matches_if_other(
    alloc: Global,
    before: &Script,
    next: &Next<'_>,
) -> Result<Option<Vec<Matches>>, NoMemory>
    ensures { IfOk result (Renews before.now next.now) }
{
    if have_same_inputs(alloc, before, next.script())? {
        return Ok(None);
    }
    let inputs = next.inputs(alloc)?;
    let found = match_all(alloc, &next.view(&inputs))?;
    Ok(Some(found))
}

/// Puts new matches in the place of the list, if there are any, and returns the list that was there. It takes no
/// memory.
pub(crate) fn put_new(
    list: &mut VecDeque<Matches>,
    found: Option<Vec<Matches>>,
) -> Option<VecDeque<Matches>>
    ensures items { list.new.items ≡ option_map_or (λ all. all.items) found list.old.items }
    ensures before { option_map_or (λ was. was.items) result list.new.items ≡ list.old.items }
{
    match found {
        None => None,
        Some(found) => Some(mem::replace(list, VecDeque::from_vec(found))),
    }
}

/// Puts back a list that was replaced, if one was. It takes no memory.
pub(crate) fn put_back(list: &mut VecDeque<Matches>, before: Option<VecDeque<Matches>>)
    ensures { list.new.items ≡ option_map_or (λ was. was.items) before list.old.items }
{
    if let Some(before) = before {
        *list = before;
    }
}

/// The matches of all objects, lent for a link.
///
/// # Errors
///
/// If memory runs out.
pub(crate) fn lend_matches(
    alloc: Global,
    list: &VecDeque<Matches>,
) -> Result<Vec<&Matches>, NoMemory>
    ensures { IfOk result (λ lent. map (λ x. x.now) lent.items ≡ list.now.items) }
{
    iterator::collect(list.iter(), alloc)
}

/// Removes the entry at a place, if there is a place.
fn take_out(list: &mut VecDeque<Matches>, out: Option<usize>) -> Option<Matches>
    requires { IfSome out (λ p. p < deque_len list.old) }
    ensures items { list.new.items ≡ taken_at list.old.items out }
    ensures gone { result ≡ gone_at list.old.items out }
    ensures len { deque_len list.new ≤ deque_len list.old }
    ensures one { IfSome out (λ _. deque_len list.new + 1 ≡ deque_len list.old) }
    ensures capacity { deque_capacity list.new ≡ deque_capacity list.old }
{
    let place = out?;
    list.remove(place)
}

/// Puts in what comes at a place, if both are there. It takes no memory.
fn put_in(list: &mut VecDeque<Matches>, into: Option<usize>, coming: Option<Matches>)
    requires place { IfSome into (λ q. q ≤ deque_len list.old) }
    requires room { deque_len list.old < deque_capacity list.old }
    ensures items { list.new.items ≡ put_at list.old.items into coming }
    ensures len { deque_len list.new ≤ deque_len list.old + 1 }
    ensures capacity { deque_capacity list.old ≤ deque_capacity list.new }
{
    let Some(place) = into else {
        return;
    };
    let Some(matches) = coming else {
        return;
    };
    match list.insert(place, matches) {
        Ok(()) => {}
        Err(_) => unreachable!(),
    }
}

/// Removes the entry at one place, and inserts the new one at another. It takes no memory. At either end of the list it
/// takes constant time.
pub(crate) fn swap_matches(
    list: &mut VecDeque<Matches>,
    out: Option<usize>,
    into: Option<usize>,
    coming: Option<Matches>,
) -> Option<Matches>
    requires out { IfSome out (λ p. p < deque_len list.old) }
    requires into { IfSome into (λ q. IfSome out (λ _. q < deque_len list.old)) }
    requires added { IfSome into (λ q. q ≤ deque_len list.old) }
    requires room { deque_len list.old < deque_capacity list.old }
    ensures items { list.new.items ≡ exchanged list.old.items out into coming }
    ensures gone { result ≡ gone_at list.old.items out }
    ensures len { deque_len list.new ≤ deque_len list.old + 1 }
    ensures capacity { deque_capacity list.old ≤ deque_capacity list.new }
{
    let gone = take_out(list, out);
    put_in(list, into, coming);
    gone
}
