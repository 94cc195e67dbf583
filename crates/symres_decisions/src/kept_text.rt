//! A text of the known names, kept while names become known and are forgotten. If it is not worth keeping it is
//! dropped, and the names are sorted when the next link lists them.

ghost use Rattle.std.specs.Prelude.{◌<◌, ◌≤◌, ◌+◌, IfSome, length, take};
ghost use Rattle.symres_decisions.specs.Decisions.{IsTextOf};
ghost use Rattle.symres_decisions.specs.NameText.{AreInOrder};
ghost use Rattle.symres_table.specs.State.{Forgets, IsListing, State};

use crate::name_text::NameText;
use symres_table::names::Names;

/// As many names at most are put into a text one by one: each moves the names after it. For more it is quicker to sort
/// all names anew.
const MOST_PUT_IN: usize = 512;

/// The text with the name at a place of the list besides.
fn with_name(names: &Names, place: usize, text: NameText) -> Option<NameText>
    requires place { place < length names.now.order }
    requires text { AreInOrder (take place names.now.order) text }
    ensures { IfSome result (AreInOrder (take (place + 1) names.now.order)) }
{
    // for the prover: brings in the invariant of `names`
    let _known = names.known();
    let key = names.key_listed(place);
    let mut text = text;
    match text.insert(names.name_of(key).unwrap(), key) {
        Some(()) => Some(text),
        None => None,
    }
}

/// The text with the names from a place of the list on besides, if they are few and can be written.
pub fn with_new_names(names: &Names, from: usize, text: Option<NameText>) -> Option<NameText>
    requires from { from ≤ length names.now.order }
    requires text { IfSome text (AreInOrder (take from names.now.order)) }
    ensures { IsTextOf names.now result }
{
    let mut text = text?;
    let count = names.known();
    if count - from > MOST_PUT_IN {
        return None;
    }
    for place in from..count {
        text = with_name(names, place, text)?;
    }
    Some(text)
}

/// The text without the names that were forgotten, if most of its bytes are still used. It takes no memory.
pub fn without_forgotten(names: &Names, text: Option<NameText>) -> Option<NameText>
    ensures { (before : State) → IsListing before.names before.order → Forgets before names.now
        → IsTextOf before text → IsTextOf names.now result }
{
    let mut text = text?;
    text.keep_known(names);
    if text.is_sparse() {
        return None;
    }
    Some(text)
}
