//! The image that was answered last.

ghost use Rattle.std.specs.Prelude.{◌≡◌, ◌+◌, ◌<◌, ◌≤◌, ◌⊎◌, ℕ, length, slice_get};
ghost use Rattle.ldmodel_deferred.specs.Answers.{Remembers};
ghost use Rattle.ldmodel_deferred.specs.Changes.{AreChanges, AreWithin, IsOutside};

use ldmodel_deferred::changes::ByteRange;

/// Remembers an image; no byte of it if there is no memory for all.
pub(crate) fn remember(sent: &mut Vec<u8>, image: &[u8])
    ensures { Remembers sent.new.items image.now }
{
    sent.clear();
    if sent.extend_from_slice(image).is_err() {
        sent.clear();
    }
}

/// Copies a range of an image over an older one, as far as that goes.
fn copy_range(sent: &mut [u8], image: &[u8], range: ByteRange)
    requires short { length sent.old ≤ length image.now }
    requires within { range.offset + range.count ≤ length image.now }
    ensures length { length sent.new ≡ length sent.old }
    ensures inside { (at : ℕ) → range.offset ≤ at → at < range.offset + range.count → at < length sent.old
        → slice_get sent.new at ≡ slice_get image.now at }
    ensures outside { (at : ℕ) → (at < range.offset) ⊎ (range.offset + range.count ≤ at)
        → slice_get sent.new at ≡ slice_get sent.old at }
{
    let end = (range.offset + range.count).min(sent.len());
    if range.offset < end {
        sent[range.offset..end].copy_from_slice(&image[range.offset..end]);
    }
}

/// Copies ranges of an image over an older one that is the same outside of them, as far as that goes.
fn copy_ranges(sent: &mut [u8], image: &[u8], ranges: &[ByteRange])
    requires short { length sent.old ≤ length image.now }
    requires within { AreWithin (length image.now) ranges.now }
    requires same { (at : ℕ) → at < length sent.old → IsOutside at ranges.now
        → slice_get sent.old at ≡ slice_get image.now at }
    ensures length { length sent.new ≡ length sent.old }
    ensures same { (at : ℕ) → at < length sent.old → slice_get sent.new at ≡ slice_get image.now at }
{
    for range in ranges {
        copy_range(sent, image, *range);
    }
}

/// Remembers an image that is the remembered one outside of these ranges: copies no more than them, and what is longer.
/// No byte of it is remembered if there is no memory for all.
pub(crate) fn remember_changes(sent: &mut Vec<u8>, image: &[u8], ranges: &[ByteRange])
    requires { AreChanges sent.old.items image.now ranges.now }
    ensures { Remembers sent.new.items image.now }
{
    sent.truncate(image.len());
    copy_ranges(sent, image, ranges);
    let kept = sent.len();
    if sent.extend_from_slice(&image[kept..]).is_err() {
        sent.clear();
    }
}
