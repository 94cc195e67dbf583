//! What has changed in an image since it was answered last.

ghost use Rattle.std.specs.Prelude.{◌≡◌, ◌+◌, ◌<◌, ◌≤◌, ℕ, IfOk, length, slice_get, true};
ghost use Rattle.ldmodel_deferred.specs.Changes.{AreChanges};

use growth::{NoMemory, vec};
use ldmodel_deferred::changes::ByteRange;
use std::alloc::Global;
use std::simd::prelude::*;

/// Images are compared by blocks of this many bytes.
const BLOCK: usize = 4096;

/// Blocks are compared by lines of this many bytes, a vector each.
const LINE: usize = 64;

/// Where the block at `from` ends: the last one ends with the image.
fn block_end(from: usize, length: usize) -> usize
    requires { from < length }
    ensures after { from < result }
    ensures within { result ≤ length }
{
    if length - from > BLOCK {
        from + BLOCK
    } else {
        length
    }
}

/// Whether two images have the same bytes in the line from `from` on.
fn is_same_line(sent: &[u8], image: &[u8], from: usize) -> bool
    requires sent { from + 64 ≤ length sent.now }
    requires image { from + 64 ≤ length image.now }
    ensures { result ≡ true → (at : ℕ) → from ≤ at → at < from + 64
        → slice_get sent.now at ≡ slice_get image.now at }
{
    let before = u8x64::from_slice(&sent[from..]);
    let now = u8x64::from_slice(&image[from..]);
    before.simd_ne(now).to_bitmask() == 0
}

/// The end of the lines from `from` on that are the same in both; no line goes past `end`.
fn skip_lines(sent: &[u8], image: &[u8], from: usize, end: usize) -> usize
    requires ascending { from ≤ end }
    requires sent { end ≤ length sent.now }
    requires image { end ≤ length image.now }
    ensures after { from ≤ result }
    ensures within { result ≤ end }
    ensures same { (at : ℕ) → from ≤ at → at < result → slice_get sent.now at ≡ slice_get image.now at }
{
    let mut at = from;
    while end - at >= LINE {
        if !is_same_line(sent, image, at) {
            break;
        }
        at += LINE;
    }
    at
}

/// Whether an image has the same bytes as another in a range, which lies in the first.
fn is_same(sent: &[u8], image: &[u8], from: usize, end: usize) -> bool
    requires ascending { from ≤ end }
    requires within { end ≤ length image.now }
    ensures { result ≡ true → (at : ℕ) → from ≤ at → at < end → slice_get sent.now at ≡ slice_get image.now at }
{
    if end > sent.len() {
        return false;
    }
    let at = skip_lines(sent, image, from, end);
    if end - at >= LINE {
        return false;
    }
    sent[at..end] == image[at..end]
}

/// The end of the blocks from `from` on that are the same in both.
fn skip_same(sent: &[u8], image: &[u8], from: usize) -> usize
    requires { from ≤ length image.now }
    ensures after { from ≤ result }
    ensures within { result ≤ length image.now }
    ensures same { (at : ℕ) → from ≤ at → at < result → slice_get sent.now at ≡ slice_get image.now at }
{
    let mut at = from;
    while at < image.len() {
        let end = block_end(at, image.len());
        if !is_same(sent, image, at, end) {
            break;
        }
        at = end;
    }
    at
}

/// The end of the blocks from `from` on that are not the same in both. The first one is not compared.
fn skip_changed(sent: &[u8], image: &[u8], from: usize) -> usize
    requires { from < length image.now }
    ensures after { from < result }
    ensures within { result ≤ length image.now }
{
    let mut at = block_end(from, image.len());
    while at < image.len() {
        let end = block_end(at, image.len());
        if is_same(sent, image, at, end) {
            break;
        }
        at = end;
    }
    at
}

/// The ranges outside which an image is, byte for byte, the one that was given before.
///
/// # Errors
///
/// If memory runs out.
pub(crate) fn changed_ranges(
    alloc: Global,
    sent: &[u8],
    image: &[u8],
) -> Result<Vec<ByteRange>, NoMemory>
    ensures { IfOk result (λ ranges. AreChanges sent.now image.now ranges.items) }
{
    let mut ranges = Vec::new(alloc);
    let mut at = skip_same(sent, image, 0);
    while at < image.len() {
        let end = skip_changed(sent, image, at);
        vec::push(
            &mut ranges,
            ByteRange {
                offset: at,
                count: end - at,
            },
        )?;
        at = skip_same(sent, image, end);
    }
    Ok(ranges)
}
