//! The length of the image.

ghost use Rattle.std.specs.Prelude.{◌≡◌, ℕ, ◌+◌, ◌*◌, ◌≤◌, ◌<◌, ◌^◌, List, fold, length, nat_lt, Option, Some, None};
ghost use Rattle.std.specs.Prelude.{if◌then◌else◌};
ghost use Rattle.std.specs.Int.{next_multiple_of};
ghost use Rattle.ldmodel.specs.Link.{max_image_length};
ghost use Rattle.ldmodel.specs.declared.fault.Fault.TheVariants.{ImageTooLong};
ghost use Rattle.ldmodel.specs.Segments.{headers_end};
ghost use Rattle.place.specs.Length.{IsImageLength};
ghost use Rattle.place.specs.Placing.{Follow, past};

use crate::segments::{end_after, header_length};
use ldmodel::fault::Fault;
use ldmodel::segment::Segment;

/// The longest image, in bytes.
pub const MAX_IMAGE_LENGTH: u128 = 1 << 28;

/// The contents of the tail of an image.
#[derive(Clone, Copy, Debug, PartialEq, Eq)]
pub struct TailSizes {
    /// The number of symbols of `.symtab`, its null entry not among them.
    pub symbols: u64,
    /// The number of bytes of `.strtab`.
    pub symbol_names: u64,
    /// The number of bytes of `.shstrtab`.
    pub header_names: u64,
    /// The number of output sections.
    pub sections: u64,
}

/// The least multiple of 8 not below a number.
fn align(x: u128) -> u128
    requires { x + 8 < 2 ^ 128 }
    ensures { result ≡ next_multiple_of x 8 }
{
    x + (8 - x % 8) % 8
}

/// The number of segments; no slice has 2^63 elements.
fn count(segments: &[Segment]) -> usize
    ensures value { result ≡ length segments.now }
    ensures small { result < 2 ^ 63 }
{
    segments.len()
}

/// A cap that no file reaches.
const FAR: u128 = 3 << 126;

/// Where the loaded part of the file ends: at the end of the last file bytes, or of the headers.
fn loaded_end(segments: &[Segment]) -> u128
    ensures exact { Follow (headers_end (length segments.now)) segments.now
        → result ≡ fold past (headers_end (length segments.now)) segments.now }
    ensures far { result ≤ 3 * 2 ^ 126 }
{
    let mut end = header_length(count(segments));
    for segment in segments {
        end = end_after(end, *segment);
    }
    end.min(FAR)
}

/// The length of an image with these segments and this tail.
pub fn image_length(segments: &[Segment], tail: TailSizes) -> u128
    ensures { IsImageLength segments.now tail result }
{
    let symbols = align(loaded_end(segments));
    let symbol_names = symbols + 24 * (u128::from(tail.symbols) + 1);
    let header_names = symbol_names + u128::from(tail.symbol_names);
    let headers = align(header_names + u128::from(tail.header_names));
    headers + 64 * (u128::from(tail.sections) + 4)
}

/// The fault of an image of this length: it may have 2^28 bytes at most.
pub fn length_fault(length: u128) -> Option<Fault>
    ensures { result ≡ if nat_lt max_image_length length then Some (ImageTooLong length) else None }
{
    if length > MAX_IMAGE_LENGTH {
        Some(Fault::ImageTooLong { length })
    } else {
        None
    }
}
