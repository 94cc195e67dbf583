//! Names in a string table (gABI, "String Table": a string runs to the next zero byte).

ghost use Rattle.std.specs.Prelude.{◌≡◌, ℕ, ◌≤◌, ◌<◌, ◌+◌, IfOk, IfSome, Some, [], drop, false, get_or, is_some};
ghost use Rattle.std.specs.Prelude.{length, take, true, unwrap_or};
ghost use Rattle.std.specs.Option.{option_map_or};
ghost use Rattle.std.proofs.Props.{props};
ghost use Rattle.elfobj_file.specs.NameLengths.{first_length, length_before, name_lengths};
ghost use Rattle.elfobj_file.specs.Names.{is_graphic, is_name, string_at};
ghost use Rattle.elfobj_file.specs.Spans.{IsInside, bytes_at};
ghost use Rattle.elfobj_file.specs.SectionHeaders.{file_bytes};

use crate::constants::MAX_NAME_LENGTH;
use crate::lanes::{LANES, graphic_run};
use crate::section_header::SectionHeader;
use crate::span::Span;
use growth::{NoMemory, vec};
use std::alloc::Global;

/// Whether a byte may occur in a name: one from `!` to `~`.
pub fn is_graphic(b: u8) -> bool
    ensures { result ≡ is_graphic b }
{
    matches!(b, b'!'..=b'~')
}

/// A string table of a file, with the length of the name that begins at each of its bytes, so that a name is scanned
/// once, however many headers or symbols have it.
#[derive(Drop)]
pub struct StringTable<'a> {
    file: &'a [u8],
    header: SectionHeader,
    lengths: Vec<u16>,
    ghost within: { header.sh_offset + header.sh_size ≤ length file.now },
    ghost right: { lengths.items ≡ name_lengths (file_bytes file.now header) } by { Prim.hlevel props },
}

/// The length of the name that begins with byte `b`, if the rest of the table begins with a zero byte, or with a name
/// of length `next`; 0 for no name within the limits.
fn length_before(b: u8, is_end: bool, next: u16) -> u16
    ensures { result ≡ length_before b is_end next }
{
    if !is_graphic(b) {
        0
    } else if is_end {
        1
    } else if next == 0 || next == MAX_NAME_LENGTH {
        0
    } else {
        next + 1
    }
}

/// The lengths of the names in a table, found in one pass from its end.
fn name_lengths(alloc: Global, table: &[u8]) -> Result<Vec<u16>, NoMemory>
    ensures { IfOk result (λ v. v.items ≡ name_lengths table.now) }
{
    let mut lengths = vec::from_elem(alloc, 0, table.len())?;
    let mut next = 0;
    let mut is_end = false;
    for at in (0..table.len()).rev() {
        let b = table[at];
        next = length_before(b, is_end, next);
        is_end = b == 0;
        lengths[at] = next;
    }
    Ok(lengths)
}

/// The number of bytes at the front of a table, up to the first that may not occur in a name. The first `known` may.
fn graphic_past(bytes: &[u8], known: usize) -> usize
    requires within { known ≤ length bytes.now }
    requires graphic { (k : ℕ) → k < known → is_graphic (get_or bytes.now k 0) ≡ true }
    ensures within { result ≤ length bytes.now }
    ensures graphic { (k : ℕ) → k < result → is_graphic (get_or bytes.now k 0) ≡ true }
{
    let mut count = known;
    while count < bytes.len() && is_graphic(bytes[count]) {
        count += 1;
    }
    count
}

/// The number of bytes at the front of a table, up to the first that may not occur in a name. They are tested many at a
/// time, and one by one at the end of the table.
fn graphic_count(bytes: &[u8]) -> usize
    ensures within { result ≤ length bytes.now }
    ensures graphic { (k : ℕ) → k < result → is_graphic (get_or bytes.now k 0) ≡ true }
{
    let mut count = 0;
    while bytes.len() - count >= LANES {
        let run = graphic_run(bytes, count);
        count += run;
        if run < LANES {
            return count;
        }
    }
    graphic_past(bytes, count)
}

/// The length of the name that begins at this offset of a table, if it ends inside the table and is within the limits.
fn looked_length(table: &[u8], at: usize) -> Option<usize>
    ensures within { IfSome result (λ n. at + n ≤ length table.now) }
    ensures name { IfSome result (λ n. string_at table.now at ≡ Some (take n (drop at table.now))) }
    ensures limits { IfSome result (λ n. option_map_or is_name (string_at table.now at) false ≡ true) }
{
    if at >= table.len() {
        return None;
    }
    let rest = &table[at..];
    let length = graphic_count(rest);
    if length == rest.len() || rest[length] != 0 {
        return None;
    }
    if length == 0 || length > usize::from(MAX_NAME_LENGTH) {
        return None;
    }
    Some(length)
}

/// The range in the file of the name that begins at this offset of a header's string table, if it ends inside the table
/// and is within the limits. Each call scans the name; for many names that may share bytes, make a `StringTable`.
pub fn looked_name(file: &[u8], header: &SectionHeader, at: u32) -> Option<Span>
    requires { header.now.sh_offset + header.now.sh_size ≤ length file.now }
    ensures within { IfSome result (IsInside (length file.now)) }
    ensures name { IfSome result (λ span. bytes_at file.now span ≡ unwrap_or
        (string_at (file_bytes file.now header.now) at) []) }
    ensures limits { IfSome result
        (λ span. option_map_or is_name (string_at (file_bytes file.now header.now) at) false ≡ true) }
{
    let Some(length) = looked_length(header.file_bytes(file), at as usize) else {
        return None;
    };
    let start = header.sh_offset as usize + at as usize;
    Some(Span {
        start,
        end: start + length,
    })
}

impl<'a> StringTable<'a> {
    ghost use Rattle.elfobj_file.specs.TableOf.{table_of};

    /// Scans the string table of this header once.
    pub fn of_header(
        alloc: Global,
        file: &'a [u8],
        header: &SectionHeader,
    ) -> Result<StringTable<'a>, NoMemory>
        requires { header.now.sh_offset + header.now.sh_size ≤ length file.now }
        ensures file { IfOk result (λ table. table.file.now ≡ file.now) }
        ensures header { IfOk result (λ table. table.header ≡ header.now) }
    {
        let lengths = name_lengths(alloc, header.file_bytes(file))?;
        Ok(StringTable {
            file,
            header: *header,
            lengths,
        })
    }

    /// The length of the name at this offset, or 0 past the end of the table.
    #[tactic(auto, using(crate::proofs::StringTables::length_told))]
    fn length_at(&self, at: usize) -> u16
        ensures { result ≡ first_length (drop at (table_of self.now)) }
    {
        if at < self.lengths.len() {
            self.lengths[at]
        } else {
            0
        }
    }

    /// The length of the name that begins at this offset of the table, if it ends inside the table and is within the
    /// limits: 1 to 65,535 bytes from `!` to `~`.
    #[tactic(auto, using(crate::proofs::StringTables::told_none, crate::proofs::StringTables::told_some))]
    pub fn name_length(&self, at: u32) -> Option<u16>
        ensures found { is_some result ≡ option_map_or is_name (string_at (table_of self.now) at) false }
        ensures within { IfSome result (λ n. at + n ≤ length (table_of self.now)) }
        ensures name { IfSome result (λ n. string_at (table_of self.now) at ≡ Some
            (take n (drop at (table_of self.now)))) }
    {
        let length = self.length_at(at as usize);
        if length == 0 {
            return None;
        }
        Some(length)
    }

    /// The range in the file of the name that begins at this offset of the table.
    pub fn file_range(&self, at: u32) -> Span
        requires { option_map_or is_name (string_at (table_of self.now) at) false ≡ true }
        ensures within { IsInside (length self.now.file.now) result }
        ensures name { bytes_at self.now.file.now result ≡ unwrap_or (string_at (table_of self.now) at) [] }
    {
        let length = self.name_length(at).unwrap();
        let start = self.header.sh_offset as usize + at as usize;
        Span {
            start,
            end: start + usize::from(length),
        }
    }
}
