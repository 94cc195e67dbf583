//! The ELF header and the program headers (gABI, "ELF Header" and "Program Header").

ghost use Rattle.std.specs.Prelude.{◌≡◌, ◌+◌, ◌<◌, ◌^◌, ◌++◌, IfOk, OnOk, List, length, flat_map, ◌==◌, if◌then◌else◌};
ghost use Rattle.ldmodel.specs.Headers.{elf_header};
ghost use Rattle.ldmodel.specs.Image.{file_headers};
ghost use Rattle.ldmodel.specs.Layout.{Layout, PlacedOutput};
ghost use Rattle.ldmodel.specs.PlacementView.{AreSegments};
ghost use Rattle.ldmodel.specs.Project.{Project};
ghost use Rattle.ldmodel.specs.SectionHeaders.{header_part};
ghost use Rattle.ldmodel.specs.Segments as definition;
ghost use Rattle.ldmodel.specs.Segments.{Segment as LaidSegment};
ghost use Rattle.ldmodel.specs.Sorting.{sort_by};
ghost use Rattle.ldmodel.specs.SymbolValues.{entry_point, number_or_0};
ghost use Rattle.emit_image.specs.SegmentBytes.{file_end_of, flags_number, segment_bytes, starts_before};

use crate::number::{put_low_u64, put_u16, put_u32, put_u64};
use elfobj::file::constants::EM_X86_64;
use growth::{NoMemory, impossible, vec};
use ldmodel::segment::Segment;
use std::alloc::Global;

/// Identification of a little-endian 64-bit file of version 1, `e_ident`.
const IDENT: [u8; 16] = [0x7f, b'E', b'L', b'F', 2, 1, 1, 0, 0, 0, 0, 0, 0, 0, 0, 0];
/// An executable file, in `e_type`.
const ET_EXEC: u64 = 2;
/// The current version.
const EV_CURRENT: u64 = 1;
/// The size of an ELF header.
const EHSIZE: u64 = 64;
/// The size of a program header.
const PHENTSIZE: u64 = 56;
/// The size of a section header.
const SHENTSIZE: u64 = 64;
/// A loadable segment, in `p_type`.
const PT_LOAD: u64 = 1;
/// The segment may be read, in `p_flags`.
const PF_R: u64 = 4;
/// The segment may be written.
const PF_W: u64 = 2;
/// The segment may be executed.
const PF_X: u64 = 1;
/// The size of a page, in `p_align`.
const PAGE: u64 = 4096;

/// The file offset of the program headers; 0 if there is none.
fn phoff_of(count: u64) -> u64
    ensures { result ≡ (if count == 0 then 0 else 64) }
{
    if count == 0 { 0 } else { EHSIZE }
}

/// Writes the ELF header: the entry point, the number of program headers, where the section headers stand, how many
/// there are, and which of them is the header of their names.
#[tactic(auto, unfolding(ldmodel::specs::Headers::elf_header))]
fn put_elf_header(
    out: &mut Vec<u8>,
    entry: u64,
    count: u64,
    table: u64,
    headers: u64,
    names: u64,
) -> Result<(), NoMemory>
    ensures { OnOk result (out.new.items ≡ out.old.items ++ elf_header entry count table headers names) }
{
    vec::extend_from_slice(out, &IDENT)?;
    put_u16(out, ET_EXEC)?;
    put_u16(out, u64::from(EM_X86_64))?;
    put_u32(out, EV_CURRENT)?;
    put_u64(out, entry)?;
    put_u64(out, phoff_of(count))?;
    put_u64(out, table)?;
    put_u32(out, 0)?;
    put_u16(out, EHSIZE)?;
    put_u16(out, PHENTSIZE)?;
    put_u16(out, count)?;
    put_u16(out, SHENTSIZE)?;
    put_u16(out, headers)?;
    put_u16(out, names)?;
    Ok(())
}

/// `p_flags` of a segment.
fn flags_of(g: &Segment) -> u64
    ensures { result ≡ flags_number g.now }
{
    let write = if g.writable { PF_W } else { 0 };
    let execute = if g.executable { PF_X } else { 0 };
    PF_R + write + execute
}

/// Writes the program header of a segment.
#[tactic(auto, unfolding(crate::specs::SegmentBytes::segment_bytes))]
fn put_segment(out: &mut Vec<u8>, g: &Segment) -> Result<(), NoMemory>
    ensures { OnOk result (out.new.items ≡ out.old.items ++ segment_bytes g.now) }
{
    put_u32(out, PT_LOAD)?;
    put_u32(out, flags_of(g))?;
    put_low_u64(out, g.offset)?;
    put_u64(out, g.start)?;
    put_u64(out, g.load)?;
    put_u64(out, g.file_size)?;
    put_u64(out, g.memory_size)?;
    put_u64(out, PAGE)?;
    Ok(())
}

/// Segments in ascending order of their addresses, as the gABI asks of PT_LOAD.
fn ascending(alloc: Global, segments: &[Segment]) -> Result<Vec<Segment>, NoMemory>
    ensures { IfOk result (λ v. v.items ≡ sort_by starts_before segments.now) }
{
    let mut sorted = vec::from_slice(alloc, segments)?;
    vec::sort_by(&mut sorted, |g, h| g.start.cmp(&h.start))?;
    Ok(sorted)
}

/// Writes the program headers of segments, in this order.
fn put_segments(out: &mut Vec<u8>, segments: &[Segment]) -> Result<(), NoMemory>
    ensures { OnOk result (out.new.items ≡ out.old.items ++ flat_map segment_bytes segments.now) }
{
    for g in segments {
        put_segment(out, g)?;
    }
    Ok(())
}

/// The size of the headers with this many segments.
fn length_of(segments: usize) -> usize {
    segments.saturating_mul(56).saturating_add(64)
}

/// The headers at the beginning of the image: the ELF header with an entry address, and the program headers of these
/// segments, which come in the order of the script. `table` is where the section headers stand, and `sections` the
/// number of output sections; the headers of the tail are added to theirs here.
///
/// # Errors
///
/// If memory runs out.
pub fn headers(
    alloc: Global,
    entry: u64,
    segments: &[Segment],
    table: u64,
    sections: usize,
) -> Result<Vec<u8>, NoMemory>
    requires { sections + 4 < 2 ^ 64 }
    ensures { IfOk result (λ v. (project : Project) (layout : Layout)
        → AreSegments layout.sections (definition.segments layout.sections) segments.now → entry
        ≡ number_or_0 (entry_point project layout)
        → table ≡ (header_part project layout).offset → sections ≡ length layout.sections → v.items
        ≡ file_headers project layout) }
{
    let sorted = ascending(alloc, segments)?;
    let mut out = vec::with_capacity(alloc, length_of(segments.len()))?;
    let count = sections as u64;
    put_elf_header(
        &mut out,
        entry,
        segments.len() as u64,
        table,
        count + 4,
        count + 3,
    )?;
    put_segments(&mut out, &sorted)?;
    Ok(out)
}

/// Where the file bytes of the segments up to `g` end, where those before it end at `end`.
fn file_end(end: u128, g: &Segment) -> Result<u128, NoMemory>
    ensures { IfOk result (λ x. x ≡ file_end_of end g.now) }
{
    if g.file_size == 0 {
        return Ok(end);
    }
    g.offset
        .checked_add(u128::from(g.file_size))
        .ok_or(impossible())
}

/// Where the loaded part of the file ends: with the file bytes of these segments, which come in the order of the
/// script, or with the headers.
///
/// # Errors
///
/// Where it is 2^64 or more: no memory holds such a file.
pub fn loaded_end(segments: &[Segment]) -> Result<u64, NoMemory>
    ensures { IfOk result (λ end. (sections : List PlacedOutput) (gs : List LaidSegment)
        → AreSegments sections gs segments.now → end ≡ definition.loaded_end gs) }
{
    let mut end = 64 + 56 * segments.len() as u128;
    for g in segments {
        end = file_end(end, g)?;
    }
    match u64::try_from(end) {
        Ok(end) => Ok(end),
        // No file is longer than 2^64 bytes
        Err(_too_great) => Err(impossible()),
    }
}
