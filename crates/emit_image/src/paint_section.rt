//! The parts of an output section: its input sections and data commands, in the order of their addresses, and the gaps
//! between them.

ghost use Rattle.std.specs.Prelude.{◌≡◌, ◌≤◌, ◌<◌, ◌+◌, length, slice_index_or};
ghost use Rattle.ldmodel.specs.declared.placed.PlacedData.{PlacedData};
ghost use Rattle.emit_image.specs.Drawing.{IsOrderly};
ghost use Rattle.emit_image.specs.Painted.{IsPainted, IsReady};
ghost use Rattle.emit_image.specs.Reached.{DataFrom, IsReached, PiecesFrom, file_offset_of, section_image};
ghost use Rattle.emit_image.specs.declared.section.ImagePiece.{ImagePiece};

use crate::paint::{paint_data, paint_fill, paint_gap, paint_piece};
use crate::patched::BUFFER_SIZE;
use crate::section::ImageSection;
use elfobj::Meter;
use emit_fields::canvas::Canvas;

/// How far the parts of an output section are written.
#[derive(Clone, Copy)]
pub struct SectionCursor {
    /// How many input sections.
    pub pieces: usize,
    /// How many data commands.
    pub data_commands: usize,
    /// The address up to which they reach.
    pub at: u64,
}

/// A copy, made field by field.
#[inline(always)]
fn copy_of(cursor: SectionCursor) -> SectionCursor
    ensures { result ≡ cursor }
{
    SectionCursor {
        pieces: cursor.pieces,
        data_commands: cursor.data_commands,
        at: cursor.at,
    }
}

/// Where an address of an output section lies in the file.
fn file_offset(section: &ImageSection<'_>, at: u64) -> usize
    requires orderly { IsOrderly section.now }
    requires low { section.now.start ≤ at }
    requires high { at ≤ section.now.start + section.now.size }
    ensures { result ≡ file_offset_of section.now at }
{
    (section.offset + (at - section.start)) as usize
}

/// Writes the next data command, which starts below `below`, and the gap before it. The input sections to come start at
/// `below` or later.
#[inline(never)]
fn paint_next_data(
    canvas: &mut Canvas,
    limit: usize,
    x: &ImageSection<'_>,
    cursor: SectionCursor,
    below: u64,
    meter: &mut Meter,
) -> SectionCursor
    requires orderly { IsOrderly x.now }
    requires reached { IsReached x.now cursor.pieces cursor.data_commands cursor.at }
    requires ready { IsReady limit canvas.old }
    requires within { x.now.offset + x.now.size ≤ limit }
    requires pieces { PiecesFrom x.now cursor.pieces below }
    requires some { cursor.data_commands < length x.now.data_commands.now }
    requires below { (d : PlacedData) → (slice_index_or x.now.data_commands.now cursor.data_commands d).start < below }
    ensures reached { IsReached x.now result.pieces result.data_commands result.at }
    ensures pieces { result.pieces ≡ cursor.pieces }
    ensures data_commands { result.data_commands ≡ cursor.data_commands + 1 }
    ensures up { cursor.at ≤ result.at }
    ensures ready { IsReady limit canvas.new }
    ensures painted { IsPainted canvas.old.bytes canvas.new.bytes meter.old meter.new (file_offset_of x.now cursor.at)
        (file_offset_of x.now result.at) (section_image x.now) }
{
    let d = &x.data_commands[cursor.data_commands];
    let end = d.start + u64::from(d.width.byte_count());
    let from = file_offset(x, d.start);
    paint_fill(
        canvas,
        limit,
        file_offset(x, cursor.at),
        from,
        x.fill,
        meter,
    );
    paint_data(canvas, limit, from, file_offset(x, end), d, meter);
    SectionCursor {
        pieces: cursor.pieces,
        data_commands: cursor.data_commands + 1,
        at: end,
    }
}

/// Writes the data commands to come that start below `below`. The input sections to come start at `below` or later.
#[inline(never)]
fn paint_some_data(
    canvas: &mut Canvas,
    limit: usize,
    x: &ImageSection<'_>,
    cursor: SectionCursor,
    below: u64,
    meter: &mut Meter,
) -> SectionCursor
    requires orderly { IsOrderly x.now }
    requires reached { IsReached x.now cursor.pieces cursor.data_commands cursor.at }
    requires ready { IsReady limit canvas.old }
    requires within { x.now.offset + x.now.size ≤ limit }
    requires pieces { PiecesFrom x.now cursor.pieces below }
    ensures reached { IsReached x.now result.pieces result.data_commands result.at }
    ensures pieces { result.pieces ≡ cursor.pieces }
    ensures data_commands { DataFrom x.now result.data_commands below }
    ensures up { cursor.at ≤ result.at }
    ensures ready { IsReady limit canvas.new }
    ensures painted { IsPainted canvas.old.bytes canvas.new.bytes meter.old meter.new (file_offset_of x.now cursor.at)
        (file_offset_of x.now result.at) (section_image x.now) }
{
    let mut now = cursor;
    for _k in cursor.data_commands..x.data_commands.len() {
        if x.data_commands[now.data_commands].start >= below {
            return now;
        }
        now = paint_next_data(canvas, limit, x, now, below, meter);
    }
    now
}

/// Calls `paint_some_data` with a copy of the cursor: so that of the caller stays in registers.
#[inline(always)]
fn paint_data_apart(
    canvas: &mut Canvas,
    limit: usize,
    section: &ImageSection<'_>,
    cursor: SectionCursor,
    below: u64,
    meter: &mut Meter,
) -> SectionCursor
    requires orderly { IsOrderly section.now }
    requires reached { IsReached section.now cursor.pieces cursor.data_commands cursor.at }
    requires ready { IsReady limit canvas.old }
    requires within { section.now.offset + section.now.size ≤ limit }
    requires pieces { PiecesFrom section.now cursor.pieces below }
    ensures reached { IsReached section.now result.pieces result.data_commands result.at }
    ensures pieces { result.pieces ≡ cursor.pieces }
    ensures data_commands { DataFrom section.now result.data_commands below }
    ensures up { cursor.at ≤ result.at }
    ensures ready { IsReady limit canvas.new }
    ensures painted { IsPainted canvas.old.bytes canvas.new.bytes meter.old meter.new
        (file_offset_of section.now cursor.at)
        (file_offset_of section.now result.at) (section_image section.now) }
{
    let now = paint_some_data(canvas, limit, section, copy_of(cursor), below, meter);
    copy_of(now)
}

/// Writes the data commands to come that start below `below`, as `paint_some_data` does. Most sections have none.
#[inline(always)]
fn paint_data_before(
    canvas: &mut Canvas,
    limit: usize,
    section: &ImageSection<'_>,
    cursor: SectionCursor,
    below: u64,
    meter: &mut Meter,
) -> SectionCursor
    requires orderly { IsOrderly section.now }
    requires reached { IsReached section.now cursor.pieces cursor.data_commands cursor.at }
    requires ready { IsReady limit canvas.old }
    requires within { section.now.offset + section.now.size ≤ limit }
    requires pieces { PiecesFrom section.now cursor.pieces below }
    ensures reached { IsReached section.now result.pieces result.data_commands result.at }
    ensures pieces { result.pieces ≡ cursor.pieces }
    ensures data_commands { DataFrom section.now result.data_commands below }
    ensures up { cursor.at ≤ result.at }
    ensures ready { IsReady limit canvas.new }
    ensures painted { IsPainted canvas.old.bytes canvas.new.bytes meter.old meter.new
        (file_offset_of section.now cursor.at)
        (file_offset_of section.now result.at) (section_image section.now) }
{
    if cursor.data_commands == section.data_commands.len() {
        return cursor;
    }
    paint_data_apart(canvas, limit, section, cursor, below, meter)
}

/// Writes the next input section, which is not empty, the data commands before it, and the gaps.
fn paint_full_piece(
    canvas: &mut Canvas,
    buffer: &mut [u8; BUFFER_SIZE],
    limit: usize,
    section: &ImageSection<'_>,
    cursor: SectionCursor,
    meter: &mut Meter,
) -> SectionCursor
    requires orderly { IsOrderly section.now }
    requires reached { IsReached section.now cursor.pieces cursor.data_commands cursor.at }
    requires ready { IsReady limit canvas.old }
    requires within { section.now.offset + section.now.size ≤ limit }
    requires some { cursor.pieces < length section.now.pieces.now }
    requires full { (y : ImagePiece) → 0 < (slice_index_or section.now.pieces.now cursor.pieces y).size }
    ensures reached { IsReached section.now result.pieces result.data_commands result.at }
    ensures pieces { result.pieces ≡ cursor.pieces + 1 }
    ensures up { cursor.at ≤ result.at }
    ensures ready { IsReady limit canvas.new }
    ensures painted { IsPainted canvas.old.bytes canvas.new.bytes meter.old meter.new
        (file_offset_of section.now cursor.at)
        (file_offset_of section.now result.at) (section_image section.now) }
{
    let piece = &section.pieces[cursor.pieces];
    let now = paint_data_before(canvas, limit, section, cursor, piece.start, meter);
    let end = piece.start + piece.size;
    let from = file_offset(section, piece.start);
    let reach = file_offset(section, end);
    paint_gap(
        canvas,
        limit,
        file_offset(section, now.at),
        from,
        reach,
        section.fill,
        meter,
    );
    paint_piece(canvas, buffer, from, piece, meter);
    SectionCursor {
        pieces: cursor.pieces + 1,
        data_commands: now.data_commands,
        at: end,
    }
}

/// Writes the next input section; nothing if it is empty.
fn paint_next_piece(
    canvas: &mut Canvas,
    buffer: &mut [u8; BUFFER_SIZE],
    limit: usize,
    section: &ImageSection<'_>,
    cursor: SectionCursor,
    meter: &mut Meter,
) -> SectionCursor
    requires orderly { IsOrderly section.now }
    requires reached { IsReached section.now cursor.pieces cursor.data_commands cursor.at }
    requires ready { IsReady limit canvas.old }
    requires within { section.now.offset + section.now.size ≤ limit }
    requires some { cursor.pieces < length section.now.pieces.now }
    ensures reached { IsReached section.now result.pieces result.data_commands result.at }
    ensures pieces { result.pieces ≡ cursor.pieces + 1 }
    ensures up { cursor.at ≤ result.at }
    ensures ready { IsReady limit canvas.new }
    ensures painted { IsPainted canvas.old.bytes canvas.new.bytes meter.old meter.new
        (file_offset_of section.now cursor.at)
        (file_offset_of section.now result.at) (section_image section.now) }
{
    if section.pieces[cursor.pieces].size == 0 {
        return SectionCursor {
            pieces: cursor.pieces + 1,
            data_commands: cursor.data_commands,
            at: cursor.at,
        };
    }
    paint_full_piece(canvas, buffer, limit, section, cursor, meter)
}

/// Writes an output section.
#[inline(never)]
pub(crate) fn paint_section(
    canvas: &mut Canvas,
    buffer: &mut [u8; BUFFER_SIZE],
    limit: usize,
    section: &ImageSection<'_>,
    meter: &mut Meter,
)
    requires orderly { IsOrderly section.now }
    requires ready { IsReady limit canvas.old }
    requires within { section.now.offset + section.now.size ≤ limit }
    ensures ready { IsReady limit canvas.new }
    ensures painted { IsPainted canvas.old.bytes canvas.new.bytes meter.old meter.new section.now.offset
        (section.now.offset + section.now.size) (section_image section.now) }
{
    let mut cursor = SectionCursor {
        pieces: 0,
        data_commands: 0,
        at: section.start,
    };
    for _k in 0..section.pieces.len() {
        cursor = paint_next_piece(canvas, buffer, limit, section, cursor, meter);
    }
    let end = section.start + section.size;
    let last = paint_data_before(canvas, limit, section, cursor, end, meter);
    paint_fill(
        canvas,
        limit,
        file_offset(section, last.at),
        file_offset(section, end),
        section.fill,
        meter,
    );
}
