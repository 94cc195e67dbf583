//! The map's lines.

ghost use Rattle.std.specs.Prelude.{◌≡◌, ◌∷◌, ◌++◌, ◌≤◌, ◌+◌, [], OnOk, codes, length};
ghost use Rattle.ldmodel.specs.Lines.{hex, line_of};
ghost use Rattle.emit_text.specs.ShownMap.{piece_parts, symbol_parts, value_text};

use crate::hex::hex_digits;
use crate::line_buffer::LineBuffer;
use growth::{NoMemory, vec};

/// `entry ADDRESS`
pub(crate) fn put_entry_line(text: &mut Vec<u8>, entry: u64) -> Result<(), NoMemory>
    ensures { OnOk result (text.new.items ≡ text.old.items ++ line_of (codes "entry" ∷ hex entry ∷ [])) }
{
    vec::extend_from_slice(text, b"entry ")?;
    vec::extend_from_slice(text, &hex_digits(entry))?;
    vec::push(text, b'\n')?;
    Ok(())
}

/// The numbers of the line of an output section.
#[derive(Clone, Copy)]
pub(crate) struct SectionNumbers {
    /// The address.
    pub start: u64,
    /// The load address.
    pub load: u64,
    /// The size in bytes.
    pub size: u64,
}

/// ` START LOAD SIZE ` of a line.
fn section_numbers(numbers: SectionNumbers) -> [u8; 52]
    ensures { result
        ≡ 32 ∷ (hex numbers.start ++ 32 ∷ []) ++ (hex numbers.load ++ 32 ∷ []) ++ (hex numbers.size ++ 32 ∷ []) }
{
    let start = hex_digits(numbers.start);
    let load = hex_digits(numbers.load);
    let size = hex_digits(numbers.size);
    [
        b' ', start[0], start[1], start[2], start[3], start[4], start[5], start[6], start[7],
        start[8], start[9], start[10], start[11], start[12], start[13], start[14], start[15], b' ',
        load[0], load[1], load[2], load[3], load[4], load[5], load[6], load[7], load[8], load[9],
        load[10], load[11], load[12], load[13], load[14], load[15], b' ', size[0], size[1],
        size[2], size[3], size[4], size[5], size[6], size[7], size[8], size[9], size[10], size[11],
        size[12], size[13], size[14], size[15], b' ',
    ]
}

/// `section NAME START LOAD SIZE FLAGS`
pub(crate) fn put_section_line(
    text: &mut Vec<u8>,
    name: &[u8],
    numbers: SectionNumbers,
    flags: &[u8],
) -> Result<(), NoMemory>
    ensures { OnOk result (text.new.items ≡ text.old.items ++ line_of
        (codes "section" ∷ name.now ∷ hex numbers.start ∷ hex numbers.load ∷ hex numbers.size ∷ flags.now ∷ [])) }
{
    vec::extend_from_slice(text, b"section ")?;
    vec::extend_from_slice(text, name)?;
    vec::extend_from_slice(text, &section_numbers(numbers))?;
    vec::extend_from_slice(text, flags)?;
    vec::push(text, b'\n')?;
    Ok(())
}

/// How long the line of an input section is beside its names: `piece ADDRESS SIZE `, a space and the end of the line.
const PIECE_REST: usize = 42;

/// How long the line of a symbol is beside its names: `symbol VALUE `, a space and the end of the line.
const SYMBOL_REST: usize = 26;

/// A number and a space, for which there is room.
#[inline(always)]
fn put_number(lines: &mut LineBuffer, number: u64)
    requires { length lines.old + 17 ≤ 1024 }
    ensures written { lines.new ≡ lines.old ++ (hex number ++ 32 ∷ []) }
    ensures length { length lines.new ≡ length lines.old + 17 }
{
    lines.put(&hex_digits(number));
    lines.put(b" ");
}

/// Two names, with which a line ends that is too long to be put together beside the text at once.
fn put_long_names(
    text: &mut Vec<u8>,
    lines: &mut LineBuffer,
    first: &[u8],
    second: &[u8],
) -> Result<(), NoMemory>
    ensures { OnOk result (text.new.items ++ lines.new
        ≡ (text.old.items ++ lines.old) ++ (first.now ++ 32 ∷ [] ++ second.now ++ 10 ∷ [])) }
{
    lines.append(text, first)?;
    lines.append(text, b" ")?;
    lines.append(text, second)?;
    lines.append(text, b"\n")
}

/// The line of an input section that is too long to be put together beside the text at once.
fn put_long_piece_line(
    text: &mut Vec<u8>,
    lines: &mut LineBuffer,
    start: u64,
    size: u64,
    object: &[u8],
    section: &[u8],
) -> Result<(), NoMemory>
    ensures { OnOk result (text.new.items ++ lines.new
        ≡ (text.old.items ++ lines.old) ++ piece_parts start size object.now section.now) }
{
    lines.append(text, b"piece ")?;
    lines.append(text, &hex_digits(start))?;
    lines.append(text, b" ")?;
    lines.append(text, &hex_digits(size))?;
    lines.append(text, b" ")?;
    put_long_names(text, lines, object, section)
}

/// `piece ADDRESS SIZE OBJECT SECTION`
#[inline(always)]
pub(crate) fn put_piece_line(
    text: &mut Vec<u8>,
    lines: &mut LineBuffer,
    start: u64,
    size: u64,
    object: &[u8],
    section: &[u8],
) -> Result<(), NoMemory>
    ensures { OnOk result (text.new.items ++ lines.new
        ≡ (text.old.items ++ lines.old) ++ piece_parts start size object.now section.now) }
{
    let count = object
        .len()
        .saturating_add(section.len())
        .saturating_add(PIECE_REST);
    if !lines.make_room(text, count)? {
        return put_long_piece_line(text, lines, start, size, object, section);
    }
    lines.put(b"piece ");
    put_number(lines, start);
    put_number(lines, size);
    lines.put_name(object);
    lines.put(b" ");
    lines.put_name(section);
    lines.put(b"\n");
    Ok(())
}

/// The value of a symbol, or dashes where it has none.
#[inline(always)]
fn value_digits(value: Option<u64>) -> [u8; 16]
    ensures { result ≡ value_text value }
{
    match value {
        Some(number) => hex_digits(number),
        None => [b'-'; 16],
    }
}

/// The line of a symbol that is too long to be put together beside the text at once.
fn put_long_symbol_line(
    text: &mut Vec<u8>,
    lines: &mut LineBuffer,
    value: Option<u64>,
    name: &[u8],
    owner: &[u8],
) -> Result<(), NoMemory>
    ensures { OnOk result (text.new.items ++ lines.new
        ≡ (text.old.items ++ lines.old) ++ symbol_parts value name.now owner.now) }
{
    lines.append(text, b"symbol ")?;
    lines.append(text, &value_digits(value))?;
    lines.append(text, b" ")?;
    put_long_names(text, lines, name, owner)
}

/// `symbol VALUE NAME OWNER`
#[inline(always)]
pub(crate) fn put_symbol_line(
    text: &mut Vec<u8>,
    lines: &mut LineBuffer,
    value: Option<u64>,
    name: &[u8],
    owner: &[u8],
) -> Result<(), NoMemory>
    ensures { OnOk result (text.new.items ++ lines.new
        ≡ (text.old.items ++ lines.old) ++ symbol_parts value name.now owner.now) }
{
    let count = name
        .len()
        .saturating_add(owner.len())
        .saturating_add(SYMBOL_REST);
    if !lines.make_room(text, count)? {
        return put_long_symbol_line(text, lines, value, name, owner);
    }
    lines.put(b"symbol ");
    lines.put(&value_digits(value));
    lines.put(b" ");
    lines.put_name(name);
    lines.put(b" ");
    lines.put_name(owner);
    lines.put(b"\n");
    Ok(())
}
