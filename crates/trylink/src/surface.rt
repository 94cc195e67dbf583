//! The public calls of single crates by the names that their faces give them, on a script and an object.

use crate::counts::print_meter;
use crate::files::split_file;
use crate::printing::{IN_LINE, print_bytes};
use crate::task::Task;
use elfobj::relocation::{RelocationKind, SymbolIndex};
use elfobj::section::{LinkedIndex, SectionIndex};
use elfobj::{Meter, Object, Relocation};
use emit::relocate::index::{TargetIndex, TargetSite};
use emit::{Canvas, Index, field, headers};
use gather::Matcher;
use ldmodel::names::{ObjectKey, ObjectPlace};
use ldmodel::rows::{InputIndex, Piece};
use ldmodel::sections::{Part, SectionRef};
use ldscript::{Script, matches};
use place::segments::segments;
use place::{Placement, place};
use std::alloc::{AllocError, Global};
use symres::Names;

/// The name of the object.
const OBJECT_NAME: &[u8] = b"a.o";
/// The name of the section that a statement is looked for.
const SECTION_NAME: &[u8] = b".text";
/// The name that is resolved.
const SYMBOL_NAME: &[u8] = b"f";
/// The first section of the object.
const FIRST_SECTION: LinkedIndex = LinkedIndex(0);
/// The value of the symbol that a relocation refers to (S).
const SYMBOL_VALUE: u64 = 0x40_1010;
/// The address of its field (P).
const FIELD_ADDRESS: u64 = 0x40_1001;
/// The entry point in the ELF header.
const ENTRY_POINT: u64 = 0x40_1001;

/// Prints bytes as hex numbers.
fn print_numbers(bytes: &[u8], out: &mut String) -> Result<(), AllocError> {
    for byte in bytes {
        write!(out, " {byte:02x}")?;
    }
    out.push('\n')
}

/// `Object`: the name and the bytes of a section, the number of its relocations, and the name of the last symbol.
fn print_object(object: &Object, out: &mut String) -> Result<(), AllocError> {
    let symbols = object.symbols().len() as u32;
    if object.sections().is_empty() || symbols == 0 {
        return out.push_str("nothing to see\n");
    }
    print_bytes(out, object.section_name(FIRST_SECTION), IN_LINE)?;
    print_numbers(object.section_bytes(FIRST_SECTION), out)?;
    print_bytes(out, object.name_of(SymbolIndex(symbols - 1)), IN_LINE)?;
    writeln!(out, " is symbol {}", symbols - 1)
}

/// `matches` and `Matcher`: whether the file pattern of each input statement matches the name of the object, and which
/// statement takes the section.
fn print_matches(alloc: Global, script: &Script, out: &mut String) -> Result<(), AllocError> {
    for statement in script.input_statements(alloc)? {
        writeln!(
            out,
            "matches {}",
            matches(&statement.input.file, OBJECT_NAME)
        )?;
    }
    let matcher = Matcher::new(alloc, script)?;
    match matcher.first_match(OBJECT_NAME, SECTION_NAME) {
        Some(InputIndex(number)) => writeln!(out, "taken by {number}"),
        None => out.push_str("taken by none\n"),
    }
}

/// How a name is resolved while the object is entered, and after it is withdrawn.
fn print_decisions(
    names: &mut Names,
    script: &Script,
    object: &Object,
    meter: &mut Meter,
    out: &mut String,
) -> Result<(), AllocError> {
    let key = ObjectKey(0);
    names.reserve(object)?;
    if !names.contains(key) {
        names.enter(key, 0, object);
    }
    let entered = names.decide(script, SYMBOL_NAME, meter);
    if names.contains(key) {
        names.withdraw(key);
    }
    let withdrawn = names.decide(script, SYMBOL_NAME, meter);
    names.forget();
    writeln!(out, "{:?}\n{:?}", entered.case(), withdrawn.case())?;
    writeln!(out, "known {}", names.known())
}

/// `Names`, by an empty table.
fn print_names(
    task: Task<'_>,
    script: &Script,
    object: &Object,
    meter: &mut Meter,
    out: &mut String,
) -> Result<(), AllocError> {
    let mut names = Names::new(task.alloc, task.seed);
    print_decisions(&mut names, script, object, meter, out)
}

/// The sections of the object, all taken by the first input statement.
fn row_of(alloc: Global, object: &Object) -> Result<Vec<Piece>, AllocError> {
    let mut row = Vec::new(alloc);
    for section in object.sections() {
        row.push(Piece {
            statement: InputIndex(0),
            section: SectionRef {
                object: ObjectPlace(0),
                part: Part::InTable(section.number),
            },
            kind: section.kind,
            flags: section.flags,
            size: section.size,
            alignment: section.alignment,
        })?;
    }
    Ok(row)
}

/// A `Placement`, and the segments and headers of its output sections.
fn print_placement(
    alloc: Global,
    placement: &Placement,
    out: &mut String,
) -> Result<(), AllocError> {
    for placed in placement.sections() {
        let (start, size, load) = (placed.start, placed.size, placed.load);
        writeln!(out, "placed {start:x} {size:x} {load:x}")?;
    }
    let segments = segments(alloc, placement.view())?;
    let headers = headers(alloc, ENTRY_POINT, &segments, 0, 1)?;
    print_numbers(&headers, out)
}

/// `place`: the layout of the object's sections.
fn print_layout(
    alloc: Global,
    script: &Script,
    object: &Object,
    meter: &mut Meter,
    out: &mut String,
) -> Result<(), AllocError> {
    let mut rows = Vec::new(alloc);
    rows.push(row_of(alloc, object)?)?;
    match place(alloc, script, &rows, &[], None, meter) {
        Ok(placement) => print_placement(alloc, &placement, out),
        Err(_) => out.push_str("no layout\n"),
    }
}

/// The first relocation of the first section, if there is one.
fn first_relocation(object: &Object) -> Option<&Relocation> {
    if object.sections().is_empty() {
        return None;
    }
    object.relocations(FIRST_SECTION).first()
}

/// `field`: the bytes of a relocation, written into a `Canvas`.
fn print_field(
    alloc: Global,
    relocation: &Relocation,
    meter: &mut Meter,
    out: &mut String,
) -> Result<(), AllocError> {
    if relocation.kind == RelocationKind::None {
        return out.push_str("no field\n");
    }
    let Ok(found) = field(relocation, SYMBOL_VALUE, FIELD_ADDRESS, meter) else {
        return out.push_str("overflow\n");
    };
    let bytes = found.bytes();
    let mut canvas = Canvas::new(alloc);
    canvas.reserve(bytes.len())?;
    canvas.resize_reserved(bytes.len());
    canvas.write(0, bytes, meter);
    print_numbers(canvas.bytes(), out)
}

/// `Index`: whether a target has a site while the object's sites are in it, and after they are dropped.
fn print_index(alloc: Global, out: &mut String) -> Result<(), AllocError> {
    let object = ObjectPlace(0);
    let target = TargetIndex(2);
    let sites = [TargetSite {
        target,
        section: SectionIndex(1),
        entry: 0,
    }];
    let mut index = Index::new(alloc);
    index.reserve(object, &sites)?;
    index.add_reserved(object, &sites);
    let before = index.sites_of(target).next().is_some();
    index.drop_object(object);
    let after = index.sites_of(target).next().is_some();
    writeln!(out, "a site {before} {after}")
}

/// Prints what the calls make of a script and an object, which was read with this meter.
fn print_calls(
    task: Task<'_>,
    script: &Script,
    object: &Object,
    meter: &mut Meter,
    out: &mut String,
) -> Result<(), AllocError> {
    let alloc = task.alloc;
    print_object(object, out)?;
    print_matches(alloc, script, out)?;
    print_names(task, script, object, meter, out)?;
    print_layout(alloc, script, object, meter, out)?;
    if let Some(relocation) = first_relocation(object) {
        print_field(alloc, relocation, meter, out)?;
    }
    print_index(alloc, out)?;
    print_meter(meter, out)
}

/// `Object::read`: the object of these bytes.
fn print_with_object(
    task: Task<'_>,
    script: &Script,
    bytes: &[u8],
    out: &mut String,
) -> Result<(), AllocError> {
    let mut meter = Meter::new();
    let bytes = Vec::from_slice(task.alloc, bytes)?;
    match Object::read(task.alloc, bytes, &mut meter) {
        Ok(object) => print_calls(task, script, &object, &mut meter, out),
        Err(_) => out.push_str("object refused\n"),
    }
}

/// Reads the script and the object of a frame, and prints what the calls make of them.
pub fn print_surface(task: Task<'_>, out: &mut String) -> Result<(), AllocError> {
    let Some((_script, text, rest)) = split_file(task.bytes) else {
        return out.push_str("no script\n");
    };
    let Some((_object, bytes, _rest)) = split_file(rest) else {
        return out.push_str("no object\n");
    };
    match Script::read(task.alloc, text) {
        Ok(script) => print_with_object(task, &script, bytes, out),
        Err(_) => out.push_str("script refused\n"),
    }
}
