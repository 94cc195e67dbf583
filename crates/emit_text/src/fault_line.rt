//! How the line of each kind of fault is spelled.

ghost use Rattle.std.specs.Prelude.{◌≡◌, ◌++◌, OnOk, [], ◌∷◌, codes, decimal};
ghost use Rattle.ldmodel.specs.FaultCode.{definer_of, kind_of, missing_at, name_of_symbol, offset_of, overflow_at};
ghost use Rattle.ldmodel.specs.FaultCode.{place_of, symbol_of, undefined_at};
ghost use Rattle.ldmodel.specs.FaultText.{definer_word, fault_words, relocation_number};
ghost use Rattle.ldmodel.specs.Lines.{line_of};
ghost use Rattle.ldmodel.specs.NameFaults.{object_name};
ghost use Rattle.emit_text.specs.Naming.{AreNamesOf, line_of_fault};

use crate::line::{Word, put_line};
use crate::named::{part_name, relocation, section_name, symbol_name};
use crate::script_names::ScriptNames;
use elfobj::relocation::{Relocation, RelocationKind, SymbolIndex};
use growth::NoMemory;
use ldmodel::fault::{Definer, Fault, SiteRef};
use ldmodel::names::{Entry, ObjectPlace};
use ldmodel_project::view::ProjectView;

/// A line of a code and a line of the script.
fn put_numbered(text: &mut Vec<u8>, code: &[u8], line: u32) -> Result<(), NoMemory>
    ensures { OnOk result (text.new.items ≡ text.old.items ++ line_of (code.now ∷ decimal line ∷ [])) }
{
    put_line(text, &[Word::Bytes(code), Word::Decimal(u128::from(line))])
}

/// A line of a code, a line of the script, and what is said of it.
fn put_message<'a>(
    text: &mut Vec<u8>,
    code: &'a [u8],
    line: u32,
    message: &'a [u8],
) -> Result<(), NoMemory>
    ensures { OnOk result (text.new.items ≡ text.old.items ++ line_of (code.now ∷ decimal line ∷ message.now ∷ [])) }
{
    put_line(
        text,
        &[
            Word::Bytes(code),
            Word::Decimal(u128::from(line)),
            Word::Bytes(message),
        ],
    )
}

/// A line of a code and two names.
fn put_names(text: &mut Vec<u8>, code: &[u8], first: &[u8], second: &[u8]) -> Result<(), NoMemory>
    ensures { OnOk result (text.new.items ≡ text.old.items ++ line_of (code.now ∷ first.now ∷ second.now ∷ [])) }
{
    put_line(
        text,
        &[Word::Bytes(code), Word::Bytes(first), Word::Bytes(second)],
    )
}

/// What defines a name: the name of an object, or `script`.
fn definer_name<'a>(project: &ProjectView<'a>, definer: Definer) -> &'a [u8]
    ensures { result.now ≡ definer_word (definer_of project.now (λ key. key) definer) }
{
    match definer {
        Definer::Script => b"script",
        Definer::Object(key) => project.name(key),
    }
}

/// The number of a relocation type.
fn type_number(kind: RelocationKind) -> u32
    ensures { result ≡ relocation_number kind }
{
    kind.number()
}

/// The relocation of a site; one that does nothing if there is none.
fn relocation_or_none(project: &ProjectView<'_>, site: SiteRef) -> Relocation
    ensures offset { result.offset ≡ offset_of project.now (place_of (λ key. key) site) }
    ensures symbol { result.symbol.0 ≡ symbol_of project.now (place_of (λ key. key) site) }
    ensures kind { result.kind ≡ kind_of project.now (place_of (λ key. key) site) }
{
    match relocation(project, site) {
        Some(found) => found,
        None => Relocation {
            offset: 0,
            kind: RelocationKind::None,
            symbol: SymbolIndex(0),
            addend: 0,
        },
    }
}

/// `F1 NAME OBJECT FIRST`
fn put_duplicate(
    text: &mut Vec<u8>,
    project: &ProjectView<'_>,
    entry: Entry<ObjectPlace>,
    first: Definer,
) -> Result<(), NoMemory>
    ensures { OnOk result (text.new.items ≡ text.old.items ++ line_of
        (codes "F1" ∷ name_of_symbol project.now entry.object.0 entry.symbol.0 ∷ object_name project.now entry.object.0
        ∷ definer_word (definer_of project.now (λ key. key) first) ∷ [])) }
{
    let object = entry.object;
    let name = symbol_name(project, object, entry.symbol);
    put_line(
        text,
        &[
            Word::Bytes(b"F1"),
            Word::Bytes(name),
            Word::Bytes(project.name(object)),
            Word::Bytes(definer_name(project, first)),
        ],
    )
}

/// `F12 OBJECT SECTION OFFSET NAME`
fn put_undefined(
    text: &mut Vec<u8>,
    project: &ProjectView<'_>,
    site: SiteRef,
) -> Result<(), NoMemory>
    ensures { OnOk result (text.new.items ≡ text.old.items ++ line_of
        (fault_words (undefined_at project.now (place_of (λ key. key) site)))) }
{
    let relocation = relocation_or_none(project, site);
    let name = symbol_name(project, site.object, relocation.symbol);
    put_line(
        text,
        &[
            Word::Bytes(b"F12"),
            Word::Bytes(project.name(site.object)),
            Word::Bytes(section_name(project, site.object, site.section)),
            Word::Hex(relocation.offset),
            Word::Bytes(name),
        ],
    )
}

/// `F13 OBJECT SECTION OFFSET INDEX`
fn put_missing(text: &mut Vec<u8>, project: &ProjectView<'_>, site: SiteRef) -> Result<(), NoMemory>
    ensures { OnOk result (text.new.items ≡ text.old.items ++ line_of
        (fault_words (missing_at project.now (place_of (λ key. key) site)))) }
{
    let relocation = relocation_or_none(project, site);
    put_line(
        text,
        &[
            Word::Bytes(b"F13"),
            Word::Bytes(project.name(site.object)),
            Word::Bytes(section_name(project, site.object, site.section)),
            Word::Hex(relocation.offset),
            Word::Decimal(u128::from(relocation.symbol.0)),
        ],
    )
}

/// `F14 OBJECT SECTION OFFSET TYPE VALUE`
fn put_overflow(
    text: &mut Vec<u8>,
    project: &ProjectView<'_>,
    site: SiteRef,
    value: u64,
) -> Result<(), NoMemory>
    ensures { OnOk result (text.new.items ≡ text.old.items ++ line_of
        (fault_words (overflow_at project.now (place_of (λ key. key) site) value))) }
{
    let relocation = relocation_or_none(project, site);
    put_line(
        text,
        &[
            Word::Bytes(b"F14"),
            Word::Bytes(project.name(site.object)),
            Word::Bytes(section_name(project, site.object, site.section)),
            Word::Hex(relocation.offset),
            Word::Decimal(u128::from(type_number(relocation.kind))),
            Word::Hex(value),
        ],
    )
}

/// The line of a fault.
#[tactic(auto, unfolding(ldmodel::specs::FaultCode::fault_of))]
pub fn put_fault(
    text: &mut Vec<u8>,
    names: &ScriptNames<'_>,
    project: &ProjectView<'_>,
    fault: Fault,
) -> Result<(), NoMemory>
    requires { AreNamesOf project.now names.now }
    ensures { OnOk result (text.new.items
        ≡ text.old.items ++ line_of_fault project.now fault) }
{
    match fault {
        Fault::DuplicateDefinition { entry, first } => put_duplicate(text, project, entry, first),
        Fault::UndefinedEntry => put_line(text, &[Word::Bytes(b"F2"), Word::Bytes(names.entry())]),
        Fault::Orphan(section) => {
            let name = part_name(project, section);
            put_names(text, b"F3", project.name(section.object), name)
        }
        Fault::NotReady { line, name } => put_message(text, b"F4", line, names.mentioned(name)),
        Fault::NoValue { line } => put_numbered(text, b"F5", line),
        Fault::MovedBack { line } => put_numbered(text, b"F6", line),
        Fault::RegionFull { section, region } => {
            put_names(text, b"F7", names.section(section), names.region(region))
        }
        Fault::PastAddressSpace { line } => put_numbered(text, b"F8", line),
        Fault::AddressesOverlap { section, earlier } => {
            put_names(text, b"F9", names.section(section), names.section(earlier))
        }
        Fault::LoadAddressesOverlap { section, earlier } => {
            put_names(text, b"F10", names.section(section), names.section(earlier))
        }
        Fault::ImageTooLong { length } => put_line(
            text,
            &[Word::Bytes(b"F11"), Word::Decimal(length)],
        ),
        Fault::UndefinedSymbol(site) => put_undefined(text, project, site),
        Fault::TargetNotInOutput(site) => put_missing(text, project, site),
        Fault::EntryNotInOutput => put_line(text, &[Word::Bytes(b"F13"), Word::Bytes(b"entry")]),
        Fault::FieldOverflow { site, value } => put_overflow(text, project, site, value),
        Fault::AssertionFailed(number) => {
            let (line, message) = names.assertion(number);
            put_message(text, b"F15", line, message)
        }
    }
}
