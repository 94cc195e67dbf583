//! The call that `clap`'s matches hold.

ghost use Rattle.std.specs.Prelude.{◌≡◌, IfOk, IsSome, Some, [], codes, map, option_map, string_bytes, unwrap_or};
ghost use Rattle.clap.specs.Words.{first_value, found_of, matched_of, one_of, raw_values, rows_of, subcommand_rows_of};
ghost use Rattle.clap.specs.Walk.{texts};
ghost use Rattle.ldi_words.specs.Call.{HasOptions, IsCallOf, IsFlag, word_of};
ghost use Rattle.ldi_words.specs.Call.{NamesOrphans, StatesCall, StatesFiles, StatesOptions};

use crate::call::Call;
use clap::ArgMatches;
use growth::{NoMemory, string, vec};
use ldmodel::options::{Options, Orphans};
use std::alloc::Global;

/// The value of `-e`, if it is given.
fn entry_of(alloc: Global, matches: &ArgMatches<'_>) -> Result<Option<Vec<u8>>, NoMemory>
    ensures { IfOk result (λ entry. option_map (λ v. v.items) entry
        ≡ first_value (found_of matches.now) (codes "entry")) }
{
    match matches.get_str("entry") {
        Some(symbol) => Ok(Some(vec::to_vec(symbol.as_bytes(), alloc)?)),
        None => Ok(None),
    }
}

/// The value of `--orphan-handling`.
fn orphans_of(matches: &ArgMatches<'_>) -> Orphans
    requires { NamesOrphans (first_value (found_of matches.now) (codes "orphan-handling")) }
    ensures { first_value (found_of matches.now) (codes "orphan-handling")
        ≡ Some (word_of result) }
{
    match matches.get_str("orphan-handling") {
        Some("discard") => Orphans::Discard,
        _ => Orphans::Error,
    }
}

/// The options that both subcommands take.
fn options_of(alloc: Global, matches: &ArgMatches<'_>) -> Result<Options, NoMemory>
    requires { StatesOptions (rows_of (found_of matches.now)) }
    ensures { IfOk result (HasOptions (rows_of (found_of matches.now))) }
{
    let gc = matches.get_flag("gc-sections");
    let entry = entry_of(alloc, matches)?;
    Ok(Options::new(gc, entry, orphans_of(matches)))
}

/// The value of an argument that has one.
fn required_file(alloc: Global, matches: &ArgMatches<'_>, id: &str) -> Result<String, NoMemory>
    requires { IsSome (first_value (found_of matches.now) id.now) }
    ensures { IfOk result (λ file. first_value (found_of matches.now) id.now
        ≡ Some (string_bytes file)) }
{
    string::from_str(alloc, matches.get_str(id).unwrap())
}

/// The value of `--Map`, if it is given.
fn map_file_of(alloc: Global, matches: &ArgMatches<'_>) -> Result<Option<String>, NoMemory>
    ensures { IfOk result (λ file. option_map string_bytes file
        ≡ first_value (found_of matches.now) (codes "map")) }
{
    match matches.get_str("map") {
        Some(name) => Ok(Some(string::from_str(alloc, name)?)),
        None => Ok(None),
    }
}

/// Copies of names.
fn copies(alloc: Global, names: &[&str]) -> Result<Vec<String>, NoMemory>
    ensures { IfOk result (λ v. map string_bytes v.items ≡ texts names.now) }
{
    let mut copies = vec::with_capacity(alloc, names.len())?;
    for name in names {
        vec::push(&mut copies, string::from_str(alloc, name)?)?;
    }
    Ok(copies)
}

/// The names of the objects.
fn objects_of(alloc: Global, matches: &ArgMatches<'_>) -> Result<Vec<String>, NoMemory>
    ensures { IfOk result (λ v. map string_bytes v.items
        ≡ unwrap_or (option_map raw_values (matched_of (found_of matches.now) (codes "objects"))) []) }
{
    match matches.get_strs("objects") {
        Some(names) => copies(alloc, names),
        None => Ok(Vec::new(alloc)),
    }
}

/// The call of `ldi link`.
fn link_of(alloc: Global, matches: &ArgMatches<'_>) -> Result<Call, NoMemory>
    requires options { StatesOptions (rows_of (found_of matches.now)) }
    requires files { StatesFiles (rows_of (found_of matches.now)) }
    ensures { IfOk result (IsCallOf (Some (codes "link", rows_of (found_of matches.now)))) }
{
    Ok(Call::Link {
        script: required_file(alloc, matches, "script")?,
        image: required_file(alloc, matches, "image")?,
        map: map_file_of(alloc, matches)?,
        options: options_of(alloc, matches)?,
        objects: objects_of(alloc, matches)?,
    })
}

/// The call of `ldi session`.
fn session_of(alloc: Global, matches: &ArgMatches<'_>) -> Result<Call, NoMemory>
    requires options { StatesOptions (rows_of (found_of matches.now)) }
    requires deferred { IsFlag (one_of (codes "deferred") (rows_of (found_of matches.now))) }
    ensures { IfOk result (IsCallOf (Some (codes "session", rows_of (found_of matches.now)))) }
{
    let options = options_of(alloc, matches)?;
    if matches.get_flag("deferred") {
        Ok(Call::DeferredSession(options))
    } else {
        Ok(Call::Session(options))
    }
}

/// The call that the matches of `ldi` hold.
pub(crate) fn call_of(alloc: Global, matches: &ArgMatches<'_>) -> Result<Call, NoMemory>
    requires { StatesCall (subcommand_rows_of matches.now) }
    ensures { IfOk result (IsCallOf (subcommand_rows_of matches.now)) }
{
    match matches.subcommand() {
        Some(("link", inner)) => link_of(alloc, inner),
        Some((_, inner)) => session_of(alloc, inner),
        None => unreachable!(),
    }
}
