//! The command `ldi` with its two subcommands, as it is described to `clap`.

ghost use Rattle.std.specs.Prelude.{◌≡◌, IfOk, false};
ghost use Rattle.clap.specs.Words.{App, rule_of};
ghost use Rattle.ldi_words.specs.Command.{Choices, IsApp, ListsOrphans};
ghost use Rattle.ldi_words.specs.Command.{deferred_rule, gc_rule, entry_rule, orphans_rule};
ghost use Rattle.ldi_words.specs.Command.{script_rule, image_rule, map_rule, objects_rule};
ghost use Rattle.ldi_words.specs.Command.{ldi, link_app, session_app, with_options};

use clap::{Arg, ArgAction, Command};
use growth::{NoMemory, words};
use std::alloc::Global;

/// What `ldi --version` prints after the name.
const VERSION: &str = "0.2.0";

/// An example of `ldi link`, and what it writes to standard error, with the exit status of each.
const LINK_HELP: &str = "\
Example: ldi link -T image.ld -o image --Map image.map start.o main.o

Standard error, and the exit status:
  F12 main.o .text 0000000000000001 f  the link has faults; each has a line (1)
  main.o: refused 4 M                  not an object that ldi takes; `readobj main.o` says why (2)
  script: refused 5 M                  not a script that ldi takes; `ldi-adapt --check image.ld` says why (2)
  main.o: refused 1 0                  the object is named twice (2)
  main.o: refused 6 0                  over a limit: name, size or number of objects (2)
  device                               a file cannot be read or written, or there is no seed for hash tables (3)
  memory                               out of memory (4)";

/// The values of `--orphan-handling`.
static ORPHANS: [&str; 2] = ["error", "discard"];

/// `--gc-sections`.
fn gc_arg<'a>(alloc: Global) -> Arg<'a>
    ensures rule { rule_of result ≡ gc_rule }
    ensures local { result.global ≡ false }
{
    Arg::new(alloc, "gc-sections")
        .long("gc-sections")
        .action(ArgAction::SetTrue)
        .help("Leave out sections that the program cannot reach [default: keep them]")
}

/// `-e SYMBOL`.
fn entry_arg<'a>(alloc: Global) -> Arg<'a>
    ensures rule { rule_of result ≡ entry_rule }
    ensures local { result.global ≡ false }
{
    Arg::new(alloc, "entry")
        .short('e')
        .value_name("SYMBOL")
        .help("Start the program at this symbol [default: the one of the script's ENTRY]")
}

/// `--orphan-handling HANDLING`.
fn orphans_arg<'a>(alloc: Global, orphan_values: &'a [&'a str]) -> Arg<'a>
    ensures rule { rule_of result ≡ orphans_rule orphan_values.entry }
    ensures local { result.global ≡ false }
{
    Arg::new(alloc, "orphan-handling")
        .long("orphan-handling")
        .value_name("HANDLING")
        .value_parser(orphan_values)
        .default_value("error")
        .help("Handling of sections that no statement takes")
}

/// `--deferred`.
fn deferred_arg<'a>(alloc: Global) -> Arg<'a>
    ensures rule { rule_of result ≡ deferred_rule }
    ensures local { result.global ≡ false }
{
    Arg::new(alloc, "deferred")
        .long("deferred")
        .action(ArgAction::SetTrue)
        .help("Link only at the command `link` [default: after each edit]")
}

/// `-T SCRIPT`.
fn script_arg<'a>(alloc: Global) -> Arg<'a>
    ensures rule { rule_of result ≡ script_rule }
    ensures local { result.global ≡ false }
{
    Arg::new(alloc, "script")
        .short('T')
        .value_name("SCRIPT")
        .required(true)
        .help("The file of the linker script")
}

/// `-o IMAGE`.
fn image_arg<'a>(alloc: Global) -> Arg<'a>
    ensures rule { rule_of result ≡ image_rule }
    ensures local { result.global ≡ false }
{
    Arg::new(alloc, "image")
        .short('o')
        .value_name("IMAGE")
        .required(true)
        .help("The file to write the image to")
}

/// `--Map MAP`.
fn map_arg<'a>(alloc: Global) -> Arg<'a>
    ensures rule { rule_of result ≡ map_rule }
    ensures local { result.global ≡ false }
{
    Arg::new(alloc, "map").long("Map").value_name("MAP").help(
        "The file to write the map to [default: no map is written]",
    )
}

/// The objects.
fn objects_arg<'a>(alloc: Global) -> Arg<'a>
    ensures rule { rule_of result ≡ objects_rule }
    ensures local { result.global ≡ false }
{
    Arg::new(alloc, "objects")
        .value_name("OBJECT")
        .action(ArgAction::Append)
        .help("The files of the objects, in the order in which they are linked")
}

/// Adds the options that both subcommands take.
fn add_options<'a>(
    alloc: Global,
    command: Command<'a>,
    orphan_values: &'a [&'a str],
) -> Result<Command<'a>, NoMemory>
    ensures { IfOk result (λ c. (a : App) → IsApp a command.entry
        → IsApp (with_options orphan_values.entry a) c) }
{
    let command = words::arg(command, gc_arg(alloc))?;
    let command = words::arg(command, entry_arg(alloc))?;
    words::arg(command, orphans_arg(alloc, orphan_values))
}

/// `ldi session`.
fn session_command<'a>(alloc: Global, orphan_values: &'a [&'a str]) -> Result<Command<'a>, NoMemory>
    ensures { IfOk result (IsApp (session_app orphan_values.entry)) }
{
    let session = Command::new(alloc, "session")
        .about("Reads edits and queries from standard input and links again after each edit")
        .after_help("Example: ldi session --gc-sections -e _start < commands > answers");
    let session = add_options(alloc, session, orphan_values)?;
    words::arg(session, deferred_arg(alloc))
}

/// `ldi link`.
fn link_command<'a>(alloc: Global, orphan_values: &'a [&'a str]) -> Result<Command<'a>, NoMemory>
    ensures { IfOk result (IsApp (link_app orphan_values.entry)) }
{
    let link = Command::new(alloc, "link")
        .about("Links objects once, from files to files")
        .after_help(LINK_HELP);
    let link = words::arg(link, script_arg(alloc))?;
    let link = words::arg(link, image_arg(alloc))?;
    let link = words::arg(link, map_arg(alloc))?;
    let link = add_options(alloc, link, orphan_values)?;
    words::arg(link, objects_arg(alloc))
}

/// `ldi`, which is given one of its two subcommands.
pub(crate) fn ldi_command<'a>(alloc: Global) -> Result<Command<'a>, NoMemory>
    ensures { IfOk result (λ c. (choices : Choices) × ListsOrphans choices × IsApp (ldi choices) c) }
{
    let orphan_values = ORPHANS.as_slice();
    let command = Command::new(alloc, "ldi")
        .about("A static linker for ELF-64 objects of x86-64 that links again after every edit")
        .version(VERSION)
        .subcommand_required(true)
        .disable_help_subcommand(true);
    let command = words::subcommand(command, session_command(alloc, orphan_values)?)?;
    words::subcommand(command, link_command(alloc, orphan_values)?)
}
