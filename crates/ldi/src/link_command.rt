//! `ldi link`: reads the files, the script first, links once, and writes the image and the map.

ghost use Rattle.std.specs.Prelude.{◌≡◌, ◌↔◌, ◌∷◌, [], IsSome, IfErr, IfSome, Ok};
ghost use Rattle.relink.specs.driver.Answer.{answer_of};
ghost use Rattle.ldmodel.specs.LinkCommand.{link_status};
ghost use Rattle.ldi_files.specs.Fault.{IsOutputFault};
ghost use Rattle.ldi.specs.Fault.{IsFaultAmong, inputs, outputs};

use crate::{NO_MEMORY, REFUSED, SYSTEM_FAILED};
use growth::{NoMemory, vec};
use ldi_files::clash::{Clash, Outputs, Role};
use ldi_files::fault::FileFault;
use ldi_files::reading::FileReader;
use ldi_files::writing::{NewFile, write_files};
use ldmodel::edit::MAX_PAYLOAD;
use relink::driver::exit_report::{exit_status, message};
use relink::driver::fault::LinkFault;
use relink::driver::file::ObjectFile;
use relink::driver::from_files::{link, link_without_map};
use relink::{Options, Output};
use std::hash::RandomState;
use std::io;

/// The status of a link without faults.
const GOOD: u8 = 0;

/// The permission bits of an image that is made: all may read and run it.
const IMAGE_MODE: u32 = 0o755;
/// The permission bits of a map that is made: all may read it.
const MAP_MODE: u32 = 0o644;

/// The most bytes of a file that are read: one more than an object or a script may have.
const MOST: usize = MAX_PAYLOAD + 1;

/// The names of the files of a link.
#[derive(Drop)]
pub struct FileNames {
    /// The linker script.
    pub script: String,
    /// What the image is written to.
    pub image: String,
    /// What the map is written to, if anything.
    pub map: Option<String>,
    /// The objects, in their order.
    pub objects: Vec<String>,
}

/// Why files are not linked, or not written.
#[derive(Drop)]
enum CommandFault<'a> {
    /// A file cannot be read or written, or memory ran out.
    File(FileFault<'a>),
    /// The system gives no seed for hash tables.
    Seed(io::Error),
    /// An output is named a second time.
    Clash(Clash),
}

impl<'a> From<FileFault<'a>> for CommandFault<'a> {
    ghost use Rattle.std.specs.Prelude.{◌≡◌};
    ghost use Rattle.ldi.specs.declared.link_command.CommandFault.TheVariants.{File};

    ghost from_gives = { λ fault given. given ≡ File fault };

    fn from(fault: FileFault<'a>) -> Self {
        CommandFault::File(fault)
    }
}

impl From<NoMemory> for CommandFault<'_> {
    ghost use Rattle.std.specs.Prelude.{◌≡◌};
    ghost use Rattle.ldi_files.specs.declared.fault.FileFault.TheVariants.{Memory};
    ghost use Rattle.ldi.specs.declared.link_command.CommandFault.TheVariants.{File};

    ghost from_gives = { λ no_memory given. given ≡ File (Memory no_memory) };

    fn from(no_memory: NoMemory) -> Self {
        CommandFault::File(FileFault::Memory(no_memory))
    }
}

impl CommandFault<'_> {
    ghost use Rattle.std.specs.Prelude.{◌≡◌};
    ghost use Rattle.ldi.specs.Fault.{fault_status};

    /// Prints the reason on standard error, and returns the exit status. If that fails, only the status reports it.
    fn report(&self, rt: &impl Eprint) -> u8
        ensures { result ≡ fault_status self.now }
    {
        match self {
            CommandFault::File(FileFault::Memory(_)) => {
                let _ = eprintln!(rt; "memory");
                NO_MEMORY
            }
            CommandFault::File(fault) => {
                let _ = eprintln!(rt; "device\n{fault}");
                SYSTEM_FAILED
            }
            CommandFault::Seed(error) => {
                let _ = eprintln!(rt; "device\nrandom bytes: {error}");
                SYSTEM_FAILED
            }
            CommandFault::Clash(clash) => {
                clash.report(rt);
                REFUSED
            }
        }
    }
}

/// The files that the names of the outputs lead to.
///
/// # Errors
///
/// If image and map are one file.
fn outputs<'a>(rt: &HostRuntime, names: &'a FileNames) -> Result<Outputs, CommandFault<'a>>
    ensures { IfErr result (IsFaultAmong [] []) }
{
    let image = names.image.as_str();
    let map = match &names.map {
        Some(map) => Some(map.as_str()),
        None => None,
    };
    let outputs = Outputs::of(rt, image, map)?;
    match outputs.own_clash(rt.alloc(), image)? {
        Some(clash) => Err(CommandFault::Clash(clash)),
        None => Ok(outputs),
    }
}

/// The bytes of an input.
///
/// # Errors
///
/// If it cannot be read, or is one of the outputs.
fn read_input<'a>(
    rt: &HostRuntime,
    reader: &mut FileReader,
    outputs: &Outputs,
    role: Role,
    name: &'a str,
) -> Result<Vec<u8>, CommandFault<'a>>
    ensures { IfErr result (IsFaultAmong (name.now ∷ []) []) }
{
    let file = reader.read(rt, name)?;
    match outputs.clash_with(rt.alloc(), file.id, role, name)? {
        Some(clash) => Err(CommandFault::Clash(clash)),
        None => Ok(file.bytes),
    }
}

/// The bytes of the script and the objects.
#[derive(Drop)]
struct Inputs {
    script: Vec<u8>,
    objects: Vec<ObjectFile>,
}

/// Reads all inputs, the script first.
///
/// # Errors
///
/// As `read_input`, for the first that fails.
fn read_inputs<'a>(
    rt: &HostRuntime,
    names: &'a FileNames,
    outputs: &Outputs,
) -> Result<Inputs, CommandFault<'a>>
    ensures { IfErr result (IsFaultAmong (inputs names.now) []) }
{
    let mut reader = FileReader::new(rt.alloc(), MOST)?;
    let script = read_input(
        rt,
        &mut reader,
        outputs,
        Role::Script,
        names.script.as_str(),
    )?;
    let mut objects = vec::with_capacity(rt.alloc(), names.objects.len())?;
    for name in &names.objects {
        let word = vec::from_slice(rt.alloc(), name.as_bytes())?;
        let bytes = read_input(rt, &mut reader, outputs, Role::Object, name.as_str())?;
        vec::push(&mut objects, ObjectFile { word, bytes })?;
    }
    Ok(Inputs { script, objects })
}

/// Reads all files, the script first, and links. Without a file for the map none is made.
fn link_read<'a>(
    rt: &HostRuntime,
    names: &'a FileNames,
    options: Options,
) -> Result<Result<Output, LinkFault>, CommandFault<'a>>
    ensures { IfErr result (IsFaultAmong (inputs names.now) []) }
{
    let outputs = outputs(rt, names)?;
    let Inputs { script, objects } = read_inputs(rt, names, &outputs)?;
    let seed = match RandomState::new(rt) {
        Ok(seed) => seed,
        Err(error) => return Err(CommandFault::Seed(error)),
    };
    let alloc = rt.alloc();
    Ok(match names.map {
        Some(_) => link(alloc, seed, script, objects, options),
        None => link_without_map(alloc, seed, script, objects, options),
    })
}

/// The output of a link without faults, which is written to files.
fn good_output(outcome: &Result<Output, LinkFault>) -> Option<&Output>
    ensures good { IsSome result ↔ link_status (answer_of outcome.now) ≡ 0 }
    ensures output { IfSome result (λ output. outcome.now ≡ Ok output.now) }
{
    match outcome {
        Ok(output) if exit_status(outcome) == GOOD => Some(output),
        _ => None,
    }
}

/// Writes the map and the image.
fn write_output<'a>(
    rt: &HostRuntime,
    names: &'a FileNames,
    output: &Output,
) -> Result<(), FileFault<'a>>
    ensures { IfErr result (IsOutputFault (outputs names.now)) }
{
    let image = NewFile {
        name: names.image.as_str(),
        mode: IMAGE_MODE,
        bytes: output.image(),
    };
    match &names.map {
        None => write_files(rt, &[image]),
        Some(map) => {
            let map = NewFile {
                name: map.as_str(),
                mode: MAP_MODE,
                bytes: output.map(),
            };
            write_files(rt, &[map, image])
        }
    }
}

/// Writes the image and the map of a good link, or the message of any other outcome on standard error. Returns the exit
/// status.
fn end_with<'a>(
    rt: &HostRuntime,
    names: &'a FileNames,
    outcome: &Result<Output, LinkFault>,
) -> Result<u8, FileFault<'a>>
    ensures { IfErr result (IsOutputFault (outputs names.now)) }
{
    match good_output(outcome) {
        Some(output) => write_output(rt, names, output)?,
        None => {
            let text = message(rt.alloc(), names.objects.as_slice(), outcome)?;
            let _ = rt.stderr().write_all(&text);
        }
    }
    Ok(exit_status(outcome))
}

/// Links files, and returns the exit status.
fn link_named<'a>(
    rt: &HostRuntime,
    names: &'a FileNames,
    options: Options,
) -> Result<u8, CommandFault<'a>>
    ensures { IfErr result (IsFaultAmong (inputs names.now) (outputs names.now)) }
{
    let outcome = link_read(rt, names, options)?;
    Ok(end_with(rt, names, &outcome)?)
}

/// Links files, and returns the exit status: 0 if the image and the map are written, 1 after fault lines, 2 if an edit
/// is refused or an output is named twice, 3 if a file can't be read or written, 4 if memory ran out.
pub fn link_files(rt: &HostRuntime, names: &FileNames, options: Options) -> u8 {
    match link_named(rt, names, options) {
        Ok(status) => status,
        Err(fault) => fault.report(rt),
    }
}
