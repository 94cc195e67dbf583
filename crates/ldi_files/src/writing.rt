//! The outputs of a link. A regular file is written beside its place, and put there once all files are written: if one
//! cannot be written, the old files stay as they were.

ghost use Rattle.std.specs.Prelude.{◌∷◌, [], map, IfErr};
ghost use Rattle.ldi_files.specs.Fault.{IsOutputFault, name_of};

use crate::fault::{Action, FileFault};
use growth::vec;
use std::fs::{OpenFile, OpenOptions};
use std::io::{ErrorKind, Write};
use std::os::unix::fs::OpenOptionsExt;
use std::path::PathBuf;
use std::random::RandomSource;
use std::rt::Files;
use std::{fs, io};

/// A file that is to be written.
#[derive(Clone, Copy)]
pub struct NewFile<'a, 'b> {
    /// Its name.
    pub name: &'a str,
    /// The permission bits of the new file, less those of the umask.
    pub mode: u32,
    /// Its bytes.
    pub bytes: &'b [u8],
}

/// A written file that is not in its place yet.
#[derive(Drop)]
struct Beside {
    /// Its path now.
    temporary: PathBuf,
    /// Its final path.
    final_path: PathBuf,
}

/// The path of the regular file that a name leads to, or of a new file of this name; `None` if it must be written in
/// place: a device, a pipe, or a symbolic link that leads to no file.
fn path_to_replace<R: Files + AllocGlobal>(rt: &R, name: &str) -> io::Result<Option<PathBuf>> {
    let is_link = match fs::symlink_metadata(rt, name) {
        Ok(found) if found.is_file() => false,
        Ok(found) if found.is_symlink() => true,
        Ok(_) => return Ok(None),
        Err(error) if error.kind() == ErrorKind::NotFound => false,
        Err(_) => return Ok(None),
    };
    if !is_link {
        return Ok(Some(PathBuf::from_str(rt.alloc(), name)?));
    }
    match fs::metadata(rt, name) {
        Ok(found) if found.is_file() => Ok(Some(fs::canonicalize(rt, name)?)),
        _ => Ok(None),
    }
}

/// A file name that almost surely no other file has: it has 64 random bits.
fn unused_name<R: RandomSource + AllocGlobal>(rt: &R) -> io::Result<String> {
    let mut bits = [0; 8];
    rt.fill_bytes(&mut bits)?;
    let number = u64::from_le_bytes(bits);
    Ok(format!(in rt.alloc(); ".ldi-{number:016x}.new")?)
}

/// The path beside its place under which a file is written.
fn temporary_path<R: RandomSource + AllocGlobal>(
    rt: &R,
    final_path: &PathBuf,
) -> io::Result<PathBuf> {
    let name = unused_name(rt)?;
    Ok(final_path.with_file_name(rt.alloc(), name.as_str())?)
}

/// Writes a file beside its place; `None` if it must be written in place: a device, or a file in a folder where no new
/// file may be created.
fn write_beside<'a, R: Files + RandomSource + AllocGlobal>(
    rt: &R,
    file: &NewFile<'a, '_>,
) -> Result<Option<Beside>, FileFault<'a>>
    ensures { IfErr result (IsOutputFault (name_of file.now ∷ [])) }
{
    let not_opened = |error| FileFault::of(Action::Open, file.name, error);
    let Some(final_path) = path_to_replace(rt, file.name).map_err(not_opened)? else {
        return Ok(None);
    };
    let temporary = temporary_path(rt, &final_path).map_err(not_opened)?;
    let opened = OpenOptions::new()
        .write(true)
        .create_new(true)
        .mode(file.mode)
        .open(rt, temporary.as_path());
    let mut out = match opened {
        Ok(out) => out,
        Err(error) if error.kind() == ErrorKind::PermissionDenied => return Ok(None),
        Err(error) => return Err(not_opened(error)),
    };
    if let Err(error) = out.write_all(file.bytes) {
        let _ = fs::remove_file(rt, temporary.as_path());
        return Err(FileFault::of(Action::Write, file.name, error));
    }
    Ok(Some(Beside {
        temporary,
        final_path,
    }))
}

/// Overwrites a file. If a write fails, the file is left empty.
fn write_in_place<'a, R: Files>(rt: &R, file: &NewFile<'a, '_>) -> Result<(), FileFault<'a>>
    ensures { IfErr result (IsOutputFault (name_of file.now ∷ [])) }
{
    let mut out = OpenOptions::new()
        .write(true)
        .create(true)
        .truncate(true)
        .mode(file.mode)
        .open(rt, file.name)
        .map_err(|error| FileFault::of(Action::Open, file.name, error))?;
    let written = out.write_all(file.bytes);
    if written.is_err() {
        // a device has no length to set
        let _ = out.set_len(0);
    }
    written.map_err(|error| FileFault::of(Action::Write, file.name, error))
}

/// Renames a written file to its place. If the system does not allow that, as for a mounted file, or for another user's
/// file in a folder for all, the old file is overwritten.
fn put<'a, R: Files>(rt: &R, file: &NewFile<'a, '_>, beside: &Beside) -> Result<(), FileFault<'a>>
    ensures { IfErr result (IsOutputFault (name_of file.now ∷ [])) }
{
    match fs::rename(rt, beside.temporary.as_path(), beside.final_path.as_path()) {
        Ok(()) => Ok(()),
        Err(error) => match error.kind() {
            ErrorKind::PermissionDenied | ErrorKind::ResourceBusy | ErrorKind::CrossesDevices => {
                write_in_place(rt, file)?;
                let _ = fs::remove_file(rt, beside.temporary.as_path());
                Ok(())
            }
            _ => Err(FileFault::of(Action::Rename, file.name, error)),
        },
    }
}

/// Writes all files: each regular one beside its place, then the others in place, and then puts the regular ones into
/// their places.
fn write_all_files<'a, R: Files + RandomSource + AllocGlobal>(
    rt: &R,
    files: &[NewFile<'a, '_>],
    beside: &mut Vec<Option<Beside>>,
) -> Result<(), FileFault<'a>>
    ensures { IfErr result (IsOutputFault (map name_of files.now)) }
{
    for file in files {
        vec::push(beside, write_beside(rt, file)?)?;
    }
    for (file, beside) in files.iter().zip(beside.iter()) {
        if beside.is_none() {
            write_in_place(rt, file)?;
        }
    }
    for (file, beside) in files.iter().zip(beside.iter()) {
        if let Some(beside) = beside {
            put(rt, file, beside)?;
        }
    }
    Ok(())
}

/// Writes files, in their order where they are written in place.
///
/// # Errors
///
/// If one cannot be written, or memory runs out. Then each regular file is as it was, or does not exist if it did not;
/// a file behind a link that led to no file, or in a folder where none may be made, is empty.
pub fn write_files<'a, R: Files + RandomSource + AllocGlobal>(
    rt: &R,
    files: &[NewFile<'a, '_>],
) -> Result<(), FileFault<'a>>
    ensures { IfErr result (IsOutputFault (map name_of files.now)) }
{
    let mut beside = vec::with_capacity(rt.alloc(), files.len())?;
    let written = write_all_files(rt, files, &mut beside);
    if written.is_err() {
        for beside in beside.iter().flatten() {
            // a file that is in its place no longer has this name
            let _ = fs::remove_file(rt, beside.temporary.as_path());
        }
    }
    written
}
