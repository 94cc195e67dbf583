//! The calls of paths.

ghost use Rattle.std.specs.Prelude.{◌≡◌, IfOk, OnOk, OnErr};
ghost use Rattle.std.specs.Path.{path_buf_bytes, path_bytes, path_join};

use crate::no_memory::NoMemory;
use std::alloc::Global;
use std::io::ErrorKind;
use std::path::{Path, PathBuf};
use std::rt::Files;
use std::{fs, io};

/// The path of this text.
pub fn from_str(alloc: Global, path: &str) -> Result<PathBuf, NoMemory>
    ensures { IfOk result (λ p. path_buf_bytes p ≡ path.now) }
{
    match PathBuf::from_str(alloc, path) {
        Ok(path) => Ok(path),
        Err(_) => Err(NoMemory::refused()),
    }
}

/// Appends a path.
pub fn push(path: &mut PathBuf, more: Path<'_>) -> Result<(), NoMemory>
    ensures ok { OnOk result (path_buf_bytes path.new ≡ path_join (path_buf_bytes path.old) (path_bytes more.entry)) }
    ensures err { OnErr result (path_buf_bytes path.new ≡ path_buf_bytes path.old) }
{
    match path.push(more) {
        Ok(()) => Ok(()),
        Err(_) => Err(NoMemory::refused()),
    }
}

/// Where the symbolic link of this path leads; the inner error is another one than refused memory.
pub fn read_link<R: Files + AllocGlobal>(
    rt: &R,
    path: Path<'_>,
) -> Result<io::Result<PathBuf>, NoMemory> {
    match fs::read_link(rt, path) {
        Ok(target) => Ok(Ok(target)),
        Err(error) if error.kind() == ErrorKind::OutOfMemory => Err(NoMemory::refused()),
        Err(error) => Ok(Err(error)),
    }
}
