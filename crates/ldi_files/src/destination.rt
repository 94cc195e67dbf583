//! Which file a name leads to.

use growth::{NoMemory, path, string};
use std::fs;
use std::fs::Metadata;
use std::os::unix::fs::MetadataExt;
use std::path::PathBuf;
use std::rt::Files;

/// The most symbolic links that are followed: as many as Linux follows.
const MOST_LINKS: usize = 40;

/// A file or a folder as the system identifies it, whatever its names are.
#[derive(Clone, Copy, PartialEq, Eq, Debug)]
pub struct FileId {
    device: u64,
    inode: u64,
}

impl FileId {
    /// The file that has this metadata.
    fn of(metadata: &Metadata) -> FileId {
        FileId {
            device: metadata.dev(),
            inode: metadata.ino(),
        }
    }

    /// The file that has this metadata, if it is a regular one.
    pub fn of_regular(metadata: &Metadata) -> Option<FileId> {
        metadata.is_file().then_some(FileId::of(metadata))
    }
}

/// Where a name leads, through all links.
#[derive(Debug, Drop)]
pub enum Destination {
    /// To a regular file.
    File(FileId),
    /// To no file yet: a new one would have this name in this folder.
    New(FileId, String),
    /// To a device, for example, or into a folder that does not exist: no file can be lost.
    Other,
}

impl Destination {
    /// Where this name leads.
    ///
    /// # Errors
    ///
    /// If memory runs out.
    pub fn of<R: Files + AllocGlobal>(rt: &R, name: &str) -> Result<Destination, NoMemory> {
        match fs::metadata(rt, name) {
            Ok(metadata) => Ok(FileId::of_regular(&metadata).map_or(
                Destination::Other,
                Destination::File,
            )),
            Err(_) => new_destination(rt, name),
        }
    }

    /// Whether it is this file.
    pub fn is_file(&self, file: FileId) -> bool {
        match self {
            Destination::File(mine) => *mine == file,
            Destination::New(..) | Destination::Other => false,
        }
    }

    /// Whether both names lead to the same file, or would lead to the same new one.
    pub fn is_same(&self, other: &Destination) -> bool {
        match (self, other) {
            (Destination::File(mine), Destination::File(its)) => *mine == *its,
            (Destination::New(mine, name), Destination::New(its, other_name)) => {
                *mine == *its && name.as_str() == other_name.as_str()
            }
            _ => false,
        }
    }
}

/// The path that a name leads to through symbolic links, the last of which leads to no file.
fn behind_links<R: Files + AllocGlobal>(rt: &R, name: &str) -> Result<PathBuf, NoMemory> {
    let mut path = path::from_str(rt.alloc(), name)?;
    for _ in 0..MOST_LINKS {
        match path::read_link(rt, path.as_path())? {
            Ok(target) => {
                path.pop();
                path::push(&mut path, target.as_path())?;
            }
            Err(_) => break,
        }
    }
    Ok(path)
}

/// Where a name leads if it leads to no file.
fn new_destination<R: Files + AllocGlobal>(rt: &R, name: &str) -> Result<Destination, NoMemory> {
    let path = behind_links(rt, name)?;
    let (Some(folder), Some(last)) = (path.parent(), path.file_name()) else {
        return Ok(Destination::Other);
    };
    let folder = if folder.as_os_str().is_empty() {
        "."
    } else {
        folder.as_os_str()
    };
    match fs::metadata(rt, folder) {
        Ok(metadata) => {
            let name = string::from_str(rt.alloc(), last)?;
            Ok(Destination::New(FileId::of(&metadata), name))
        }
        Err(_) => Ok(Destination::Other),
    }
}
