//! The bytes of a file.

ghost use Rattle.std.specs.Prelude.{◌≡◌, ◌≤◌, ◌⊎◌, ◌++◌, ◌∷◌, [], take, length, IfErr, IfOk, IfSome};
ghost use Rattle.std.specs.Io.KnownBytes.{Consumes};
ghost use Rattle.ldi_files.specs.Fault.{IsInputFault};

use crate::destination::FileId;
use crate::fault::{Action, FileFault};
use growth::{NoMemory, vec};
use std::alloc::Global;
use std::fs::{File, OpenFile};
use std::io;
use std::io::{ErrorKind, Read};
use std::rt::Files;

/// The most bytes of one read. A new buffer must be filled with zeros first, so all files are read into one buffer of
/// this length, and copied from it; a longer file is read piece by piece.
const AT_ONCE: usize = 131_072;

/// A file that was read.
#[derive(Drop)]
pub struct ReadFile {
    /// Which file it is, if it is a regular one.
    pub id: Option<FileId>,
    /// Its bytes.
    pub bytes: Vec<u8>,
}

/// Reads the files of a link, one after the other.
#[derive(Drop)]
pub struct FileReader {
    /// The buffer for the first bytes of each file.
    buffer: Vec<u8>,
    /// The most bytes of a file that are read.
    most: usize,
}

/// Reads once into a buffer; returns the number of bytes, 0 if a signal interrupted the read.
fn read_once<R: Read>(reader: &mut R, buffer: &mut [u8]) -> io::Result<usize>
    ensures bound { IfOk result (λ n. n ≤ length buffer.new) }
    ensures read { IfOk result (λ n. Consumes (R.remaining reader.old) (R.remaining reader.new) (take n buffer.new)) }
{
    match reader.read(buffer) {
        Ok(count) => Ok(count),
        Err(error) if error.kind() == ErrorKind::Interrupted => Ok(0),
        Err(error) => Err(error),
    }
}

/// These bytes and those that a reader has left, or the first `most` of them if there are more. The buffer has room for
/// `room` bytes from the beginning.
#[tactic(auto, using(crate::proofs::Prefix::take_both))]
fn read_on<R: Read + Drop>(
    alloc: Global,
    reader: R,
    first: &[u8],
    room: usize,
    most: usize,
) -> io::Result<Vec<u8>>
    requires { length first.now ≤ most }
    ensures { IfOk result (λ bytes. IfSome (R.remaining reader) (λ rest.
        bytes.items ≡ take most (first.now ++ rest))) }
{
    let mut bytes = Vec::with_capacity(alloc, room)?;
    bytes.extend_from_slice(first)?;
    let rest = (most - first.len()) as u64;
    reader.take(rest).read_to_end(&mut bytes)?;
    Ok(bytes)
}

/// The bytes that a reader has left, or the first `most` of them if there are more. `size` is the number of bytes that
/// it should have; the first ones are read into a buffer. If the first read has room for more than `size` bytes, and
/// gives exactly `size`, it has reached the end; so most files take one read.
#[tactic(auto, using(crate::proofs::Prefix::take_first))]
fn read_bytes<R: Read + Drop>(
    alloc: Global,
    mut reader: R,
    size: usize,
    most: usize,
    buffer: &mut [u8],
) -> io::Result<Vec<u8>>
    requires { length buffer.old ≤ most }
    // If the reader has another number of bytes than `size`, the result may be its first `size` bytes.
    ensures { IfOk result (λ bytes. IfSome (R.remaining reader) (λ all.
        (bytes.items ≡ take most all) ⊎ ((length bytes.items ≡ size) × (bytes.items ≡ take size all)))) }
{
    let count = read_once(&mut reader, buffer)?;
    let room = buffer.len();
    let first = &buffer[..count];
    if !first.is_empty() && first.len() == size && size < room {
        return Ok(Vec::from_slice(alloc, first)?);
    }
    read_on(alloc, reader, first, size.saturating_add(1).min(most), most)
}

impl FileReader {
    /// Reads at most `most` bytes of each file. This is one more than a file may have, so that a file that is too long
    /// is recognized, and an endless one is not read for ever.
    ///
    /// # Errors
    ///
    /// If memory runs out.
    pub fn new(alloc: Global, most: usize) -> Result<FileReader, NoMemory> {
        let buffer = vec::from_elem(alloc, 0, AT_ONCE)?;
        Ok(FileReader { buffer, most })
    }

    /// A file of this name.
    ///
    /// # Errors
    ///
    /// If the file can't be opened or read, or memory runs out.
    pub fn read<'a, R: Files + AllocGlobal>(
        &mut self,
        rt: &R,
        name: &'a str,
    ) -> Result<ReadFile, FileFault<'a>>
        ensures { IfErr result (IsInputFault (name.now ∷ [])) }
    {
        let file = File::open(rt, name).map_err(|error| FileFault::of(Action::Open, name, error))?;
        self.read_opened(rt.alloc(), file)
            .map_err(|error| FileFault::of(Action::Read, name, error))
    }

    /// A file that is open.
    fn read_opened<F: OpenFile + Read + Drop>(
        &mut self,
        alloc: Global,
        file: F,
    ) -> io::Result<ReadFile> {
        let metadata = file.metadata()?;
        let size = usize::try_from(metadata.len()).unwrap_or(self.most);
        let room = self.buffer.len().min(self.most);
        let bytes = read_bytes(alloc, file, size, self.most, &mut self.buffer[..room])?;
        Ok(ReadFile {
            id: FileId::of_regular(&metadata),
            bytes,
        })
    }
}
