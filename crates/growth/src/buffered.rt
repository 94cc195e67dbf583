//! The buffers of readers and writers.

ghost use Rattle.std.specs.Prelude.{◌≡◌, [], IfOk};
ghost use Rattle.std.specs.Io.Buffered.{reader_inner, reader_buffer, reader_filled_len, reader_capacity};
ghost use Rattle.std.specs.Io.Buffered.{writer_inner, writer_buffer, writer_capacity};

use crate::no_memory::NoMemory;
use std::alloc::Global;
use std::io::{BufReader, BufWriter, Read, Write};

/// A reader with a buffer. Without memory for one, `inner` is dropped.
pub fn reader<R: Read + Drop>(alloc: Global, inner: R) -> Result<BufReader<R>, NoMemory>
    ensures inner { IfOk result (λ r. reader_inner r ≡ inner) }
    ensures empty { IfOk result (λ r. reader_buffer r ≡ []) }
    ensures unfilled { IfOk result (λ r. reader_filled_len r ≡ 0) }
    ensures capacity { IfOk result (λ r. reader_capacity r ≡ 8192) }
{
    match BufReader::new(alloc, inner) {
        Ok(reader) => Ok(reader),
        Err(_) => Err(NoMemory::refused()),
    }
}

/// A writer with a buffer. Without memory for one, `inner` is dropped.
pub fn writer<W: Write + Drop>(alloc: Global, inner: W) -> Result<BufWriter<W>, NoMemory>
    ensures inner { IfOk result (λ w. writer_inner w ≡ inner) }
    ensures empty { IfOk result (λ w. writer_buffer w ≡ []) }
    ensures capacity { IfOk result (λ w. writer_capacity w ≡ 8192) }
{
    match BufWriter::new(alloc, inner) {
        Ok(writer) => Ok(writer),
        Err(_) => Err(NoMemory::refused()),
    }
}
