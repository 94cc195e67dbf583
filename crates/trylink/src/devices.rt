//! A reader and a writer that take a few bytes a call, and that fail at a call.

use std::alloc::Global;
use std::io;
use std::io::{ErrorKind, Read, Write};

/// The number of calls that were made, and the number of the one that fails, from 1; 0 for none.
#[derive(Drop)]
struct Calls {
    made: u64,
    fails_at: u64,
}

impl Calls {
    /// No call was made, and the one with this number will fail.
    fn failing_at(number: u64) -> Calls {
        Calls {
            made: 0,
            fails_at: number,
        }
    }

    /// Makes a call, and returns whether it succeeds.
    fn make(&mut self) -> bool {
        self.made = self.made.saturating_add(1);
        self.made != self.fails_at
    }
}

/// A reader of given bytes.
#[derive(Drop)]
pub struct ShortReader<'a> {
    rest: &'a [u8],
    longest: usize,
    reads: Calls,
}

impl<'a> ShortReader<'a> {
    /// Gives at most `longest` bytes a call. The read with the last number will fail, from 1; 0 for none.
    pub fn new(bytes: &'a [u8], longest: usize, failing_read: u64) -> ShortReader<'a> {
        ShortReader {
            rest: bytes,
            longest,
            reads: Calls::failing_at(failing_read),
        }
    }
}

impl<'a> Read for ShortReader<'a> {
    fn read(&mut self, buf: &mut [u8]) -> io::Result<usize> {
        if !self.reads.make() {
            return Err(ErrorKind::Other.into());
        }
        let count = self.rest.len().min(buf.len()).min(self.longest);
        let (bytes, rest) = self.rest.split_at(count);
        buf[..count].copy_from_slice(bytes);
        self.rest = rest;
        Ok(count)
    }
}

/// A writer that keeps what was written.
#[derive(Drop)]
pub struct ShortWriter {
    /// What was written.
    pub written: Vec<u8>,
    longest: usize,
    writes: Calls,
    flushes: Calls,
}

impl ShortWriter {
    /// Takes at most `longest` bytes a call. The write and the flush with the last two numbers will fail, from 1; 0 for
    /// none.
    pub fn new(
        alloc: Global,
        longest: usize,
        failing_write: u64,
        failing_flush: u64,
    ) -> ShortWriter {
        ShortWriter {
            written: Vec::new(alloc),
            longest,
            writes: Calls::failing_at(failing_write),
            flushes: Calls::failing_at(failing_flush),
        }
    }
}

impl Write for ShortWriter {
    fn write(&mut self, buf: &[u8]) -> io::Result<usize> {
        if !self.writes.make() {
            return Err(ErrorKind::Other.into());
        }
        let count = buf.len().min(self.longest);
        self.written.extend_from_slice(&buf[..count])?;
        Ok(count)
    }

    fn flush(&mut self) -> io::Result<()> {
        if !self.flushes.make() {
            return Err(ErrorKind::Other.into());
        }
        Ok(())
    }
}
