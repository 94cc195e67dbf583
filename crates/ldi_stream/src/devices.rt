//! The readers of streams and the writers of answers, which count failed calls.

ghost use Rattle.std.specs.Prelude.{◌≡◌, ◌≤◌, ◌<◌, ℕ, List, [], Option, length, IfOk, OnOk};
ghost use Rattle.std.specs.Io.KnownBytes.{ReadConsumes, WriteAppends, Keeps};
ghost use Rattle.std.specs.Io.Buffered.{reader_remaining, writer_buffer, writer_inner};
ghost use Rattle.ldi_stream.specs.Stepped.{CountsFailure, ReaderState, WriterState, written_in};

use crate::fault::{ReadFault, WriteFault};
use growth::{NoMemory, buffered};
use std::alloc::Global;
use std::io::{BufReader, BufWriter, Read, Write};
use std::marker::Model;

/// A reader that counts its failed calls.
pub trait Source {
    /// What is left to read, if the reader shows it.
    ghost rest: { Self → Option (List ℕ) };

    /// The number of failed calls.
    ghost failed: { Self → ℕ };

    /// Reads bytes into the front of `buf`, and returns their number: 0 only at the end or if `buf` is empty.
    ///
    /// # Errors
    ///
    /// If the device failed. Nothing was read then.
    fn read(&mut self, buf: &mut [u8]) -> Result<usize, ReadFault>
        ensures count { IfOk result (λ n. n ≤ length buf.old) }
        ensures bytes { ReadConsumes (rest self.old) (rest self.new) result buf.new }
        ensures counted { CountsFailure (failed self.old) (failed self.new) result };

    /// The number of failed calls, at most 2^64 - 1.
    fn failures(&self) -> u64
        ensures { result ≡ failed self.now };
}

/// A writer that counts its failed calls.
pub trait Sink {
    /// What was written so far, if the writer shows it.
    ghost written: { Self → Option (List ℕ) };

    /// The last part of what was written, which is buffered until a flush.
    ghost held: { Self → List ℕ };

    /// The number of failed calls.
    ghost failed: { Self → ℕ };

    /// Writes a prefix of `bytes`, and returns its length: 0 only if `bytes` is empty.
    ///
    /// # Errors
    ///
    /// If the device failed, or took none of some bytes. Nothing was written then.
    fn write(&mut self, bytes: &[u8]) -> Result<usize, WriteFault>
        ensures count { IfOk result (λ n. n ≤ length bytes.now) }
        ensures some { IfOk result (λ n. 0 < length bytes.now → 0 < n) }
        ensures bytes { WriteAppends (written self.old) (written self.new) result bytes.now }
        ensures counted { CountsFailure (failed self.old) (failed self.new) result };

    /// Passes on what is buffered.
    ///
    /// # Errors
    ///
    /// If the device failed.
    fn flush(&mut self) -> Result<(), WriteFault>
        ensures bytes { Keeps (written self.old) (written self.new) }
        ensures flushed { OnOk result (held self.new ≡ []) }
        ensures counted { CountsFailure (failed self.old) (failed self.new) result };

    /// The number of failed calls, at most 2^64 - 1.
    fn failures(&self) -> u64
        ensures { result ≡ failed self.now };
}

/// A reader of std as a source, with a buffer, since commands are read byte by byte.
#[derive(Drop)]
pub struct CommandReader<R: Read + Drop> {
    reader: BufReader<R>,
    failures: u64,
}

impl<R: Read + Drop> Model for CommandReader<R> {
    ghost Value = { ReaderState };

    ghost view = { λ s. record { rest = reader_remaining R.remaining s.reader; failed = s.failures } };
}

impl<R: Read + Drop> CommandReader<R> {
    /// A source that has not failed yet.
    ///
    /// # Errors
    ///
    /// If there is no memory for the buffer.
    #[tactic(auto, using(crate::proofs::KnownBuffers::rest_of_new))]
    pub fn new(alloc: Global, reader: R) -> Result<CommandReader<R>, NoMemory>
        ensures { IfOk result (λ input. input ≡ record { rest = R.remaining reader; failed = 0 }) }
    {
        match buffered::reader(alloc, reader) {
            Ok(reader) => Ok(CommandReader {
                reader,
                failures: 0,
            }),
            Err(no_memory) => Err(no_memory),
        }
    }
}

impl<R: Read + Drop> Source for CommandReader<R> {
    ghost rest = { λ s. s.rest };

    ghost failed = { λ s. s.failed };

    fn read(&mut self, buf: &mut [u8]) -> Result<usize, ReadFault> {
        match self.reader.read(buf) {
            Ok(n) => Ok(n),
            Err(_) => {
                self.failures = self.failures.saturating_add(1);
                Err(ReadFault)
            }
        }
    }

    fn failures(&self) -> u64 {
        self.failures
    }
}

/// A writer of std as a sink, with a buffer: an answer is written in parts and then flushed.
#[derive(Drop)]
pub struct AnswerWriter<W: Write + Drop> {
    writer: BufWriter<W>,
    failures: u64,
}

impl<W: Write + Drop> Model for AnswerWriter<W> {
    ghost Value = { WriterState };

    ghost view = { λ s. record {
      sent = W.contents (writer_inner s.writer);
      held = writer_buffer s.writer;
      failed = s.failures;
    } };
}

impl<W: Write + Drop> AnswerWriter<W> {
    /// A sink that has not failed yet, with an empty buffer.
    ///
    /// # Errors
    ///
    /// If there is no memory for the buffer.
    pub fn new(alloc: Global, writer: W) -> Result<AnswerWriter<W>, NoMemory>
        ensures { IfOk result (λ output. output ≡ record { sent = W.contents writer; held = []; failed = 0 }) }
    {
        match buffered::writer(alloc, writer) {
            Ok(writer) => Ok(AnswerWriter {
                writer,
                failures: 0,
            }),
            Err(no_memory) => Err(no_memory),
        }
    }

    /// The writer. What is buffered is dropped: after a failed call nothing more is written.
    pub fn into_writer(self) -> W
        ensures { W.contents result ≡ self.sent }
    {
        let AnswerWriter {
            writer,
            failures: _,
        } = self;
        let (inner, _held) = writer.into_parts();
        inner
    }
}

impl<W: Write + Drop> Sink for AnswerWriter<W> {
    ghost written = { written_in };

    ghost held = { λ s. s.held };

    ghost failed = { λ s. s.failed };

    fn write(&mut self, bytes: &[u8]) -> Result<usize, WriteFault> {
        match self.writer.write(bytes) {
            Ok(n) => {
                if n == 0 && !bytes.is_empty() {
                    self.failures = self.failures.saturating_add(1);
                    Err(WriteFault)
                } else {
                    Ok(n)
                }
            }
            Err(_) => {
                self.failures = self.failures.saturating_add(1);
                Err(WriteFault)
            }
        }
    }

    fn flush(&mut self) -> Result<(), WriteFault> {
        match self.writer.flush() {
            Ok(_) => Ok(()),
            Err(_) => {
                self.failures = self.failures.saturating_add(1);
                Err(WriteFault)
            }
        }
    }

    fn failures(&self) -> u64 {
        self.failures
    }
}
