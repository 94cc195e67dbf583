//! Payloads of commands.

ghost use Rattle.std.specs.Prelude.{◌≡◌, ◌<◌, ◌≤◌, ◌-◌, ℕ, List, length, IfOk, OnErr};
ghost use Rattle.std.specs.Io.KnownBytes.{Consumes, IsAtEnd};
ghost use Rattle.ldi_stream.specs.Stepped.{CountsFailure, Filled, PayloadRead};

use crate::devices::Source;
use crate::fault::ReadFault;
use growth::{NoMemory, vec};
use std::alloc::Global;

/// The number of bytes that are skipped by one read.
const SKIP_STEP: usize = 512;

/// The result of reading a payload.
#[derive(Drop)]
pub enum Payload {
    /// All its bytes.
    Whole(Vec<u8>),
    /// There was no memory for it, and all its bytes were skipped.
    NoMemory(NoMemory),
    /// The stream ended within it.
    Short,
}

/// Fills the buffer from its front, to its end or to that of the stream, and returns the number of bytes.
fn fill<R: Source>(source: &mut R, buf: &mut [u8]) -> Result<usize, ReadFault>
    ensures filled { Filled (R.rest source.old) (R.rest source.new) buf.new result }
    ensures counted { CountsFailure (R.failed source.old) (R.failed source.new) result }
{
    let mut at = 0;
    while at < buf.len() {
        let n = source.read(&mut buf[at..])?;
        if n == 0 {
            break;
        }
        at += n;
    }
    Ok(at)
}

/// Skips at most `count` bytes, and returns their number.
fn skip<R: Source>(source: &mut R, count: usize) -> Result<usize, ReadFault>
    ensures ok { IfOk result (λ n. (bytes : List ℕ) × (length bytes ≡ n) × (n ≤ count)
        × Consumes (R.rest source.old) (R.rest source.new) bytes × (n < count → IsAtEnd (R.rest source.new))) }
    ensures err { OnErr result ((bytes : List ℕ) × (length bytes < count)
        × Consumes (R.rest source.old) (R.rest source.new) bytes) }
    ensures counted { CountsFailure (R.failed source.old) (R.failed source.new) result }
{
    let mut chunk = [0u8; SKIP_STEP];
    let mut at = 0;
    while at < count {
        let step = (count - at).min(SKIP_STEP);
        let n = fill(source, &mut chunk[..step])?;
        at += n;
        if n < step {
            break;
        }
    }
    Ok(at)
}

/// Reads a payload of `count` bytes, or skips it if there is no memory for it.
///
/// # Errors
///
/// If a read failed.
pub fn read_payload<R: Source>(
    alloc: Global,
    source: &mut R,
    count: usize,
) -> Result<Payload, ReadFault>
    ensures read { PayloadRead (R.rest source.old) (R.rest source.new) count result }
    ensures counted { CountsFailure (R.failed source.old) (R.failed source.new) result }
{
    match vec::from_elem(alloc, 0u8, count) {
        Ok(mut bytes) => {
            let n = fill(source, &mut bytes)?;
            Ok(if n < count {
                Payload::Short
            } else {
                Payload::Whole(bytes)
            })
        }
        Err(no_memory) => {
            let n = skip(source, count)?;
            Ok(if n < count {
                Payload::Short
            } else {
                Payload::NoMemory(no_memory)
            })
        }
    }
}
