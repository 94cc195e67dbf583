//! Lines of commands, read byte by byte, so that no byte after a command is read.

ghost use Rattle.std.specs.Prelude.{◌≡◌, length};
ghost use Rattle.ldi_stream.specs.Stepped.{CountsFailure, ByteRead, LineRead};

use crate::devices::Source;
use crate::fault::ReadFault;

/// The greatest length of a command's line in bytes, without its line feed.
pub const MAX_LINE: usize = 512;

/// How the reading of a line ends.
#[derive(Clone, Copy, Debug, PartialEq, Eq)]
pub enum LineEnd {
    /// At its line feed, after this many bytes.
    Line(usize),
    /// At the end of the stream, before a byte was read.
    Ended,
    /// Within the line: the stream ends, or the line is too long.
    Broken,
}

/// Reads one byte, or finds the end.
fn read_byte<R: Source>(source: &mut R) -> Result<Option<u8>, ReadFault>
    ensures read { ByteRead (R.rest source.old) (R.rest source.new) result }
    ensures counted { CountsFailure (R.failed source.old) (R.failed source.new) result }
{
    let mut byte = [0u8];
    let n = source.read(&mut byte)?;
    if n == 0 { Ok(None) } else { Ok(Some(byte[0])) }
}

/// Reads a line of at most `MAX_LINE` bytes into the front of `line`.
///
/// # Errors
///
/// If a read failed.
pub fn read_line<R: Source>(source: &mut R, line: &mut [u8]) -> Result<LineEnd, ReadFault>
    requires { length line.old ≡ 512 }
    ensures read { LineRead (R.rest source.old) (R.rest source.new) line.new result }
    ensures counted { CountsFailure (R.failed source.old) (R.failed source.new) result }
{
    for at in 0..MAX_LINE + 1 {
        let Some(byte) = read_byte(source)? else {
            return Ok(if at == 0 {
                LineEnd::Ended
            } else {
                LineEnd::Broken
            });
        };
        if byte == b'\n' {
            return Ok(LineEnd::Line(at));
        }
        if at == MAX_LINE {
            break;
        }
        line[at] = byte;
    }
    Ok(LineEnd::Broken)
}
