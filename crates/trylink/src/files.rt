//! Links of files: what `ldi link` makes of a script and of objects that have been read.

use crate::answer::Answer;
use crate::printing::{AS_LINES, print_bytes, split_line};
use crate::task::Task;
use relink::driver::exit_report::{exit_status, message};
use relink::driver::file::ObjectFile;
use relink::driver::from_files::link;
use std::alloc::{AllocError, Global};
use std::str;

/// The first file of these bytes, with its word and contents, and the bytes after it; `None` if they begin with none. A
/// file is a line of its word, which may have spaces, a space and its length, and then the contents.
pub fn split_file(bytes: &[u8]) -> Option<(&str, &[u8], &[u8])> {
    let (line, rest) = split_line(bytes)?;
    let (word, length) = str::from_utf8(line).ok()?.rsplit_once(' ')?;
    let (content, rest) = rest.split_at_checked(length.parse().ok()?)?;
    Some((word, content, rest))
}

/// The files that a link reads, but for its script.
#[derive(Drop)]
struct Objects {
    /// Their words.
    words: Vec<String>,
    /// Their contents.
    files: Vec<ObjectFile>,
}

/// All files of these bytes, each of which is shown by its line.
fn read_objects(alloc: Global, bytes: &[u8], out: &mut String) -> Result<Objects, AllocError> {
    let mut words = Vec::new(alloc);
    let mut files = Vec::new(alloc);
    let mut rest = bytes;
    // a file takes a byte at least
    for _ in 0..bytes.len() {
        let Some((word, content, others)) = split_file(rest) else {
            break;
        };
        rest = others;
        writeln!(out, "> {word} {}", content.len())?;
        words.push(String::from_str(alloc, word)?)?;
        files.push(ObjectFile {
            word: Vec::from_slice(alloc, word.as_bytes())?,
            bytes: Vec::from_slice(alloc, content)?,
        })?;
    }
    Ok(Objects { words, files })
}

/// Links the files of these bytes, the script first, and prints how the program ends, what it says on standard error,
/// and the image and the map that it writes.
pub fn print_link(task: Task<'_>, out: &mut String) -> Result<(), AllocError> {
    let alloc = task.alloc;
    let Some((word, script, rest)) = split_file(task.bytes) else {
        return out.push_str("no script\n");
    };
    writeln!(out, "> {word} {}", script.len())?;
    let Objects { words, files } = read_objects(alloc, rest, out)?;
    let script = Vec::from_slice(alloc, script)?;
    let outcome = link(alloc, task.seed, script, files, task.own_options()?);
    writeln!(out, "status {}", exit_status(&outcome))?;
    print_bytes(out, &message(alloc, &words, &outcome)?, AS_LINES)?;
    if let Ok(output) = &outcome {
        Answer::Image(output.image()).print(alloc, out)?;
        Answer::Text(output.map()).print(alloc, out)?;
    }
    Ok(())
}
