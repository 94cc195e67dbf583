//! Frames of the input: a line with a word and lengths, and then the bytes of these lengths.

/// What a frame asks for.
pub enum Frame<'a> {
    /// The tree of a script.
    Script(&'a [u8]),
    /// The numbers of a script's statements.
    Numbers(&'a [u8]),
    /// The tokens of a text.
    Tokens(&'a [u8]),
    /// Whether a pattern, the first, matches a name.
    Match(&'a [u8], &'a [u8]),
}

/// The front of the input.
pub enum Next<'a> {
    /// Nothing is left but white space.
    Finished,
    /// A frame, and what follows it.
    Found(Frame<'a>, &'a [u8]),
    /// Bytes that are no frame.
    Malformed,
}

/// A length in decimal.
fn length_of(digits: &[u8]) -> Option<usize> {
    std::str::from_utf8(digits).ok()?.parse::<usize>().ok()
}

/// The bytes before the first one that equals this, and those after it.
fn split_at_byte(bytes: &[u8], wanted: u8) -> Option<(&[u8], &[u8])> {
    let at = bytes.iter().position(|b| *b == wanted)?;
    let (before, rest) = bytes.split_at_checked(at)?;
    let (_, after) = rest.split_first()?;
    Some((before, after))
}

/// A text of this length, in decimal, at the front of the bytes, and the rest.
fn counted<'a>(digits: &[u8], bytes: &'a [u8]) -> Option<(&'a [u8], &'a [u8])> {
    bytes.split_at_checked(length_of(digits)?)
}

/// The frame that begins with this line, and the rest.
fn frame_of<'a>(line: &[u8], bytes: &'a [u8]) -> Option<(Frame<'a>, &'a [u8])> {
    let (word, lengths) = split_at_byte(line, b' ')?;
    if word == b"script".as_slice() {
        let (text, rest) = counted(lengths, bytes)?;
        return Some((Frame::Script(text), rest));
    }
    if word == b"numbers".as_slice() {
        let (text, rest) = counted(lengths, bytes)?;
        return Some((Frame::Numbers(text), rest));
    }
    if word == b"tokens".as_slice() {
        let (text, rest) = counted(lengths, bytes)?;
        return Some((Frame::Tokens(text), rest));
    }
    if word == b"match".as_slice() {
        let (first, second) = split_at_byte(lengths, b' ')?;
        let (pattern, rest) = counted(first, bytes)?;
        let (name, rest) = counted(second, rest)?;
        return Some((Frame::Match(pattern, name), rest));
    }
    None
}

/// The front of the input.
pub fn next_frame(input: &[u8]) -> Next<'_> {
    let rest = input.trim_ascii_start();
    if rest.is_empty() {
        return Next::Finished;
    }
    let Some((line, bytes)) = split_at_byte(rest, b'\n') else {
        return Next::Malformed;
    };
    match frame_of(line, bytes) {
        Some((frame, rest)) => Next::Found(frame, rest),
        None => Next::Malformed,
    }
}
