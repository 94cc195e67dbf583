//! Kinds of bytes in a pattern's word, in ASCII.

ghost use Rattle.std.specs.Prelude.{◌≡◌, ◌<◌, length, slice_index};
ghost use Rattle.ldscript_terms.specs.Spelling.{is_plain, is_set_byte};
ghost use Rattle.ldscript_tokens.specs.Bytes.{is_escapable};

/// Whether a byte spells itself: `A-Z a-z 0-9 _ . $ / -`
pub fn is_plain(b: u8) -> bool
    ensures { result ≡ is_plain b }
{
    matches!(b, b'A'..=b'Z' | b'a'..=b'z' | b'0'..=b'9' | b'_' | b'.' | b'$' | b'/' | b'-')
}

/// Whether a byte may occur in a set: a byte that spells itself, `*` or `?`
pub fn is_set_byte(b: u8) -> bool
    ensures { result ≡ is_set_byte b }
{
    is_plain(b) || matches!(b, b'*' | b'?')
}

/// Whether a byte may follow a `\`: one of `!` to `~`
pub fn is_graphic(b: u8) -> bool
    ensures { result ≡ is_escapable b }
{
    matches!(b, b'!'..=b'~')
}

/// The byte at an index, or 0 past the end.
pub fn byte_at(bytes: &[u8], index: usize) -> u8
    ensures value { result ≡ slice_index bytes.now index }
    ensures within { 0 < result → index < length bytes.now }
{
    bytes.get(index).copied().unwrap_or(0)
}
