//! Kinds of bytes in a script, in ASCII.

ghost use Rattle.std.specs.Prelude.{◌≡◌, ◌<◌, length, slice_index};
ghost use Rattle.ldscript_tokens.specs.Bytes.{is_letter, is_decimal_digit, is_octal_digit, is_hex_digit, is_space};
ghost use Rattle.ldscript_tokens.specs.Bytes.{is_name_start, is_name_byte, is_word_byte, is_escapable, is_text_byte};

/// Whether a byte is one of `A-Z a-z`.
pub fn is_letter(b: u8) -> bool
    ensures { result ≡ is_letter b }
{
    matches!(b, b'A'..=b'Z' | b'a'..=b'z')
}

/// Whether a byte is one of `0-9`.
pub fn is_decimal_digit(b: u8) -> bool
    ensures { result ≡ is_decimal_digit b }
{
    matches!(b, b'0'..=b'9')
}

/// Whether a byte is one of `0-7`.
pub fn is_octal_digit(b: u8) -> bool
    ensures { result ≡ is_octal_digit b }
{
    matches!(b, b'0'..=b'7')
}

/// Whether a byte is one of `0-9 A-F a-f`.
pub fn is_hex_digit(b: u8) -> bool
    ensures { result ≡ is_hex_digit b }
{
    matches!(b, b'0'..=b'9' | b'A'..=b'F' | b'a'..=b'f')
}

/// Whether a byte is space, tab, line feed or carriage return.
pub fn is_space(b: u8) -> bool
    ensures { result ≡ is_space b }
{
    matches!(b, b' ' | b'\t' | b'\n' | b'\r')
}

/// Whether a name may begin with a byte: `A-Z a-z _ .`
pub fn is_name_start(b: u8) -> bool
    ensures { result ≡ is_name_start b }
{
    is_letter(b) || matches!(b, b'_' | b'.')
}

/// Whether a byte may occur in a name: `A-Z a-z 0-9 _ . $ -`
pub fn is_name_byte(b: u8) -> bool
    ensures { result ≡ is_name_byte b }
{
    is_name_start(b) || is_decimal_digit(b) || matches!(b, b'$' | b'-')
}

/// Whether a byte may occur in a word without a `\`: a byte of a name, or one of `/ * ? [ ]`
pub fn is_word_byte(b: u8) -> bool
    ensures { result ≡ is_word_byte b }
{
    is_name_byte(b) || matches!(b, b'/' | b'*' | b'?' | b'[' | b']')
}

/// Whether a byte is one of `!` to `~`.
pub fn is_graphic(b: u8) -> bool
    ensures { result ≡ is_escapable b }
{
    matches!(b, b'!'..=b'~')
}

/// Whether a byte may occur between double quotes: space to `~`, but no quote.
pub fn is_text_byte(b: u8) -> bool
    ensures { result ≡ is_text_byte b }
{
    matches!(b, b' '..=b'~') && b != b'"'
}

/// The byte at an index, or 0 past the end.
pub fn byte_at(text: &[u8], index: usize) -> u8
    ensures value { result ≡ slice_index text.now index }
    ensures within { 0 < result → index < length text.now }
{
    text.get(index).copied().unwrap_or(0)
}
