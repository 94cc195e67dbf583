//! Sets of bytes, as spelled between `[` and `]`.

ghost use Rattle.std.specs.Prelude.{◌≡◌, ◌∷◌, [], ◌<◌, MatchOption, length};
ghost use Rattle.ldscript_terms.specs.Parts.{ranges_of, is_in, is_in_any};

/// The bytes from one to another, with both ends; none if `to` is below `from`.
#[derive(Clone, Copy, Debug, PartialEq, Eq)]
pub struct ByteRange {
    /// The least byte.
    pub from: u8,
    /// The greatest byte.
    pub to: u8,
}

impl ByteRange {
    /// Whether the byte is one of them.
    fn has(self, byte: u8) -> bool
        ensures { result ≡ is_in byte self }
    {
        self.from <= byte && byte <= self.to
    }
}

/// The first range of a set, and the bytes after it.
fn first_range(body: &[u8]) -> Option<(ByteRange, &[u8])>
    ensures value { MatchOption result (body.now ≡ []) (λ x. ranges_of body.now ≡ x.0 ∷ ranges_of x.1.now) }
    ensures shorter { MatchOption result (body.now ≡ []) (λ x. length x.1.now < length body.now) }
{
    match body {
        [] => None,
        [from, b'-', to, rest @ ..] => Some((
            ByteRange {
                from: *from,
                to: *to,
            },
            rest,
        )),
        [byte, rest @ ..] => Some((
            ByteRange {
                from: *byte,
                to: *byte,
            },
            rest,
        )),
    }
}

/// Whether the byte is in the set that is spelled between brackets.
pub fn set_has(body: &[u8], byte: u8) -> bool
    ensures { result ≡ is_in_any byte (ranges_of body.now) }
{
    let mut rest = body;
    while let Some((range, more)) = first_range(rest) {
        if range.has(byte) {
            return true;
        }
        rest = more;
    }
    false
}
