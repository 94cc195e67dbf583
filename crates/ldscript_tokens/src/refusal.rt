//! Why a text has no tokens.

use growth::NoMemory;

/// Why `tokens` refuses a text.
#[derive(Clone, Copy, Debug, PartialEq, Eq)]
pub enum TokenRefusal {
    /// 1: somewhere no token begins, or a comment or a text in quotes does not end.
    NotAToken,
    /// 5: more than 2^20 bytes, or tokens past a limit.
    Limit,
    /// 6: out of memory.
    NoMemory(NoMemory),
}

impl TokenRefusal {
    ghost use Rattle.std.specs.Prelude.{◌≡◌};
    ghost use Rattle.ldscript_tokens.specs.CodeTokens.{token_refusal_number};

    /// The number under which the refusal is reported: 1, 5 or 6.
    pub fn number(self) -> u8
        ensures { result ≡ token_refusal_number self }
    {
        match self {
            TokenRefusal::NotAToken => 1,
            TokenRefusal::Limit => 5,
            TokenRefusal::NoMemory(_) => 6,
        }
    }
}
