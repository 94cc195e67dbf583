//! Names and words of a script, and reserved words.

ghost use Rattle.std.specs.Prelude.{◌≡◌, bytes_eq};
ghost use Rattle.std.specs.List.{list_any};
ghost use Rattle.ldscript_tokens.specs.Words.{is_reserved, is_free_name, is_free_word};

/// The reserved words.
const RESERVED: [&[u8]; 32] = [
    b"ENTRY",
    b"MEMORY",
    b"SECTIONS",
    b"PROVIDE",
    b"PROVIDE_HIDDEN",
    b"HIDDEN",
    b"KEEP",
    b"ASSERT",
    b"BYTE",
    b"SHORT",
    b"LONG",
    b"QUAD",
    b"SORT",
    b"SORT_BY_NAME",
    b"SORT_BY_ALIGNMENT",
    b"EXCLUDE_FILE",
    b"ORIGIN",
    b"LENGTH",
    b"ADDR",
    b"LOADADDR",
    b"SIZEOF",
    b"ALIGN",
    b"AT",
    b"DEFINED",
    b"MAX",
    b"MIN",
    b"CONSTANT",
    b"NOLOAD",
    b"SIZEOF_HEADERS",
    b"FILL",
    b"SQUAD",
    b"INPUT_SECTION_FLAGS",
];

/// Whether a word is one of these.
pub fn is_one_of(words: &[&[u8]], word: &[u8]) -> bool
    ensures { result ≡ list_any (λ listed. bytes_eq listed.now word.now) words.now }
{
    words.iter().any(|w| *w == word)
}

/// Whether a word is reserved.
#[tactic(auto, unfolding(crate::specs::Words::is_reserved))]
pub fn is_reserved(word: &[u8]) -> bool
    ensures { result ≡ is_reserved word.now }
{
    is_one_of(&RESERVED, word)
}

/// Whether this is a NAME of the grammar: not `.`, not reserved.
#[tactic(auto, unfolding(crate::specs::Words::is_free_name))]
pub fn is_free_name(name: &[u8]) -> bool
    ensures { result ≡ is_free_name name.now }
{
    name != b".".as_slice() && !is_reserved(name)
}

/// Whether this is a WORD of the grammar: not reserved.
#[tactic(auto, unfolding(crate::specs::Words::is_free_word))]
pub fn is_free_word(word: &[u8]) -> bool
    ensures { result ≡ is_free_word word.now }
{
    !is_reserved(word)
}
