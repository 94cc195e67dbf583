//! Fills of output sections.

ghost use Rattle.std.specs.Prelude.{◌≡◌, ◌<◌, ◌≤◌, IfOk, IsTrue, length};
ghost use Rattle.std.specs.Bool.{OnTrue};
ghost use Rattle.ldscript_tokens.specs.Bytes.{is_hex_digit};
ghost use Rattle.ldscript_tokens.specs.Numbers.{digit_value};
ghost use Rattle.ldscript_statements.specs.Fill.{fill_of, has_fill_length, hex_bytes, hex_pair};

use growth::{NoMemory, vec};
use ldscript_tokens::bytes::{byte_at, is_hex_digit};
use std::alloc::Global;
use std::marker::Model;

/// The 1 to 8 bytes that gaps of an output section are filled with, repeated.
#[derive(Drop)]
pub struct Fill {
    bytes: Vec<u8>,
}

impl Model for Fill {
    ghost use Rattle.std.specs.Prelude.{ℕ, List, ◌<◌, ◌≤◌, length};

    ghost Value = { List ℕ };

    ghost view = { λ fill. fill.bytes.items };

    ghost invariant = { λ fill. (0 < length fill.bytes.items) × (length fill.bytes.items ≤ 8) };
}

/// The value of a hex digit.
fn digit_value(digit: u8) -> u8
    requires { IsTrue (is_hex_digit digit) }
    ensures value { result ≡ digit_value digit }
    ensures below { result < 16 }
{
    match digit {
        b'0'..=b'9' => digit - b'0',
        ..=b'F' => digit - (b'A' - 10),
        _ => digit - (b'a' - 10),
    }
}

/// The byte that two hex digits spell, or `None` if one of them is no digit.
fn hex_pair(high: u8, low: u8) -> Option<u8>
    ensures { result ≡ hex_pair high low }
{
    if is_hex_digit(high) && is_hex_digit(low) {
        Some(16 * digit_value(high) + digit_value(low))
    } else {
        None
    }
}

/// The bytes that `count` pairs of hex digits spell, from left to right, or `None` if one of them is no digit.
fn hex_bytes(alloc: Global, digits: &[u8], count: usize) -> Result<Option<Fill>, NoMemory>
    requires some { 0 < count }
    requires few { count ≤ 8 }
    ensures { IfOk result (λ r. r ≡ hex_bytes digits.now count) }
{
    let mut bytes = Vec::new(alloc);
    for i in 0..count {
        match hex_pair(byte_at(digits, 2 * i), byte_at(digits, 2 * i + 1)) {
            Some(byte) => vec::push(&mut bytes, byte)?,
            None => return Ok(None),
        }
    }
    Ok(Some(Fill::new(bytes)))
}

/// Whether a fill may have this many digits: an even number from 2 to 16.
fn has_fill_length(digits: &[u8]) -> bool
    ensures value { result ≡ has_fill_length digits.now }
    ensures bounds { OnTrue result ((2 ≤ length digits.now) × (length digits.now ≤ 16)) }
{
    matches!(digits.len(), 2 | 4 | 6 | 8 | 10 | 12 | 14 | 16)
}

impl Fill {
    /// Reads a fill from the spelling of a number: two hex digits for each byte, from left to right. `None` if the
    /// number spells none: that is `0x`, an even number of 2 to 16 hex digits, and no suffix.
    #[tactic(auto, unfolding(crate::specs::Fill::fill_of))]
    pub fn read(alloc: Global, spelled: &[u8]) -> Result<Option<Fill>, NoMemory>
        ensures { IfOk result (λ found. found ≡ fill_of spelled.now) }
    {
        if byte_at(spelled, 0) != b'0' || byte_at(spelled, 1) != b'x' {
            return Ok(None);
        }
        let digits = &spelled[2..];
        if !has_fill_length(digits) {
            return Ok(None);
        }
        hex_bytes(alloc, digits, digits.len() / 2)
    }

    /// The fill of these bytes.
    pub fn new(bytes: Vec<u8>) -> Fill
        requires some { 0 < length bytes.items }
        requires few { length bytes.items ≤ 8 }
        ensures { result ≡ bytes.items }
    {
        Fill { bytes }
    }

    /// The bytes, from left to right.
    pub fn as_bytes(&self) -> &[u8]
        ensures value { result.now ≡ self.now }
        ensures some { 0 < length self.now }
        ensures few { length self.now ≤ 8 }
    {
        &self.bytes
    }
}
