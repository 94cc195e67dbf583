//! Relocations as callers see them (x86-64 psABI, "Relocation Types").

use crate::constants::{
    R_X86_64_8, R_X86_64_16, R_X86_64_32, R_X86_64_32S, R_X86_64_64, R_X86_64_NONE, R_X86_64_PC8,
    R_X86_64_PC16, R_X86_64_PC32, R_X86_64_PC64, R_X86_64_PLT32,
};

/// The index of a symbol in its table.
#[derive(Clone, Copy, Debug, PartialEq, Eq)]
pub struct SymbolIndex(pub u32);

/// The type of a relocation, by the psABI's name without `R_X86_64_`.
#[derive(Clone, Copy, Debug, PartialEq, Eq)]
pub enum RelocationKind {
    /// `R_X86_64_NONE`: nothing.
    None,
    /// `R_X86_64_64`: S + A in 8 bytes.
    Abs64,
    /// `R_X86_64_PC32`: S + A - P in 4 bytes.
    Pc32,
    /// `R_X86_64_PLT32`: in a static link the same as `PC32`.
    Plt32,
    /// `R_X86_64_32`: S + A in 4 bytes, zero-extended.
    Abs32,
    /// `R_X86_64_32S`: S + A in 4 bytes, sign-extended.
    Abs32Signed,
    /// `R_X86_64_16`: S + A in 2 bytes.
    Abs16,
    /// `R_X86_64_PC16`: S + A - P in 2 bytes.
    Pc16,
    /// `R_X86_64_8`: S + A in 1 byte.
    Abs8,
    /// `R_X86_64_PC8`: S + A - P in 1 byte.
    Pc8,
    /// `R_X86_64_PC64`: S + A - P in 8 bytes.
    Pc64,
}

impl RelocationKind {
    ghost use Rattle.std.specs.Prelude.{◌≡◌, ℕ, Some};
    ghost use Rattle.elfobj_file.specs.RelocationKinds.{relocation_kind, width};

    /// The kind of this `ELF64_R_TYPE`, if it is one of the profile.
    #[tactic(auto, unfolding(crate::specs::RelocationKinds::relocation_kind))]
    pub fn of_type(r_type: u32) -> Option<RelocationKind>
        ensures { result ≡ relocation_kind r_type }
    {
        match r_type {
            R_X86_64_NONE => Some(RelocationKind::None),
            R_X86_64_64 => Some(RelocationKind::Abs64),
            R_X86_64_PC32 => Some(RelocationKind::Pc32),
            R_X86_64_PLT32 => Some(RelocationKind::Plt32),
            R_X86_64_32 => Some(RelocationKind::Abs32),
            R_X86_64_32S => Some(RelocationKind::Abs32Signed),
            R_X86_64_16 => Some(RelocationKind::Abs16),
            R_X86_64_PC16 => Some(RelocationKind::Pc16),
            R_X86_64_8 => Some(RelocationKind::Abs8),
            R_X86_64_PC8 => Some(RelocationKind::Pc8),
            R_X86_64_PC64 => Some(RelocationKind::Pc64),
            _ => None,
        }
    }

    /// The `ELF64_R_TYPE` of the kind: the only number that `of_type` reads as it.
    #[tactic(auto, unfolding(crate::specs::RelocationKinds::relocation_kind))]
    pub fn number(self) -> u32
        ensures read { relocation_kind result ≡ Some self }
        ensures only { (number : ℕ) → relocation_kind number ≡ Some self → number ≡ result }
    {
        match self {
            RelocationKind::None => R_X86_64_NONE,
            RelocationKind::Abs64 => R_X86_64_64,
            RelocationKind::Pc32 => R_X86_64_PC32,
            RelocationKind::Plt32 => R_X86_64_PLT32,
            RelocationKind::Abs32 => R_X86_64_32,
            RelocationKind::Abs32Signed => R_X86_64_32S,
            RelocationKind::Abs16 => R_X86_64_16,
            RelocationKind::Pc16 => R_X86_64_PC16,
            RelocationKind::Abs8 => R_X86_64_8,
            RelocationKind::Pc8 => R_X86_64_PC8,
            RelocationKind::Pc64 => R_X86_64_PC64,
        }
    }

    /// The width of its field in bytes: 8, 4, 2, 1, or 0 for `None`.
    pub fn width(self) -> u64
        ensures { result ≡ width self }
    {
        match self {
            RelocationKind::None => 0,
            RelocationKind::Abs64 | RelocationKind::Pc64 => 8,
            RelocationKind::Pc32
            | RelocationKind::Plt32
            | RelocationKind::Abs32
            | RelocationKind::Abs32Signed => 4,
            RelocationKind::Abs16 | RelocationKind::Pc16 => 2,
            RelocationKind::Abs8 | RelocationKind::Pc8 => 1,
        }
    }
}

/// An entry of a RELA section.
#[derive(Clone, Copy, Debug, PartialEq, Eq)]
pub struct Relocation {
    /// `r_offset`: where its field begins in its section.
    pub offset: u64,
    /// The index of its symbol.
    pub symbol: SymbolIndex,
    /// Its type.
    pub kind: RelocationKind,
    /// `r_addend`: the constant A.
    pub addend: i64,
}
