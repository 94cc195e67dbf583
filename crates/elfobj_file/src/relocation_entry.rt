//! Entries of a relocation section as they are in the file (gABI, `Elf64_Rela`: 24 bytes each).

ghost use Rattle.std.specs.Prelude.{◌≡◌, ◌≤◌, ◌+◌, IfSome, false, length};
ghost use Rattle.elfobj_file.specs.RelocationEntries.{relocation_entry_at};

use crate::numbers::{read_i64, read_u64};
use crate::relocation::{Relocation, RelocationKind, SymbolIndex};

/// An entry.
#[derive(Clone, Copy)]
pub struct RelocationEntry {
    /// `r_offset`: where its field begins in the section that it changes.
    pub r_offset: u64,
    /// `r_info`: the symbol and the type.
    pub r_info: u64,
    /// `r_addend`: the addend.
    pub r_addend: i64,
}

impl RelocationEntry {
    ghost use Rattle.elfobj_file.specs.RelocationEntries.{r_sym, r_type};
    ghost use Rattle.elfobj_file.specs.Relocations.{relocation_of};
    ghost use Rattle.elfobj_file.specs.Tables.{names_no_symbol, is_strange_type};

    /// `ELF64_R_SYM` of `r_info`.
    fn symbol(&self) -> u32
        ensures { result ≡ r_sym self.now }
    {
        (self.r_info >> 32) as u32
    }

    /// `ELF64_R_TYPE` of `r_info`.
    fn type_number(&self) -> u32
        ensures { result ≡ r_type self.now }
    {
        (self.r_info & 0xffff_ffff) as u32
    }

    /// Whether the entry's symbol is not one of an object with this many symbols.
    pub fn names_no_symbol(&self, symbols: usize) -> bool
        ensures { result ≡ names_no_symbol symbols self.now }
    {
        symbols <= self.symbol() as usize
    }

    /// Whether the type of the relocation is outside the profile.
    pub fn is_strange_type(&self) -> bool
        ensures { result ≡ is_strange_type self.now }
    {
        RelocationKind::of_type(self.type_number()).is_none()
    }

    /// The relocation as callers see it, if its type is of the profile and its symbol one of an object with this many
    /// symbols.
    #[tactic(auto, unfolding(crate::specs::Relocations::relocation_of))]
    pub fn relocation_among(&self, symbols: usize) -> Option<Relocation>
        ensures value { IfSome result (λ relocation. relocation ≡ relocation_of self.now) }
        ensures symbol { IfSome result (λ relocation. names_no_symbol symbols self.now ≡ false) }
        ensures kind { IfSome result (λ relocation. is_strange_type self.now ≡ false) }
    {
        if self.names_no_symbol(symbols) {
            return None;
        }
        let kind = RelocationKind::of_type(self.type_number())?;
        let addend = self.r_addend;
        Some(Relocation {
            offset: self.r_offset,
            symbol: SymbolIndex(self.symbol()),
            kind,
            addend,
        })
    }

    /// The relocation as callers see it; its kind is `None` if its type is outside the profile.
    #[tactic(auto, unfolding(crate::specs::Relocations::relocation_of))]
    pub fn relocation(&self) -> Relocation
        ensures { result ≡ relocation_of self.now }
    {
        Relocation {
            offset: self.r_offset,
            symbol: SymbolIndex(self.symbol()),
            kind: RelocationKind::of_type(self.type_number()).unwrap_or(RelocationKind::None),
            addend: self.r_addend,
        }
    }
}

/// The entry in the 24 bytes from `at` on.
pub fn read_relocation_entry(bytes: &[u8], at: usize) -> RelocationEntry
    requires { at + 24 ≤ length bytes.now }
    ensures { result ≡ relocation_entry_at bytes.now at }
{
    RelocationEntry {
        r_offset: read_u64(bytes, at),
        r_info: read_u64(bytes, at + 8),
        r_addend: read_i64(bytes, at + 16),
    }
}
