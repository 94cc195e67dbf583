//! The scope of an expression.

ghost use Rattle.std.specs.Prelude.{◌≡◌, ℕ, List};
ghost use Rattle.std.specs.Option.{option_map};
ghost use Rattle.ldmodel.specs.Value as definition;
ghost use Rattle.place_terms.specs.Scopes.{section_numbers, region_numbers};

use ldmodel::placed::{Placed, PlacedRegion};

/// The scope of an expression: symbols, output sections and memory regions, each by its name. A look-up returns `None`
/// for a name that is not in scope.
pub trait Scope {
    /// When names can be looked up: what the tables of an implementation must agree on.
    ghost can_look_up: { Self → Type 0 };

    /// The meanings of the names.
    ghost meaning: { Self → definition.Scope };

    /// The value of a symbol.
    fn symbol(&self, name: &[u8]) -> Option<u64>
        requires { can_look_up self.now }
        ensures { result ≡ (meaning self.now).symbol name.now };

    /// An output section in its place.
    fn section(&self, name: &[u8]) -> Option<Placed>
        requires { can_look_up self.now }
        ensures { option_map section_numbers result ≡ (meaning self.now).section name.now };

    /// The numbers of a memory region.
    fn region(&self, name: &[u8]) -> Option<PlacedRegion>
        requires { can_look_up self.now }
        ensures { option_map region_numbers result ≡ (meaning self.now).region name.now };
}
