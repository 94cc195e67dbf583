//! Which symbols declare their names.

ghost use Rattle.std.specs.Prelude.{◌≡◌, not};
ghost use Rattle.ldmodel.specs.Names.{is_local};

use elfobj::symbol::Binding;

/// Whether a symbol declares its name to other objects: a local one does not (gABI, "Symbol Table", `STB_LOCAL`).
pub fn declares(binding: Binding) -> bool
    ensures { result ≡ not (is_local binding) }
{
    match binding {
        Binding::Local => false,
        Binding::Global | Binding::Weak => true,
    }
}
