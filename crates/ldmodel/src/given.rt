//! Whether a directive assigns or provides.

ghost use Rattle.std.specs.Prelude.{◌≡◌};
ghost use Rattle.ldmodel.specs.ScriptNames.{is_assignment, is_provision};

use ldscript::tree::Given;

/// Whether this is an assignment, and no PROVIDE.
pub fn is_assigned(given: Option<Given>) -> bool
    ensures { result ≡ is_assignment given }
{
    match given {
        Some(Given::Assigned(_)) => true,
        Some(Given::Provided(_)) | None => false,
    }
}

/// Whether this is a PROVIDE.
pub fn is_provided(given: Option<Given>) -> bool
    ensures { result ≡ is_provision given }
{
    match given {
        Some(Given::Provided(_)) => true,
        Some(Given::Assigned(_)) | None => false,
    }
}
