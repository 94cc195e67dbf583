//! The word of a command line that names a file.

ghost use Rattle.std.specs.Prelude.{◌≡◌, ◌≤◌, ◌<◌, ◌↔◌, ◌∷◌, [], ℕ, List, Ok, None, length, map, string_bytes, IfOk};
ghost use Rattle.std.specs.Prelude.{IfSome, IfErr};
ghost use Rattle.ldi_files.specs.declared.argument_fault.ArgumentFault.TheVariants.{Words};

use crate::argument_fault::ArgumentFault;

/// The file that these words name; `None` if there is no word after the first, which is the program's name.
///
/// # Errors
///
/// `Words` if there are more than two.
pub fn file_word(args: &[String]) -> Result<Option<&String>, ArgumentFault>
    ensures none { result ≡ Ok None ↔ length args.now ≤ 1 }
    ensures named { IfOk result (λ file. IfSome file (λ name. (program : List ℕ)
        × (map string_bytes args.now ≡ program ∷ string_bytes name.now ∷ []))) }
    ensures refused { IfErr result (λ fault. (fault ≡ Words) × (2 < length args.now)) }
{
    match args {
        [] | [_] => Ok(None),
        [_, name] => Ok(Some(name)),
        _ => Err(ArgumentFault::Words),
    }
}
