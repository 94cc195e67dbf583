//! Laws of streams of commands.

ghost use Rattle.std.specs.Prelude.{◌≡◌, ◌++◌, ℕ, List, flat_map};
ghost use Rattle.ldmodel.specs.Commands.{AreCommands, BeginsCommand, Command, HasNo, IsCommand, line, spelling};

/// The line of a command has no line feed.
pub fn lines_without_feed()
    ensures { (command : Command) → IsCommand command → HasNo 10 (line command) }
{}

/// No command's spelling is a prefix of another's: if a text begins with two commands, they are the same, and so is the
/// rest.
pub fn one_first_command()
    ensures { (command other : Command) (x y : List ℕ) → IsCommand command → IsCommand other
        → spelling command ++ x ≡ spelling other ++ y → (command ≡ other) × (x ≡ y) }
{}

/// No stream is split into commands in two ways: if no command begins the rest, the commands and the rest are unique.
pub fn one_cutting()
    ensures { (ones others : List Command) (tail rest : List ℕ) → AreCommands ones → AreCommands others
        → (BeginsCommand tail → ⊥) → (BeginsCommand rest → ⊥)
        → flat_map spelling ones ++ tail ≡ flat_map spelling others ++ rest → (ones ≡ others) × (tail ≡ rest) }
{}
