//! A script before its SECTIONS, in it and after it.

ghost use Rattle.std.specs.Prelude.{◌≡◌};
ghost use Rattle.place_sections.specs.Parts.{after_sections, before_sections, items_within};

use ldscript::tree::{Command, Item, Statement};

/// A script before its SECTIONS, in it and after it.
#[derive(Clone, Copy)]
pub(crate) struct ScriptParts<'a> {
    /// The statements before SECTIONS: all, if there is none.
    pub before: &'a [Statement],
    /// The statements of SECTIONS.
    pub items: &'a [Item],
    /// The statements after SECTIONS.
    pub after: &'a [Statement],
}

impl<'a> ScriptParts<'a> {
    /// The parts of these statements.
    pub fn of(statements: &'a [Statement]) -> ScriptParts<'a>
        ensures before { result.before.now ≡ before_sections statements.now }
        ensures items { result.items.now ≡ items_within statements.now }
        ensures after { result.after.now ≡ after_sections statements.now }
    {
        for number in 0..statements.len() {
            if let Command::Sections(items) = &statements[number].command {
                return ScriptParts {
                    before: &statements[..number],
                    items: items.as_slice(),
                    after: &statements[number + 1..],
                };
            }
        }
        ScriptParts {
            before: statements,
            items: &[],
            after: &[],
        }
    }
}
