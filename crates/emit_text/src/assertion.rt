//! The ASSERTs of a script by their numbers.

ghost use Rattle.std.specs.Prelude.{◌≡◌, OnOk, IfOk, ◌++◌};
ghost use Rattle.ldscript.specs.Numbering.{asserted_by, asserted_in};
ghost use Rattle.ldscript.specs.Numbered.{shown_directives};
ghost use Rattle.emit_text.specs.Naming.{shown_assertions};

use growth::{NoMemory, vec};
use ldscript::tree::{Assertion, Directive, DirectiveAt};
use std::alloc::Global;

/// An ASSERT.
#[derive(Clone, Copy)]
pub struct AssertionAt<'a> {
    /// The line of its first token.
    pub line: u32,
    /// What it says.
    pub assertion: &'a Assertion,
}

/// Adds a directive's ASSERT to a list, if it is one.
fn add_assertion<'a>(
    list: &mut Vec<AssertionAt<'a>>,
    command: &DirectiveAt<'a>,
) -> Result<(), NoMemory>
    ensures { OnOk result (shown_assertions list.new.items ≡ shown_assertions list.old.items
        ++ asserted_by command.now.line command.now.command.now) }
{
    match command.command {
        Directive::Assert(assertion) => {
            let line = command.line;
            vec::push(list, AssertionAt { line, assertion })?;
            Ok(())
        }
        Directive::Assign(_) | Directive::Provide(_) => Ok(()),
    }
}

/// The ASSERTs among the assignments, PROVIDEs and ASSERTs of a script, in their order: each stands at the place of its
/// number (`AssertionIndex`).
///
/// # Errors
///
/// If there is no memory for the list.
pub fn assertions<'a>(
    alloc: Global,
    commands: &[DirectiveAt<'a>],
) -> Result<Vec<AssertionAt<'a>>, NoMemory>
    ensures { IfOk result (λ found. shown_assertions found.items ≡ asserted_in (shown_directives commands.now)) }
{
    let mut list = Vec::new(alloc);
    for command in commands {
        add_assertion(&mut list, command)?;
    }
    Ok(list)
}
