//! The names that a script gives values to, in byte order.

ghost use Rattle.std.specs.Prelude.{◌≡◌, ◌<◌, ◌++◌, IfOk, OnOk, length};
ghost use Rattle.ldscript.specs.statements.Numbered.{shown_directives};
ghost use Rattle.emit_relocate.specs.ScriptNames.{all_given, distinct_first, is_repeat, names_given, texts};
ghost use Rattle.emit_relocate.specs.ScriptNames.{AreScriptNames};

use growth::{NoMemory, vec};
use ldscript::Script;
use ldscript::tree::{Directive, DirectiveAt};
use std::alloc::Global;

/// Adds the name that a command gives a value to, if it gives one.
fn add_given<'a>(list: &mut Vec<&'a [u8]>, command: &'a Directive) -> Result<(), NoMemory>
    ensures { OnOk result (texts list.new.items ≡ texts list.old.items ++ names_given command.now) }
{
    match command {
        Directive::Assign(assignment) | Directive::Provide(assignment) => {
            vec::push(list, assignment.name.as_bytes())?;
            Ok(())
        }
        Directive::Assert(_) => Ok(()),
    }
}

/// Adds the name of each of these commands.
fn add_all_given<'a>(list: &mut Vec<&'a [u8]>, commands: &[DirectiveAt<'a>]) -> Result<(), NoMemory>
    ensures { OnOk result (texts list.new.items
        ≡ texts list.old.items ++ all_given (shown_directives commands.now)) }
{
    for at in commands {
        add_given(list, at.command)?;
    }
    Ok(())
}

/// Whether the name at a place is that before it.
fn is_repeat(names: &[&[u8]], place: usize) -> bool
    requires { place < length names.now }
    ensures { result ≡ is_repeat (texts names.now) place }
{
    if place == 0 {
        return false;
    }
    names[place - 1] == names[place]
}

/// The names of a list in byte order, each once.
fn distinct<'a>(alloc: Global, names: &[&'a [u8]]) -> Result<Vec<&'a [u8]>, NoMemory>
    ensures { IfOk result (λ list. texts list.items ≡ distinct_first (texts names.now) (length names.now)) }
{
    let mut list = vec::with_capacity(alloc, names.len())?;
    for place in 0..names.len() {
        if !is_repeat(names, place) {
            vec::push(&mut list, names[place])?;
        }
    }
    Ok(list)
}

/// All names that the script gives values to, in byte order, each once.
///
/// # Errors
///
/// If memory runs out.
pub(crate) fn script_names<'a>(alloc: Global, script: &'a Script) -> Result<Vec<&'a [u8]>, NoMemory>
    ensures { IfOk result (λ list. AreScriptNames script.now (texts list.items)) }
{
    let commands = script.all_directives(alloc)?;
    let mut given = vec::with_capacity(alloc, commands.len())?;
    add_all_given(&mut given, &commands)?;
    vec::sort_by(&mut given, |x, y| x.cmp(y))?;
    distinct(alloc, &given)
}
