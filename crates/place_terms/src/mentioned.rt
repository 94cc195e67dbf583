//! The names that the expressions of a script mention, in the order of the text.

ghost use Rattle.std.specs.Prelude.{◌≡◌, [], ◌∷◌, ◌++◌, OnOk, IfOk, IfSome, IfNone, ℕ, ◌≤◌, ◌^◌, Some, slice_get};
ghost use Rattle.ldscript.specs.terms.CodeTerms.{expr_of};
ghost use Rattle.ldmodel.specs.Mentioned.{in_expression, in_optional, in_directive, in_dot_command, in_body_command};
ghost use Rattle.ldmodel.specs.Mentioned.{in_section, in_item, in_command, mentioned_names};
ghost use Rattle.place_terms.specs.Mentions.{Adds, in_load, in_body, in_items, in_regions, shown_names};

use growth::{NoMemory, vec};
use ldmodel::fault::MentionIndex;
use ldscript::tree::{
    BodyCommand, BodyStatement, Command, Directive, DotCommand, Expr, Formula, Item, ItemCommand,
    Load, OutputSection, Region, Statement,
};
use std::alloc::Global;

fn note_expression<'a>(names: &mut Vec<&'a [u8]>, e: &'a Expr) -> Result<(), NoMemory>
    ensures { OnOk result (Adds names.old.items names.new.items (in_expression (expr_of e.now))) }
{
    match e {
        Expr::Number(_) | Expr::Dot => Ok(()),
        Expr::Name(name) | Expr::OfRegion(_, name) | Expr::OfSection(_, name) => {
            vec::push(names, name.as_bytes())?;
            Ok(())
        }
        Expr::Unary(_, a) | Expr::AlignDot(a) => note_expression(names, a),
        Expr::Binary(_, a, b) | Expr::Align(a, b) => {
            note_expression(names, a)?;
            note_expression(names, b)?;
            Ok(())
        }
        Expr::Choice(of) => {
            note_expression(names, &of.test)?;
            note_expression(names, &of.first)?;
            note_expression(names, &of.second)?;
            Ok(())
        }
    }
}

fn note_formula<'a>(names: &mut Vec<&'a [u8]>, formula: &'a Formula) -> Result<(), NoMemory>
    ensures { OnOk result (Adds names.old.items names.new.items (in_expression formula.now)) }
{
    note_expression(names, formula.expr())
}

fn note_optional<'a>(
    names: &mut Vec<&'a [u8]>,
    formula: &'a Option<Formula>,
) -> Result<(), NoMemory>
    ensures { OnOk result (Adds names.old.items names.new.items (in_optional formula.now)) }
{
    match formula {
        Some(formula) => note_formula(names, formula),
        None => Ok(()),
    }
}

fn note_directive<'a>(names: &mut Vec<&'a [u8]>, command: &'a Directive) -> Result<(), NoMemory>
    ensures { OnOk result (Adds names.old.items names.new.items (in_directive command.now)) }
{
    match command {
        Directive::Assign(assignment) | Directive::Provide(assignment) => {
            note_formula(names, &assignment.value)
        }
        Directive::Assert(assertion) => note_formula(names, &assertion.condition),
    }
}

fn note_dot_command<'a>(names: &mut Vec<&'a [u8]>, command: &'a DotCommand) -> Result<(), NoMemory>
    ensures { OnOk result (Adds names.old.items names.new.items (in_dot_command command.now)) }
{
    match command {
        DotCommand::Set(formula) | DotCommand::Add(formula) => note_formula(names, formula),
    }
}

fn note_body_command<'a>(
    names: &mut Vec<&'a [u8]>,
    command: &'a BodyCommand,
) -> Result<(), NoMemory>
    ensures { OnOk result (Adds names.old.items names.new.items (in_body_command command.now)) }
{
    match command {
        BodyCommand::Dot(command) => note_dot_command(names, command),
        BodyCommand::Directive(command) => note_directive(names, command),
        BodyCommand::Data(_, formula) => note_formula(names, formula),
        BodyCommand::Input(_) => Ok(()),
    }
}

fn note_body<'a>(names: &mut Vec<&'a [u8]>, body: &'a [BodyStatement]) -> Result<(), NoMemory>
    ensures { OnOk result (Adds names.old.items names.new.items (in_body body.now)) }
{
    for statement in body {
        note_body_command(names, &statement.command)?;
    }
    Ok(())
}

fn note_load<'a>(names: &mut Vec<&'a [u8]>, load: &'a Load) -> Result<(), NoMemory>
    ensures { OnOk result (Adds names.old.items names.new.items (in_load load.now)) }
{
    match load {
        Load::At(address) => note_formula(names, address),
        Load::Unstated | Load::InRegion(_) => Ok(()),
    }
}

fn note_section<'a>(names: &mut Vec<&'a [u8]>, section: &'a OutputSection) -> Result<(), NoMemory>
    ensures { OnOk result (Adds names.old.items names.new.items (in_section section.now)) }
{
    note_optional(names, &section.address)?;
    note_load(names, &section.load)?;
    note_optional(names, &section.alignment)?;
    note_body(names, section.body.as_slice())?;
    Ok(())
}

fn note_item_command<'a>(
    names: &mut Vec<&'a [u8]>,
    command: &'a ItemCommand,
) -> Result<(), NoMemory>
    ensures { OnOk result (Adds names.old.items names.new.items (in_item command.now)) }
{
    match command {
        ItemCommand::Dot(command) => note_dot_command(names, command),
        ItemCommand::Directive(command) => note_directive(names, command),
        ItemCommand::Section(section) => note_section(names, section.get()),
        ItemCommand::Discard(_) => Ok(()),
    }
}

fn note_items<'a>(names: &mut Vec<&'a [u8]>, items: &'a [Item]) -> Result<(), NoMemory>
    ensures { OnOk result (Adds names.old.items names.new.items (in_items items.now)) }
{
    for item in items {
        note_item_command(names, &item.command)?;
    }
    Ok(())
}

fn note_regions<'a>(names: &mut Vec<&'a [u8]>, regions: &'a [Region]) -> Result<(), NoMemory>
    ensures { OnOk result (Adds names.old.items names.new.items (in_regions regions.now)) }
{
    for region in regions {
        note_formula(names, &region.origin)?;
        note_formula(names, &region.extent)?;
    }
    Ok(())
}

fn note_command<'a>(names: &mut Vec<&'a [u8]>, command: &'a Command) -> Result<(), NoMemory>
    ensures { OnOk result (Adds names.old.items names.new.items (in_command command.now)) }
{
    match command {
        Command::Entry(_) => Ok(()),
        Command::Memory(regions) => note_regions(names, regions.as_slice()),
        Command::Sections(items) => note_items(names, items.as_slice()),
        Command::Directive(command) => note_directive(names, command),
    }
}

/// The names that the expressions of these statements mention: symbols, output sections and memory regions, in the
/// order of the text. The number of a mention is its place in this list.
#[tactic(auto, unfolding(ldmodel::specs::Mentioned::mentioned_names))]
pub fn mentioned_names(alloc: Global, statements: &[Statement]) -> Result<Vec<&[u8]>, NoMemory>
    ensures { IfOk result (λ v. shown_names v.items ≡ mentioned_names statements.now) }
{
    let mut names = Vec::new(alloc);
    for statement in statements {
        note_command(&mut names, &statement.command)?;
    }
    Ok(names)
}

/// The number of the first mention of a name; `None` if none of the first 2^32 mentions is of it.
pub fn mention_of(names: &[&[u8]], name: &[u8]) -> Option<MentionIndex>
    ensures found { IfSome result (λ m. slice_get (shown_names names.now) m.0 ≡ Some name.now) }
    ensures missing { IfNone result ((k : ℕ) → slice_get (shown_names names.now) k ≡ Some name.now → 2 ^ 32 ≤ k) }
{
    for (k, mentioned) in names.iter().enumerate() {
        if *mentioned == name {
            return match u32::try_from(k) {
                Ok(k) => Some(MentionIndex(k)),
                Err(_) => None,
            };
        }
    }
    None
}
