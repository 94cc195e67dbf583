//! The tables of a script's names.

ghost use Rattle.std.specs.Prelude.{◌≡◌, [], IfOk, OnOk};
ghost use Rattle.ldscript_statements.specs.Numbered.{shown_directives, shown_sections, shown_regions};
ghost use Rattle.ldscript_statements.specs.Tables.{HasAssigned, HasProvided, HasSections, HasRegions, AssignsOver};
ghost use Rattle.ldscript_statements.specs.Tables.{ProvidesOver};
ghost use Rattle.ldscript_statements.specs.Tables.{IsTablesOf, given_in, section_in, region_in};

use crate::directive::Directive;
use crate::given::Given;
use crate::number_table::NumberTable;
use crate::numbering::{DirectiveAt, OutputSectionAt, all_directives, output_sections, regions};
use crate::statement::{Region, Statement};
use growth::NoMemory;
use std::alloc::Global;

/// The numbers under which a script defines its names: symbols, output sections and memory regions.
#[derive(Drop)]
pub struct Tables {
    assigned: NumberTable,
    provided: NumberTable,
    sections: NumberTable,
    regions: NumberTable,
}

/// Inserts the name of an assignment, if a directive is one.
fn enter_assigned(
    alloc: Global,
    table: &mut NumberTable,
    number: usize,
    command: &Directive,
) -> Result<(), NoMemory>
    ensures { OnOk result (AssignsOver table.old table.new number command.now) }
{
    match command {
        Directive::Assign(assignment) => table.put(alloc, assignment.name.as_bytes(), number),
        Directive::Provide(_) | Directive::Assert(_) => Ok(()),
    }
}

/// The names that are assigned. The last command is entered first, so that the first one stays.
fn assigned_names(alloc: Global, directives: &[DirectiveAt]) -> Result<NumberTable, NoMemory>
    ensures { IfOk result (λ t. HasAssigned t (shown_directives directives.now)) }
{
    let mut table = NumberTable::new(alloc);
    let mut left = directives.len();
    while left > 0 {
        left -= 1;
        enter_assigned(alloc, &mut table, left, directives[left].command)?;
    }
    Ok(table)
}

/// Inserts the name of a PROVIDE, if a directive is one.
fn enter_provided(
    alloc: Global,
    table: &mut NumberTable,
    number: usize,
    command: &Directive,
) -> Result<(), NoMemory>
    ensures { OnOk result (ProvidesOver table.old table.new number command.now) }
{
    match command {
        Directive::Provide(assignment) => table.put(alloc, assignment.name.as_bytes(), number),
        Directive::Assign(_) | Directive::Assert(_) => Ok(()),
    }
}

/// The names that are provided.
fn provided_names(alloc: Global, directives: &[DirectiveAt]) -> Result<NumberTable, NoMemory>
    ensures { IfOk result (λ t. HasProvided t (shown_directives directives.now)) }
{
    let mut table = NumberTable::new(alloc);
    let mut left = directives.len();
    while left > 0 {
        left -= 1;
        enter_provided(alloc, &mut table, left, directives[left].command)?;
    }
    Ok(table)
}

/// The names of output sections.
fn section_names(alloc: Global, sections: &[OutputSectionAt]) -> Result<NumberTable, NoMemory>
    ensures { IfOk result (λ t. HasSections t (shown_sections sections.now)) }
{
    let mut table = NumberTable::new(alloc);
    let mut left = sections.len();
    while left > 0 {
        left -= 1;
        let section = sections[left].section;
        table.put(alloc, section.name.as_bytes(), left)?;
    }
    Ok(table)
}

/// The names of memory regions.
fn region_names(alloc: Global, regions: &[&Region]) -> Result<NumberTable, NoMemory>
    ensures { IfOk result (λ t. HasRegions t (shown_regions regions.now)) }
{
    let mut table = NumberTable::new(alloc);
    let mut left = regions.len();
    while left > 0 {
        left -= 1;
        let region = regions[left];
        table.put(alloc, region.name.as_bytes(), left)?;
    }
    Ok(table)
}

impl Tables {
    /// The tables of a script without statements.
    pub fn new(alloc: Global) -> Tables
        ensures { IsTablesOf [] result }
    {
        Tables {
            assigned: NumberTable::new(alloc),
            provided: NumberTable::new(alloc),
            sections: NumberTable::new(alloc),
            regions: NumberTable::new(alloc),
        }
    }

    /// The tables of these statements.
    pub fn of(alloc: Global, statements: &[Statement]) -> Result<Tables, NoMemory>
        ensures { IfOk result (λ tables. IsTablesOf statements.now tables) }
    {
        let directives = all_directives(alloc, statements)?;
        let assigned = assigned_names(alloc, &directives)?;
        let provided = provided_names(alloc, &directives)?;
        let sections = output_sections(alloc, statements)?;
        let sections = section_names(alloc, &sections)?;
        let regions = regions(alloc, statements)?;
        let regions = region_names(alloc, &regions)?;
        Ok(Tables {
            assigned,
            provided,
            sections,
            regions,
        })
    }

    /// The command that assigns or provides a symbol.
    pub fn given(&self, name: &[u8]) -> Option<Given>
        ensures { result ≡ given_in self.now name.now }
    {
        match self.assigned.number(name) {
            Some(number) => Some(Given::Assigned(number)),
            None => Some(Given::Provided(self.provided.number(name)?)),
        }
    }

    /// The number of the output section of a name.
    pub fn section(&self, name: &[u8]) -> Option<usize>
        ensures { result ≡ section_in self.now name.now }
    {
        self.sections.number(name)
    }

    /// The number of the memory region of a name.
    pub fn region(&self, name: &[u8]) -> Option<usize>
        ensures { result ≡ region_in self.now name.now }
    {
        self.regions.number(name)
    }
}
