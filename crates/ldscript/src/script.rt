//! Scripts, and how one is read from its text.

ghost use Rattle.std.specs.Prelude.{◌≡◌, [], IfErr, IfOk};
ghost use Rattle.std.specs.Option.{option_copied};
ghost use Rattle.ldscript.specs.Script.{IsScript, IsTree, IsRefusal, IsSound};
ghost use Rattle.ldscript_statements.specs.Given.{given_by, region_number, section_number};
ghost use Rattle.ldscript_statements.specs.Numbering.{all_directives, entry_of, input_statements, output_sections};
ghost use Rattle.ldscript_statements.specs.Numbering.{regions};
ghost use Rattle.ldscript_statements.specs.Numbered.{shown_directives, shown_inputs, shown_regions, shown_sections};

use crate::read_script::statements_of;
use crate::refusal::ScriptRefusal;
use growth::NoMemory;
use ldscript_statements::dots::has_misplaced_dot;
use ldscript_statements::given::Given;
use ldscript_statements::mentions::has_clash;
use ldscript_statements::numbering;
use ldscript_statements::numbering::{DirectiveAt, InputStatementAt, OutputSectionAt};
use ldscript_statements::sequence::Sequence;
use ldscript_statements::statement::{Region, Statement};
use ldscript_statements::tables::Tables;
use ldscript_tokens::cursor::Cursor;
use ldscript_tokens::lexer::tokens;
use ldscript_tokens::refusal::TokenRefusal;
use std::alloc::Global;
use std::marker::Model;

/// A script: its statements in the order of the text, in which nothing clashes and no `.` is misplaced, with tables of
/// their names. Only `Script::read` makes one of a text.
#[derive(Drop)]
pub struct Script {
    statements: Sequence<Statement>,
    tables: Tables,
}

impl Model for Script {
    ghost use Rattle.std.specs.Prelude.{List};
    ghost use Rattle.ldscript_statements.specs.declared.statement.Statement.{Statement};
    ghost use Rattle.std.specs.Coded.{codes};
    ghost use Rattle.ldscript_statements.specs.contracts.formula.Formula as formula;

    ghost Value = { List Statement };

    ghost coded = { Prim.hlevel (codes, formula.the_row.coded) };

    ghost use Rattle.ldscript.specs.Script.{IsSound};
    ghost use Rattle.ldscript_statements.specs.Tables.{IsTablesOf};

    ghost view = { λ script. script.statements };

    ghost invariant = { λ script. IsSound script.statements × IsTablesOf script.statements script.tables };
}

/// The tree of a text. Its tokens are dropped before anything else takes memory.
fn read_tree(alloc: Global, text: &[u8]) -> Result<Sequence<Statement>, ScriptRefusal>
    ensures read { IfOk result (λ s. IsTree text.now s) }
    ensures refused { IfErr result (λ r. IsRefusal text.now r) }
{
    let tokens = match tokens(alloc, text) {
        Ok(tokens) => tokens,
        Err(TokenRefusal::NotAToken) => return Err(ScriptRefusal::NotTokens),
        Err(TokenRefusal::Limit) => return Err(ScriptRefusal::Limit),
        Err(TokenRefusal::NoMemory(no_memory)) => return Err(ScriptRefusal::NoMemory(no_memory)),
    };
    match statements_of(alloc, Cursor::new(text, &tokens))? {
        Some(statements) => Ok(statements),
        None => Err(ScriptRefusal::NotAScript),
    }
}

impl Script {
    /// The empty script.
    pub fn empty(alloc: Global) -> Script
        ensures { result ≡ [] }
    {
        Script {
            statements: Sequence::new(alloc),
            tables: Tables::new(alloc),
        }
    }

    /// The statements, in the order of the text.
    pub fn statements(&self) -> &[Statement]
        ensures value { result.now ≡ self.now }
        ensures sound { IsSound self.now }
    {
        self.statements.as_slice()
    }

    /// The directive that assigns or provides a symbol, by its number among `all_directives`, in time logarithmic in
    /// the number of names.
    pub fn given(&self, name: &[u8]) -> Option<Given>
        ensures { result ≡ given_by self.now name.now }
    {
        self.tables.given(name)
    }

    /// The number of the output section of a name, among `output_sections`.
    pub fn section_number(&self, name: &[u8]) -> Option<usize>
        ensures { result ≡ section_number self.now name.now }
    {
        self.tables.section(name)
    }

    /// The number of the memory region of a name, among `regions`.
    pub fn region_number(&self, name: &[u8]) -> Option<usize>
        ensures { result ≡ region_number self.now name.now }
    {
        self.tables.region(name)
    }

    /// The name that `ENTRY` gives.
    pub fn entry(&self) -> Option<&[u8]>
        ensures { option_copied result ≡ entry_of self.now }
    {
        numbering::entry(self.statements.as_slice())
    }

    /// The output sections in the order of the text, without `/DISCARD/`.
    pub fn output_sections(&self, alloc: Global) -> Result<Vec<OutputSectionAt<'_>>, NoMemory>
        ensures { IfOk result (λ found. shown_sections found.items ≡ output_sections self.now) }
    {
        numbering::output_sections(alloc, self.statements.as_slice())
    }

    /// The input statements in the order of the text, with those of `/DISCARD/`.
    pub fn input_statements(&self, alloc: Global) -> Result<Vec<InputStatementAt<'_>>, NoMemory>
        ensures { IfOk result (λ found. shown_inputs found.items ≡ input_statements self.now) }
    {
        numbering::input_statements(alloc, self.statements.as_slice())
    }

    /// The assignments of symbols, `PROVIDE`s and `ASSERT`s in the order of the text: outside of `SECTIONS`, in it, and
    /// in output sections.
    pub fn all_directives(&self, alloc: Global) -> Result<Vec<DirectiveAt<'_>>, NoMemory>
        ensures { IfOk result (λ found. shown_directives found.items ≡ all_directives self.now) }
    {
        numbering::all_directives(alloc, self.statements.as_slice())
    }

    /// The memory regions in the order of the text.
    pub fn regions(&self, alloc: Global) -> Result<Vec<&Region>, NoMemory>
        ensures { IfOk result (λ found. shown_regions found.items ≡ regions self.now) }
    {
        numbering::regions(alloc, self.statements.as_slice())
    }

    /// Reads a script from its text: the one tree that the text has.
    ///
    /// # Errors
    ///
    /// The first refusal that applies, or `NoMemory` if memory runs out.
    pub fn read(alloc: Global, text: &[u8]) -> Result<Script, ScriptRefusal>
        ensures read { IfOk result (λ script. IsScript text.now script) }
        ensures refused { IfErr result (λ refusal. IsRefusal text.now refusal) }
    {
        let statements = read_tree(alloc, text)?;
        if has_clash(alloc, statements.as_slice())? {
            return Err(ScriptRefusal::Repeated);
        }
        if has_misplaced_dot(statements.as_slice()) {
            return Err(ScriptRefusal::MisplacedDot);
        }
        let tables = Tables::of(alloc, statements.as_slice())?;
        Ok(Script { statements, tables })
    }
}
