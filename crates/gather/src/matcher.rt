//! Which input statement takes a section.

ghost use Rattle.std.specs.Prelude.{◌≡◌, IfOk, map};
ghost use Rattle.ldmodel.specs.FirstMatch.{first_match};
ghost use Rattle.ldscript.specs.statements.Numbered.{shown_inputs};
ghost use Rattle.gather.specs.FileTables.{AreTablesOf};
ghost use Rattle.gather.specs.Matches.{matches_of, number_of};

use crate::file_search::matches_by;
use crate::file_tables::FileTables;
use elfobj::Object;
use growth::{NoMemory, impossible};
use ldmodel::rows::InputIndex;
use ldscript::Script;
use ldscript::tree::InputStatementAt;
use std::alloc::Global;
use std::marker::Model;

/// A script, prepared for finding the statements that take sections. For one section the time is
/// - logarithmic in the number of files that statements name without wildcards, for the statements of other files;
/// - for the words of the other statements, linear in the number of words with wildcards and of those that are the very
///   name of the section, and logarithmic in the number of the rest.
#[derive(Drop)]
pub struct Matcher<'a> {
    script: &'a Script,
    words: FileTables<'a>,
}

impl<'a> Model for Matcher<'a> {
    ghost use Rattle.std.specs.Prelude.{List};
    ghost use Rattle.std.specs.Coded.{codes};
    ghost use Rattle.ldscript.specs.statements.Numbering.{input_statements};
    ghost use Rattle.ldscript.specs.statements.contracts.formula.Formula as formula;
    ghost use Rattle.ldscript.specs.statements.declared.statement.Statement.{Statement};
    ghost use Rattle.gather.specs.FileTables.{AreTablesOf};

    ghost Value = { List Statement };

    ghost coded = { Prim.hlevel (codes, formula.the_row.coded) };

    ghost view = { λ m. m.script.now };

    ghost invariant = { λ m. AreTablesOf m.words (input_statements m.script.now) };
}

/// The tables of the words of these statements, which have the numbers from 0 on. More than 2^32 of them are an error
/// too.
fn tables_of<'a>(
    alloc: Global,
    statements: &[InputStatementAt<'a>],
) -> Result<FileTables<'a>, NoMemory>
    ensures { IfOk result (λ t. AreTablesOf t (shown_inputs statements.now)) }
{
    let mut tables = FileTables::new(alloc);
    for (place, statement) in statements.iter().enumerate() {
        match u32::try_from(place) {
            Ok(number) => tables.add_statement(alloc, InputIndex(number), statement.input)?,
            // No script has 2^32 input statements
            Err(_) => return Err(impossible()),
        }
    }
    Ok(tables)
}

impl<'a> Matcher<'a> {
    /// Prepares a script.
    ///
    /// # Errors
    ///
    /// If memory runs out, or if it has more than 2^32 input statements, which no script that was read has.
    pub fn new(alloc: Global, script: &'a Script) -> Result<Matcher<'a>, NoMemory>
        ensures { IfOk result (λ m. m ≡ script.now) }
    {
        let statements = script.input_statements(alloc)?;
        let words = tables_of(alloc, &statements)?;
        Ok(Matcher { script, words })
    }

    /// The input statement that takes the sections of this name in the file of this name: the first one of the script
    /// whose file pattern matches the file and one of whose words takes the section. A common block has the name
    /// `COMMON`.
    pub fn first_match(&self, file: &[u8], section: &[u8]) -> Option<InputIndex>
        ensures { number_of result ≡ first_match self.now file.now section.now }
    {
        // for the prover: brings in the invariant of `self.script`
        let _script = self.script;
        self.words.first_taker(&mut [], file, section)
    }

    /// For each section of an object, in their order, the input statement that takes it. A section takes over the
    /// answer of an earlier one that shares its name: if the name is long and has the same bytes of the file, or if it
    /// is short and the script has a word that excludes many file patterns. In statements for several files, whether a
    /// word with wildcards takes sections of this one is found out at most once.
    ///
    /// # Errors
    ///
    /// If memory runs out.
    pub fn matches_of(
        &self,
        alloc: Global,
        file: &[u8],
        object: &Object,
    ) -> Result<Vec<Option<InputIndex>>, NoMemory>
        ensures { IfOk result (λ found. map number_of found.items ≡ matches_of self.now file.now object.now.sections) }
    {
        // for the prover: brings in the invariant of `self.script`
        let _script = self.script;
        matches_by(alloc, &self.words, file, object)
    }
}
