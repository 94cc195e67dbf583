//! The way of `ldi link`, once for each edit: the edit is made in a project, and the whole project linked.

use crate::answer::Answer;
use crate::answered::{Answered, MALFORMED};
use crate::command::{Command, split_command};
use crate::printing::print_command;
use crate::task::Task;
use growth::NoMemory;
use ldi_stream::head::Query;
use ldmodel::meter::Meter;
use relink::{Edit, Options, Output, Project};
use std::alloc::{AllocError, Global};
use std::hash::RandomState;

/// A project and its link.
#[derive(Drop)]
struct Calls {
    alloc: Global,
    seed: RandomState,
    project: Project,
    output: Output,
}

/// The link of a project.
fn link_of(alloc: Global, seed: RandomState, project: &Project) -> Result<Output, NoMemory> {
    let inputs = project.inputs(alloc)?;
    Output::of(alloc, seed, &project.view(&inputs), &mut Meter::new())
}

impl Calls {
    /// The empty project.
    fn new(alloc: Global, seed: RandomState, options: Options) -> Result<Calls, NoMemory> {
        let project = Project::new(alloc, options);
        let output = link_of(alloc, seed, &project)?;
        Ok(Calls {
            alloc,
            seed,
            project,
            output,
        })
    }

    /// Makes an edit, and links the project that it leads to.
    fn make(&mut self, edit: Edit<'_>) -> Result<Answer<'_>, NoMemory> {
        match self.project.edit(edit) {
            Err(refusal) => Ok(Answer::Refused(refusal)),
            Ok(()) => {
                self.output = link_of(self.alloc, self.seed, &self.project)?;
                Ok(Answer::Linked(self.output.summary()))
            }
        }
    }

    /// The answer of the link to a query.
    fn asked(&self, query: Query) -> Answer<'_> {
        match query {
            Query::Image => Answer::Image(self.output.image()),
            Query::Map => Answer::Text(self.output.map()),
            Query::Faults => Answer::Text(self.output.faults()),
        }
    }

    /// The answer to a command.
    fn answer(&mut self, command: Command<'_>) -> Result<Answer<'_>, NoMemory> {
        match command {
            Command::Make(edit) => self.make(edit),
            Command::Ask(query) => Ok(self.asked(query)),
        }
    }

    /// The answers to a stream, each printed at once, after its command.
    fn answer_all(&mut self, stream: &[u8], out: &mut String) -> Result<Answered, AllocError> {
        let alloc = self.alloc;
        let mut answers = Vec::new(alloc);
        let mut rest = stream;
        // a command takes a byte at least
        for _ in 0..=stream.len() {
            if rest.is_empty() {
                break;
            }
            let Some((command, others)) = split_command(alloc, rest)? else {
                print_command(out, rest)?;
                Answer::Malformed.spell(alloc, &mut answers)?;
                Answer::Malformed.print(alloc, out)?;
                let status = MALFORMED;
                return Ok(Answered { answers, status });
            };
            print_command(out, &rest[..rest.len().saturating_sub(others.len())])?;
            rest = others;
            let answer = self.answer(command)?;
            answer.spell(alloc, &mut answers)?;
            answer.print(alloc, out)?;
        }
        let status = self.output.status();
        Ok(Answered { answers, status })
    }
}

/// The answers to a stream by calls, each printed at once, after its command.
pub fn answer_by_calls(task: Task<'_>, out: &mut String) -> Result<Answered, AllocError> {
    let mut calls = Calls::new(task.alloc, task.seed, task.own_options()?)?;
    calls.answer_all(task.bytes, out)
}
