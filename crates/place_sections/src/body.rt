//! The body of an output section.

ghost use Rattle.std.specs.Int.{next_multiple_of};
ghost use Rattle.std.specs.Prelude.{◌≤◌, ◌<◌, ◌≡◌, ◌+◌, ◌%◌, ◌^◌, length, drop, OnErr, OnOk, IfSome, SomeIff};
ghost use Rattle.ldscript.specs.terms.DotForms.{dot_form};
ghost use Rattle.ldscript.specs.terms.CodeTerms.{expr_of};
ghost use Rattle.ldmodel.specs.Placement.{advanced, body_command_step, body_step, data_step, input_step, moved_on};
ghost use Rattle.ldmodel.specs.Placement.{piece_placed, piece_start, pieces_placed, set_to};
ghost use Rattle.ldmodel.specs.Chain.{run};
ghost use Rattle.place_terms.specs.Naming.{Naming, piece_named, row_named};
ghost use Rattle.place_sections.specs.Alongside.{BodyAlongside, IfInput, StartAt, StartsThere};
ghost use Rattle.place_sections.specs.Counted.{Counted, CountsAlong, Entered, StaysThere};
ghost use Rattle.place_sections.specs.State.{body_of, Gives};

use crate::state::{CurrentOutput, LayoutCursor};
use crate::stop::LayoutStop;
use growth::vec;
use ldmodel::rows::Piece;
use ldmodel_laws::layout::steps_stay_alike;
use ldscript::tree::{BodyCommand, BodyStatement, DotCommand, DotForm, Expr, Formula, Width};
use place_terms::sections::{DataAt, PieceAt};

/// How far an address lies past the last multiple of an alignment. Alignments are powers of two, for which nothing is
/// divided.
fn past_multiple(address: u64, alignment: u64) -> u64
    requires { 0 < alignment }
    ensures value { result ≡ address % alignment }
    ensures less { result < alignment }
{
    let power = alignment.trailing_zeros();
    if power < 64 && 1_u64 << power == alignment {
        address & (alignment - 1)
    } else {
        address % alignment
    }
}

/// The first multiple of an alignment that is not below an address, if it is below 2^64.
fn next_multiple(address: u64, alignment: u64) -> Option<u64>
    requires { 0 < alignment }
    ensures { SomeIff result (next_multiple_of address alignment < 2 ^ 64) (next_multiple_of address alignment) }
{
    let past = past_multiple(address, alignment);
    if past == 0 {
        return Some(address);
    }
    address.checked_add(alignment - past)
}

impl<'d, 'a> CurrentOutput<'d, 'a> {
    /// Places the next entry of the row at `start`.
    #[inline(always)]
    #[tactic(auto, unfolding(ldmodel::specs::Placement::piece_placed))]
    fn put_piece(
        &self,
        here: &mut LayoutCursor<'a>,
        line: u32,
        piece: &'a Piece,
        start: u64,
    ) -> Result<(), LayoutStop<'a>>
        ghost naming: { Naming }
        requires { start ≡ piece_start here.now.dot (piece_named naming piece.now) }
        ensures gives { Gives
            (piece_placed line (body_of naming here.old self.now) (piece_named naming piece.now)
            (row_named naming (drop (length here.old.pieces.items + 1) self.now.row.now)))
            (body_of naming here.new self.now) result }
        ensures script { here.new.symbols.script ≡ here.old.symbols.script }
        ensures inputs { here.new.inputs ≡ here.old.inputs }
        ensures dot { OnOk result (here.new.dot ≡ start + piece.now.size) }
        ensures one { OnOk result (length here.new.pieces.items ≡ length here.old.pieces.items + 1) }
        ensures anew { here.new.anew ≡ here.old.anew }
        ensures none { OnErr result (length here.new.pieces.items ≡ length here.old.pieces.items) }
        ensures few { length here.old.pieces.items ≤ length here.new.pieces.items }
        ensures no_more { length here.new.pieces.items ≤ length here.old.pieces.items + 1 }
    {
        let Some(end) = start.checked_add(piece.size) else {
            return Err(LayoutStop::PastAddressSpace { line });
        };
        vec::push(&mut here.pieces, PieceAt { start, piece })?;
        here.dot = end;
        Ok(())
    }

    /// Places the next entry of the row anew.
    #[inline(always)]
    #[tactic(auto, unfolding(ldmodel::specs::Placement::piece_placed))]
    fn place_piece(
        &self,
        here: &mut LayoutCursor<'a>,
        line: u32,
        piece: &'a Piece,
    ) -> Result<(), LayoutStop<'a>>
        ghost naming: { Naming }
        ensures gives { Gives
            (piece_placed line (body_of naming here.old self.now) (piece_named naming piece.now)
            (row_named naming (drop (length here.old.pieces.items + 1) self.now.row.now)))
            (body_of naming here.new self.now) result }
        ensures script { here.new.symbols.script ≡ here.old.symbols.script }
        ensures one { OnOk result (length here.new.pieces.items ≡ length here.old.pieces.items + 1) }
        ensures anew { CountsAlong here.old.anew here.new.anew (length here.old.pieces.items)
            (length here.new.pieces.items) }
        ensures few { length here.new.pieces.items ≤ length here.old.pieces.items + 1 }
    {
        let Some(start) = next_multiple(here.dot, piece.alignment.max(1)) else {
            return Err(LayoutStop::PastAddressSpace { line });
        };
        self.put_piece(here, line, piece, start)?;
        here.anew = here.anew.saturating_add(1);
        Ok(())
    }

    /// Places the entries of an input statement anew.
    #[tactic(auto, unfolding(ldmodel::specs::Placement::pieces_placed))]
    fn place_pieces(
        &self,
        here: &mut LayoutCursor<'a>,
        line: u32,
        number: u128,
    ) -> Result<(), LayoutStop<'a>>
        ghost naming: { Naming }
        ensures gives { Gives
            (pieces_placed line number (body_of naming here.old self.now)
            (row_named naming (drop (length here.old.pieces.items) self.now.row.now)))
            (body_of naming here.new self.now) result }
        ensures entered { Entered here.old here.new self.now }
    {
        while here.pieces.len() < self.row.len() {
            let piece = &self.row[here.pieces.len()];
            if u128::from(piece.statement.0) != number {
                break;
            }
            self.place_piece(here, line, piece)?;
        }
        Ok(())
    }

    /// Places the entries of an input statement where they were: `starts` are the addresses of the row's entries.
    #[tactic(auto, unfolding(ldmodel::specs::Placement::pieces_placed))]
    fn keep_pieces(
        &self,
        here: &mut LayoutCursor<'a>,
        line: u32,
        number: u128,
        starts: &[u64],
    ) -> Result<(), LayoutStop<'a>>
        ghost naming: { Naming }
        requires { StartAt number here.now.dot
            (row_named naming (drop (length here.now.pieces.items) self.now.row.now))
            (drop (length here.now.pieces.items) starts.now) }
        ensures gives { Gives
            (pieces_placed line number (body_of naming here.old self.now)
            (row_named naming (drop (length here.old.pieces.items) self.now.row.now)))
            (body_of naming here.new self.now) result }
        ensures there { StaysThere here.old here.new self.now }
        ensures anew { here.new.anew ≡ here.old.anew }
    {
        while here.pieces.len() < self.row.len() {
            let place = here.pieces.len();
            let piece = &self.row[place];
            if u128::from(piece.statement.0) != number {
                break;
            }
            self.put_piece(here, line, piece, starts[place])?;
        }
        Ok(())
    }

    /// Places the entries of the next input statement.
    fn place_input(&self, here: &mut LayoutCursor<'a>, line: u32) -> Result<(), LayoutStop<'a>>
        ghost naming: { Naming }
        requires kept { StartsThere naming here.now self.now }
        requires room { here.now.inputs + 1 < 2 ^ 128 }
        ensures gives { Gives (input_step line (body_of naming here.old self.now)) (body_of naming here.new self.now)
            result }
        ensures counted { Counted here.old here.new self.now }
    {
        let number = here.inputs;
        match self.starts {
            Some(starts) => self.keep_pieces(here, line, number, starts)?,
            None => self.place_pieces(here, line, number)?,
        }
        here.inputs = number + 1;
        Ok(())
    }

    /// BYTE, SHORT, LONG or QUAD.
    fn place_data(
        &self,
        here: &mut LayoutCursor<'a>,
        line: u32,
        width: Width,
        formula: &'a Formula,
    ) -> Result<(), LayoutStop<'a>>
        ghost naming: { Naming }
        ensures gives { Gives (data_step line (body_of naming here.old self.now) width formula.now)
            (body_of naming here.new self.now) result }
        ensures counted { Counted here.old here.new self.now }
    {
        let value = here.formula(self.done, line, formula)?;
        let Some(end) = here.dot.checked_add(u64::from(width.byte_count())) else {
            return Err(LayoutStop::PastAddressSpace { line });
        };
        let start = here.dot;
        vec::push(
            &mut here.data_commands,
            DataAt {
                start,
                width,
                value,
            },
        )?;
        here.dot = end;
        Ok(())
    }

    /// Sets `.` to the sum of two numbers; it may not go back.
    fn go_to(
        &self,
        here: &mut LayoutCursor<'a>,
        line: u32,
        from: u64,
        more: u64,
    ) -> Result<(), LayoutStop<'a>>
        ghost naming: { Naming }
        ensures gives { Gives (moved_on line (body_of naming here.old self.now) (from + more))
            (body_of naming here.new self.now) result }
        ensures counted { Counted here.old here.new self.now }
    {
        let dot = here.dot;
        let Some(to) = from.checked_add(more) else {
            return Err(LayoutStop::PastAddressSpace { line });
        };
        if to < dot {
            return Err(LayoutStop::MovedBack { line });
        }
        here.dot = to;
        Ok(())
    }

    /// `. += e` and `. = . + e`.
    fn advance(
        &self,
        here: &mut LayoutCursor<'a>,
        line: u32,
        by: &'a Expr,
    ) -> Result<(), LayoutStop<'a>>
        ghost naming: { Naming }
        ensures gives { Gives (advanced line (body_of naming here.old self.now) (expr_of by.now))
            (body_of naming here.new self.now) result }
        ensures counted { Counted here.old here.new self.now }
    {
        let more = here.number(self.done, line, by)?;
        let from = here.dot;
        self.go_to(here, line, from, more)?;
        Ok(())
    }

    /// `. = e`.
    fn set_dot(
        &self,
        here: &mut LayoutCursor<'a>,
        line: u32,
        to: &'a Expr,
    ) -> Result<(), LayoutStop<'a>>
        ghost naming: { Naming }
        ensures gives { Gives (set_to line (body_of naming here.old self.now) (dot_form (expr_of to.now)))
            (body_of naming here.new self.now) result }
        ensures counted { Counted here.old here.new self.now }
    {
        match to.dot_form() {
            Some(DotForm::Advance(by)) => self.advance(here, line, by),
            Some(DotForm::Align(_)) => {
                let to = here.number(self.done, line, to)?;
                self.go_to(here, line, to, 0)
            }
            Some(DotForm::Offset(by)) => {
                let by = here.number(self.done, line, by)?;
                self.go_to(here, line, self.start, by)
            }
            None => Ok(()),
        }
    }

    #[tactic(auto, unfolding(ldmodel::specs::Placement::body_command_step))]
    fn place_command(
        &self,
        here: &mut LayoutCursor<'a>,
        line: u32,
        command: &'a BodyCommand,
    ) -> Result<(), LayoutStop<'a>>
        ghost naming: { Naming }
        requires kept { IfInput command.now (StartsThere naming here.now self.now) }
        requires room { here.now.inputs + 1 < 2 ^ 128 }
        ensures gives { Gives
            (body_command_step self.now.provided.now line (body_of naming here.old self.now) command.now)
            (body_of naming here.new self.now) result }
        ensures counted { Counted here.old here.new self.now }
    {
        match command {
            BodyCommand::Dot(DotCommand::Add(by)) => self.advance(here, line, by.expr()),
            BodyCommand::Dot(DotCommand::Set(to)) => self.set_dot(here, line, to.expr()),
            BodyCommand::Directive(command) => here.directive(
                self.done,
                self.provided,
                line,
                command,
            ),
            BodyCommand::Data(width, formula) => self.place_data(here, line, *width, formula),
            BodyCommand::Input(_) => self.place_input(here, line),
        }
    }

    fn place_statement(
        &self,
        here: &mut LayoutCursor<'a>,
        statement: &'a BodyStatement,
    ) -> Result<(), LayoutStop<'a>>
        ghost naming: { Naming }
        requires kept { IfInput statement.now.command (StartsThere naming here.now self.now) }
        requires room { here.now.inputs + 1 < 2 ^ 128 }
        ensures gives { Gives (body_step self.now.provided.now (body_of naming here.old self.now) statement.now)
            (body_of naming here.new self.now) result }
        ensures counted { Counted here.old here.new self.now }
    {
        vec::push(&mut here.dots, here.dot)?;
        self.place_command(here, statement.line, &statement.command)
    }

    /// The statements of the body.
    #[tactic(auto, unfolding(ldmodel::specs::Chain::run))]
    pub fn place_body(
        &self,
        here: &mut LayoutCursor<'a>,
        body: &'a [BodyStatement],
    ) -> Result<(), LayoutStop<'a>>
        ghost naming: { Naming }
        requires kept { IfSome self.now.starts (λ s. BodyAlongside s.now (body_of naming here.now self.now) body.now) }
        requires room { here.now.inputs + length body.now < 2 ^ 128 }
        ensures gives { Gives (run (body_step self.now.provided.now) (body_of naming here.old self.now) body.now)
            (body_of naming here.new self.now) result }
        ensures counted { Counted here.old here.new self.now }
    {
        // for the prover: brings in this law
        steps_stay_alike();
        for statement in body {
            self.place_statement(here, statement)?;
        }
        Ok(())
    }
}
