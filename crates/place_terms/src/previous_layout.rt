//! The output sections of a previous layout.

ghost use Rattle.std.specs.Prelude.{◌≡◌, ◌+◌, ◌-◌, ◌≤◌, ◌<◌, ◌^◌, [], length, take, IfSome, IsSome};
ghost use Rattle.place_terms.specs.PreviousLayout.{earlier_of, part_of};
ghost use Rattle.place_terms.specs.PreviousLayout.{AreStartsOf, HasSection, HasStarts, IsSectionOf};

use crate::sections::Closed;
use ldmodel::placed::{Placed, PlacedData};
use ldmodel::rows::Piece;
use ldscript::tree::OutputSection;
use std::ops::Range;

/// What a previous layout had of its output sections, in the order of the script.
#[derive(Clone, Copy)]
pub struct PreviousLayout<'a> {
    /// The numbers of the output sections.
    pub sections: &'a [Placed],
    /// How many input sections each output section has.
    pub counts: &'a [usize],
    /// Where the input sections start, output section by output section.
    pub starts: &'a [u64],
    /// The data commands, output section by output section.
    pub data_commands: &'a [PlacedData],
}

/// An output section that is taken over from a previous layout. Its input sections are the first entries of its row.
#[derive(Clone, Copy)]
pub struct ReusedOutput<'a> {
    /// What the script says of it.
    pub output: &'a OutputSection,
    /// The numbers of the output section.
    pub placed: &'a Placed,
    /// Where the input sections start.
    pub starts: &'a [u64],
    /// The row.
    pub row: &'a [Piece],
    /// The data commands.
    pub data_commands: &'a [PlacedData],
}

/// The first elements of a list, or all if there are no more.
pub fn first<T>(list: &[T], count: usize) -> &[T]
    ensures { result.now ≡ take count list.now }
{
    match list.get(..count) {
        Some(first) => first,
        None => list,
    }
}

/// `count` elements of a list, from a place on; `None` if there are fewer.
fn part<T>(list: &[T], from: usize, count: usize) -> Option<&[T]>
    ensures part { IfSome result (λ x. x.now ≡ part_of list.now from count) }
    ensures long { IfSome result (λ x. length x.now ≡ count) }
    ensures within { IfSome result (λ x. from + length x.now ≤ length list.now) }
    ensures there { from + count ≤ length list.now → IsSome result }
{
    match list.get(from..) {
        Some(rest) => rest.get(..count),
        None => None,
    }
}

impl<'a> PreviousLayout<'a> {
    /// The data commands from a number to another.
    fn data_between(&self, from: usize, to: usize) -> Option<&'a [PlacedData]>
        ensures part { IfSome result (λ x. x.now ≡ part_of self.now.data_commands.now from (to - from)) }
        ensures long { IfSome result (λ x. from + length x.now ≡ to) }
        ensures there { from ≤ to → to ≤ length self.now.data_commands.now → IsSome result }
    {
        let count = to.checked_sub(from)?;
        part(self.data_commands, from, count)
    }

    /// Where the input sections of the output section of a number start; `from` come in the output sections before it.
    pub fn starts_of(&self, number: usize, from: usize) -> Option<&'a [u64]>
        ensures are { IfSome result (λ x. AreStartsOf self.now number from x.now) }
        ensures room { IfSome result (λ x. from + length x.now < 2 ^ 64) }
        ensures there { HasStarts (earlier_of self.now) number from → IsSome result }
    {
        let count = *self.counts.get(number)?;
        part(self.starts, from, count)
    }

    /// The output section of a number, if none was placed anew so far: its data commands are those from a number to
    /// another, and its input sections those from this one on, the first entries of its row. `None` if the layout has
    /// no such output section.
    pub(crate) fn next_section(
        &self,
        placed: &[Closed<'_>],
        number: usize,
        start: usize,
        commands: Range<usize>,
        output: &'a OutputSection,
        row: &'a [Piece],
    ) -> Option<ReusedOutput<'a>>
        ensures first { IfSome result (λ _. placed.now ≡ []) }
        ensures is { IfSome result (λ t.
            IsSectionOf self.now number start output.now row.now t.data_commands.now t) }
        ensures part { IfSome result (λ t. t.data_commands.now
            ≡ part_of self.now.data_commands.now commands.start (commands.end - commands.start)) }
        ensures room { IfSome result (λ t. start + length t.starts.now < 2 ^ 64) }
        ensures long { IfSome result (λ t. commands.start + length t.data_commands.now ≡ commands.end) }
        ensures there { placed.now ≡ [] → HasSection (earlier_of self.now) number start row.now
            → commands.start ≤ commands.end → commands.end ≤ length self.now.data_commands.now → IsSome result }
    {
        if !placed.is_empty() {
            return None;
        }
        let commands = self.data_between(commands.start, commands.end)?;
        self.section(number, start, output, row, commands)
    }

    /// The output section of a number, whose input sections are those from this one on: the first entries of its row.
    fn section(
        &self,
        number: usize,
        start: usize,
        output: &'a OutputSection,
        row: &'a [Piece],
        data_commands: &'a [PlacedData],
    ) -> Option<ReusedOutput<'a>>
        ensures is { IfSome result (λ t. IsSectionOf self.now number start output.now row.now data_commands.now t) }
        ensures room { IfSome result (λ t. start + length t.starts.now < 2 ^ 64) }
        ensures there { HasSection (earlier_of self.now) number start row.now → IsSome result }
    {
        let placed = self.sections.get(number)?;
        let starts = self.starts_of(number, start)?;
        placed.start.checked_add(placed.size)?;
        if row.len() < starts.len() {
            return None;
        }
        Some(ReusedOutput {
            output,
            placed,
            starts,
            row,
            data_commands,
        })
    }
}
