//! The output sections that are in their places.

ghost use Rattle.std.specs.Prelude.{◌≡◌, ◌+◌, [], ◌∷◌, ◌++◌, length, IfOk, OnOk, IfSome, find, true};
ghost use Rattle.std.specs.Prelude.{bytes_eq, map, option_map, slice_get, if◌then◌else◌, Some};
ghost use Rattle.std.specs.Option.{option_copied};
ghost use Rattle.ldscript.specs.statements.Given.{section_number};
ghost use Rattle.ldmodel.specs.Arithmetic.{minus_modulo};
ghost use Rattle.ldmodel.specs.Placement.{same_region};
ghost use Rattle.place_terms.specs.PreviousLayout.{earlier_of, IsWithTaken};
ghost use Rattle.place_terms.specs.Keyed.{KeyedSection};
ghost use Rattle.place_terms.specs.Outputs.{HasNext, IsOutput};
ghost use Rattle.place_terms.specs.SectionTable.{both, keyed, difference_by, section_names};
ghost use Rattle.place_terms.specs.SectionTable.{Ends, Fits, IsDifferenceSlot};
ghost use Rattle.place_terms.specs.Tables.{AreInOrder};
ghost use Rattle.place_terms.specs.Wholes.{all_data_in, counts_in, placed_in, starts_in};

use crate::guesses::Guesses;
use crate::previous_layout::{PreviousLayout, ReusedOutput, first};
use growth::{NoMemory, impossible, vec};
use ldmodel::placed::Placed;
use ldmodel::rows::Piece;
use ldscript::Script;
use ldscript::tree::{OutputSection, Width};
use std::alloc::Global;
use std::marker::Model;

/// An input section in its place.
#[derive(Clone, Copy)]
pub struct PieceAt<'a> {
    /// The first address.
    pub start: u64,
    /// The entry of a row.
    pub piece: &'a Piece,
}

/// A data command in its place.
#[derive(Clone, Copy)]
pub struct DataAt {
    /// The address of its first byte.
    pub start: u64,
    /// How many bytes it has.
    pub width: Width,
    /// The number whose lowest bytes these are.
    pub value: u64,
}

/// An output section that was placed in this layout.
#[derive(Drop)]
pub struct Closed<'a> {
    /// What the script says of it.
    pub output: &'a OutputSection,
    /// The numbers of the output section.
    pub placed: Placed,
    /// The input sections.
    pub pieces: Vec<PieceAt<'a>>,
    /// The data commands.
    pub data_commands: Vec<DataAt>,
}

/// The output sections that are in their places, in the order of the text, and for each memory region how far the last
/// of those in it lies from where it is loaded.
#[derive(Drop)]
pub struct Sections<'a> {
    script: &'a Script,
    earlier: PreviousLayout<'a>,
    /// The output sections that are taken over from the previous layout, which come first.
    taken: Vec<ReusedOutput<'a>>,
    /// How many input sections are in those that are taken over.
    taken_count: usize,
    list: Vec<Closed<'a>>,
    count: usize,
    data_count: usize,
    differences: Vec<u64>,
    elsewhere: u64,
    /// Guesses at the places of names in the list.
    guesses: Guesses,
}

impl<'a> Model for Sections<'a> {
    ghost use Rattle.place_terms.specs.Outputs.{Outputs};
    ghost use Rattle.std.specs.Coded.{codes};
    ghost use Rattle.ldscript.specs.statements.contracts.formula.Formula as formula;

    ghost Value = { Outputs };

    ghost coded = { Prim.hlevel (codes, formula.the_row.coded) };

    ghost use Rattle.std.specs.Prelude.{length};
    ghost use Rattle.place_terms.specs.PreviousLayout.{earlier_of, AreTaken};
    ghost use Rattle.place_terms.specs.SectionTable.{both, AreSectionsOf};

    ghost view = { λ s. record {
      script = s.script.now;
      earlier = earlier_of s.earlier;
      list = both s.taken.items s.list.items;
      placed = length s.list.items;
    } };

    ghost invariant = { λ s.
        AreSectionsOf s.script.now (both s.taken.items s.list.items) s.differences.items s.elsewhere s.count
        s.data_count × AreTaken (earlier_of s.earlier) s.taken.items s.taken_count };
}

/// Output sections in their places: those that are taken over from a previous layout, and then those that were placed.
#[derive(Clone, Copy)]
pub struct SectionParts<'s, 'a> {
    /// The numbers of the output sections that are taken over.
    pub sections: &'s [Placed],
    /// How many input sections each of these has.
    pub counts: &'s [usize],
    /// Where the input sections of these start, output section by output section.
    pub starts: &'s [u64],
    /// The output sections that are taken over.
    pub taken: &'s [ReusedOutput<'a>],
    /// The output sections that were placed.
    pub placed: &'s [Closed<'a>],
}

/// The number of the output section of a name, of which the guess is looked at first.
fn number_of(
    script: &Script,
    taken: &[ReusedOutput<'_>],
    list: &[Closed<'_>],
    guesses: &Guesses,
    name: &[u8],
) -> Option<usize>
    requires { AreInOrder (section_number script.now) (section_names (both taken.now list.now)) }
    ensures { result ≡ section_number script.now name.now }
{
    if let Some(place) = guesses.number(name) {
        if let Some(guessed) = list.get(place) {
            if guessed.output.name.as_bytes() == name {
                return Some(taken.len() + place);
            }
        }
    }
    script.section_number(name)
}

/// The numbers of the output section of this number, if there is one.
fn placed_at(taken: &[ReusedOutput<'_>], list: &[Closed<'_>], number: usize) -> Option<Placed>
    ensures { result ≡ option_map (λ (x : KeyedSection). x.placed) (slice_get (both taken.now list.now) number) }
{
    match number.checked_sub(taken.len()) {
        Some(place) => match list.get(place) {
            Some(section) => Some(section.placed),
            None => None,
        },
        None => Some(*taken[number].placed),
    }
}

/// Where the difference of an output section is kept.
#[derive(Clone, Copy)]
enum DifferenceSlot {
    /// Beside the table: the output section names no region.
    Elsewhere,
    /// In the table, under the number of the region.
    At(usize),
    /// Nowhere: the table has no place for a region that the script does not declare, and no script names one.
    Nowhere,
}

/// Where the difference of an output section is kept, beside or in a table of `count` differences.
fn difference_slot(script: &Script, count: usize, output: &OutputSection) -> DifferenceSlot
    ensures { IsDifferenceSlot script.now count output.now.region result }
{
    match &output.region {
        None => DifferenceSlot::Elsewhere,
        Some(region) => match script.region_number(region.as_bytes()) {
            Some(number) => {
                if number < count {
                    DifferenceSlot::At(number)
                } else {
                    DifferenceSlot::Nowhere
                }
            }
            None => DifferenceSlot::Nowhere,
        },
    }
}

/// The difference of an output section that names a region, else that of those before it.
fn next_difference(output: &OutputSection, placed: &Placed, region: &[u8], before: u64) -> u64
    ensures { result ≡ if same_region output.now.region (Some region.now)
        then minus_modulo placed.now.start placed.now.load else before }
{
    match &output.region {
        Some(name) => {
            if name.as_bytes() == region {
                placed.start.wrapping_sub(placed.load)
            } else {
                before
            }
        }
        None => before,
    }
}

/// The difference of the last output section that names a region, looked for among all.
fn last_difference(taken: &[ReusedOutput<'_>], list: &[Closed<'_>], region: &[u8]) -> u64
    ensures { result ≡ difference_by (both taken.now list.now) (Some region.now) }
{
    let mut difference = 0;
    for section in taken {
        difference = next_difference(section.output, section.placed, region, difference);
    }
    for section in list {
        difference = next_difference(section.output, &section.placed, region, difference);
    }
    difference
}

/// The sum of two counts of what is in memory, for which there is room in a count.
fn sum(count: usize, more: usize) -> Result<usize, NoMemory>
    ensures { IfOk result (λ n. n ≡ count + more) }
{
    match count.checked_add(more) {
        Some(sum) => Ok(sum),
        // A list of that length does not fit into memory
        None => Err(impossible()),
    }
}

impl<'a> Sections<'a> {
    /// No output section of this script yet. `count` says about how many there will be, and `taken` how many of them
    /// will be taken over from a previous layout.
    pub fn new(
        alloc: Global,
        script: &'a Script,
        count: usize,
        earlier: PreviousLayout<'a>,
        taken: usize,
    ) -> Result<Sections<'a>, NoMemory>
        ensures script { IfOk result (λ s. s.script ≡ script.now) }
        ensures earlier { IfOk result (λ s. s.earlier ≡ earlier_of earlier.entry) }
        ensures none { IfOk result (λ s. s.list ≡ []) }
        ensures placed { IfOk result (λ s. s.placed ≡ 0) }
    {
        let regions = script.regions(alloc)?;
        let differences = vec::from_elem(alloc, 0, regions.len())?;
        let placed = count.saturating_sub(taken);
        let guesses = Guesses::new(alloc, placed)?;
        let list = vec::with_capacity(alloc, placed)?;
        let taken = vec::with_capacity(alloc, taken.min(count))?;
        Ok(Sections {
            script,
            earlier,
            taken,
            taken_count: 0,
            list,
            count: 0,
            data_count: 0,
            differences,
            elsewhere: 0,
            guesses,
        })
    }

    /// All output sections, in parts.
    pub fn parts(&self) -> SectionParts<'_, 'a>
        ensures all { both result.taken.now result.placed.now ≡ self.now.list }
        ensures sections { placed_in self.now.list
            ≡ result.sections.now ++ placed_in (map keyed result.placed.now) }
        ensures counts { counts_in self.now.list ≡ result.counts.now ++ counts_in (map keyed result.placed.now) }
        ensures starts { starts_in self.now.list ≡ result.starts.now ++ starts_in (map keyed result.placed.now) }
        ensures ends { Ends self.now.list }
    {
        let count = self.taken.len();
        SectionParts {
            sections: first(self.earlier.sections, count),
            counts: first(self.earlier.counts, count),
            starts: first(self.earlier.starts, self.taken_count),
            taken: &self.taken,
            placed: &self.list,
        }
    }

    /// How many output sections there are.
    pub fn len(&self) -> usize
        ensures { result ≡ length self.now.list }
    {
        self.taken.len() + self.list.len()
    }

    /// How many input sections are in the output sections.
    pub fn count(&self) -> usize
        ensures { result ≡ length (starts_in self.now.list) }
    {
        self.count
    }

    /// How many data commands are in the output sections.
    pub fn data_count(&self) -> usize
        ensures { result ≡ length (all_data_in 0 self.now.list) }
    {
        self.data_count
    }

    /// The numbers of the output section of a name.
    pub fn placed(&self, name: &[u8]) -> Option<Placed>
        ensures { result ≡ option_map (λ (x : KeyedSection).
            x.placed) (find (λ (x : KeyedSection). bytes_eq x.name name.now) self.now.list) }
    {
        match number_of(self.script, &self.taken, &self.list, &self.guesses, name) {
            Some(number) => placed_at(&self.taken, &self.list, number),
            None => None,
        }
    }

    /// How far the last output section of a region starts from where it is loaded, modulo 2^64. Output sections that
    /// name no region count as one region.
    pub fn difference(&self, region: Option<&[u8]>) -> u64
        ensures { result ≡ difference_by self.now.list (option_copied region.entry) }
    {
        match region {
            None => self.elsewhere,
            Some(name) => match self.script.region_number(name) {
                Some(number) => {
                    if number < self.differences.len() {
                        self.differences[number]
                    } else {
                        last_difference(&self.taken, &self.list, name)
                    }
                }
                None => last_difference(&self.taken, &self.list, name),
            },
        }
    }

    /// Adds the next output section of the script, which was placed in this layout.
    ///
    /// # Errors
    ///
    /// If memory runs out.
    pub fn push(&mut self, section: Closed<'a>) -> Result<(), NoMemory>
        requires fits { Fits (keyed section) }
        requires next { IsOutput self.now.script (length self.now.list) section.output.now }
        ensures script { self.new.script ≡ self.old.script }
        ensures earlier { self.new.earlier ≡ self.old.earlier }
        ensures pushed { OnOk result (self.new.list ≡ self.old.list ++ keyed section.entry ∷ []) }
    {
        // for the prover: brings in the invariant of `self.script`
        let _statements = self.script.statements();
        let difference_slot = difference_slot(self.script, self.differences.len(), section.output);
        let difference = section.placed.start.wrapping_sub(section.placed.load);
        let count = sum(self.count, section.pieces.len())?;
        let data_count = sum(self.data_count, section.data_commands.len())?;
        self.guesses
            .put(section.output.name.as_bytes(), self.list.len());
        vec::push(&mut self.list, section)?;
        self.count = count;
        self.data_count = data_count;
        match difference_slot {
            DifferenceSlot::Elsewhere => self.elsewhere = difference,
            DifferenceSlot::At(number) => self.differences[number] = difference,
            DifferenceSlot::Nowhere => {}
        }
        Ok(())
    }

    /// Adds the next output section of the script, which is taken over: its input sections are the first entries of its
    /// row, and with its own data commands there are as many as `data_end`. `false`, and none is added, if the
    /// previous layout has no such output section.
    ///
    /// # Errors
    ///
    /// If memory runs out.
    pub fn take(
        &mut self,
        output: &'a OutputSection,
        row: &'a [Piece],
        data_end: usize,
    ) -> Result<bool, NoMemory>
        requires next { IsOutput self.now.script (length self.now.list) output.now }
        ensures script { self.new.script ≡ self.old.script }
        ensures earlier { self.new.earlier ≡ self.old.earlier }
        ensures placed { self.new.placed ≡ self.old.placed }
        ensures taken { IfOk result (λ t. t ≡ true
            → IsWithTaken self.old.earlier self.old.list row.now output.now data_end self.new.list) }
        ensures there { HasNext self.old row.now data_end → IfOk result (λ t. t ≡ true) }
    {
        // for the prover: brings in the invariant of `self.script`
        let _statements = self.script.statements();
        let number = self.taken.len();
        let commands = self.data_count..data_end;
        let Some(section) = self
            .earlier
            .next_section(&self.list, number, self.count, commands, output, row)
        else {
            return Ok(false);
        };
        let difference_slot = difference_slot(self.script, self.differences.len(), output);
        let difference = section.placed.start.wrapping_sub(section.placed.load);
        let count = self.count + section.starts.len();
        vec::push(&mut self.taken, section)?;
        self.taken_count = count;
        self.count = count;
        self.data_count = data_end;
        match difference_slot {
            DifferenceSlot::Elsewhere => self.elsewhere = difference,
            DifferenceSlot::At(number) => self.differences[number] = difference,
            DifferenceSlot::Nowhere => {}
        }
        Ok(true)
    }
}
