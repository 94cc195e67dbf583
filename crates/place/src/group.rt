//! Output sections that share a segment, before their file offsets are known.

ghost use Rattle.std.specs.Prelude.{◌≡◌, ℕ, ◌+◌, ◌-◌, ◌<◌, ◌^◌, List, IfOk, OnOk, cond, ◌==◌};
ghost use Rattle.std.specs.List.{All};
ghost use Rattle.ldmodel.specs.Segments.{shares_segment};
ghost use Rattle.place.specs.Grouping.{Ends, AreGroups, Takes, bare, begun, joined};

use growth::{NoMemory, vec};
use ldmodel::placed::{OutputIndex, Placed};
use place_terms::output_number::output_index;
use std::alloc::Global;

/// The size of a page.
pub(crate) const PAGE_SIZE: u64 = 4096;

/// Output sections that are loaded as one.
#[derive(Clone, Copy, Debug)]
pub(crate) struct Group {
    /// The address of the first one.
    pub(crate) start: u64,
    /// The load address of the first one.
    pub(crate) load: u64,
    /// How many bytes they have in the file.
    pub(crate) file_size: u64,
    /// How many bytes they have in memory.
    pub(crate) memory_size: u64,
    /// The output sections may be written.
    pub(crate) writable: bool,
    /// The output sections hold code.
    pub(crate) executable: bool,
    /// The first output section.
    pub(crate) first: OutputIndex,
    /// The last one.
    pub(crate) last: OutputIndex,
}

/// Whether an output section joins the segment of the one before it.
fn is_shared(before: &Placed, section: &Placed) -> bool
    ensures { result ≡ shares_segment (bare before.now) (bare section.now) }
{
    let end = u128::from(before.start) + u128::from(before.size);
    let start = u128::from(section.start);
    before.writable == section.writable
        && before.executable == section.executable
        && before.start.wrapping_sub(before.load) == section.start.wrapping_sub(section.load)
        && end <= start
        && start < end + u128::from(PAGE_SIZE)
        && !(section.has_file_bytes && !before.has_file_bytes)
}

/// The group of an output section alone.
fn begin(number: OutputIndex, section: &Placed) -> Group
    ensures { result ≡ begun number section.now }
{
    Group {
        start: section.start,
        load: section.load,
        file_size: size_in_file(section, section.size, 0),
        memory_size: section.size,
        writable: section.writable,
        executable: section.executable,
        first: number,
        last: number,
    }
}

/// The size in the file up to this section: `reach` if it has bytes in the file, else as before.
fn size_in_file(section: &Placed, reach: u64, before: u64) -> u64
    ensures { result ≡ cond section.now.has_file_bytes reach before }
{
    if section.has_file_bytes {
        reach
    } else {
        before
    }
}

/// A group and one more output section.
fn join(group: Group, number: OutputIndex, section: &Placed) -> Group
    requires { section.now.start + section.now.size < 2 ^ 64 }
    ensures { result ≡ joined group number section.now }
{
    let reach = (section.start + section.size).saturating_sub(group.start);
    Group {
        file_size: size_in_file(section, reach, group.file_size),
        memory_size: reach,
        last: number,
        ..group
    }
}

/// A group that may go on, and its last output section.
#[derive(Clone, Copy, Debug)]
pub(crate) struct Running {
    pub(crate) group: Group,
    pub(crate) last: Placed,
}

/// The groups of the output sections so far.
#[derive(Drop)]
struct Grouping {
    done: Vec<Group>,
    running: Option<Running>,
}

impl Grouping {
    /// Adds an output section.
    fn take(&mut self, number: usize, section: &Placed) -> Result<(), NoMemory>
        requires { section.now.start + section.now.size < 2 ^ 64 }
        ensures { OnOk result (Takes self.old.done.items self.old.running number section.now
            self.new.done.items self.new.running) }
    {
        if section.size == 0 {
            return Ok(());
        }
        let number = output_index(number)?;
        match self.running {
            Some(running) => {
                if is_shared(&running.last, section) {
                    self.running = Some(Running {
                        group: join(running.group, number, section),
                        last: *section,
                    });
                } else {
                    vec::push(&mut self.done, running.group)?;
                    self.running = Some(Running {
                        group: begin(number, section),
                        last: *section,
                    });
                }
            }
            None => {
                self.running = Some(Running {
                    group: begin(number, section),
                    last: *section,
                });
            }
        }
        Ok(())
    }
}

/// Output sections of nonzero size, in groups: two neighbours are in one if they share a segment.
pub(crate) fn groups(alloc: Global, sections: &[Placed]) -> Result<Vec<Group>, NoMemory>
    requires { Ends sections.now }
    ensures { IfOk result (λ v. AreGroups sections.now v.items) }
{
    let mut grouping = Grouping {
        done: Vec::new(alloc),
        running: None,
    };
    for (number, section) in sections.iter().enumerate() {
        grouping.take(number, section)?;
    }
    match grouping.running {
        Some(running) => {
            vec::push(&mut grouping.done, running.group)?;
            Ok(grouping.done)
        }
        None => Ok(grouping.done),
    }
}
