//! The end of an output section.

ghost use Rattle.std.specs.Prelude.{◌+◌, ◌++◌, [], ◌∷◌, length, OnOk, ◌≡◌, ◌==◌, ◌&&◌, ◌||◌, if◌then◌else◌, not};
ghost use Rattle.std.specs.Option.{option_copied, option_and_then};
ghost use Rattle.ldmodel.specs.Layout.{region_named};
ghost use Rattle.ldmodel.specs.Placement.{freed_from, has_contents, has_flag, is_within, load_region};
ghost use Rattle.ldmodel.specs.Placement.{placed_section, section_end, with_room};
ghost use Rattle.place_terms.specs.Keyed.{KeyedSection, section_of};
ghost use Rattle.place_terms.specs.Naming.{Naming};
ghost use Rattle.place_terms.specs.Outputs.{IsOutput};
ghost use Rattle.place_terms.specs.RegionTable.{region_of};
ghost use Rattle.place_terms.specs.SectionTable.{keyed, Fits};
ghost use Rattle.place_sections.specs.Ends.{body_alone, ended_body, load_end};
ghost use Rattle.place_sections.specs.Heads.{head_from, Yields};
ghost use Rattle.place_sections.specs.State.{layout_of, Gives};

use crate::head::{Head, region_name};
use crate::state::{LayoutCursor, PlacedOutputs};
use crate::stop::LayoutStop;
use elfobj::file::constants::{SHF_EXECINSTR, SHF_WRITE};
use ldmodel::placed::Placed;
use ldscript::tree::{Load, OutputSection};
use place_terms::pieces::{any_in_file, any_with_flag};
use place_terms::regions::{RegionState, Regions};
use place_terms::sections::Closed;
use std::alloc::Global;

/// The region of `AT>region`.
pub(crate) fn load_region_name(section: &OutputSection) -> Option<&[u8]>
    ensures { option_copied result ≡ load_region section.now.load }
{
    match &section.load {
        Load::InRegion(name) => Some(name.as_bytes()),
        Load::Unstated | Load::At(_) => None,
    }
}

/// Whether a range of addresses lies in a region.
fn is_within(region: &RegionState<'_>, at: u64, size: u64) -> bool
    ensures { result ≡ is_within (region_of region.now) at size }
{
    let end = u128::from(at) + u128::from(size);
    let limit = u128::from(region.origin) + u128::from(region.extent);
    size == 0 || region.origin <= at && end <= limit
}

/// Finds that the region that is named, if any, has room for a range of addresses of an output section.
fn check_room<'a>(
    regions: &Regions<'a>,
    section: &Closed<'a>,
    name: Option<&[u8]>,
    at: u64,
    size: u64,
) -> Result<(), LayoutStop<'a>>
    ghost naming: { Naming }
    ensures { Yields (λ _. section_of naming (keyed section.now))
        (with_room (option_and_then (region_named regions.now) (option_copied name.entry)) at size
        (section_of naming (keyed section.now))) result }
{
    let Some(name) = name else {
        return Ok(());
    };
    let Some(region) = regions.get(name) else {
        return Ok(());
    };
    if is_within(&region, at, size) {
        Ok(())
    } else {
        Err(LayoutStop::RegionFull {
            section: section.output.name.as_bytes(),
            region: region.name,
        })
    }
}

/// Sets the next free address of a region, if one is named.
pub(crate) fn free(regions: &mut Regions<'_>, name: Option<&[u8]>, next: u64)
    ensures { regions.new ≡ freed_from (option_copied name.entry) next regions.old }
{
    if let Some(name) = name {
        regions.free_from(name, next);
    }
}

impl<'a> PlacedOutputs<'a> {
    /// The load end of an output section, for which its regions must have room.
    fn load_end(
        &self,
        line: u32,
        section: &Closed<'a>,
        output: &OutputSection,
    ) -> Result<u64, LayoutStop<'a>>
        ghost naming: { Naming }
        ensures { Yields (λ x. x) (load_end line output.now self.now.regions (section_of naming (keyed section.now)))
            result }
    {
        let at = section.placed;
        check_room(
            &self.regions,
            section,
            region_name(output),
            at.start,
            at.size,
        )?;
        check_room(
            &self.regions,
            section,
            load_region_name(output),
            at.load,
            at.load_size,
        )?;
        match at.load.checked_add(at.load_size) {
            Some(end) => Ok(end),
            None => Err(LayoutStop::PastAddressSpace { line }),
        }
    }
}

/// A size if a condition holds, else 0.
fn size_if(condition: bool, size: u64) -> u64
    ensures { result ≡ (if condition then size else 0) }
{
    if condition { size } else { 0 }
}

impl<'a> LayoutCursor<'a> {
    /// Whether an output section of this size has bytes in the file.
    fn has_file_bytes(&self, size: u64) -> bool
        ghost naming: { Naming }
        ensures { result ≡ (not (size == 0) && has_contents (body_alone naming self.now)) }
    {
        size != 0 && (!self.data_commands.is_empty() || any_in_file(&self.pieces))
    }

    /// Whether an output section of this size, with file bytes or not, may be written.
    fn is_writable(&self, size: u64, has_file_bytes: bool) -> bool
        ghost naming: { Naming }
        ensures { result ≡ (has_flag SHF_WRITE (body_alone naming self.now)
            || (not (size == 0) && not has_file_bytes)) }
    {
        any_with_flag(&self.pieces, SHF_WRITE) || size != 0 && !has_file_bytes
    }

    /// An output section after its body, with what has been placed in it.
    #[tactic(auto, unfolding(ldmodel::specs::Placement::placed_section))]
    fn close(&mut self, alloc: Global, output: &'a OutputSection, head: Head) -> Closed<'a>
        ghost naming: { Naming }
        ensures value { section_of naming (keyed result)
            ≡ placed_section output.now (head_from head) (body_alone naming self.old) }
        ensures fits { Fits (keyed result) }
        ensures pieces { length (keyed result).pieces ≡ length self.old.pieces.items }
        ensures output { result.output.now ≡ output.now }
        ensures dot { self.new.dot ≡ self.old.dot }
        ensures dots { self.new.dots.items ≡ self.old.dots.items }
        ensures inputs { self.new.inputs ≡ self.old.inputs }
        ensures symbols { self.new.symbols ≡ self.old.symbols }
        ensures anew { self.new.anew ≡ self.old.anew }
    {
        let size = self.dot.saturating_sub(head.start);
        let has_file_bytes = self.has_file_bytes(size);
        let placed = Placed {
            start: head.start,
            size,
            load: head.load,
            has_file_bytes,
            load_size: size_if(has_file_bytes, size),
            alignment: head.alignment,
            writable: self.is_writable(size, has_file_bytes),
            executable: any_with_flag(&self.pieces, SHF_EXECINSTR),
        };
        Closed {
            output,
            placed,
            pieces: std::mem::replace(&mut self.pieces, Vec::new(alloc)),
            data_commands: std::mem::replace(&mut self.data_commands, Vec::new(alloc)),
        }
    }

    /// The end of an output section.
    pub fn end(
        &mut self,
        alloc: Global,
        done: &mut PlacedOutputs<'a>,
        line: u32,
        output: &'a OutputSection,
        head: Head,
    ) -> Result<(), LayoutStop<'a>>
        ghost naming: { Naming }
        requires next { IsOutput done.now.sections.script (length done.now.sections.list) output.now }
        ensures anew { self.new.anew ≡ self.old.anew }
        ensures script { self.new.symbols.script ≡ self.old.symbols.script }
        ensures outputs { done.new.sections.script ≡ done.old.sections.script }
        ensures pushed { OnOk result ((section : KeyedSection)
            × (done.new.sections.list ≡ done.old.sections.list ++ section ∷ [])
            × (length section.pieces ≡ length self.old.pieces.items)) }
        ensures one { OnOk result (length done.new.sections.list ≡ length done.old.sections.list + 1) }
        ensures gives { Gives (section_end line output.now (head_from head) (ended_body naming self.old done.old))
            (layout_of naming self.new done.new) result }
    {
        let end = self.dot.max(head.start);
        let section = self.close(alloc, output, head);
        let load_end = done.load_end(line, &section, output)?;
        free(&mut done.regions, region_name(output), end);
        free(&mut done.regions, load_region_name(output), load_end);
        done.sections.push(section)?;
        Ok(())
    }
}
