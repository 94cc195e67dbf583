//! Which sections of the objects of a link stayed where the previous link has them: found once, for all of them.

ghost use Rattle.std.specs.Prelude.{◌≡◌, ◌&&◌, ◌||◌, ℕ, IfOk, None, OnOk, Some, is_some, false, not, true};
ghost use Rattle.std.specs.Prelude.{slice_index_or};
ghost use Rattle.relink_driver.specs.SameStarts.{HaveSameStarts, same_address};
ghost use Rattle.relink_driver.specs.PreviousLink.{previous_of, previous_state};
ghost use Rattle.relink_driver.specs.StayedColumn.{AreFlagsAdded, IsStayedColumn, HasStayedOrIsOut};
ghost use Rattle.relink_driver.specs.StayedColumn.{IsWhollyStayedColumn, HasWhollyStayedIn};
ghost use Rattle.relink_driver.specs.StayedColumn.{flag_of, stayed_between, has_stayed_number, stayed_in};
ghost use Rattle.relink_driver.specs.StayedColumn.{wholly_stayed_in};

use crate::section_location::{range_if_stayed, same_starts};
use crate::stayed_sections::PreviousView;
use elfobj::section::SectionIndex;
use growth::{NoMemory, vec};
use ldmodel::names::ObjectPlace;
use ldmodel::placed::OutputIndex;
use place::LinkLayout;
use place::indexed_layout::{IndexedLayout, SectionAddress};
use std::alloc::Global;

/// Where the flags of an object lie.
#[derive(Clone, Copy)]
struct FlagSlice {
    /// The first one.
    begin: usize,
    /// How many there are: those of the header numbers up to that of the last linked section, or none.
    count: usize,
}

/// For each section of each object of a link whether it stayed where the previous link has it, by the object's place
/// and the section's header number.
#[derive(Drop)]
pub(crate) struct StayedColumn {
    /// Under the place of each object where its flags lie.
    slices: Vec<FlagSlice>,
    /// The flags, one object after another.
    flags: Vec<bool>,
    /// Under the place of each object whether all its sections that are in the output stayed.
    all_stayed: Vec<bool>,
}

/// Whether two addresses are the same.
#[inline(always)]
fn is_same_address(before: SectionAddress, now: SectionAddress) -> bool
    ensures { result ≡ same_address before now }
{
    before.start == now.start && before.size == now.size && before.section == now.section
}

/// The flag of an output section; not set past the end of the list.
#[inline(always)]
fn is_set(with_same_start: &[bool], section: OutputIndex) -> bool
    ensures { result ≡ slice_index_or with_same_start.now section.0 false }
{
    with_same_start
        .get(section.0 as usize)
        .copied()
        .unwrap_or(false)
}

/// Whether an input section is at the same address in both links, in an output section whose flag is set.
#[inline(always)]
fn is_at_same_start(before: SectionAddress, now: SectionAddress, with_same_start: &[bool]) -> bool
    ensures { result ≡ (same_address before now && slice_index_or with_same_start.now now.section.0 false) }
{
    is_same_address(before, now) && is_set(with_same_start, now.section)
}

/// The address that an input section starts at.
fn start_of(address: SectionAddress) -> u64
    ensures { result ≡ address.start }
{
    address.start
}

/// Whether an input section that is at `now` and was at `before` in the previous link stayed. `with_same_start` says of
/// each output section whether it is known to start where it did. File ranges are computed only in the others.
#[inline(always)]
fn has_same_location(
    previous: &LinkLayout,
    before: SectionAddress,
    link_layout: &LinkLayout,
    now: SectionAddress,
    with_same_start: &[bool],
) -> bool
    requires with_same_start { HaveSameStarts previous.now link_layout.now with_same_start.now }
    ensures { result ≡ is_some (stayed_between previous.now (Some before) link_layout.now (Some now)) }
{
    // for the prover: brings in that an address fits a u64
    let _start = start_of(now);
    if is_at_same_start(before, now, with_same_start) {
        return true;
    }
    range_if_stayed(previous, before, link_layout, now).is_some()
}

/// Whether an input section that is at `now` and was at `before` in the previous link stayed, if it was in both.
#[inline(always)]
fn is_stayed(
    previous: &LinkLayout,
    before: Option<SectionAddress>,
    link_layout: &LinkLayout,
    now: Option<SectionAddress>,
    with_same_start: &[bool],
) -> bool
    requires with_same_start { HaveSameStarts previous.now link_layout.now with_same_start.now }
    ensures { result ≡ is_some (stayed_between previous.now before link_layout.now now) }
{
    let Some(before) = before else {
        return false;
    };
    let Some(now) = now else {
        return false;
    };
    has_same_location(previous, before, link_layout, now, with_same_start)
}

/// The address of a section by its header number; none past the end of the list.
#[inline(always)]
fn address_at(addresses: &[Option<SectionAddress>], number: usize) -> Option<SectionAddress>
    ensures { result ≡ slice_index_or addresses.now number None }
{
    addresses.get(number).copied().unwrap_or(None)
}

/// Whether `all_stayed` holds, and a section that is at `now` stayed, if it is in the output.
#[inline(always)]
fn all_stayed_with(all_stayed: bool, stayed: bool, now: Option<SectionAddress>) -> bool
    ensures { result ≡ (all_stayed && (stayed || not (is_some now))) }
{
    all_stayed && (stayed || now.is_none())
}

/// Adds the flags of the sections of an object, which are at `now` and were at `before`; says whether all that are in
/// the output stayed. Fails where memory runs out.
fn add_flags(
    previous: &LinkLayout,
    before: &[Option<SectionAddress>],
    link_layout: &LinkLayout,
    now: &[Option<SectionAddress>],
    with_same_start: &[bool],
    flags: &mut Vec<bool>,
) -> Result<bool, NoMemory>
    requires with_same_start { HaveSameStarts previous.now link_layout.now with_same_start.now }
    ensures flags { OnOk result (AreFlagsAdded
        (λ k. is_some (stayed_between previous.now (slice_index_or before.now k None)
        link_layout.now (slice_index_or now.now k None))) flags.old.items flags.new.items) }
    ensures all_stayed { IfOk result (λ all_stayed. all_stayed ≡ true → (k : ℕ)
        → HasStayedOrIsOut (is_some (stayed_between previous.now (slice_index_or before.now k None) link_layout.now
        (slice_index_or now.now k None))) (slice_index_or now.now k None)) }
{
    let count = now.len();
    vec::reserve(flags, count)?;
    let mut all_stayed = true;
    for number in 0..count {
        let address_before = address_at(before, number);
        let address_now = address_at(now, number);
        let stayed = is_stayed(
            previous,
            address_before,
            link_layout,
            address_now,
            with_same_start,
        );
        all_stayed = all_stayed_with(all_stayed, stayed, address_now);
        flags.push_reserved(stayed);
    }
    Ok(all_stayed)
}

/// Adds the flags of the sections of an object; none where the previous link does not have it. Says whether all that
/// are in the output are known to have stayed. Fails where memory runs out.
fn add_object(
    previous: &PreviousView<'_>,
    indexed_layout: &IndexedLayout,
    object: ObjectPlace,
    with_same_start: &[bool],
    flags: &mut Vec<bool>,
) -> Result<bool, NoMemory>
    requires with_same_start { HaveSameStarts previous.now.snapshot.now.indexed_layout.link_layout
        indexed_layout.now.link_layout with_same_start.now }
    ensures flags { OnOk result (AreFlagsAdded
        (has_stayed_number (previous_state previous.now) indexed_layout.now object.0)
        flags.old.items flags.new.items) }
    ensures all_stayed { IfOk result (λ all_stayed. all_stayed ≡ true
        → HasWhollyStayedIn (previous_state previous.now) indexed_layout.now object.0) }
{
    let Some(origin) = previous.origin(object) else {
        return Ok(false);
    };
    let layout_before = &previous.snapshot.indexed_layout;
    let before = layout_before.addresses_of(ObjectPlace(origin));
    let now = indexed_layout.addresses_of(object);
    let all_stayed = add_flags(
        &layout_before.link_layout,
        before,
        &indexed_layout.link_layout,
        now,
        with_same_start,
        flags,
    )?;
    Ok(all_stayed)
}

/// The column beside a previous link. Fails where memory runs out.
fn column_beside(
    alloc: Global,
    previous: &PreviousView<'_>,
    indexed_layout: &IndexedLayout,
) -> Result<StayedColumn, NoMemory>
    ensures flags { IfOk result (IsStayedColumn (Some (previous_state previous.now)) indexed_layout.now) }
    ensures all_stayed { IfOk result (IsWhollyStayedColumn (Some (previous_state previous.now)) indexed_layout.now) }
{
    let objects = previous.origins.len();
    let layout_before = &previous.snapshot.indexed_layout;
    let with_same_start = same_starts(
        alloc,
        &layout_before.link_layout,
        &indexed_layout.link_layout,
    )?;
    let mut slices = vec::with_capacity(alloc, objects)?;
    let mut flags = Vec::new(alloc);
    let mut all_stayed = vec::with_capacity(alloc, objects)?;
    for place in 0..objects {
        let begin = flags.len();
        let has_wholly_stayed = add_object(
            previous,
            indexed_layout,
            ObjectPlace(place),
            &with_same_start,
            &mut flags,
        )?;
        let count = flags.len() - begin;
        vec::push(&mut slices, FlagSlice { begin, count })?;
        vec::push(&mut all_stayed, has_wholly_stayed)?;
    }
    Ok(StayedColumn {
        slices,
        flags,
        all_stayed,
    })
}

impl StayedColumn {
    /// Which sections of the objects of the link of this layout stayed. Without a previous link none has.
    ///
    /// # Errors
    ///
    /// If memory runs out.
    pub(crate) fn of(
        alloc: Global,
        previous: Option<PreviousView<'_>>,
        indexed_layout: &IndexedLayout,
    ) -> Result<StayedColumn, NoMemory>
        ensures flags { IfOk result (IsStayedColumn (previous_of previous.entry) indexed_layout.now) }
        ensures all_stayed { IfOk result (IsWhollyStayedColumn (previous_of previous.entry) indexed_layout.now) }
    {
        match previous {
            None => Ok(StayedColumn {
                slices: Vec::new(alloc),
                flags: Vec::new(alloc),
                all_stayed: Vec::new(alloc),
            }),
            Some(previous) => column_beside(alloc, &previous, indexed_layout),
        }
    }

    /// The flag of this number in the slice of an object.
    #[inline(always)]
    fn flag(&self, slice: FlagSlice, number: usize) -> bool
        ensures { result ≡ flag_of self.now.flags.items slice number }
    {
        if number >= slice.count {
            return false;
        }
        match slice.begin.checked_add(number) {
            None => false,
            Some(at) => self.flags.get(at).copied().unwrap_or(false),
        }
    }

    /// Whether all sections of an object that are in the output are known to have stayed.
    pub(crate) fn has_wholly_stayed(&self, object: ObjectPlace) -> bool
        ensures { result ≡ wholly_stayed_in self.now object.0 }
    {
        self.all_stayed.get(object.0).copied().unwrap_or(false)
    }

    /// Whether a section of an object stayed.
    #[inline(always)]
    pub(crate) fn has_stayed(&self, object: ObjectPlace, section: SectionIndex) -> bool
        ensures { result ≡ stayed_in self.now object.0 section.0 }
    {
        match self.slices.get(object.0) {
            None => false,
            Some(slice) => self.flag(*slice, usize::from(section.0)),
        }
    }
}
