//! The memory regions that a script has declared so far.

ghost use Rattle.std.specs.Prelude.{◌≡◌, [], ◌∷◌, ◌++◌, length, map, OnOk, Some, find, bytes_eq, option_map};
ghost use Rattle.ldmodel.specs.Layout.{MemoryRegion, region_named};
ghost use Rattle.ldmodel.specs.Placement.{freed_from};
ghost use Rattle.ldscript.specs.statements.Given.{region_number};
ghost use Rattle.place_terms.specs.RegionTable.{region_of, region_names};
ghost use Rattle.place_terms.specs.Tables.{AreInOrder};

use growth::{NoMemory, vec};
use ldscript::Script;
use std::alloc::Global;
use std::marker::Model;

/// A memory region.
#[derive(Clone, Copy)]
pub struct RegionState<'a> {
    /// The name.
    pub name: &'a [u8],
    /// The first address.
    pub origin: u64,
    /// How many bytes it has.
    pub extent: u64,
    /// The next free address.
    pub next: u64,
}

/// The memory regions that a script has declared so far, in the order of the text. A look-up takes the time of one in
/// the script's table of names; in any other order it would go through all regions.
#[derive(Drop)]
pub struct Regions<'a> {
    script: &'a Script,
    list: Vec<RegionState<'a>>,
    /// Whether the region at each index has that number. It has if statements are taken in their order.
    in_order: bool,
}

impl<'a> Model for Regions<'a> {
    ghost use Rattle.std.specs.Prelude.{◌≡◌, List, map, true};
    ghost use Rattle.ldmodel.specs.Layout.{MemoryRegion};

    ghost Value = { List MemoryRegion };

    ghost use Rattle.ldscript.specs.statements.Given.{region_number};
    ghost use Rattle.place_terms.specs.Tables.{AreInOrder};
    ghost use Rattle.place_terms.specs.RegionTable.{region_of, region_names};

    ghost view = { λ s. map region_of s.list.items };

    ghost invariant = { λ s. s.in_order ≡ true
        → AreInOrder (region_number s.script.now) (region_names (map region_of s.list.items)) };
}

/// The region of a name, if each stands under its number.
#[tactic(auto, using(crate::proofs::Found::region_past, crate::proofs::Found::region_unknown))]
fn numbered<'a>(script: &Script, list: &[RegionState<'a>], name: &[u8]) -> Option<RegionState<'a>>
    requires { AreInOrder (region_number script.now) (region_names (map region_of list.now)) }
    ensures { option_map region_of result ≡ region_named (map region_of list.now) name.now }
{
    match script.region_number(name) {
        Some(number) => match list.get(number) {
            Some(region) => Some(*region),
            None => None,
        },
        None => None,
    }
}

/// The region of a name, looked for among all.
fn find_region<'a>(list: &[RegionState<'a>], name: &[u8]) -> Option<RegionState<'a>>
    ensures { option_map region_of result ≡ region_named (map region_of list.now) name.now }
{
    for region in list {
        if region.name == name {
            return Some(*region);
        }
    }
    None
}

/// Sets the next free address of each region of a name.
fn free_all(list: &mut [RegionState<'_>], name: &[u8], next: u64)
    ensures { map region_of list.new ≡ freed_from (Some name.now) next (map region_of list.old) }
{
    for region in list.iter_mut() {
        if region.name == name {
            region.next = next;
        }
    }
}

impl<'a> Regions<'a> {
    /// No region of this script.
    pub fn new(alloc: Global, script: &'a Script) -> Regions<'a>
        ensures { result ≡ [] }
    {
        Regions {
            script,
            list: Vec::new(alloc),
            in_order: true,
        }
    }

    /// The region of a name.
    pub fn get(&self, name: &[u8]) -> Option<RegionState<'a>>
        ensures { option_map region_of result ≡ region_named self.now name.now }
    {
        if self.in_order {
            numbered(self.script, &self.list, name)
        } else {
            find_region(&self.list, name)
        }
    }

    /// Adds a region, whose next free address is where it begins.
    ///
    /// # Errors
    ///
    /// If memory runs out.
    pub fn push(&mut self, name: &'a [u8], origin: u64, extent: u64) -> Result<(), NoMemory>
        ensures pushed { OnOk result (self.new ≡ self.old
            ++ record { name = name.now; origin = origin; extent = extent; next = origin } ∷ []) }
    {
        let is_next = self.script.region_number(name) == Some(self.list.len());
        vec::push(
            &mut self.list,
            RegionState {
                name,
                origin,
                extent,
                next: origin,
            },
        )?;
        if !is_next {
            self.in_order = false;
        }
        Ok(())
    }

    /// Sets the next free address of a region.
    #[tactic(auto, using(crate::proofs::Found::freed_there, crate::proofs::Found::freed_past, crate::proofs::Found::freed_unknown, crate::proofs::Found::freed_in_order))]
    pub fn free_from(&mut self, name: &[u8], next: u64)
        ensures { self.new ≡ freed_from (Some name.now) next self.old }
    {
        if self.in_order {
            if let Some(number) = self.script.region_number(name) {
                if number < self.list.len() {
                    self.list[number].next = next;
                }
            }
        } else {
            free_all(&mut self.list, name, next);
        }
    }

    /// All regions, in the order of the text.
    pub fn as_slice(&self) -> &[RegionState<'a>]
        ensures { map region_of result.now ≡ self.now }
    {
        &self.list
    }
}
