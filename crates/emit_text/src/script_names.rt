//! The names of a script by their numbers.

ghost use Rattle.std.specs.Prelude.{◌≡◌, ℕ, List, slice_get, [], unwrap_or};
ghost use Rattle.std.specs.Option.{option_map};
ghost use Rattle.std.specs.Borrow.{Bor};
ghost use Rattle.ldscript.specs.Numbered.{shown_regions, shown_sections};
ghost use Rattle.emit_text.specs.Naming.{assertion_line, assertion_message, shown_assertions, shown_names};
ghost use Rattle.emit_text.specs.Naming.{section_name};
ghost use Rattle.emit_text.specs.Naming.{region_name};

use crate::assertion::AssertionAt;
use ldmodel::fault::{AssertionIndex, MentionIndex};
use ldmodel::placed::{OutputIndex, RegionIndex};
use ldscript::tree::{OutputSectionAt, Region};

/// The names of a script by their numbers, and the entry symbol's. `specs/Naming.antt` says whose names these are.
#[derive(Clone, Copy)]
pub struct ScriptNames<'a> {
    /// Its output sections, in the order of the text.
    pub sections: &'a [OutputSectionAt<'a>],
    /// Its memory regions, in the order of the text.
    pub regions: &'a [&'a Region],
    /// Its ASSERTs, in the order of the text.
    pub assertions: &'a [AssertionAt<'a>],
    /// The names that its expressions mention, in the order of the text.
    pub mentioned: &'a [&'a [u8]],
    /// The entry symbol of the link: that of the option, else that of ENTRY.
    pub entry: Option<&'a [u8]>,
}

impl<'a> ScriptNames<'a> {
    /// The name of an output section; no bytes for a number of none.
    pub(crate) fn section(&self, number: OutputIndex) -> &'a [u8]
        ensures { result.now ≡ section_name (slice_get (shown_sections self.now.sections.now) number.0) }
    {
        match self.sections.get(number.0 as usize) {
            Some(found) => found.section.name.as_bytes(),
            None => &[],
        }
    }

    /// The name of a memory region; no bytes for a number of none.
    pub(crate) fn region(&self, number: RegionIndex) -> &'a [u8]
        ensures { result.now ≡ region_name (slice_get (shown_regions self.now.regions.now) number.0) }
    {
        match self.regions.get(number.0 as usize) {
            Some(found) => found.name.as_bytes(),
            None => &[],
        }
    }

    /// A name that an expression mentions; no bytes for a number of none.
    pub(crate) fn mentioned(&self, number: MentionIndex) -> &'a [u8]
        ensures { result.now ≡ unwrap_or (slice_get (shown_names self.now.mentioned.now) number.0) [] }
    {
        match self.mentioned.get(number.0 as usize) {
            Some(name) => *name,
            None => &[],
        }
    }

    /// The name of the entry symbol; no bytes where the link has none.
    pub(crate) fn entry(&self) -> &'a [u8]
        ensures { result.now ≡ unwrap_or (option_map (λ (n : Bor (List ℕ)). n.now) self.now.entry) [] }
    {
        match self.entry {
            Some(name) => name,
            None => &[],
        }
    }

    /// The line of an ASSERT and its message; 0 and no bytes for a number of none.
    pub(crate) fn assertion(&self, number: AssertionIndex) -> (u32, &'a [u8])
        ensures line { result.0 ≡ assertion_line (slice_get (shown_assertions self.now.assertions.now) number.0) }
        ensures message { result.1.now
            ≡ assertion_message (slice_get (shown_assertions self.now.assertions.now) number.0) }
    {
        match self.assertions.get(number.0 as usize) {
            Some(found) => (found.line, found.assertion.message.as_bytes()),
            None => (0, &[]),
        }
    }
}
