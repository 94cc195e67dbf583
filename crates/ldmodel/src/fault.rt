//! The faults of a link, as layers exchange them: small values with numbers and keys in place of names.
//! `specs/FaultCode.antt` says which fault of the definitions each one is.

use crate::names::{Entry, ObjectPlace};
use crate::placed::{OutputIndex, RegionIndex};
use crate::sections::SectionRef;
use elfobj::section::SectionIndex;

/// A name that the script's expressions mention: its index among all mentions, in the order of the text.
#[derive(Clone, Copy, Debug, PartialEq, Eq)]
pub struct MentionIndex(pub u32);

/// An `ASSERT`: its index among those of the script.
#[derive(Clone, Copy, Debug, PartialEq, Eq)]
pub struct AssertionIndex(pub u32);

/// What defines a name first.
#[derive(Clone, Copy, Debug, PartialEq, Eq)]
pub enum Definer {
    /// An assignment in the script.
    Script,
    /// A global definition in this object.
    Object(ObjectPlace),
}

/// A relocation: its object, section and entry.
#[derive(Clone, Copy, Debug, PartialEq, Eq)]
pub struct SiteRef {
    /// The object.
    pub object: ObjectPlace,
    /// The section that it relocates.
    pub section: SectionIndex,
    /// The index of its entry among the relocations of the section, in the order of the table.
    pub entry: u32,
}

/// A fault of a link. Lines are lines of the script, from 1.
#[derive(Clone, Copy, Debug, PartialEq, Eq)]
pub enum Fault {
    /// `F1 NAME OBJECT FIRST`: an object defines a name once more.
    DuplicateDefinition {
        /// The definition that is not the first.
        entry: Entry<ObjectPlace>,
        /// What defines the name first.
        first: Definer,
    },
    /// `F2 NAME`: nothing defines the entry symbol.
    UndefinedEntry,
    /// `F3 OBJECT SECTION`: no input statement takes this input section.
    Orphan(SectionRef),
    /// `F4 LINE NAME`: an expression names a symbol or an output section that is not complete there.
    NotReady {
        /// The line of the statement.
        line: u32,
        /// The name.
        name: MentionIndex,
    },
    /// `F5 LINE`: a division by 0, or an `ALIGN` to what is no power of two.
    NoValue {
        /// The line of the statement.
        line: u32,
    },
    /// `F6 LINE`: `.` goes back inside an output section.
    MovedBack {
        /// The line of the statement.
        line: u32,
    },
    /// `F7 SECTION REGION`: an output section does not fit into its memory region.
    RegionFull {
        /// The output section.
        section: OutputIndex,
        /// The region.
        region: RegionIndex,
    },
    /// `F8 LINE`: an address, an end or `.` is 2^64 or more.
    PastAddressSpace {
        /// The line of the statement.
        line: u32,
    },
    /// `F9 SECTION EARLIER`: two output sections share an address.
    AddressesOverlap {
        /// The later one.
        section: OutputIndex,
        /// The first one that it overlaps.
        earlier: OutputIndex,
    },
    /// `F10 SECTION EARLIER`: two output sections share a load address.
    LoadAddressesOverlap {
        /// The later one.
        section: OutputIndex,
        /// The first one that it overlaps.
        earlier: OutputIndex,
    },
    /// `F11 LENGTH`: the image would have more than 2^28 bytes.
    ImageTooLong {
        /// The length of the image; padding can carry it past 2^64.
        length: u128,
    },
    /// `F12 OBJECT SECTION OFFSET NAME`: nothing defines the symbol of a relocation.
    UndefinedSymbol(SiteRef),
    /// `F13 OBJECT SECTION OFFSET INDEX`: the section of a relocation's symbol is not in the output.
    TargetNotInOutput(SiteRef),
    /// `F13 entry`: the section of the entry symbol is not in the output.
    EntryNotInOutput,
    /// `F14 OBJECT SECTION OFFSET TYPE VALUE`: the value of a relocation is out of the range of its kind.
    FieldOverflow {
        /// The relocation.
        site: SiteRef,
        /// The value of the relocation, modulo 2^64.
        value: u64,
    },
    /// `F15 LINE MESSAGE`: the condition of an `ASSERT` does not hold.
    AssertionFailed(AssertionIndex),
}
