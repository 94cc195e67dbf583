//! Options of a link.

ghost use Rattle.std.specs.Prelude.{◌≡◌, option_map};

use std::marker::Model;

/// The handling of orphans: nonempty sections that no statement of the script takes.
#[derive(Clone, Copy, Debug, PartialEq, Eq)]
pub enum Orphans {
    /// Each live one is a fault.
    Error,
    /// They are discarded.
    Discard,
}

/// The options of a link, the same for all links of a session.
#[derive(Debug, Drop)]
pub struct Options {
    gc: bool,
    entry: Option<Vec<u8>>,
    orphans: Orphans,
}

impl Model for Options {
    ghost use Rattle.std.specs.Prelude.{option_map};
    ghost use Rattle.ldmodel.specs.Options.{LinkOptions};

    ghost Value = { LinkOptions };

    ghost view = { λ o. record { gc = o.gc; entry = option_map (λ v. v.items) o.entry; orphans = o.orphans } };
}

impl Default for Options {
    ghost use Rattle.std.specs.Prelude.{◌≡◌};
    ghost use Rattle.ldmodel.specs.Options.{default_options};

    ghost is_default = { λ o. o ≡ default_options };

    /// The default options: no section is collected, the entry symbol is the script's, and orphans are faults.
    fn default() -> Options {
        Options::new(false, None, Orphans::Error)
    }
}

impl Options {
    /// Options: with `gc`, sections that the program cannot reach are discarded; `entry`, if any, is the entry symbol
    /// in place of that of the script's ENTRY; `orphans` is the handling of orphans.
    pub fn new(gc: bool, entry: Option<Vec<u8>>, orphans: Orphans) -> Options
        ensures { result ≡ record { gc = gc; entry = option_map (λ name. name.items) entry; orphans = orphans } }
    {
        Options { gc, entry, orphans }
    }

    /// Whether sections that the program cannot reach are discarded (`--gc-sections`).
    pub fn gc(&self) -> bool
        ensures { result ≡ self.now.gc }
    {
        self.gc
    }

    /// The entry symbol of `-e`. If there is none, it is that of the script's ENTRY.
    pub fn entry(&self) -> Option<&[u8]>
        ensures { option_map (λ name. name.now) result ≡ self.now.entry }
    {
        match &self.entry {
            Some(name) => Some(name.as_slice()),
            None => None,
        }
    }

    /// The handling of orphans.
    pub fn orphans(&self) -> Orphans
        ensures { result ≡ self.now.orphans }
    {
        self.orphans
    }
}
