//! An output that another argument of the command line names too.

use crate::destination::{Destination, FileId};
use growth::{NoMemory, string};
use std::alloc::Global;
use std::rt::Files;

/// What an argument of the command line names.
#[derive(Clone, Copy, PartialEq, Eq, Debug)]
pub enum Role {
    /// The linker script.
    Script,
    /// An object.
    Object,
    /// The image.
    Image,
    /// The map.
    Map,
}

impl Role {
    /// The option that names it; of an object, what it is.
    fn text(self) -> &'static str {
        match self {
            Role::Script => "-T",
            Role::Object => "an object",
            Role::Image => "-o",
            Role::Map => "--Map",
        }
    }
}

/// An output that another argument of the command line names too.
#[derive(Debug, Drop)]
pub struct Clash {
    written: Role,
    other: Role,
    name: String,
}

impl Clash {
    /// Prints on standard error which file it is. If that fails, only the exit status reports it.
    pub fn report(&self, rt: &impl Eprint) {
        let (written, other) = (self.written.text(), self.other.text());
        let name = self.name.as_str();
        let _ = eprintln!(rt; "error: {written} and {other} name the same file: {name}");
    }
}

/// The files that a link writes.
#[derive(Debug, Drop)]
pub struct Outputs {
    image: Destination,
    map: Option<Destination>,
}

impl Outputs {
    /// Where the names of the image and of the map lead.
    ///
    /// # Errors
    ///
    /// If memory runs out.
    pub fn of<R: Files + AllocGlobal>(
        rt: &R,
        image: &str,
        map: Option<&str>,
    ) -> Result<Outputs, NoMemory> {
        Ok(Outputs {
            image: Destination::of(rt, image)?,
            map: match map {
                Some(map) => Some(Destination::of(rt, map)?),
                None => None,
            },
        })
    }

    /// The clash of the image, which has this name, and the map, if they are one file.
    ///
    /// # Errors
    ///
    /// If memory runs out.
    pub fn own_clash(&self, alloc: Global, name: &str) -> Result<Option<Clash>, NoMemory> {
        match &self.map {
            Some(map) if map.is_same(&self.image) => {
                let name = string::from_str(alloc, name)?;
                Ok(Some(Clash {
                    written: Role::Image,
                    other: Role::Map,
                    name,
                }))
            }
            _ => Ok(None),
        }
    }

    /// Which output this file is.
    fn role_of(&self, file: FileId) -> Option<Role> {
        if self.image.is_file(file) {
            return Some(Role::Image);
        }
        match &self.map {
            Some(map) if map.is_file(file) => Some(Role::Map),
            _ => None,
        }
    }

    /// The clash of an input of this name with an output; `file` is the input, if it is a regular file.
    ///
    /// # Errors
    ///
    /// If memory runs out.
    pub fn clash_with(
        &self,
        alloc: Global,
        file: Option<FileId>,
        other: Role,
        name: &str,
    ) -> Result<Option<Clash>, NoMemory> {
        let Some(written) = file.and_then(|file| self.role_of(file)) else {
            return Ok(None);
        };
        let name = string::from_str(alloc, name)?;
        Ok(Some(Clash {
            written,
            other,
            name,
        }))
    }
}
