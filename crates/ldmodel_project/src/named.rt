//! Objects under their names.

ghost use Rattle.std.specs.Prelude.{◌≡◌, ◌<◌, IfOk, length};
ghost use Rattle.ldmodel_project.specs.Inputs.{shown_input};

use crate::input::InputObject;
use elfobj::Object;
use growth::{NoMemory, vec};
use std::alloc::Global;
use std::marker::Model;

/// An object and the name under which it was added, which is not empty.
#[derive(Drop)]
pub struct NamedObject {
    name: Vec<u8>,
    object: Object,
}

impl Model for NamedObject {
    ghost use Rattle.std.specs.Prelude.{◌<◌, length};
    ghost use Rattle.ldmodel.specs.Project.{NamedObject};

    ghost Value = { NamedObject };

    ghost view = { λ o. record { name = o.name.items; object = o.object } };

    ghost invariant = { λ o. 0 < length o.name.items };
}

impl NamedObject {
    /// An object under a copy of a name.
    ///
    /// # Errors
    ///
    /// If memory runs out.
    pub fn new(alloc: Global, name: &[u8], object: Object) -> Result<NamedObject, NoMemory>
        requires { 0 < length name.now }
        ensures { IfOk result (λ named. named ≡ record { name = name.now; object = object }) }
    {
        let name = vec::from_slice(alloc, name)?;
        Ok(NamedObject { name, object })
    }

    /// The name: 1 to 255 bytes in a project.
    pub fn name(&self) -> &[u8]
        ensures { result.now ≡ self.now.name }
    {
        &self.name
    }

    /// The object.
    pub fn object(&self) -> &Object
        ensures { result.now ≡ self.now.object }
    {
        &self.object
    }

    /// The object under its name, lent for a link.
    pub fn input(&self) -> InputObject<'_>
        ensures { shown_input result ≡ self.now }
    {
        InputObject {
            name: &self.name,
            object: &self.object,
        }
    }
}
