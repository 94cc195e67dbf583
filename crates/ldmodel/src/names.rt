//! Keys of objects and names, places of objects, and how a name is resolved.

use elfobj::relocation::SymbolIndex;

/// The stable number of an object, valid from when it is added until it is removed.
#[derive(Clone, Copy, Debug, PartialEq, Eq)]
pub struct ObjectKey(pub usize);

/// The index of an object in a project, which names it in a link.
#[derive(Clone, Copy, Debug, PartialEq, Eq)]
pub struct ObjectPlace(pub usize);

/// The stable number of a symbol name, valid at least while an object declares it, until it is forgotten.
#[derive(Clone, Copy, Debug, PartialEq, Eq)]
pub struct NameKey(pub usize);

/// An entry of the symbol table of an object. `O` is `ObjectKey` while objects change, and `ObjectPlace` in a link.
#[derive(Clone, Copy, Debug, PartialEq, Eq)]
pub struct Entry<O> {
    /// The object.
    pub object: O,
    /// The index of the entry in the symbol table.
    pub symbol: SymbolIndex,
}

/// How a name is resolved. `O` says how its entries name their objects.
#[derive(Clone, Copy, Debug, PartialEq, Eq)]
pub enum Case<O> {
    /// A global definition of an object that isn't common.
    Strong(Entry<O>),
    /// An assignment in the script.
    Script,
    /// A common block.
    Common {
        /// The first common entry of the name; its object owns the block.
        owner: Entry<O>,
        /// The greatest `st_size` of the common entries, in bytes: at most 2^31.
        size: u64,
        /// The greatest `st_value` of the common entries: a power of two.
        align: u64,
    },
    /// The first weak definition.
    Weak(Entry<O>),
    /// A PROVIDE in the script.
    Provided,
    /// Nothing: the name is undefined.
    Undefined,
    /// Two or more strong definitions, the script's assignment among them.
    Duplicate,
}
