//! The value of each symbol of each object of a link.

ghost use Rattle.std.specs.Prelude.{◌≡◌, Some, drop, length, slice_get, take};
ghost use Rattle.ldmodel.specs.Layout.{Layout};
ghost use Rattle.ldmodel.specs.Project.{NamedObject, Project};
ghost use Rattle.emit_relocate.specs.SymbolValues.{AreSymbolValues, AreValuesOf, row_at};

use crate::value::SymbolValue;
use ldmodel::names::ObjectPlace;

/// The value of each symbol of each object to relocations of that object, under the object's place and the symbol's
/// number.
#[derive(Drop)]
pub struct SymbolValues {
    /// Where the values of each object begin.
    pub starts: Vec<usize>,
    /// The values, one object after another.
    pub values: Vec<SymbolValue>,
}

/// The values from a place on.
fn rest(values: &[SymbolValue], from: usize) -> &[SymbolValue]
    ensures { result.now ≡ drop from values.now }
{
    match values.get(from..) {
        Some(rest) => rest,
        None => &[],
    }
}

/// The first values, or all if there are fewer.
fn first(values: &[SymbolValue], count: usize) -> &[SymbolValue]
    ensures { result.now ≡ take count values.now }
{
    match values.get(..count) {
        Some(first) => first,
        None => values,
    }
}

impl SymbolValues {
    /// The first `count` values from where those of the object at a place begin.
    fn cut(&self, object: ObjectPlace, count: usize) -> &[SymbolValue]
        ensures { result.now ≡ row_at self.now object.0 count }
    {
        let start = self.starts.get(object.0).copied().unwrap_or(0);
        first(rest(&self.values, start), count)
    }

    /// The values of the symbols of the object at a place, by their numbers. The object has `count` symbols.
    pub fn slice(&self, object: ObjectPlace, count: usize) -> &[SymbolValue]
        ensures is { result.now ≡ row_at self.now object.0 count }
        ensures values { (project : Project) (layout : Layout) (named : NamedObject)
            → AreSymbolValues project layout self.now → slice_get project.objects object.0 ≡ Some named
            → length named.object.symbols ≡ count → AreValuesOf project layout named result.now }
    {
        self.cut(object, count)
    }
}
