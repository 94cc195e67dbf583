//! The map's lines of symbols.

ghost use Rattle.std.specs.Prelude.{◌≡◌, ◌++◌, OnOk};
ghost use Rattle.emit_text.specs.Definer.{owner_in};
ghost use Rattle.emit_text.specs.ShownMap.{symbol_text, symbols_text};

use crate::definer::Definer;
use crate::line_buffer::LineBuffer;
use crate::map_line::put_symbol_line;
use growth::NoMemory;
use ldmodel_project::view::ProjectView;

/// A name, what defines it, and its value.
#[derive(Clone, Copy, Debug)]
pub struct MapSymbol<'a> {
    /// The name.
    pub name: &'a [u8],
    /// What defines it. A name that nothing defines has no line.
    pub definer: Definer,
    /// Its value; `None` if its section is not in the output.
    pub value: Option<u64>,
}

/// A list of symbols, each of which is made as its line is written.
pub trait MapSymbols {
    ghost use Rattle.std.specs.Prelude.{◌≡◌, ◌<◌, List, Some, length, slice_get};
    ghost use Rattle.emit_text.specs.declared.symbols.MapSymbol.{MapSymbol};

    /// The symbols.
    ghost list: { Self → List MapSymbol };

    /// How many there are.
    fn count(&self) -> usize
        ensures { result ≡ length (list self.now) };

    /// The symbol at a place.
    fn symbol(&self, place: usize) -> MapSymbol<'_>
        requires { place < length (list self.now) }
        ensures { slice_get (list self.now) place ≡ Some result };
}

/// The name of the object that defines a name, or `script`.
fn owner_name<'a>(project: &ProjectView<'a>, definer: Definer) -> &'a [u8]
    ensures { result.now ≡ owner_in project.now definer }
{
    match definer {
        Definer::Object(place) | Definer::WeakOf(place) => project.name(place),
        Definer::Script | Definer::Nothing => b"script",
    }
}

/// The line of a defined name, and none of another.
#[tactic(auto, using(crate::proofs::MapLines::symbol_spelled))]
#[inline(always)]
fn put_symbol(
    text: &mut Vec<u8>,
    lines: &mut LineBuffer,
    project: &ProjectView<'_>,
    symbol: &MapSymbol<'_>,
) -> Result<(), NoMemory>
    ensures { OnOk result (text.new.items ++ lines.new ≡ (text.old.items ++ lines.old)
        ++ symbol_text project.now symbol.now) }
{
    match symbol.definer {
        Definer::Nothing => Ok(()),
        Definer::Script | Definer::Object(_) | Definer::WeakOf(_) => {
            let owner = owner_name(project, symbol.definer);
            put_symbol_line(text, lines, symbol.value, symbol.name, owner)
        }
    }
}

/// The lines of these symbols, in this order.
pub(crate) fn put_symbols<S: MapSymbols>(
    text: &mut Vec<u8>,
    project: &ProjectView<'_>,
    symbols: &S,
) -> Result<(), NoMemory>
    ensures { OnOk result (text.new.items ≡ text.old.items ++ symbols_text project.now (S.list symbols.now)) }
{
    let mut lines = LineBuffer::new();
    for place in 0..symbols.count() {
        let symbol = symbols.symbol(place);
        put_symbol(text, &mut lines, project, &symbol)?;
    }
    lines.move_to(text)?;
    Ok(())
}
