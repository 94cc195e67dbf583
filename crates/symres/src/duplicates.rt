//! Names that are defined twice.

ghost use Rattle.std.specs.Prelude.{◌≡◌, ◌<◌, ◌++◌, ◌&&◌, ℕ, IfOk, List, None, OnOk, Some, length, map, slice_index_or};
ghost use Rattle.std.specs.Prelude.{[], count_by, false, replicate, slice_set, unwrap_or};
ghost use Rattle.elfobj.specs.Symbols.{NamedSymbol};
ghost use Rattle.ldmodel.specs.Link.{duplicate_fault};
ghost use Rattle.ldmodel.specs.NameFaults.{duplicates};
ghost use Rattle.ldmodel.specs.Names.{Declaration, declaration, declarations_in, is_global, is_placed};
ghost use Rattle.ldmodel.specs.Project.{Project};
ghost use Rattle.ldmodel.specs.ScriptNames as script_names;
ghost use Rattle.symres.specs.Decided.{case_at, HasCase};
ghost use Rattle.symres.specs.Duplicates as definition;
ghost use Rattle.symres.specs.Duplicates.{declared_by, faults_of, is_doubled, AreFound, Begins, IsDoubled, IsTableAt};
ghost use Rattle.symres.specs.SymbolTable.{IsSymbolTable};
ghost use Rattle.ldmodel_project.specs.ByPlace.{faults_in};
ghost use Rattle.symres_table.specs.State.{AreDistinct};

use crate::symbol_table::SymbolTable;
use elfobj::Object;
use elfobj::relocation::SymbolIndex;
use elfobj::symbol::{Binding, Symbol, SymbolPlace};
use growth::{NoMemory, vec};
use ldmodel::fault::{Definer, Fault};
use ldmodel::given;
use ldmodel::names::{Case, Entry, NameKey, ObjectPlace};
use ldmodel_project::view::ProjectView;
use ldscript::Script;
use std::alloc::Global;

/// Whether a symbol is a strong definition: global, and in a section or a number.
fn is_strong(symbol: &Symbol) -> bool
    ensures { result ≡ (is_global symbol.now.binding && is_placed symbol.now.place) }
{
    match (symbol.binding, symbol.place) {
        (Binding::Global, SymbolPlace::Absolute | SymbolPlace::Section(_)) => true,
        (Binding::Global, SymbolPlace::Undefined | SymbolPlace::Common)
        | (Binding::Local | Binding::Weak, _) => false,
    }
}

/// Whether the script assigns a name.
fn is_assigned(script: &Script, name: &[u8]) -> bool
    ensures { result ≡ script_names.is_assigned script.now name.now }
{
    given::is_assigned(script.given(name))
}

/// No entries, for this number of keys.
fn no_entries(alloc: Global, count: usize) -> Result<Vec<Option<Entry<ObjectPlace>>>, NoMemory>
    ensures { IfOk result (λ v. v.items ≡ replicate count None) }
{
    vec::from_elem(alloc, None, count)
}

/// The first definition of a name, by its key: this one, unless one was noted before. It is noted from then on.
fn note_first(
    firsts: &mut Vec<Option<Entry<ObjectPlace>>>,
    key: NameKey,
    entry: Entry<ObjectPlace>,
) -> Entry<ObjectPlace>
    requires { key.0 < length firsts.old.items }
    ensures first { result ≡ unwrap_or (slice_index_or firsts.old.items key.0 None) entry }
    ensures noted { firsts.new.items ≡ slice_set firsts.old.items key.0 (Some result) }
{
    let first = firsts[key.0].unwrap_or(entry);
    firsts[key.0] = Some(first);
    first
}

/// What defines a name before `entry` does. `first` is the first entry that defines the name.
fn definer_before(
    is_assigned: bool,
    first: Entry<ObjectPlace>,
    entry: Entry<ObjectPlace>,
) -> Option<Definer>
    ensures { result ≡ definition.definer_before is_assigned first entry }
{
    if is_assigned {
        return Some(Definer::Script);
    }
    if first == entry {
        return None;
    }
    Some(Definer::Object(first.object))
}

/// Adds the fault of a definition, unless nothing defines the name before it.
fn add_if_not_first(
    script: &Script,
    name: &[u8],
    first: Entry<ObjectPlace>,
    entry: Entry<ObjectPlace>,
    faults: &mut Vec<Fault>,
) -> Result<(), NoMemory>
    ensures { OnOk result (faults.new.items ≡ faults.old.items ++ faults_of entry
        (definition.definer_before (script_names.is_assigned script.now name.now) first entry)) }
{
    match definer_before(is_assigned(script, name), first, entry) {
        None => Ok(()),
        Some(first) => {
            vec::push(faults, Fault::DuplicateDefinition { entry, first })?;
            Ok(())
        }
    }
}

impl SymbolTable {
    /// No two keys have one name.
    fn names_differ(&self)
        ensures { AreDistinct self.now.names }
    {
        // for the prover: brings in the invariant of `self.decisions`
        let _names = self.decisions.listed();
    }

    /// If no case is `Duplicate`, no name of the project is defined twice. The call does nothing.
    fn none_doubled(&self)
        requires { count_by is_doubled self.now.kept.cases ≡ 0 }
        ensures { (project : Project) → IsSymbolTable project self.now → duplicates project ≡ [] }
    {
        // for the prover: brings in this law
        self.decided_by_keys();
        // for the prover: brings in the invariant of `self.decisions`
        let _count = self.decisions.known();
    }

    /// Whether a name is defined twice. No symbol is read.
    pub(crate) fn has_doubled(&self) -> bool
        ensures { result ≡ false → (project : Project) → IsSymbolTable project self.now → duplicates project ≡ [] }
    {
        if self.decisions.doubled() == 0 {
            // for the prover: brings in this law
            self.none_doubled();
            return false;
        }
        true
    }

    /// Whether the name of a key is defined twice.
    fn is_doubled(&self, key: NameKey) -> bool
        ensures { result ≡ is_doubled (case_at self.now.cases key.0) }
    {
        match self.case_of(key) {
            Some(Case::Duplicate) => true,
            Some(
                Case::Strong(_)
                | Case::Script
                | Case::Common { .. }
                | Case::Weak(_)
                | Case::Provided
                | Case::Undefined,
            )
            | None => false,
        }
    }

    /// The key of the name of a symbol, if the symbol is a strong definition of a name that is defined twice.
    fn doubled_key(&self, place: ObjectPlace, object: &Object, number: u32) -> Option<NameKey>
        requires table { IsTableAt self.now.objects place.0 object.now.symbols }
        requires number { number < length object.now.symbols }
        ensures key { (project : Project) (d : NamedSymbol) → IsSymbolTable project self.now
            → IsDoubled project self.now.names
            (declaration place.0 (number, slice_index_or object.now.symbols number d)) result }
        ensures within { (k : NameKey) → result ≡ Some k → k.0 < length self.now.cases }
    {
        if !is_strong(&object.symbols()[number as usize]) {
            return None;
        }
        let key = self.key_of(place, SymbolIndex(number));
        if !self.is_doubled(key) {
            return None;
        }
        Some(key)
    }

    /// Adds the fault of a symbol, if it defines a name once more.
    fn add_symbol(
        &self,
        script: &Script,
        place: ObjectPlace,
        object: &Object,
        number: u32,
        firsts: &mut Vec<Option<Entry<ObjectPlace>>>,
        faults: &mut Vec<Fault>,
    ) -> Result<(), NoMemory>
        requires table { IsTableAt self.now.objects place.0 object.now.symbols }
        requires number { number < length object.now.symbols }
        requires long { length firsts.old.items ≡ length self.now.cases }
        ensures long { length firsts.new.items ≡ length firsts.old.items }
        ensures found { OnOk result ((project : Project) (d : NamedSymbol) (ds : List Declaration)
            → IsSymbolTable project self.now → project.script ≡ script.now
            → Begins project (ds ++ declared_by place.0 number (slice_index_or object.now.symbols number d))
            → AreFound project self.now.names ds firsts.old.items faults.old.items
            → AreFound project self.now.names (ds
            ++ declared_by place.0 number (slice_index_or object.now.symbols number d))
            firsts.new.items faults.new.items) }
    {
        match self.doubled_key(place, object, number) {
            None => Ok(()),
            Some(key) => {
                // for the prover: brings in this law
                self.names_differ();
                let entry = Entry {
                    object: place,
                    symbol: SymbolIndex(number),
                };
                let first = note_first(firsts, key, entry);
                add_if_not_first(
                    script,
                    object.name_of(SymbolIndex(number)),
                    first,
                    entry,
                    faults,
                )
            }
        }
    }

    /// Adds the fault of each symbol of an object that defines a name once more, in the order of the symbol table.
    fn add_symbols(
        &self,
        script: &Script,
        place: ObjectPlace,
        object: &Object,
        firsts: &mut Vec<Option<Entry<ObjectPlace>>>,
        faults: &mut Vec<Fault>,
    ) -> Result<(), NoMemory>
        requires table { IsTableAt self.now.objects place.0 object.now.symbols }
        requires long { length firsts.old.items ≡ length self.now.cases }
        ensures long { length firsts.new.items ≡ length firsts.old.items }
        ensures found { OnOk result ((project : Project) (ds : List Declaration) → IsSymbolTable project self.now
            → project.script
            ≡ script.now
            → Begins project (ds ++ declarations_in (place.0, object.now.symbols))
            → AreFound project self.now.names ds firsts.old.items faults.old.items
            → AreFound project self.now.names (ds ++ declarations_in (place.0, object.now.symbols)) firsts.new.items
            faults.new.items) }
    {
        for number in 0..object.symbols().len() as u32 {
            self.add_symbol(script, place, object, number, firsts, faults)?;
        }
        Ok(())
    }

    /// The faults of names that are defined twice: each strong definition after the first, in object order and then
    /// symbol order; if the script assigns the name, each strong definition. If no name is defined twice, no symbol is
    /// looked at.
    pub(crate) fn duplicates(
        &self,
        alloc: Global,
        project: &ProjectView<'_>,
    ) -> Result<Vec<Fault>, NoMemory>
        requires { IsSymbolTable project.now self.now }
        ensures { IfOk result (λ fs. faults_in project.now fs.items ≡ map duplicate_fault (duplicates project.now)) }
    {
        if !self.has_doubled() {
            return Ok(Vec::new(alloc));
        }
        let mut firsts = no_entries(alloc, self.limit())?;
        let mut faults = Vec::new(alloc);
        for (place, input) in project.inputs().iter().enumerate() {
            self.add_symbols(
                project.script(),
                ObjectPlace(place),
                input.object,
                &mut firsts,
                &mut faults,
            )?;
        }
        Ok(faults)
    }
}
