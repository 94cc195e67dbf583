//! The fields of input sections that did not stay, in one flat list; those that change in sections that stayed; and
//! the faults of relocations. Without a previous link these are the fields of all objects.

ghost use Rattle.std.specs.Prelude.{◌≡◌, IfOk, OnOk, Some, [], ◌∷◌, true};
ghost use Rattle.ldmodel.specs.Project.{NamedObject};
ghost use Rattle.ldmodel.specs.Stayed.{GoodLink};
ghost use Rattle.emit_relocate.specs.Changes.{Adds, AreChanged, IsEvaluatedOf, HasAllFields, HasRetargetedFields};
ghost use Rattle.emit_relocate.specs.Changes.{no_results};
ghost use Rattle.emit_relocate.specs.Changes.{results_of, section_ref};
ghost use Rattle.emit_relocate.specs.Filled.{EndBelow, ObjectSection, sections_in, sections_of};
ghost use Rattle.emit_relocate.specs.KnownLink.{KnownLink, named_object};
ghost use Rattle.emit_relocate.specs.LinkView.{IsLinkView};
ghost use Rattle.emit_relocate.specs.Links.{AreLinks, IsAtHand, IsFoundStayedAt, NeedsNoEvaluation};
ghost use Rattle.emit_relocate.specs.PreviousLinkInfo.{HasSameValues, IsFoundStayed};
ghost use Rattle.emit_relocate.specs.SymbolValues.{HasSymbolValues};

use crate::fields::add_fields;
use crate::input_section::InputSection;
use crate::link_view::LinkView;
use crate::previous_link_info::{FileRange, PreviousLinkInfo};
use crate::retargeted::StayedSection;
use crate::symbol_values::SymbolValues;
use elfobj::Object;
use elfobj::section::LinkedIndex;
use emit_fields::patch::Patch;
use growth::{NoMemory, vec};
use ldmodel::fault::Fault;
use ldmodel::meter::Meter;
use ldmodel::names::ObjectPlace;
use std::alloc::Global;

/// The fields of a link that change, and the faults of its relocations.
#[derive(Debug, Drop)]
pub struct ChangedFields {
    /// The fields of all input sections that did not stay, one input section after another in the order of objects and
    /// headers, those of each in the order of their offsets.
    pub patches: Vec<Patch>,
    /// Where the fields of each input section end in `patches`; one that stayed, or isn't in the output, has none.
    pub ends: Vec<usize>,
    /// The fields of sections that stayed whose symbol has another value, in their places in the file.
    pub retargeted: Vec<Patch>,
    /// The faults: F12, F13 and F14, by object, section and entry of its table.
    pub faults: Vec<Fault>,
}

/// The link whose relocations are evaluated, with the values of its symbols, and the previous link beside it.
#[derive_where(Clone, Copy)]
struct Links<'a, 'p, E> {
    /// The link.
    link: &'a LinkView<'a, 'p>,
    /// The previous one.
    previous: &'a E,
    /// The values of the symbols of the link's objects.
    symbols: &'a SymbolValues,
}

impl<'a, 'p, E: PreviousLinkInfo> Links<'a, 'p, E> {
    /// Adds the fields of a section that did not stay; there are none if it is not in the output.
    fn add_all_fields(
        &self,
        alloc: Global,
        section: &InputSection<'_>,
        fields: &mut ChangedFields,
        meter: &mut Meter,
    ) -> Result<(), NoMemory>
        ensures { OnOk result ((old : GoodLink) (link : KnownLink) (s : ObjectSection)
            → AreLinks E.knows self.now old link → IsAtHand link section.now s
            → Adds link (HasAllFields link s) (results_of fields.old meter.old) (results_of fields.new meter.new)) }
    {
        // for the prover: brings in that the count of fields fits a u64
        let _fields = meter.fields();
        match section.placed(self.link) {
            None => Ok(()),
            Some(section) => {
                add_fields(
                    alloc,
                    &section,
                    &mut fields.patches,
                    &mut fields.faults,
                    meter,
                )?;
                Ok(())
            }
        }
    }

    /// Adds, of the fields of a section that stayed, those whose symbol has another value.
    fn add_retargeted(
        &self,
        section: &InputSection<'_>,
        range: FileRange,
        fields: &mut ChangedFields,
        meter: &mut Meter,
    ) -> Result<(), NoMemory>
        ensures { OnOk result ((old : GoodLink) (link : KnownLink) (s : ObjectSection)
            → AreLinks E.knows self.now old link → IsAtHand link section.now s
            → IsFoundStayedAt old link (E.range self.now.previous.now) (section_ref section.now.place s) range
            → Adds link (HasRetargetedFields old link (section_ref section.now.place s) range s)
            (results_of fields.old meter.old) (results_of fields.new meter.new)) }
    {
        // for the prover: brings in that the count of fields fits a u64
        let _fields = meter.fields();
        match section.placed(self.link) {
            None => Ok(()),
            Some(section) => {
                let count = section.symbols.len();
                let section = StayedSection {
                    before: self.previous.values(section.object, count),
                    section,
                    range,
                };
                section.add_retargeted(&mut fields.retargeted, &mut fields.faults, meter)?;
                Ok(())
            }
        }
    }

    /// Whether a section is known to have stayed, and no symbol of its object has another value.
    fn has_same_fields(&self, section: &InputSection<'_>) -> bool
        ensures { result ≡ true → (old : GoodLink) (link : KnownLink) (s : ObjectSection)
            → AreLinks E.knows self.now old link → IsAtHand link section.now s
            → IsFoundStayed old link (E.range self.now.previous.now) (section_ref section.now.place s)
            × HasSameValues old link section.now.place }
    {
        if self.previous.is_dirty(section.place) {
            return false;
        }
        self.previous.has_stayed(section.section_ref())
    }

    /// Whether there is nothing to evaluate of an object: each section of it that is in the output stayed, and none of
    /// its symbols has another value.
    fn needs_no_evaluation(&self, place: ObjectPlace) -> bool
        ensures { result ≡ true → (old : GoodLink) (link : KnownLink) (object : NamedObject)
            → AreLinks E.knows self.now old link → named_object link place ≡ Some object
            → NeedsNoEvaluation old link (E.range self.now.previous.now) object }
    {
        if self.previous.is_dirty(place) {
            return false;
        }
        self.previous.has_wholly_stayed(place)
    }

    /// Adds what there is to evaluate of a section: nothing if its object needs none, if it has no relocations, or if
    /// it stayed and no symbol of its object has another value; if it stayed, the fields whose symbol has another
    /// value; else all.
    fn add_evaluated(
        &self,
        alloc: Global,
        section: &InputSection<'_>,
        needs_none: bool,
        fields: &mut ChangedFields,
        meter: &mut Meter,
    ) -> Result<(), NoMemory>
        ensures { OnOk result ((old : GoodLink) (link : KnownLink) (s : ObjectSection)
            → AreLinks E.knows self.now old link → IsAtHand link section.now s
            → (needs_none ≡ true → NeedsNoEvaluation old link (E.range self.now.previous.now) s.object)
            → Adds link (IsEvaluatedOf old link (E.range self.now.previous.now) s) (results_of fields.old meter.old)
            (results_of fields.new meter.new)) }
    {
        // for the prover: brings in that the count of fields fits a u64
        let _fields = meter.fields();
        if needs_none {
            return Ok(());
        }
        if !section.object.has_relocations(section.index) {
            return Ok(());
        }
        if self.has_same_fields(section) {
            return Ok(());
        }
        match self.previous.stayed_range(section.section_ref()) {
            None => {
                self.add_all_fields(alloc, section, fields, meter)?;
                Ok(())
            }
            Some(range) => {
                self.add_retargeted(section, range, fields, meter)?;
                Ok(())
            }
        }
    }

    /// Adds what there is to evaluate of a section, and the end of its fields. `needs_none` says that there is nothing.
    fn add_section(
        &self,
        alloc: Global,
        section: &InputSection<'_>,
        needs_none: bool,
        fields: &mut ChangedFields,
        meter: &mut Meter,
    ) -> Result<(), NoMemory>
        ensures { OnOk result ((old : GoodLink) (link : KnownLink) (s : ObjectSection)
            → AreLinks E.knows self.now old link → IsAtHand link section.now s
            → (needs_none ≡ true → NeedsNoEvaluation old link (E.range self.now.previous.now) s.object)
            → AreChanged old link (E.range self.now.previous.now) (s ∷ []) (results_of fields.old meter.old)
            (results_of fields.new meter.new)) }
    {
        self.add_evaluated(alloc, section, needs_none, fields, meter)?;
        let end = fields.patches.len();
        vec::push(&mut fields.ends, end)?;
        Ok(())
    }

    /// Adds what there is to evaluate of all sections of an object.
    fn add_object(
        &self,
        alloc: Global,
        place: ObjectPlace,
        object: &Object,
        fields: &mut ChangedFields,
        meter: &mut Meter,
    ) -> Result<(), NoMemory>
        ensures { OnOk result ((old : GoodLink) (link : KnownLink) (o : NamedObject)
            → AreLinks E.knows self.now old link → named_object link place ≡ Some o → o.object ≡ object.now
            → AreChanged old link (E.range self.now.previous.now) (sections_of o object.now.sections)
            (results_of fields.old meter.old) (results_of fields.new meter.new)) }
    {
        // for the prover: brings in that the count of fields fits a u64
        let _fields = meter.fields();
        let needs_none = self.needs_no_evaluation(place);
        let values = self.symbols.slice(place, object.symbols().len());
        for index in 0..object.sections().len() {
            let section = InputSection::new(place, object, LinkedIndex(index), values);
            self.add_section(alloc, &section, needs_none, fields, meter)?;
        }
        Ok(())
    }
}

/// How many fields there may be, so that memory for them is taken once: as many as relocations.
#[derive(Clone, Copy)]
struct Expected {
    /// The relocations of objects of which a section in the output did not stay.
    renewed: usize,
    /// Those of objects whose sections all stayed.
    retargeted: usize,
}

/// How many fields there may be of a link. An object of which no symbol has another value is left out: what moves has
/// symbols that move.
fn expected_fields<E: PreviousLinkInfo>(link: &LinkView<'_, '_>, previous: &E) -> Expected {
    let mut renewed: usize = 0;
    let mut retargeted: usize = 0;
    for (place, input) in link.project.inputs().iter().enumerate() {
        let place = ObjectPlace(place);
        if previous.is_dirty(place) {
            let count = input.object.count_relocations();
            if previous.has_wholly_stayed(place) {
                retargeted = retargeted.saturating_add(count);
            } else {
                renewed = renewed.saturating_add(count);
            }
        }
    }
    Expected {
        renewed,
        retargeted,
    }
}

/// An empty list, with memory for this many fields if it is granted: the list can also grow, and most often fewer
/// fields change.
fn list_for(alloc: Global, count: usize) -> Vec<Patch>
    ensures { result.items ≡ [] }
{
    match vec::with_capacity(alloc, count) {
        Ok(list) => list,
        Err(_refused) => Vec::new(alloc),
    }
}

/// How many sections the objects of a link have.
fn count_sections(link: &LinkView<'_, '_>) -> usize {
    let mut count: usize = 0;
    for input in link.project.inputs() {
        count = count.saturating_add(input.object.sections().len());
    }
    count
}

/// Evaluates relocations of input sections in the output: of a section that did not stay, all; of one that stayed,
/// those whose symbol has another value than in the previous link. Each of these counts as one. The other fields are as
/// they were. `symbols` has the values of the symbols of the link's objects.
///
/// # Errors
///
/// If memory runs out; a table of 2^32 relocations or more, which no object has whose length is within the limit,
/// counts as that.
pub fn changed_fields<E: PreviousLinkInfo>(
    alloc: Global,
    link: &LinkView<'_, '_>,
    previous: &E,
    symbols: &SymbolValues,
    meter: &mut Meter,
) -> Result<ChangedFields, NoMemory>
    ensures { IfOk result (λ fields. (old : GoodLink) (known : KnownLink) → IsLinkView known link.now
        → E.knows previous.now old known → HasSymbolValues known symbols.now → EndBelow known
        → AreChanged old known (E.range previous.now) (sections_in known.project.objects) (no_results meter.old)
        (results_of fields meter.new)) }
{
    // for the prover: brings in that the count of fields fits a u64
    let _fields = meter.fields();
    let expected = expected_fields(link, previous);
    let mut fields = ChangedFields {
        patches: list_for(alloc, expected.renewed),
        ends: vec::with_capacity(alloc, count_sections(link))?,
        retargeted: list_for(alloc, expected.retargeted),
        faults: Vec::new(alloc),
    };
    let links = Links {
        link,
        previous,
        symbols,
    };
    let inputs = link.project.inputs();
    for (place, input) in inputs.iter().enumerate() {
        links.add_object(alloc, ObjectPlace(place), input.object, &mut fields, meter)?;
    }
    Ok(fields)
}
