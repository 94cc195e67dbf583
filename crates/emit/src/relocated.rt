//! The fields of a link that change, and the faults of its relocations.

ghost use Rattle.std.specs.Prelude.{◌≡◌, ◌++◌, IfOk, Ok, option_to_list};
ghost use Rattle.std.specs.Option.{option_map};
ghost use Rattle.ldmodel.specs.FaultCode.{fault_of};
ghost use Rattle.ldmodel.specs.Layout.{Layout};
ghost use Rattle.ldmodel.specs.Names.{provided};
ghost use Rattle.ldmodel.specs.Placement.{placement};
ghost use Rattle.ldmodel.specs.Project.{Project};
ghost use Rattle.ldmodel.specs.Relocations.{entry_fault};
ghost use Rattle.ldmodel.specs.Rows.{rows};
ghost use Rattle.ldmodel.specs.Stayed.{GoodLink};
ghost use Rattle.symres.specs.SymbolTable.{SymbolTableState};
ghost use Rattle.ldmodel_project.specs.ByPlace.{faults_in};
ghost use Rattle.emit.specs.Beside.{IsRelocatedBeside};
ghost use Rattle.emit_relocate.specs.SymbolValues.{AreSymbolValues};
ghost use Rattle.emit_relocate.specs.Values.{value_of};
ghost use Rattle.emit_relocate.specs.KnownLink.{KnownLink};
ghost use Rattle.emit_relocate.specs.LinkView.{IsLinkView, known_link};
ghost use Rattle.emit_relocate.specs.LinkValues.{AreValues};

use crate::law::{pieces_are_sized, pieces_in_file, sections_end_below};
use crate::objects_read::objects_are_read;
use elfobj::Meter;
use emit_fields::patch::Patch;
use emit_image::law::patches_are_all;
use emit_relocate::changed_fields::{ChangedFields, changed_fields};
use emit_relocate::law::{
    all_is_evaluated, due_sites_count, no_fault_is_missed, patches_are_fields,
    patches_are_those_retargeted,
};
use emit_relocate::link_view::LinkView;
use emit_relocate::previous_link_info::PreviousLinkInfo;
use emit_relocate::symbol_values::SymbolValues;
use emit_relocate::value::SymbolValue;
use emit_relocate::values::Values;
use growth::{NoMemory, vec};
use ldmodel::fault::Fault;
use ldmodel_laws::stayed::{fields_in_image, pieces_in_image, stayed_in_both};
use ldmodel_project::view::ProjectView;
use std::alloc::Global;

/// The fields of a link that change, and the faults of its relocations.
#[derive(Drop)]
pub struct Relocated {
    /// The fields of all input sections that did not stay, one after another in the order of objects and headers, those
    /// of each in the order of their offsets.
    pub patches: Vec<Patch>,
    /// Where the fields of each input section end in `patches`; one that stayed, or isn't in the output, has none.
    pub ends: Vec<usize>,
    /// The fields of sections that stayed whose symbol has another value, in their places in the file.
    pub retargeted: Vec<Patch>,
    /// The fault of the entry symbol, and then the faults of relocations by object, section and entry.
    pub faults: Vec<Fault>,
}

/// The fault of an entry symbol of a value: its section is not in the output.
#[tactic(auto, unfolding(ldmodel::specs::FaultCode::fault_of))]
fn entry_fault(value: SymbolValue) -> Option<Fault>
    ensures { (link : KnownLink) → option_to_list (option_map (fault_of link.project link.number) result)
        ≡ entry_fault (value_of value) }
{
    match value {
        SymbolValue::NotInOutput => Some(Fault::EntryNotInOutput),
        SymbolValue::Number(_) | SymbolValue::NotDefined => None,
    }
}

/// The fault of an entry symbol of this value, if it has one, and then these faults.
fn with_entry_fault(value: SymbolValue, mut faults: Vec<Fault>) -> Result<Vec<Fault>, NoMemory>
    ensures { IfOk result (λ all. (project : Project) → faults_in project all.items
        ≡ entry_fault (value_of value) ++ faults_in project faults.items) }
{
    match entry_fault(value) {
        None => Ok(faults),
        Some(fault) => {
            vec::insert(&mut faults, 0, fault)?;
            Ok(faults)
        }
    }
}

impl Relocated {
    /// Evaluates the relocations of input sections that did not stay, and those of sections that stayed whose symbol
    /// has another value than in the previous link. Each of them is counted. `symbols` has the values of the symbols.
    ///
    /// # Errors
    ///
    /// If memory runs out.
    pub fn of<E: PreviousLinkInfo>(
        alloc: Global,
        project: &ProjectView<'_>,
        link: &LinkView<'_, '_>,
        previous: &E,
        values: &Values<'_>,
        symbols: &SymbolValues,
        meter: &mut Meter,
    ) -> Result<Relocated, NoMemory>
        ensures { IfOk result (λ relocated. (layout : Layout) (table : SymbolTableState) (old : GoodLink)
            → placement project.now.script (rows project.now) (provided project.now) ≡ Ok layout
            → IsLinkView (known_link project.now layout table) link.now → AreValues project.now layout table values.now
            → AreSymbolValues project.now layout symbols.now
            → E.knows previous.now old (known_link project.now layout table)
            → IsRelocatedBeside old (E.range previous.now) project.now layout table relocated meter.old meter.new) }
    {
        // for the prover: bring in these laws
        sections_end_below();
        all_is_evaluated();
        no_fault_is_missed();
        due_sites_count();
        pieces_are_sized();
        pieces_in_file();
        patches_are_fields();
        patches_are_those_retargeted();
        patches_are_all();
        pieces_in_image();
        fields_in_image();
        stayed_in_both();
        objects_are_read(project);
        let fields = changed_fields(alloc, link, previous, symbols, meter)?;
        let ChangedFields {
            patches,
            ends,
            retargeted,
            faults,
        } = fields;
        let faults = with_entry_fault(values.entry, faults)?;
        Ok(Relocated {
            patches,
            ends,
            retargeted,
            faults,
        })
    }
}
