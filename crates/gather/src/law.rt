//! What holds of the definitions themselves.

ghost use Rattle.std.specs.Prelude.{◌≡◌, ℕ, Contains};
ghost use Rattle.ldmodel.specs.Project.{Project};
ghost use Rattle.ldmodel.specs.Sections.{InputSection};
ghost use Rattle.gather.specs.Apart.{AscendingSections};
ghost use Rattle.gather.specs.LiveMarks.{IsSectionAt};
ghost use Rattle.ldmodel.specs.InputSections.{input_sections};
ghost use Rattle.gather.specs.OfObjects.{IsOfObject};

/// Two input sections of a project with the same key are at the same place in the list of all, if the header numbers of
/// the linked sections of each object ascend, as in every object that was read.
#[tactic(auto, using(crate::proofs::Ascending::sections_apart))]
pub fn sections_apart()
    ensures { (project : Project) → AscendingSections project → (a b : ℕ) (section t : InputSection)
        → IsSectionAt project a section
        → IsSectionAt project b t → section.id ≡ t.id → a ≡ b }
{}

/// Each input section of a project has the place and the name of its object.
#[tactic(auto, using(crate::proofs::OfObjects::of_objects))]
pub fn sections_of_objects()
    ensures { (project : Project) (section : InputSection) → Contains (input_sections project) section
        → IsOfObject project section }
{}
