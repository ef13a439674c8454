//! What a setup file declares, as whole lists; and that its text has one answer.
ghost use Rattle.std.specs.Prelude.{◌↔◌, ◌≤◌, ℕ, List, length};
ghost use Rattle.bl_setup.specs.FirstSetupFault.{FirstSetupFaultWithin, HasOneAnswer, LeadTo, declared, nothing};
ghost use Rattle.bl_setup.specs.Setup as setups;
ghost use Rattle.bl_setup.specs.Grammar.{IsSetupWithin};
ghost use Rattle.bl_setup.specs.Lines.{file_lines};
ghost use Rattle.bl_setup.specs.WholeLists.{IsDeclared};
ghost use Rattle.bl_declare.specs.declared.fault.SetupFault as faults;

/// A setup's subjects and documents are those that its text declares, in order, with the levels and the contents of their
/// lines, and a document whose line has no content is not present.
pub fn a_setup_is_declared()
    ensures { (most : ℕ) (bytes : List ℕ) (setup : setups.Setup) → IsSetupWithin most bytes setup →
        IsDeclared bytes setup }
{}

/// Within any bound a text has at most one answer: no two setups, no two first faults, and not both.
pub fn a_text_has_one_answer()
    ensures { (most : ℕ) (bytes : List ℕ) → HasOneAnswer most bytes }
{}

/// Within any bound a text does not lack both: one that is no setup has a first fault.
pub fn a_text_has_some_answer()
    ensures { (most : ℕ) (bytes : List ℕ) → ((setup : setups.Setup) → IsSetupWithin most bytes setup → ⊥) →
        ((fault : faults.SetupFault) → FirstSetupFaultWithin most bytes fault → ⊥) → ⊥ }
{}

/// A text that is not too large is a setup exactly where its lines lead to it, one after the other: what a setup is and where
/// a text's first fault lies rest on one relation of lines.
pub fn a_setup_is_what_its_lines_lead_to()
    ensures { (most : ℕ) (bytes : List ℕ) (setup : setups.Setup) → (IsSetupWithin most bytes setup ↔
        ((length bytes ≤ most) × LeadTo nothing (file_lines bytes) (declared setup))) }
{}
