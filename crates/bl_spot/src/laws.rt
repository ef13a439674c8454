//! What is asked of each token of a declaration.
ghost use Rattle.std.specs.Prelude.{◌≡◌};
ghost use Rattle.bl_declare.specs.Declaration.{Declaration, spell_declaration};
ghost use Rattle.bl_setup.specs.FirstSetupFault.{SoFar, asked};
ghost use Rattle.bl_spot.specs.Asking.{ask, questions_of};
ghost use Rattle.bl_spot.specs.Tokens.{AreOfTokens};

/// The questions with their tokens are the questions by which a fault of a setup file is defined, in their order; and each is
/// asked of the name that its token is.
pub fn each_question_has_its_token()
    ensures questions { (before : SoFar) (d : Declaration) → questions_of (ask before d) ≡ asked before d }
    ensures tokens { (before : SoFar) (d : Declaration) → AreOfTokens (spell_declaration d) (ask before d) }
{}
