// What a refusal says: the property or condition that failed first, who spoke, and of which document.
ghost use Rattle.std.specs.Prelude.{◌≡◌};
ghost use Rattle.bl_policy.specs.Denial.{word_of};

use crate::id::{DocId, SubjectId};

/// The property that an access fails, or the condition that a rule fails.
#[derive(Clone, Copy, PartialEq, Eq, Debug)]
pub enum Clause {
    /// The document is not present: of an access, and of a rule that deletes it.
    Absent,
    /// The simple-security property: the subject's greatest level does not dominate the document's.
    Simple,
    /// The star property: the access would observe from above the subject's current level, or alter below it.
    Star,
    /// The discretionary property: the mode is not in the matrix for this subject and document.
    Discretionary,
    /// The carry property: the access would alter below a level at which the behaviour's parent, or one above it, ran.
    Carry,
    /// The rule needs an administrator, and the speaker is none.
    Admin,
    /// The rule needs a trusted subject, and the speaker is none.
    Trusted,
    /// The speaker's greatest level does not dominate the current level that the rule asks for.
    Greatest,
    /// The document that the rule creates is present.
    Present,
}

impl Clause {
    /// The name of the property or condition in a reply.
    pub fn word(self) -> &'static str
        ensures { result.now ≡ word_of self }
    {
        match self {
            Clause::Absent => "absent",
            Clause::Simple => "simple",
            Clause::Star => "star",
            Clause::Discretionary => "discretionary",
            Clause::Carry => "carry",
            Clause::Admin => "admin",
            Clause::Trusted => "trusted",
            Clause::Greatest => "greatest",
            Clause::Present => "present",
        }
    }
}

/// A refusal: the first property or condition that failed, the subject that spoke, and the document of the
/// access or rule. A rule that changes the current level has no document.
#[derive(Clone, Copy, PartialEq, Eq, Debug)]
pub struct Denial {
    pub clause: Clause,
    pub subject: SubjectId,
    pub object: Option<DocId>,
}
