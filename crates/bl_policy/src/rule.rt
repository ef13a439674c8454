// Rules: the changes of the policy that a subject may ask for (Bell and La Padula 1976, rules).
ghost use Rattle.std.specs.Prelude.{◌≡◌, ◌<◌, ◌↔◌, IsTrue};
ghost use Rattle.bl_policy.specs.RuleEffect.{HasIdsBelow, document_of};

use crate::access::Mode;
use crate::id::{DocId, SubjectId};
use bl_level::level::Level;

/// A change of the policy that a subject, the speaker, asks for.
#[derive(Clone, Copy, PartialEq, Eq, Debug)]
pub enum Rule {
    /// Puts the mode into the matrix for this subject and document. It needs an administrator.
    Give {
        subject: SubjectId,
        doc: DocId,
        mode: Mode,
    },
    /// Takes the mode out of the matrix for this subject and document. It needs an administrator.
    Rescind {
        subject: SubjectId,
        doc: DocId,
        mode: Mode,
    },
    /// Makes this the speaker's current level, which its greatest level has to dominate.
    Current {
        level: Level,
    },
    /// Makes this the document's level. It needs an administrator who is also trusted.
    Classify {
        doc: DocId,
        level: Level,
    },
    /// Makes the document present, which has to be absent. It needs an administrator.
    Create {
        doc: DocId,
    },
    /// Makes the document absent, which has to be present, and empties each cell of it. It needs an administrator.
    Delete {
        doc: DocId,
    },
}

impl Rule {
    /// The document of the rule; None exactly for a change of the current level.
    pub fn doc(&self) -> Option<DocId>
        ensures { result ≡ document_of self.now }
    {
        match self {
            Rule::Give { doc, .. }
            | Rule::Rescind { doc, .. }
            | Rule::Classify { doc, .. }
            | Rule::Create { doc }
            | Rule::Delete { doc } => Some(*doc),
            Rule::Current { .. } => None,
        }
    }

    /// Whether the subject that the rule names is below this number of subjects, and its document below
    /// this number of documents. A level names neither.
    pub fn has_ids_below(&self, subjects: usize, documents: usize) -> bool
        ensures { IsTrue result ↔ HasIdsBelow subjects documents self.now }
    {
        match self {
            Rule::Give { subject, doc, .. } | Rule::Rescind { subject, doc, .. } => {
                (subject.position() as usize) < subjects && (doc.position() as usize) < documents
            }
            Rule::Current { .. } => true,
            Rule::Classify { doc, .. } | Rule::Create { doc } | Rule::Delete { doc } => {
                (doc.position() as usize) < documents
            }
        }
    }
}
