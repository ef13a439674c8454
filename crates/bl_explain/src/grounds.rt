//! What decides an access: the levels, the trust and the right of its subject and its document.
ghost use Rattle.std.specs.Prelude.{◌≡◌, ◌<◌, length};
ghost use Rattle.bl_policy.specs.Policy.{allows};
ghost use Rattle.bl_explain.specs.Grounds.{grounds_of};

use bitflags::Flags;
use bl_level::level::Level;
use bl_policy::access::{Access, Mode, ModeSet};
use bl_policy::id::{DocId, SubjectId};
use bl_policy::policy::Policy;

/// What decides an access in some mode, and nothing else does.
#[derive(Clone, Copy, PartialEq, Eq, Debug)]
pub struct Grounds {
    /// Whether the document is present.
    pub present: bool,
    /// The level of the document, present or not.
    pub level: Level,
    /// The greatest level of the subject.
    pub greatest: Level,
    /// The current level of the subject.
    pub current: Level,
    /// Whether the subject is trusted.
    pub trusted: bool,
    /// Whether the matrix has the mode for this subject and document.
    pub allowed: bool,
    /// The level that the behaviour carries: the lowest one for a line.
    pub carried: Level,
}

/// Whether the matrix has the mode for this subject and document.
fn has(policy: &Policy, subject: SubjectId, doc: DocId, mode: Mode) -> bool
    requires known { subject < length policy.now.subjects }
    requires there { doc < length policy.now.documents }
    ensures { result ≡ allows policy.now subject doc mode }
{
    policy.cell(subject, doc).contains(ModeSet::from(mode))
}

impl Grounds {
    /// What decides this access of a subject whose behaviour carries this level.
    pub fn of(policy: &Policy, subject: SubjectId, carried: &Level, access: &Access) -> Grounds
        requires known { subject < length policy.now.subjects }
        requires there { access.now.doc < length policy.now.documents }
        ensures { result ≡ grounds_of policy.now subject carried.now access.now }
    {
        Grounds {
            present: policy.is_present(access.doc),
            level: policy.level(access.doc),
            greatest: policy.greatest(subject),
            current: policy.current(subject),
            trusted: policy.is_trusted(subject),
            allowed: has(policy, subject, access.doc, access.mode),
            carried: *carried,
        }
    }
}
