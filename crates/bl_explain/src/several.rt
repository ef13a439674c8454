//! Which of several accesses decides.
ghost use Rattle.std.specs.Prelude.{◌<◌, All, MatchOption, length};
ghost use Rattle.bl_policy.specs.Properties.{IsGranted};
ghost use Rattle.bl_explain.specs.Several.{Decides};

use crate::laws::what_fails_first_decides;
use crate::tests::explain;
use bl_level::level::Level;
use bl_policy::access::Access;
use bl_policy::denial::Clause;
use bl_policy::id::SubjectId;
use bl_policy::policy::Policy;

/// The access that decides several ones, and why.
#[derive(Clone, Copy, PartialEq, Eq, Debug)]
pub struct Refused {
    /// Its place in the list, from 0 on.
    pub place: usize,
    /// What it fails first.
    pub clause: Clause,
}

/// The first of these accesses, in the order given, that is not granted to a behaviour that carries this level, and what
/// it fails first. None where each is granted.
pub fn first_refused(
    policy: &Policy,
    subject: SubjectId,
    carried: &Level,
    accesses: &[Access],
) -> Option<Refused>
    requires known { subject < length policy.now.subjects }
    requires there { All (λ access. access.doc < length policy.now.documents) accesses.now }
    ensures { MatchOption result (All (λ access. IsGranted policy.now subject carried.now access.doc access.mode) accesses.now)
        (Decides policy.now subject carried.now accesses.now) }
{
    what_fails_first_decides();
    for place in 0..accesses.len() {
        match explain(policy, subject, carried, &accesses[place]).fails_first() {
            Some(clause) => return Some(Refused { place, clause }),
            None => {}
        }
    }
    None
}
