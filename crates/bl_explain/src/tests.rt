//! What each property says of an access, and which one it fails first.
ghost use Rattle.std.specs.Prelude.{◌≡◌, ◌<◌, length};
ghost use Rattle.bl_policy.specs.FirstFault.{fault_of};
ghost use Rattle.bl_policy.specs.Properties.{flows, may_carry, observes};
ghost use Rattle.bl_explain.specs.Tests.{AnswerTheProperties, fails_first, in_order, is_exempt, refused, tests_of, tests_on};

use crate::grounds::Grounds;
use crate::laws::what_fails_first_decides;
use bl_level::level::Level;
use bl_policy::access::{Access, Mode};
use bl_policy::denial::Clause;
use bl_policy::id::SubjectId;
use bl_policy::laws::tests_are_the_properties;
use bl_policy::policy::Policy;

/// One test, and its answer.
#[derive(Clone, Copy, PartialEq, Eq, Debug)]
pub struct Tested {
    /// What a refusal names where the answer is no.
    pub clause: Clause,
    /// Whether the property or condition holds.
    pub holds: bool,
}

/// The answer of each test that an access has to pass, also behind one that it fails.
#[derive(Clone, Copy, PartialEq, Eq, Debug)]
pub struct Tests {
    /// Whether the document is present.
    pub present: bool,
    /// Whether the simple-security property holds.
    pub simple: bool,
    /// Whether the star property holds.
    pub star: bool,
    /// Whether the discretionary property holds.
    pub discretionary: bool,
    /// Whether the carry property holds.
    pub carry: bool,
}

/// Whether the greatest level dominates what is observed.
fn observes(greatest: &Level, level: &Level, mode: Mode) -> bool
    ensures { result ≡ observes greatest.now level.now mode }
{
    match mode {
        Mode::Append => true,
        Mode::Read | Mode::Write => greatest.dominates(level),
    }
}

/// Whether nothing flows down where a subject at this current level uses a document at this level in this mode: a read
/// needs a current level that dominates the document's, an append the other way round, and a write the same level (Bell
/// and La Padula 1976, the star property). A trusted subject is not bound by it.
pub fn flows(current: &Level, level: &Level, mode: Mode) -> bool
    ensures { result ≡ flows current.now level.now mode }
{
    match mode {
        Mode::Read => current.dominates(level),
        Mode::Append => level.dominates(current),
        Mode::Write => {
            current.rank() == level.rank() && current.categories() == level.categories()
        }
    }
}

/// Whether what is altered dominates what is carried.
fn may_carry(carried: &Level, level: &Level, mode: Mode) -> bool
    ensures { result ≡ may_carry carried.now level.now mode }
{
    match mode {
        Mode::Read => true,
        Mode::Append | Mode::Write => level.dominates(carried),
    }
}

impl Grounds {
    /// What each property says of an access in this mode, of which these are the grounds.
    pub fn tests(&self, mode: Mode) -> Tests
        ensures { result ≡ tests_on self.now mode }
    {
        Tests {
            present: self.present,
            simple: observes(&self.greatest, &self.level, mode),
            star: self.trusted || flows(&self.current, &self.level, mode),
            discretionary: self.allowed,
            carry: self.trusted || may_carry(&self.carried, &self.level, mode),
        }
    }

    /// Whether an access in this mode is granted by exemption: it is granted, and would not be were its subject not
    /// trusted.
    pub fn is_exempt(&self, mode: Mode) -> bool
        ensures { result ≡ is_exempt self.now mode }
    {
        let untrusted = Grounds {
            trusted: false,
            ..*self
        };
        self.tests(mode).fails_first().is_none() && untrusted.tests(mode).fails_first().is_some()
    }
}

impl Tests {
    /// The answers in the order in which an access is judged: presence, simple security, star, discretionary, carry.
    pub fn in_order(&self) -> [Tested; 5]
        ensures { result ≡ in_order self.now }
    {
        [
            Tested {
                clause: Clause::Absent,
                holds: self.present,
            },
            Tested {
                clause: Clause::Simple,
                holds: self.simple,
            },
            Tested {
                clause: Clause::Star,
                holds: self.star,
            },
            Tested {
                clause: Clause::Discretionary,
                holds: self.discretionary,
            },
            Tested {
                clause: Clause::Carry,
                holds: self.carry,
            },
        ]
    }

    /// The first test in their order that is answered with no, as a refusal names it. None where each is answered with
    /// yes: then the access is granted.
    pub fn fails_first(&self) -> Option<Clause>
        ensures { result ≡ fails_first (in_order self.now) }
    {
        if !self.present {
            Some(Clause::Absent)
        } else if !self.simple {
            Some(Clause::Simple)
        } else if !self.star {
            Some(Clause::Star)
        } else if !self.discretionary {
            Some(Clause::Discretionary)
        } else if !self.carry {
            Some(Clause::Carry)
        } else {
            None
        }
    }
}

/// What each property says of this access, of a subject whose behaviour carries this level.
pub fn explain(policy: &Policy, subject: SubjectId, carried: &Level, access: &Access) -> Tests
    requires known { subject < length policy.now.subjects }
    requires there { access.now.doc < length policy.now.documents }
    ensures tests { result ≡ tests_of policy.now subject carried.now access.now }
    ensures properties { AnswerTheProperties policy.now subject carried.now access.now result }
    // What is answered first with no is what the policy's decision names.
    ensures decision { fault_of policy.now subject carried.now access.now ≡ refused subject access.now (fails_first (in_order result)) }
{
    tests_are_the_properties();
    what_fails_first_decides();
    Grounds::of(policy, subject, carried, access).tests(access.mode)
}
