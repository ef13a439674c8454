//! Since when what decides an access is as it is: what the setup made so, and which rule changed it last.
ghost use Rattle.std.specs.Prelude.{◌≡◌, ◌<◌, All, IfOk, length};
ghost use Rattle.bl_explain.specs.Since.{KnowsApplied, is_same_answer, is_same_level, noted, of_setup, since_of, unless_same};

use crate::grounds::Grounds;
use bl_level::level::Level;
use bl_policy::access::Access;
use bl_policy::id::SubjectId;
use bl_policy::policy::Policy;
use bl_policy::policy::carry::lowest_level;
use bl_policy::rule::Rule;
use std::alloc::AllocError;

/// A rule that an event applied, and for whom.
#[derive(Clone, Copy, PartialEq, Eq, Debug)]
pub struct Applied {
    /// The number of the event, as the caller counts.
    pub event: u64,
    /// The subject that asked for the rule.
    pub speaker: SubjectId,
    /// What it asked for.
    pub rule: Rule,
}

/// What made the grounds of an access: of each the number of the event whose rule changed it last. None where no rule did,
/// so that the setup made it. A greatest level and trust have no number, since no rule changes them.
#[derive(Clone, Copy, PartialEq, Eq, Debug)]
pub struct Since {
    /// What made the document present or absent.
    pub present: Option<u64>,
    /// What gave the document its level.
    pub level: Option<u64>,
    /// What gave the subject its current level.
    pub current: Option<u64>,
    /// What put the mode into the matrix, or took it out.
    pub allowed: Option<u64>,
}

/// Whether two levels are one: their ranks are equal, and so are their categories.
pub fn is_same_level(one: &Level, other: &Level) -> bool
    ensures { result ≡ is_same_level one.now other.now }
{
    one.rank() == other.rank() && one.categories() == other.categories()
}

/// Whether two answers are one.
fn is_same_answer(one: bool, other: bool) -> bool
    ensures { result ≡ is_same_answer one other }
{
    if one { other } else { !other }
}

/// The event, unless nothing changed there: then what made the value before.
fn unless_same(same: bool, event: u64, before: Option<u64>) -> Option<u64>
    ensures { result ≡ unless_same same event before }
{
    if same { before } else { Some(event) }
}

impl Since {
    /// The setup made all of them.
    fn of_setup() -> Since
        ensures { result ≡ of_setup }
    {
        Since {
            present: None,
            level: None,
            current: None,
            allowed: None,
        }
    }

    /// What made the grounds, once an event led from some to others.
    fn noted(&self, event: u64, before: &Grounds, next: &Grounds) -> Since
        ensures { result ≡ noted event before.now next.now self.now }
    {
        let same_presence = is_same_answer(before.present, next.present);
        let same_level = is_same_level(&before.level, &next.level);
        let same_current = is_same_level(&before.current, &next.current);
        let same_right = is_same_answer(before.allowed, next.allowed);
        Since {
            present: unless_same(same_presence, event, self.present),
            level: unless_same(same_level, event, self.level),
            current: unless_same(same_current, event, self.current),
            allowed: unless_same(same_right, event, self.allowed),
        }
    }
}

/// What made the grounds of an access, where these rules were applied to a policy one after the other, refused or not. Law
/// `since_its_last_change` says what is answered. An error comes only where a growth is refused.
pub fn made_by(
    start: &Policy,
    subject: SubjectId,
    access: &Access,
    rules: &[Applied],
) -> Result<Since, AllocError>
    requires known { subject < length start.now.subjects }
    requires there { access.now.doc < length start.now.documents }
    requires rules { All (KnowsApplied start.now) rules.now }
    ensures { IfOk result (λ since. since ≡ since_of start.now subject access.now rules.now) }
{
    let mut policy = start.copy()?;
    let mut since = Since::of_setup();
    for applied in rules {
        let before = Grounds::of(&policy, subject, &lowest_level(), access);
        policy.apply(applied.speaker, &applied.rule);
        let next = Grounds::of(&policy, subject, &lowest_level(), access);
        since = since.noted(applied.event, &before, &next);
    }
    Ok(since)
}
