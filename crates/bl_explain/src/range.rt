//! At which current levels an access is granted.
ghost use Rattle.std.specs.Prelude.{◌≡◌, ◌<◌, length};
ghost use Rattle.bl_explain.specs.Grounds.{grounds_of};
ghost use Rattle.bl_explain.specs.Ranges.{hold_at_any_level, levels_on, meet_of, range_on, star_range};

use crate::grounds::Grounds;
use crate::tests::Tests;
use bl_level::level::Level;
use bl_policy::access::{Access, Mode};
use bl_policy::id::SubjectId;
use bl_policy::policy::Policy;
use bl_policy::policy::carry::lowest_level;

/// The levels that dominate one level and that another one dominates.
#[derive(Clone, Copy, PartialEq, Eq, Debug)]
pub struct LevelRange {
    /// Each level of the range dominates it.
    pub lowest: Level,
    /// It dominates each level of the range.
    pub highest: Level,
}

/// The greatest level that both dominate: the lower rank, and the categories of both.
fn meet(one: &Level, other: &Level) -> Level
    ensures { result ≡ meet_of one.now other.now }
{
    let rank = one.rank().min(other.rank());
    Level::new(rank, one.categories() & other.categories()).unwrap()
}

/// The current levels at which an untrusted subject has the star property, where it has the simple-security property.
fn star_range(greatest: &Level, level: &Level, mode: Mode) -> LevelRange
    ensures { result ≡ star_range greatest.now level.now mode }
{
    match mode {
        Mode::Read => LevelRange {
            lowest: *level,
            highest: *greatest,
        },
        Mode::Append => LevelRange {
            lowest: lowest_level(),
            highest: meet(greatest, level),
        },
        Mode::Write => LevelRange {
            lowest: *level,
            highest: *level,
        },
    }
}

impl Tests {
    /// Whether the answers that no current level changes are yes.
    fn hold_at_any_level(&self) -> bool
        ensures { result ≡ hold_at_any_level self.now }
    {
        self.present && self.simple && self.discretionary && self.carry
    }
}

impl Grounds {
    /// The current levels at which the star property does not keep the subject from an access in this mode.
    fn levels(&self, mode: Mode) -> LevelRange
        ensures { result ≡ levels_on self.now mode }
    {
        if self.trusted {
            LevelRange {
                lowest: lowest_level(),
                highest: self.greatest,
            }
        } else {
            star_range(&self.greatest, &self.level, mode)
        }
    }

    /// The current levels at which an access in this mode would be granted, all else as it is. None where it would be at no
    /// current level: the document is absent, or the access fails another property than star.
    pub fn range(&self, mode: Mode) -> Option<LevelRange>
        ensures { result ≡ range_on self.now mode }
    {
        if self.tests(mode).hold_at_any_level() {
            Some(self.levels(mode))
        } else {
            None
        }
    }
}

/// The current levels, up to the subject's greatest, at which this access would be granted to a behaviour that carries
/// this level. None where there is none. Law `granted_at_just_these_levels` says what they are.
pub fn granted_range(
    policy: &Policy,
    subject: SubjectId,
    carried: &Level,
    access: &Access,
) -> Option<LevelRange>
    requires known { subject < length policy.now.subjects }
    requires there { access.now.doc < length policy.now.documents }
    ensures { result ≡ range_on (grounds_of policy.now subject carried.now access.now) access.now.mode }
{
    Grounds::of(policy, subject, carried, access).range(access.mode)
}
