//! The first events of a trail, followed on a hall, and the rules that their starts applied.
ghost use Rattle.std.specs.Prelude.{◌≡◌, ◌↔◌, ◌+◌, ◌≤◌, [], ℕ, IfOk, IsTrue, List, codes, length};
ghost use Rattle.bl_journal.specs.Journals.{GoesNoFurther};
ghost use Rattle.bl_order.specs.Machine.{Event as AnyEvent, State, state_after};
ghost use Rattle.bl_trail.specs.Follow.{Followed};
ghost use Rattle.bl_explaining_event.specs.Courses.{EndsBehind, IsGone};

use crate::noting::{note, rule_of_last};
use bl_explain::since::Applied;
use bl_rebuild::follower::Follower;
use bl_trail::follow::first_line;
use bl_trail::verdict::Verdict;
use std::alloc::AllocError;

/// Whether the line closes the trail.
fn is_stop(line: &[u8]) -> bool
    ensures { IsTrue result ↔ (line.now ≡ codes "stop") }
{
    line == b"stop".as_slice()
}

/// The verdict on a trail of which so many events are right and no more, by what stands behind them.
pub(crate) fn verdict_behind(rest: &[u8], trail: &[u8], count: u64) -> Verdict
    requires { count + length rest.now ≤ length trail.now }
    ensures { (x : State) (text : List ℕ) (events : List AnyEvent) → Followed x text rest.now events
        → GoesNoFurther (state_after x events) rest.now → count ≡ length events → EndsBehind x text count result }
{
    let Some((line, behind)) = first_line(rest) else {
        return Verdict::Rejected(count + 3);
    };
    if !is_stop(line) {
        return Verdict::Rejected(count + 3);
    }
    if behind.is_empty() {
        return Verdict::Accepted(count);
    }
    Verdict::Rejected(count + 4)
}

/// Follows so many events of a trail, and notes the rules that they applied. None where all of them are right; else the
/// verdict on the trail. An error comes only where a growth is refused.
pub(crate) fn follow_events(
    follower: &mut Follower<'_>,
    rules: &mut Vec<Applied>,
    trail: &[u8],
    events: u64,
) -> Result<Option<Verdict>, AllocError>
    requires begun { follower.old.hall.trail ≡ [] }
    requires within { length follower.old.rest ≤ length trail.now }
    requires none { rules.old.items ≡ [] }
    ensures { IfOk result (IsGone follower.old follower.new rules.new.items events) }
{
    let mut count: u64 = 0;
    'lines: while count < events {
        if !follower.take()? {
            return Ok(Some(verdict_behind(follower.rest(), trail, count)));
        }
        let found = rule_of_last(follower.hall(), count + 1);
        note(rules, found)?;
        count += 1;
    }
    Ok(None)
}
