//! The rule that an event applied.
ghost use Rattle.std.specs.Prelude.{◌≡◌, ◌++◌, IfSome, OnOk};
ghost use Rattle.bl_hall.specs.Chronicle.{state_now};
ghost use Rattle.bl_order.specs.Headline.{IsReached};
ghost use Rattle.bl_order.specs.Machine.{Event as AnyEvent, MayStart, Starts, State, change, past_at};
ghost use Rattle.bl_explain.specs.Run.{applied_by};
ghost use Rattle.bl_explain.specs.Since.{KnowsApplied};
ghost use Rattle.bl_ruled.specs.Noting.{listed, rules_at};
ghost use Rattle.bl_explaining_event.specs.Courses.{HasHappened, IsStarted};

use bl_core::machine::Core;
use bl_explain::since::Applied;
use bl_hall::event::Event;
use bl_hall::hall::Hall;
use bl_order::laws::{each_state_holds, headline};
use bl_policy::id::SubjectId;
use bl_policy::rule::Rule;
use bl_work::work::Work;
use std::alloc::AllocError;

/// A rule of a subject, as one that this event applied.
fn applied(event: u64, speaker: SubjectId, rule: Rule) -> Applied
    ensures { result ≡ record { event = event; speaker = speaker; rule = rule } }
{
    Applied {
        event,
        speaker,
        rule,
    }
}

/// The rule of a place that this event started.
fn rule_of(core: &Core, n: u32, event: u64) -> Option<Applied>
    requires { IsReached core.now }
    ensures rule { (x : State) → IsReached x → MayStart x n → core.now ≡ change x (Starts n)
        → listed result ≡ applied_by event (past_at x n) }
    ensures known { IfSome result (KnowsApplied core.now.setup.policy) }
{
    each_state_holds();
    headline();
    let Some(subject) = core.subject(n) else {
        return None;
    };
    match core.work(n) {
        Some(Work::Rule(rule)) => Some(applied(event, subject, *rule)),
        Some(Work::Behaviour(_)) => None,
        None => None,
    }
}

/// The place that the last event started; none where it started nothing.
pub(crate) fn started(hall: &Hall) -> Option<u32>
    ensures { (x : State) (event : AnyEvent) → HasHappened hall.now x event → IsStarted event result }
{
    match hall.trail().last() {
        Some(Event::Start(n)) => Some(*n),
        Some(Event::Open(_) | Event::Line { .. } | Event::End(_) | Event::Lost(_)) | None => None,
    }
}

/// The rule that the last event applied, which is the one of this number.
pub(crate) fn rule_of_last(hall: &Hall, number: u64) -> Option<Applied>
    ensures rule { (x : State) (event : AnyEvent) → HasHappened hall.now x event → listed result ≡ rules_at number x event }
    ensures known { IfSome result (KnowsApplied (state_now hall.now).setup.policy) }
{
    match started(hall) {
        Some(n) => rule_of(hall.core(), n, number),
        None => None,
    }
}

/// Notes a rule behind others, where there is one.
pub(crate) fn note(rules: &mut Vec<Applied>, found: Option<Applied>) -> Result<(), AllocError>
    ensures { OnOk result (rules.new.items ≡ rules.old.items ++ listed found) }
{
    match found {
        Some(
            Applied {
                event,
                speaker,
                rule,
            },
        ) => {
            rules.push(applied(event, speaker, rule))?;
            Ok(())
        }
        None => Ok(()),
    }
}
