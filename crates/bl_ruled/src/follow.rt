//! The lines of a trail, followed to its end or for so many events, and the rules that its starts apply.
ghost use Rattle.std.specs.Prelude.{◌≡◌, ◌↔◌, ◌++◌, [], IfOk, IfSome, IsTrue, OnOk, Some, codes};
ghost use Rattle.bl_order.specs.Machine.{Event, Needs, State};
ghost use Rattle.bl_replay.specs.Keeps.{KeepsAt, Replays};
ghost use Rattle.bl_replay.specs.Kept.{KnowsPlace};
ghost use Rattle.bl_setup.specs.Setup.{Setup};
ghost use Rattle.bl_trail.specs.EventText.{event_text};
ghost use Rattle.bl_explain.specs.Since.{KnowsApplied};
ghost use Rattle.bl_ruled.specs.Noting.{AreNotedTo, listed, rule_in, rules_at};

use bl_explain::since::Applied;
use bl_order::laws::{each_state_holds, the_order_has_room};
use bl_policy::id::SubjectId;
use bl_policy::rule::Rule;
use bl_replay::place::{Origin, Place};
use bl_replay::replayer::Replayer;
use bl_trail::ask::{Ask, ask_of};
use bl_trail::follow::{Follows, first_line};
use bl_trail::verdict::Verdict;
use bl_work::work::Work;
use std::alloc::AllocError;

/// Whether the line closes the trail.
fn is_stop(line: &[u8]) -> bool
    ensures { IsTrue result ↔ (line.now ≡ codes "stop") }
{
    line == b"stop".as_slice()
}

/// A rule of a subject, as one that this event applies.
fn applied(event: u64, speaker: SubjectId, rule: Rule) -> Applied
    ensures { result ≡ record { event = event; speaker = speaker; rule = rule } }
{
    Applied {
        event,
        speaker,
        rule,
    }
}

/// The rule of a place, as one that this event applies.
fn place_rule(place: &Place, event: u64) -> Option<Applied>
    ensures rule { listed result ≡ rule_in event place.now }
    ensures known { (setup : Setup) → KnowsPlace setup place.now → IfSome result (KnowsApplied setup.policy) }
{
    match &place.work {
        Work::Behaviour(_) => None,
        Work::Rule(rule) => match place.origin {
            Origin::Line { subject } => Some(applied(event, subject, *rule)),
            Origin::Child { .. } => None,
        },
    }
}

/// The rule that a line applies, where it is right: that of the place that it starts.
fn rule_at(replayer: &Replayer, line: &[u8], event: u64) -> Option<Applied>
    ensures rule { (x : State) (e : Event) → KeepsAt x replayer.now → Needs x e → line.now ≡ event_text x e
        → listed result ≡ rules_at event x e }
    ensures known { (x : State) → KeepsAt x replayer.now → IfSome result (KnowsApplied x.setup.policy) }
{
    the_order_has_room();
    each_state_holds();
    match ask_of(line) {
        Ask::Starts(n, _) => match replayer.places.get(n as usize) {
            Some(place) => place_rule(place, event),
            None => None,
        },
        Ask::Opens(_) | Ask::Admits(_, _, _) | Ask::Ends(_) | Ask::Loses(_) | Ask::Nothing => None,
    }
}

/// Notes a rule behind others, where there is one.
fn note(rules: &mut Vec<Applied>, found: Option<Applied>) -> Result<(), AllocError>
    ensures { OnOk result (rules.new.items ≡ rules.old.items ++ listed found) }
{
    match found {
        Some(
            Applied {
                event,
                speaker,
                rule,
            },
        ) => {
            rules.push(applied(event, speaker, rule))?;
            Ok(())
        }
        None => Ok(()),
    }
}

/// How far lines were followed.
#[derive(Clone, Copy)]
pub(crate) enum Extent {
    /// As many events as were asked for are right.
    Front,
    /// To their end, or to what is not right first.
    Whole(Verdict),
}

/// Whether as many events as are asked for have come.
fn is_enough(most: Option<u64>, count: u64) -> bool
    ensures { IsTrue result ↔ (most ≡ Some count) }
{
    match most {
        Some(number) => number == count,
        None => false,
    }
}

/// Follows the lines behind the head: so many events, where a number is asked for, or all. Unless something is not right
/// before that, all rules are noted that their events apply. An error comes only where a growth is refused.
pub(crate) fn follow_to(
    replayer: &mut Replayer,
    rules: &mut Vec<Applied>,
    text: &[u8],
    most: Option<u64>,
) -> Result<Extent, AllocError>
    requires stands { (x : State) × Replays replayer.old x text.now }
    requires none { rules.old.items ≡ [] }
    ensures { IfOk result (λ extent. (x : State) → Replays replayer.old x text.now
        → AreNotedTo x text.now most rules.new.items extent) }
{
    let mut rest = text;
    let mut count: u64 = 0;
    'lines: loop {
        if is_enough(most, count) {
            return Ok(Extent::Front);
        }
        let Some((line, behind)) = first_line(rest) else {
            return Ok(Extent::Whole(Verdict::Rejected(count + 3)));
        };
        if is_stop(line) {
            if behind.is_empty() {
                return Ok(Extent::Whole(Verdict::Accepted(count)));
            }
            return Ok(Extent::Whole(Verdict::Rejected(count + 4)));
        }
        let applied = rule_at(replayer, line, count + 1);
        if !replayer.take(line)? {
            return Ok(Extent::Whole(Verdict::Rejected(count + 3)));
        }
        note(rules, applied)?;
        count += 1;
        rest = behind;
    }
}
