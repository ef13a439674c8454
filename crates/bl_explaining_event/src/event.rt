//! The decision at an event.
ghost use Rattle.std.specs.Prelude.{◌≡◌, ◌<◌, ◌≤◌, [], ℕ, IfErr, IfOk, List, length};
ghost use Rattle.bl_setup.specs.Setup.{Setup as AnySetup};
ghost use Rattle.bl_state.specs.Whole.{IsWhole};
ghost use Rattle.bl_order.specs.Machine.{Event as AnyEvent, Starts, State};
ghost use Rattle.bl_rebuild.specs.Following.{IsBegun};
ghost use Rattle.bl_explain.specs.Since.{policy_after};
ghost use Rattle.bl_rebuild.specs.Rebuilds.{IsNotRebuilt};
ghost use Rattle.bl_explaining_event.specs.Courses.{IsNotTaken, IsTakenTo, fault_by};
ghost use Rattle.bl_explaining_event.specs.Decisions.{HasNoDecision, IsDecision};
ghost use Rattle.bl_explaining_event.specs.Starts.{IsBehind, IsMomentBefore, IsToldAt, IsToldBehind, IsToldOfLast};

use crate::course::{follow_events, verdict_behind};
use crate::decision::{Speaker, speaker_of, tell_start};
use crate::fault::{EventFault, no_memory};
use crate::noting::started;
use crate::question::EventQuestion;
use bl_explain::laws::rules_make_the_policy_of_a_run;
use bl_explain::since::Applied;
use bl_explaining::explained::Explained;
use bl_explaining::setting::{Moment, Setting};
use bl_hall::hall::Hall;
use bl_order::laws::{each_state_holds, headline, lines_are_readable, tasks_are_of_scripts};
use bl_policy::laws::{matrix_is_a_set, rule_fault_is_the_first};
use bl_policy::policy::Policy;
use bl_rebuild::fault::RebuildFault;
use bl_rebuild::follower::Follower;
use bl_ruled::policy::policy_behind;
use bl_setup::setup::Setup;
use bl_status::fault::ProgramFault;
use bl_trail::verdict::{Verdict, what_was_followed_tells_the_verdict};
use bl_work::laws::read_lines_are_known;
use std::alloc::{AllocError, Global};

/// What is told of the last event of a hall, which is the start of this entry.
fn explain_start(
    moment: &Moment<'_>,
    asked: &EventQuestion<'_>,
    hall: &Hall,
    n: u32,
) -> Result<Explained, AllocError>
    requires { (x : State) × IsMomentBefore moment.now hall.now x (Starts n) }
    ensures { IfOk result (λ told. (x : State) → IsMomentBefore moment.now hall.now x (Starts n)
        → IsToldAt moment.now asked.now.path.now asked.now.event n x told.text.items told.granted) }
{
    headline();
    each_state_holds();
    matrix_is_a_set();
    rule_fault_is_the_first();
    read_lines_are_known();
    tasks_are_of_scripts();
    lines_are_readable();
    let Speaker { subject, carried } = speaker_of(hall.core(), n);
    let setting = Setting {
        alloc: hall.alloc(),
        path: asked.path,
        moment: *moment,
        subject,
        carried,
    };
    tell_start(&setting, hall, asked.event, n)
}

/// What is told of the last event of a hall; none where it starts nothing.
fn explain_last(
    moment: &Moment<'_>,
    asked: &EventQuestion<'_>,
    hall: &Hall,
) -> Result<Option<Explained>, AllocError>
    requires { (x : State) × (event : AnyEvent) × IsMomentBefore moment.now hall.now x event }
    ensures { IfOk result (λ told. (x : State) (event : AnyEvent) → IsMomentBefore moment.now hall.now x event
        → IsToldOfLast moment.now asked.now.path.now asked.now.event x event told) }
{
    match started(hall) {
        Some(n) => {
            let told = explain_start(moment, asked, hall, n)?;
            Ok(Some(told))
        }
        None => Ok(None),
    }
}

/// The same behind these rules, by the policy that they made.
fn explain_by(
    setup: &Setup,
    bytes: &[u8],
    rules: &[Applied],
    policy: &Policy,
    asked: &EventQuestion<'_>,
    hall: &Hall,
) -> Result<Option<Explained>, AllocError>
    requires behind { (x : State) × (event : AnyEvent) × IsBehind setup.now rules.now hall.now x event }
    requires made { policy.now ≡ policy_after setup.now.policy rules.now }
    ensures { IfOk result (λ told. (x : State) (event : AnyEvent) → IsBehind setup.now rules.now hall.now x event
        → IsToldBehind setup.now bytes.now rules.now asked.now.path.now asked.now.event x event told) }
{
    matrix_is_a_set();
    rule_fault_is_the_first();
    read_lines_are_known();
    lines_are_readable();
    let moment = Moment {
        bytes,
        setup,
        rules,
        policy,
    };
    explain_last(&moment, asked, hall)
}

/// The same, whatever policy they made.
fn explain_behind(
    setup: &Setup,
    bytes: &[u8],
    rules: &[Applied],
    asked: &EventQuestion<'_>,
    hall: &Hall,
) -> Result<Option<Explained>, AllocError>
    requires { (x : State) × (event : AnyEvent) × IsBehind setup.now rules.now hall.now x event }
    ensures { IfOk result (λ told. (x : State) (event : AnyEvent) → IsBehind setup.now rules.now hall.now x event
        → IsToldBehind setup.now bytes.now rules.now asked.now.path.now asked.now.event x event told) }
{
    let policy = policy_behind(setup.policy(), rules)?;
    let told = explain_by(setup, bytes, rules, &policy, asked, hall);
    drop(policy);
    told
}

/// Why no decision is told of an event, where this is the verdict on the trail.
fn fault_of(verdict: Verdict, event: u64) -> EventFault
    ensures { result ≡ fault_by verdict event }
{
    match verdict {
        Verdict::Accepted(_) => EventFault::NoEvent(event),
        Verdict::Rejected(line) => EventFault::Program(ProgramFault::WrongAt(line)),
    }
}

/// Why no decision is told, where no hall is begun of the trail.
fn unbegun(fault: RebuildFault) -> EventFault
    ensures { (setup : AnySetup) (trail : List ℕ) (number : ℕ) → IsNotRebuilt setup trail fault
        → HasNoDecision setup trail number result }
{
    match fault {
        RebuildFault::Head(line) => EventFault::Program(ProgramFault::WrongAt(line)),
        RebuildFault::OldVersion => EventFault::Program(ProgramFault::OldVersion),
        RebuildFault::Memory => no_memory(),
    }
}

/// The rules that were applied before an event, which is taken too; or why no decision is told of it.
fn rules_until(
    follower: &mut Follower<'_>,
    trail: &[u8],
    event: u64,
) -> Result<Vec<Applied>, EventFault>
    requires some { 0 < event }
    requires begun { follower.old.hall.trail ≡ [] }
    requires within { length follower.old.rest ≤ length trail.now }
    ensures taken { IfOk result (λ rules. IsTakenTo follower.old follower.new rules.items event) }
    ensures fault { IfErr result (IsNotTaken follower.old event) }
{
    let mut rules = Vec::new(follower.hall().alloc());
    let Ok(gone) = follow_events(follower, &mut rules, trail, event - 1) else {
        return Err(no_memory());
    };
    if let Some(verdict) = gone {
        return Err(fault_of(verdict, event));
    }
    match follower.take() {
        Ok(true) => Ok(rules),
        Ok(false) => Err(fault_of(verdict_behind(follower.rest(), trail, event - 1), event)),
        Err(_) => Err(no_memory()),
    }
}

/// What is told of the decision at an event, by what follows its trail; or why nothing is.
fn explain_in(
    setup: &Setup,
    bytes: &[u8],
    trail: &[u8],
    asked: &EventQuestion<'_>,
    follower: &mut Follower<'_>,
) -> Result<Explained, EventFault>
    requires whole { IsWhole setup.now }
    requires begun { IsBegun setup.now trail.now follower.old }
    requires some { 0 < asked.now.event }
    ensures decision { IfOk result (λ told. IsDecision setup.now bytes.now trail.now
        asked.now.path.now asked.now.event told.text.items told.granted) }
    ensures fault { IfErr result (HasNoDecision setup.now trail.now asked.now.event) }
{
    what_was_followed_tells_the_verdict();
    rules_make_the_policy_of_a_run();
    let rules = match rules_until(follower, trail, asked.event) {
        Ok(rules) => rules,
        Err(fault) => return Err(fault),
    };
    match explain_behind(setup, bytes, &rules, asked, follower.hall()) {
        Ok(Some(told)) => Ok(told),
        Ok(None) => Err(EventFault::StartsNothing(asked.event)),
        Err(_) => Err(no_memory()),
    }
}

/// What is told of the decision at an event of the trail of these bytes; or why nothing is.
pub(crate) fn explain_event(
    alloc: Global,
    setup: &Setup,
    bytes: &[u8],
    trail: &[u8],
    asked: &EventQuestion<'_>,
) -> Result<Explained, EventFault>
    requires { IsWhole setup.now }
    ensures decision { IfOk result (λ told. IsDecision setup.now bytes.now trail.now
        asked.now.path.now asked.now.event told.text.items told.granted) }
    ensures fault { IfErr result (HasNoDecision setup.now trail.now asked.now.event) }
{
    if asked.event == 0 {
        return Err(EventFault::NoEvent(asked.event));
    }
    match Follower::begin(alloc, setup, trail) {
        Ok(begun) => {
            let mut follower = begun;
            let told = explain_in(setup, bytes, trail, asked, &mut follower);
            drop(follower);
            told
        }
        Err(fault) => Err(unbegun(fault)),
    }
}
