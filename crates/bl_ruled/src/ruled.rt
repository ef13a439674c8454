//! The rules that the starts of a trail applied, by its text: all of them with the verdict, or those of its first events.
ghost use Rattle.std.specs.Prelude.{◌≡◌, [], ℕ, All, IfOk, List, None, Some};
ghost use Rattle.bl_order.specs.Machine.{State, start};
ghost use Rattle.bl_setup.specs.Setup.{by_version};
ghost use Rattle.bl_trail.specs.Follow.{IsVerdict};
ghost use Rattle.bl_trail.specs.TrueText.{IsLimit};
ghost use Rattle.bl_explain.specs.Since.{KnowsApplied};
ghost use Rattle.bl_ruled.specs.Noting.{AreLeft, AreLeftBefore, AreNotedTo};
ghost use Rattle.bl_ruled.specs.Ruled.{AreRulesBefore, AreRulesOf, KnowsFront};

use crate::follow::{Extent, follow_to};
use bl_explain::since::Applied;
use bl_replay::mark::foretell;
use bl_replay::replay::begin;
use bl_setup::setup::Setup;
use bl_setup::version::Version;
use bl_trail::head::{Head, head_of};
use bl_trail::verdict::{Verdict, what_was_followed_tells_the_verdict};
use std::alloc::{AllocError, Global};

/// What the run of a trail applied.
#[derive(Drop)]
pub struct Ruled {
    /// The verdict on the trail's text.
    pub verdict: Verdict,
    /// The rules that its starts applied, refused or not, in their order, each with the number of its event, from 1: none
    /// where the text is not accepted.
    pub rules: Vec<Applied>,
}

/// What the first events of a trail applied.
#[derive(Drop)]
pub enum Front {
    /// So many events are right, whatever stands behind them: the rules that their starts applied, refused or not, in
    /// their order, each with the number of its event, from 1.
    Right(Vec<Applied>),
    /// The text is accepted, and has fewer events.
    Fewer,
    /// The first line that is not right, counted from 1: that of one of these events or of the head, or the one behind a
    /// `stop` that stands before so many events.
    Wrong(u64),
}

/// What was noted of lines.
#[derive(Drop)]
struct Noted {
    extent: Extent,
    rules: Vec<Applied>,
}

/// That a text is wrong at this line: then it has no rules.
fn rejected(alloc: Global, line: u64) -> Ruled
    ensures verdict { result.verdict ≡ Verdict.Rejected line }
    ensures rules { result.rules.items ≡ [] }
{
    Ruled {
        verdict: Verdict::Rejected(line),
        rules: Vec::new(alloc),
    }
}

/// What is noted of the lines behind the head. An error comes only where a growth is refused.
fn noted_behind(
    alloc: Global,
    setup: &Setup,
    version: Version,
    limit: u32,
    text: &[u8],
    most: Option<u64>,
) -> Result<Noted, AllocError>
    requires { IsLimit limit }
    ensures { IfOk result (λ noted. AreNotedTo (start (by_version version setup.now) limit) text.now most
        noted.rules.items noted.extent) }
{
    let marks = foretell(alloc, text)?;
    let mut replayer = begin(alloc, setup, version, limit, marks)?;
    let mut rules = Vec::new(alloc);
    let followed = follow_to(&mut replayer, &mut rules, text, most);
    drop(replayer);
    let extent = followed?;
    Ok(Noted { extent, rules })
}

/// What is answered of a text of which this was noted, where no number of events was asked for.
fn ruled_of(alloc: Global, noted: Noted) -> Ruled
    requires { (x : State) × (text : List ℕ) × AreNotedTo x text None noted.rules.items noted.extent }
    ensures { (x : State) (text : List ℕ) → AreNotedTo x text None noted.rules.items noted.extent
        → AreLeft x text result.verdict result.rules.items }
{
    let Noted { extent, rules } = noted;
    match extent {
        // no number was asked for
        Extent::Front => unreachable!(),
        Extent::Whole(Verdict::Rejected(line)) => rejected(alloc, line),
        Extent::Whole(Verdict::Accepted(events)) => Ruled {
            verdict: Verdict::Accepted(events),
            rules,
        },
    }
}

/// What is answered of a text of which this was noted, where so many events were asked for.
fn front_of(noted: Noted, events: u64) -> Front
    ensures { (x : State) (text : List ℕ) → AreNotedTo x text (Some events) noted.rules.items noted.extent
        → AreLeftBefore x text events result }
{
    let Noted { extent, rules } = noted;
    match extent {
        Extent::Front => Front::Right(rules),
        Extent::Whole(Verdict::Rejected(line)) => Front::Wrong(line),
        Extent::Whole(Verdict::Accepted(_)) => Front::Fewer,
    }
}

/// Replays the text of a trail over the setup that it began with, as `bl_replay::replay` does, and answers besides the
/// verdict the rules that its starts applied: they make the policy of the run, as law `rules_make_the_policy_of_a_run`
/// of `bl_explain` says. An error comes only where a growth is refused.
pub fn rules_by(alloc: Global, setup: &Setup, text: &[u8]) -> Result<Ruled, AllocError>
    ensures verdict { IfOk result (λ ruled. IsVerdict setup.now text.now ruled.verdict) }
    ensures rules { IfOk result (λ ruled. AreRulesOf setup.now text.now ruled.verdict ruled.rules.items) }
    // So `made_by` of `bl_explain` takes them.
    ensures known { IfOk result (λ ruled. All (KnowsApplied setup.now.policy) ruled.rules.items) }
{
    what_was_followed_tells_the_verdict();
    // asked for the proof alone: the setup is one whole, and its names are a server's
    let _names = setup.names();
    let _subjects = setup.names().subjects();
    match head_of(alloc, setup, text)? {
        Head::Wrong(line) => Ok(rejected(alloc, line)),
        Head::Right {
            version,
            limit,
            rest,
        } => {
            let noted = noted_behind(alloc, setup, version, limit, rest, None)?;
            Ok(ruled_of(alloc, noted))
        }
    }
}

/// The rules that the first so many events of a trail applied, over the setup that it began with. What stands behind those
/// events is not looked at, so a trail that is still written has fronts too. An error comes only where a growth is
/// refused.
pub fn rules_before(
    alloc: Global,
    setup: &Setup,
    text: &[u8],
    events: u64,
) -> Result<Front, AllocError>
    ensures rules { IfOk result (AreRulesBefore setup.now text.now events) }
    // So `made_by` of `bl_explain` takes them.
    ensures known { IfOk result (KnowsFront setup.now.policy) }
{
    what_was_followed_tells_the_verdict();
    // asked for the proof alone: the setup is one whole, and its names are a server's
    let _names = setup.names();
    let _subjects = setup.names().subjects();
    match head_of(alloc, setup, text)? {
        Head::Wrong(line) => Ok(Front::Wrong(line)),
        Head::Right {
            version,
            limit,
            rest,
        } => {
            let noted = noted_behind(alloc, setup, version, limit, rest, Some(events))?;
            Ok(front_of(noted, events))
        }
    }
}
