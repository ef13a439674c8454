//! Where a trail leads, and what is told there.
ghost use Rattle.std.specs.Prelude.{◌≡◌, ℕ, All, IfErr, IfOk, List, Option};
ghost use Rattle.bl_state.specs.Whole.{IsWhole};
ghost use Rattle.bl_explain.specs.Since.{KnowsApplied, policy_after};
ghost use Rattle.bl_question.specs.Asked.{IsUnasked};
ghost use Rattle.bl_explaining_trail.specs.Moments.{AreRulesAt, IsExplainedThere, IsUntold, LeadsNowhere};

use crate::fault::{AskedFault, TrailFault, no_memory};
use crate::question::TrailQuestion;
use bl_explain::laws::rules_make_the_policy_of_a_run;
use bl_explain::since::Applied;
use bl_explaining::explained::{Explained, explain_at};
use bl_explaining::setting::Moment;
use bl_order::laws::lines_are_readable;
use bl_policy::laws::{matrix_is_a_set, rule_fault_is_the_first};
use bl_policy::policy::Policy;
use bl_question::fault::ExplainFault;
use bl_question::question::Question;
use bl_ruled::policy::policy_behind;
use bl_ruled::ruled::{Front, Ruled, rules_before, rules_by};
use bl_setup::setup::Setup;
use bl_status::fault::ProgramFault;
use bl_trail::verdict::Verdict;
use bl_work::laws::read_lines_are_known;
use std::alloc::Global;

/// That a trail is wrong at this line.
fn wrong_at(line: u64) -> TrailFault
    ensures { result ≡ TrailFault.Program (ProgramFault.WrongAt line) }
{
    TrailFault::Program(ProgramFault::WrongAt(line))
}

/// The rules that all events of a trail applied.
fn all_rules(alloc: Global, setup: &Setup, trail: &[u8]) -> Result<Vec<Applied>, TrailFault>
    ensures rules { IfOk result (λ rules. AreRulesAt setup.now trail.now Option.None rules.items) }
    ensures known { IfOk result (λ rules. All (KnowsApplied setup.now.policy) rules.items) }
    ensures fault { IfErr result (LeadsNowhere setup.now trail.now Option.None) }
{
    let Ok(ruled) = rules_by(alloc, setup, trail) else {
        return Err(no_memory());
    };
    let Ruled { verdict, rules } = ruled;
    match verdict {
        Verdict::Accepted(_) => Ok(rules),
        Verdict::Rejected(line) => Err(wrong_at(line)),
    }
}

/// The rules that the first so many events of a trail applied.
fn first_rules(
    alloc: Global,
    setup: &Setup,
    trail: &[u8],
    events: u64,
) -> Result<Vec<Applied>, TrailFault>
    ensures rules { IfOk result (λ rules. AreRulesAt setup.now trail.now (Option.Some events) rules.items) }
    ensures known { IfOk result (λ rules. All (KnowsApplied setup.now.policy) rules.items) }
    ensures fault { IfErr result (LeadsNowhere setup.now trail.now (Option.Some events)) }
{
    let Ok(front) = rules_before(alloc, setup, trail, events) else {
        return Err(no_memory());
    };
    match front {
        Front::Right(rules) => Ok(rules),
        Front::Fewer => Err(TrailFault::NoEvent(events)),
        Front::Wrong(line) => Err(wrong_at(line)),
    }
}

/// The rules that were applied where what is asked stands.
fn rules_at(
    alloc: Global,
    setup: &Setup,
    trail: &[u8],
    at: Option<u64>,
) -> Result<Vec<Applied>, TrailFault>
    ensures rules { IfOk result (λ rules. AreRulesAt setup.now trail.now at rules.items) }
    ensures known { IfOk result (λ rules. All (KnowsApplied setup.now.policy) rules.items) }
    ensures fault { IfErr result (LeadsNowhere setup.now trail.now at) }
{
    match at {
        Some(events) => first_rules(alloc, setup, trail, events),
        None => all_rules(alloc, setup, trail),
    }
}

/// What is told of what is asked, by the policy that these rules made.
fn explain_by(
    alloc: Global,
    setup: &Setup,
    bytes: &[u8],
    rules: &[Applied],
    policy: &Policy,
    question: &Question<'_>,
) -> Result<Explained, ExplainFault>
    requires whole { IsWhole setup.now }
    requires known { All (KnowsApplied setup.now.policy) rules.now }
    requires stands { (trail : List ℕ) × (at : Option ℕ) × AreRulesAt setup.now trail at rules.now }
    requires made { policy.now ≡ policy_after setup.now.policy rules.now }
    ensures explained { IfOk result (λ told. (trail : List ℕ) (at : Option ℕ) → AreRulesAt setup.now trail at rules.now
        → IsExplainedThere setup.now bytes.now trail at question.now told.text.items told.granted) }
    ensures fault { IfErr result (IsUnasked setup.now.names question.now) }
{
    rules_make_the_policy_of_a_run();
    matrix_is_a_set();
    rule_fault_is_the_first();
    read_lines_are_known();
    lines_are_readable();
    let moment = Moment {
        bytes,
        setup,
        rules,
        policy,
    };
    explain_at(alloc, &moment, question)
}

/// What is told of what is asked, behind these rules.
fn explain_behind(
    alloc: Global,
    setup: &Setup,
    bytes: &[u8],
    rules: &[Applied],
    question: &Question<'_>,
) -> Result<Explained, ExplainFault>
    requires whole { IsWhole setup.now }
    requires known { All (KnowsApplied setup.now.policy) rules.now }
    requires stands { (trail : List ℕ) × (at : Option ℕ) × AreRulesAt setup.now trail at rules.now }
    ensures explained { IfOk result (λ told. (trail : List ℕ) (at : Option ℕ) → AreRulesAt setup.now trail at rules.now
        → IsExplainedThere setup.now bytes.now trail at question.now told.text.items told.granted) }
    ensures fault { IfErr result (IsUnasked setup.now.names question.now) }
{
    let Ok(policy) = policy_behind(setup.policy(), rules) else {
        return Err(ExplainFault::Program(ProgramFault::NoMemory));
    };
    let told = explain_by(alloc, setup, bytes, rules, &policy, question);
    drop(policy);
    told
}

/// What is told of what is asked where a trail leads; or why nothing is.
pub(crate) fn explain_there(
    alloc: Global,
    setup: &Setup,
    bytes: &[u8],
    trail: &[u8],
    asked: &TrailQuestion<'_>,
) -> Result<Explained, AskedFault>
    requires { IsWhole setup.now }
    ensures explained { IfOk result (λ told.
        IsExplainedThere setup.now bytes.now trail.now asked.now.at asked.now.question told.text.items told.granted) }
    ensures fault { IfErr result (IsUntold setup.now trail.now asked.now) }
{
    match rules_at(alloc, setup, trail, asked.at) {
        Ok(rules) => match explain_behind(alloc, setup, bytes, &rules, &asked.question) {
            Ok(told) => Ok(told),
            Err(fault) => Err(AskedFault::Question(fault)),
        },
        Err(fault) => Err(AskedFault::Trail(fault)),
    }
}
