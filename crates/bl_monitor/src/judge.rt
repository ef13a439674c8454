//! What an entry is answered, and what it changes.
ghost use Rattle.std.specs.Prelude.{◌≡◌, ◌<◌, length, slice_index_or, IfOk, OnOk, OnErr};
ghost use Rattle.bl_policy.specs.Policy.{current_of};
ghost use Rattle.bl_policy.specs.RuleEffect.{IsRuleOf};
ghost use Rattle.bl_work.specs.Statements.{no_part};
ghost use Rattle.bl_order.specs.Order.{Runs, Applies};
ghost use Rattle.bl_order.specs.Past.{changed};
ghost use Rattle.bl_order.specs.Known.{AreBelow};
ghost use Rattle.bl_monitor.specs.Judging.{KnowsEntry, IsJudged, IsDone, IsIdle, Leaves, carried_by_children, case_of};
ghost use Rattle.bl_monitor.specs.Judging.{content_once_run, content_behind, record_of};
ghost use Rattle.bl_monitor.specs.Places.{task_of};

use crate::place::Admitted;
use crate::run::Run;
use bl_level::level::Level;
use bl_policy::denial::Denial;
use bl_policy::policy::Policy;
use bl_policy::policy::carry::lowest_level;
use bl_policy::rule::Rule;
use bl_setup::version::Version;
use bl_work::answer::{Answer, Outputs};
use bl_work::document::Document;
use bl_work::script::Script;
use bl_work::work::Work;
use std::alloc::{AllocError, Global};

/// What comes of an entry.
#[derive(Drop)]
pub(crate) struct Judged {
    pub(crate) answer: Answer,
    pub(crate) fault: Option<Denial>,
    pub(crate) children: Option<Vec<u8>>,
}

/// The level that the children of an entry carry: in version 2 its subject's current level, joined with what it carries
/// itself.
pub(crate) fn level_for_children(version: Version, policy: &Policy, admitted: &Admitted) -> Level
    requires { admitted.now.subject < length policy.now.subjects }
    ensures { result ≡ carried_by_children version (current_of policy.now admitted.now.subject) admitted.now.carried }
{
    match version {
        Version::One => lowest_level(),
        Version::Two => policy.current(admitted.subject).join(&admitted.carried),
    }
}

/// What comes of a behaviour that runs on these contents. After an error they are as they were.
fn done(
    alloc: Global,
    contents: &mut [Document],
    script: &Script,
    index: usize,
) -> Result<Judged, AllocError>
    requires index { index < length script.now }
    requires documents { AreBelow (length contents.old) script.now }
    ensures done { IfOk result (IsDone contents.old (slice_index_or script.now index no_part)) }
    ensures left { OnOk result (Leaves contents.old
        (content_once_run contents.old (slice_index_or script.now index no_part)) contents.new) }
    ensures err { OnErr result (contents.new ≡ contents.old) }
{
    let mut running = Run::new(alloc);
    match running.run(alloc, contents, script.body(index)) {
        Ok(()) => {
            let outputs = Outputs::new(running.shown);
            Ok(Judged {
                answer: Answer::Done(outputs),
                fault: None,
                children: Some(running.spawned),
            })
        }
        Err(error) => {
            running.undo(contents);
            Err(error)
        }
    }
}

/// What comes of an entry that does not run.
fn idle(answer: Answer, fault: Option<Denial>) -> Judged
    ensures { IsIdle answer fault result }
{
    Judged {
        answer,
        fault,
        children: None,
    }
}

/// What comes of a behaviour of this script under this policy and these contents. After an error they are as they were.
fn behaviour(
    alloc: Global,
    policy: &Policy,
    contents: &mut [Document],
    admitted: &Admitted,
    script: &Script,
) -> Result<Judged, AllocError>
    requires subject { admitted.now.subject < length policy.now.subjects }
    requires documents { AreBelow (length policy.now.documents) script.now }
    requires index { admitted.now.index < length script.now }
    requires as_many { length policy.now.documents ≡ length contents.old }
    ensures judged { IfOk result (IsJudged policy.now contents.old
        (case_of admitted.now (Runs script.now admitted.now.index))) }
    ensures left { OnOk result (Leaves contents.old
        (content_behind contents.old (record_of policy.now contents.old
        (case_of admitted.now (Runs script.now admitted.now.index)))) contents.new) }
    ensures err { OnErr result (contents.new ≡ contents.old) }
{
    let index = admitted.index as usize;
    let fault = policy.decide(admitted.subject, &admitted.carried, script.accesses(index));
    if admitted.lost {
        return Ok(idle(Answer::Lost, fault));
    }
    match &fault {
        Some(denial) => Ok(idle(Answer::Denied(*denial), Some(*denial))),
        None => done(alloc, contents, script, index),
    }
}

/// What comes of a rule, which changes the policy unless it is lost or fails its condition. A deletion that is done
/// also empties the content of its document. It takes no memory.
fn apply(policy: &mut Policy, contents: &mut [Document], admitted: &Admitted, rule: &Rule) -> Judged
    requires subject { admitted.now.subject < length policy.old.subjects }
    requires ids { IsRuleOf policy.old rule.now }
    requires as_many { length policy.old.documents ≡ length contents.old }
    ensures judged { IsJudged policy.old contents.old (case_of admitted.now (Applies rule.now)) result }
    ensures policy { policy.new ≡ changed result.answer (Applies rule.now) admitted.now.subject policy.old }
    ensures left { Leaves contents.old
        (content_behind contents.old (record_of policy.old contents.old
        (case_of admitted.now (Applies rule.now)))) contents.new }
{
    if admitted.lost {
        return idle(Answer::Lost, None);
    }
    if let Some(denial) = policy.apply(admitted.subject, rule) {
        return idle(Answer::Denied(denial), None);
    }
    if let Rule::Delete { doc } = *rule {
        contents[doc.position() as usize].truncate(0);
    }
    idle(Answer::RuleDone, None)
}

/// What comes of an entry under this policy and these contents. A rule changes the policy, and a behaviour that is done
/// the contents, which a deletion that is done changes too; after an error both are as they were.
pub(crate) fn judge(
    alloc: Global,
    policy: &mut Policy,
    contents: &mut [Document],
    admitted: &Admitted,
) -> Result<Judged, AllocError>
    requires { KnowsEntry policy.old contents.old admitted.now }
    ensures judged { IfOk result (IsJudged policy.old contents.old (case_of admitted.now (task_of admitted.now))) }
    ensures policy { IfOk result (λ judged. policy.new ≡ changed judged.answer
        (task_of admitted.now) admitted.now.subject policy.old) }
    ensures left { OnOk result (Leaves contents.old
        (content_behind contents.old (record_of policy.old contents.old
        (case_of admitted.now (task_of admitted.now)))) contents.new) }
    ensures err { OnErr result (policy.new ≡ policy.old) }
    ensures err_contents { OnErr result (contents.new ≡ contents.old) }
{
    match &admitted.work {
        Work::Behaviour(script) => behaviour(alloc, policy, contents, admitted, script),
        Work::Rule(rule) => Ok(apply(policy, contents, admitted, rule)),
    }
}
