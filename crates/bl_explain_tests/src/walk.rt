//! Worked examples step by step: each step is explained by the policy that stands there.
ghost use Rattle.std.specs.Prelude.{◌<◌, IfSome, length};

use crate::base::{rule_of, setup_with};
use bl_explain::rules::explain_rule;
use bl_explain::tests::explain;
use bl_policy::access::{Access, Mode};
use bl_policy::denial::Clause;
use bl_policy::id::{DocId, SubjectId};
use bl_policy::policy::Policy;
use bl_policy::policy::carry::lowest_level;
use bl_policy::rule::Rule;
use bl_setup::setup::Setup;
use bl_work::names::Names;
use std::alloc::{AllocGlobal, Global};
use std::process::Abort;

/// What a subject asks for.
#[derive(Clone, Copy)]
pub enum Wish {
    /// The rule of a line, which changes the policy where it is permitted.
    Rule(&'static str),
    /// An access to the document of this name.
    Access(Mode, &'static str),
}

/// A step: who asks, for what, and what that fails first.
pub type Step = (&'static str, Wish, Option<Clause>);

/// The subject, where the policy has it.
fn known(policy: &Policy, subject: SubjectId) -> Option<SubjectId>
    ensures { IfSome result (λ subject. subject < length policy.now.subjects) }
{
    if (subject.position() as usize) < policy.subjects() {
        Some(subject)
    } else {
        None
    }
}

/// The document, where the policy has it.
fn there(policy: &Policy, doc: DocId) -> Option<DocId>
    ensures { IfSome result (λ doc. doc < length policy.now.documents) }
{
    if (doc.position() as usize) < policy.documents() {
        Some(doc)
    } else {
        None
    }
}

/// What an access of a subject fails first.
fn failed_by_access(
    names: &Names,
    policy: &Policy,
    subject: SubjectId,
    mode: Mode,
    document: &str,
) -> Option<Option<Clause>>
    requires { subject < length policy.now.subjects }
{
    let doc = there(policy, names.document(document.as_bytes())?)?;
    let access = Access { mode, doc };
    Some(explain(policy, subject, &lowest_level(), &access).fails_first())
}

/// What a rule of a speaker fails first. The policy is the one behind it then.
fn failed_by_rule(policy: &mut Policy, speaker: SubjectId, rule: &Rule) -> Option<Option<Clause>>
    requires { speaker < length policy.old.subjects }
{
    if !rule.has_ids_below(policy.subjects(), policy.documents()) {
        return None;
    }
    let failed = explain_rule(policy, speaker, rule).fails_first();
    policy.apply(speaker, rule);
    Some(failed)
}

/// What a step fails first.
fn failed_by(
    alloc: Global,
    names: &Names,
    policy: &mut Policy,
    subject: &str,
    wish: Wish,
) -> Option<Option<Clause>> {
    let subject = known(policy, names.subject(subject.as_bytes())?)?;
    match wish {
        Wish::Rule(text) => {
            let rule = rule_of(alloc, names, text)?;
            failed_by_rule(policy, subject, &rule)
        }
        Wish::Access(mode, document) => failed_by_access(names, policy, subject, mode, document),
    }
}

/// How many steps fail what they have to, up to the first that does not.
fn walk(alloc: Global, names: &Names, policy: &mut Policy, steps: &[Step]) -> Option<usize> {
    for place in 0..steps.len() {
        let (subject, wish, wanted) = steps[place];
        if failed_by(alloc, names, policy, subject, wish)? != wanted {
            return Some(place);
        }
    }
    Some(steps.len())
}

/// The same over a setup.
fn walk_over(alloc: Global, setup: &Setup, steps: &[Step]) -> Option<usize> {
    let mut policy = setup.policy().copy().ok()?;
    let count = walk(alloc, setup.names(), &mut policy, steps);
    drop(policy);
    count
}

/// The same over the base setup with further lines.
fn walked(alloc: Global, more: &[u8], steps: &[Step]) -> Option<usize> {
    let setup = setup_with(alloc, more)?;
    let count = walk_over(alloc, &setup, steps);
    drop(setup);
    count
}

/// Asserts that each step fails what it has to.
pub fn assert_walked<R: AllocGlobal + Abort>(rt: &R, more: &[u8], steps: &[Step]) {
    let count = walked(rt.alloc(), more, steps);
    assert!(rt;
        count == Some(steps.len()),
        "{:?} of {} steps",
        count,
        steps.len()
    );
}
