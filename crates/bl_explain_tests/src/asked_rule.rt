//! A rule over a setup file, and all that is told of it.
ghost use Rattle.std.specs.Prelude.{◌<◌, length};
ghost use Rattle.bl_policy.specs.RuleEffect.{HasIdsBelow};
ghost use Rattle.bl_explain_text.specs.RuleReasons.{HoldsRuleGrounds};

use crate::base::{rule_of, setup_with, subject_of};
use bl_explain::rules::{RuleGrounds, explain_rule};
use bl_explain::tests::Tested;
use bl_explain_text::rule_reasons::{holds_rule_grounds, rule_reason};
use bl_explain_text::telling::row;
use bl_policy::denial::Clause;
use bl_policy::id::SubjectId;
use bl_policy::policy::Policy;
use bl_policy::rule::Rule;
use bl_setup::setup::Setup;
use bl_work::names::Names;
use std::alloc::{AllocError, AllocGlobal, Global};
use std::process::Abort;

/// A rule, who asks for it, what it fails first, and the lines of its conditions: no second one where there is one alone.
#[derive(Clone, Copy)]
pub struct AskedRule {
    pub speaker: &'static str,
    pub rule: &'static str,
    pub failed: Option<Clause>,
    pub first: &'static str,
    pub second: Option<&'static str>,
}

/// A rule of a speaker, and its grounds.
#[derive(Clone, Copy)]
struct Case {
    speaker: SubjectId,
    rule: Rule,
    grounds: RuleGrounds,
}

/// Whether the line of one condition is this one.
fn is_row(
    alloc: Global,
    names: &Names,
    found: &Case,
    tested: Tested,
    wanted: &str,
) -> Result<bool, AllocError>
    requires known { found.now.speaker < length names.now.subjects }
    requires there { HasIdsBelow (length names.now.subjects) (length names.now.documents) found.now.rule }
    requires held { HoldsRuleGrounds names.now.scheme found.now.grounds found.now.rule }
{
    let Case {
        speaker,
        rule,
        grounds,
    } = *found;
    let why = rule_reason(alloc, names, speaker, &rule, &grounds, tested.clause)?;
    let line = row(alloc, tested, &why, 0)?;
    Ok(line.as_slice() == wanted.as_bytes())
}

/// Whether the line of the second condition is this one, and there is none where none is wanted.
fn is_second(
    alloc: Global,
    names: &Names,
    found: &Case,
    second: Option<Tested>,
    wanted: Option<&'static str>,
) -> Result<bool, AllocError>
    requires known { found.now.speaker < length names.now.subjects }
    requires there { HasIdsBelow (length names.now.subjects) (length names.now.documents) found.now.rule }
    requires held { HoldsRuleGrounds names.now.scheme found.now.grounds found.now.rule }
{
    match (second, wanted) {
        (Some(tested), Some(line)) => is_row(alloc, names, found, tested, line),
        (None, None) => Ok(true),
        (Some(_), None) | (None, Some(_)) => Ok(false),
    }
}

/// Whether the lines of the conditions are these.
fn are_rows(
    alloc: Global,
    names: &Names,
    found: &Case,
    asked: &AskedRule,
) -> Result<bool, AllocError>
    requires { found.now.speaker < length names.now.subjects }
{
    let Case { rule, grounds, .. } = *found;
    if !rule.has_ids_below(names.subjects(), names.documents()) {
        return Ok(false);
    }
    if !holds_rule_grounds(names.scheme(), &grounds, &rule) {
        return Ok(false);
    }
    let tests = grounds.tests(&rule);
    let first = is_row(alloc, names, found, tests.first, asked.first)?;
    let second = is_second(alloc, names, found, tests.second, asked.second)?;
    Ok(first && second && tests.fails_first() == asked.failed)
}

/// What a rule fails first, where all it names is in the policy.
fn failed(policy: &Policy, speaker: SubjectId, rule: &Rule) -> Option<Option<Clause>>
    requires { speaker < length policy.now.subjects }
{
    if !rule.has_ids_below(policy.subjects(), policy.documents()) {
        return None;
    }
    Some(explain_rule(policy, speaker, rule).fails_first())
}

/// The grounds of a rule, where all it names is in the policy.
fn grounds_of(policy: &Policy, speaker: SubjectId, rule: &Rule) -> Option<RuleGrounds>
    requires { speaker < length policy.now.subjects }
{
    if !rule.has_ids_below(policy.subjects(), policy.documents()) {
        return None;
    }
    Some(RuleGrounds::of(policy, speaker, rule))
}

/// Whether the rule is told so over a setup; none where a growth is refused, or a name is unknown.
fn is_told_over(alloc: Global, setup: &Setup, asked: &AskedRule) -> Option<bool> {
    let speaker = subject_of(setup, asked.speaker)?;
    let rule = rule_of(alloc, setup.names(), asked.rule)?;
    let grounds = grounds_of(setup.policy(), speaker, &rule)?;
    let failed = failed(setup.policy(), speaker, &rule)?;
    let found = Case {
        speaker,
        rule,
        grounds,
    };
    let told = are_rows(alloc, setup.names(), &found, asked).ok()?;
    Some(told && failed == asked.failed)
}

/// The same over the base setup with further lines.
fn is_told(alloc: Global, more: &[u8], asked: &AskedRule) -> Option<bool> {
    let setup = setup_with(alloc, more)?;
    let told = is_told_over(alloc, &setup, asked);
    drop(setup);
    told
}

/// Asserts it of each.
pub fn assert_rules<R: AllocGlobal + Abort>(rt: &R, more: &[u8], each: &[AskedRule]) {
    for asked in each {
        assert!(rt;
            is_told(rt.alloc(), more, asked) == Some(true),
            "{}",
            asked.rule
        );
    }
}
