//! What each condition of a rule says, and which one it fails first.
ghost use Rattle.std.specs.Prelude.{◌≡◌, ◌<◌, Some, None, length, option_map};
ghost use Rattle.bl_policy.specs.RuleEffect.{IsRuleOf, refusal, rule_fault};
ghost use Rattle.bl_explain.specs.RuleTests.{in_turn, rule_grounds_of, rule_tests_of, rule_tests_on};
ghost use Rattle.bl_explain.specs.Tests.{fails_first};

use crate::laws::{rule_grounds_decide, what_fails_first_refuses};
use crate::tests::Tested;
use bl_level::level::Level;
use bl_policy::denial::Clause;
use bl_policy::id::SubjectId;
use bl_policy::policy::Policy;
use bl_policy::rule::Rule;

/// What decides a rule, and nothing else does.
#[derive(Clone, Copy, PartialEq, Eq, Debug)]
pub struct RuleGrounds {
    /// Whether the speaker is an administrator.
    pub admin: bool,
    /// Whether the speaker is trusted.
    pub trusted: bool,
    /// The greatest level of the speaker.
    pub greatest: Level,
    /// Whether the document of the rule is present. None for a change of the current level, which has no document.
    pub present: Option<bool>,
}

/// The answer of each condition of a rule, also behind one that it fails. There are two at most.
#[derive(Clone, Copy, PartialEq, Eq, Debug)]
pub struct RuleTests {
    /// The condition that is asked first.
    pub first: Tested,
    /// The condition that is asked next, if there is one.
    pub second: Option<Tested>,
}

impl RuleTests {
    /// A condition that stands alone.
    fn alone(clause: Clause, holds: bool) -> RuleTests
        ensures { result ≡ record { first = record { clause = clause; holds = holds }; second = None } }
    {
        RuleTests {
            first: Tested { clause, holds },
            second: None,
        }
    }

    /// That the speaker is an administrator, and a condition behind it.
    fn of_admin(admin: bool, clause: Clause, holds: bool) -> RuleTests
        ensures { result ≡ record {
          first = record { clause = Clause.Admin; holds = admin };
          second = Some (record { clause = clause; holds = holds });
        } }
    {
        RuleTests {
            first: Tested {
                clause: Clause::Admin,
                holds: admin,
            },
            second: Some(Tested { clause, holds }),
        }
    }

    /// The first condition in their order that is answered with no, as a refusal names it. None where each is answered
    /// with yes: then the rule is permitted.
    pub fn fails_first(&self) -> Option<Clause>
        ensures { result ≡ fails_first (in_turn self.now) }
    {
        if !self.first.holds {
            return Some(self.first.clause);
        }
        match self.second {
            Some(second) if !second.holds => Some(second.clause),
            _ => None,
        }
    }
}

impl RuleGrounds {
    /// What decides this rule of a speaker.
    pub fn of(policy: &Policy, speaker: SubjectId, rule: &Rule) -> RuleGrounds
        requires known { speaker < length policy.now.subjects }
        requires there { IsRuleOf policy.now rule.now }
        ensures { result ≡ rule_grounds_of policy.now speaker rule.now }
    {
        let present = match *rule {
            Rule::Current { .. } => None,
            Rule::Give { doc, .. }
            | Rule::Rescind { doc, .. }
            | Rule::Classify { doc, .. }
            | Rule::Create { doc }
            | Rule::Delete { doc } => Some(policy.is_present(doc)),
        };
        RuleGrounds {
            admin: policy.is_admin(speaker),
            trusted: policy.is_trusted(speaker),
            greatest: policy.greatest(speaker),
            present,
        }
    }

    /// What each condition of a rule says, of which these are the grounds, in the order in which the rule is judged. Law
    /// `rule_grounds_decide` says that nothing else decides it.
    pub fn tests(&self, rule: &Rule) -> RuleTests
        ensures { result ≡ rule_tests_on self.now rule.now }
    {
        let is_there = self.present.unwrap_or(false);
        match *rule {
            Rule::Give { .. } | Rule::Rescind { .. } => RuleTests::alone(Clause::Admin, self.admin),
            Rule::Current { level } => {
                RuleTests::alone(Clause::Greatest, self.greatest.dominates(&level))
            }
            Rule::Classify { .. } => {
                RuleTests::of_admin(self.admin, Clause::Trusted, self.trusted)
            }
            Rule::Create { .. } => RuleTests::of_admin(self.admin, Clause::Present, !is_there),
            Rule::Delete { .. } => RuleTests::of_admin(self.admin, Clause::Absent, is_there),
        }
    }
}

/// What each condition of this rule says of its speaker, in the order in which the rule is judged.
pub fn explain_rule(policy: &Policy, speaker: SubjectId, rule: &Rule) -> RuleTests
    requires known { speaker < length policy.now.subjects }
    requires there { IsRuleOf policy.now rule.now }
    ensures tests { result ≡ rule_tests_of policy.now speaker rule.now }
    // What is answered first with no is what the policy's decision names.
    ensures decision { rule_fault policy.now speaker rule.now ≡ option_map (refusal speaker rule.now) (fails_first (in_turn result)) }
{
    what_fails_first_refuses();
    rule_grounds_decide();
    RuleGrounds::of(policy, speaker, rule).tests(rule)
}
