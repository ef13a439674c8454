//! Laws: that what is explained is what is decided, for every policy.
//!
//! Each function does nothing, and its contract is the law.
ghost use Rattle.std.specs.Prelude.{◌≡◌, ◌↔◌, ◌<◌, ℕ, List, Some, None, length, option_map};
ghost use Rattle.bl_level.specs.Level.{SecurityLevel, Dominates};
ghost use Rattle.bl_policy.specs.FirstFault.{FailsFirst, fault_of};
ghost use Rattle.bl_order.specs.Headline.{IsReached};
ghost use Rattle.bl_order.specs.Machine.{Event, IsTrail, MayStart, State, start, state_after};
ghost use Rattle.bl_order.specs.Now.{policy_now};
ghost use Rattle.bl_policy.specs.Policy.{SecurityPolicy, allows, current_of, greatest_of, is_present, level_of, with_current};
ghost use Rattle.bl_setup.specs.Setup.{Setup};
ghost use Rattle.bl_policy.specs.Properties.{IsGranted};
ghost use Rattle.bl_policy.specs.RuleEffect.{FailsCondition, Permits, refusal, rule_fault};
ghost use Rattle.bl_policy.specs.declared.access.Access.{Access};
ghost use Rattle.bl_policy.specs.declared.denial.Clause.{Clause};
ghost use Rattle.bl_policy.specs.declared.rule.Rule.{Rule};
ghost use Rattle.bl_explain.specs.Grounds.{grounds_of};
ghost use Rattle.bl_explain.specs.Ranges.{IsInRange, range_on};
ghost use Rattle.bl_explain.specs.RuleTests.{in_turn, rule_grounds_of, rule_tests_of, rule_tests_on};
ghost use Rattle.bl_explain.specs.Run.{IsOfItsMoment, rules_of};
ghost use Rattle.bl_explain.specs.Since.{MadeIt, policy_after, since_of};
ghost use Rattle.bl_explain.specs.declared.range.LevelRange.{LevelRange};
ghost use Rattle.bl_explain.specs.declared.since.Applied.{Applied};
ghost use Rattle.bl_explain.specs.Tests.{fails_first, in_order, refused, tests_of, tests_on};

use bl_level::level::{dominance_is_antisymmetric, dominates_means_dominance};
use bl_order::laws::{each_state_holds, events_move_the_present, steps_lead_on};
use bl_policy::laws::{rule_fault_is_the_first, tests_are_the_properties};

/// The tests of an access rest on its grounds alone.
pub fn grounds_decide()
    ensures { (p : SecurityPolicy) (s : ℕ) (carried : SecurityLevel) (access : Access) →
        tests_on (grounds_of p s carried access) access.mode ≡ tests_of p s carried access }
{}

/// An access is decided by the first test that it fails, so no explanation tells otherwise than the decision: it is granted
/// where it fails none, and else the refusal names what it fails first.
pub fn what_fails_first_decides()
    ensures denial { (p : SecurityPolicy) (s : ℕ) (carried : SecurityLevel) (access : Access) →
        fault_of p s carried access ≡ refused s access (fails_first (in_order (tests_of p s carried access))) }
    ensures granted { (p : SecurityPolicy) (s : ℕ) (carried : SecurityLevel) (access : Access) →
        (fails_first (in_order (tests_of p s carried access)) ≡ None) ↔ IsGranted p s carried access.doc access.mode }
    ensures fails { (p : SecurityPolicy) (s : ℕ) (carried : SecurityLevel) (access : Access) (clause : Clause) →
        fails_first (in_order (tests_of p s carried access)) ≡ Some clause → FailsFirst clause p s carried access.doc access.mode }
{
    dominates_means_dominance();
}

/// The conditions of a rule rest on its grounds alone.
pub fn rule_grounds_decide()
    ensures { (p : SecurityPolicy) (s : ℕ) (rule : Rule) → rule_tests_on (rule_grounds_of p s rule) rule ≡ rule_tests_of p s rule }
{}

/// A rule is refused by the first condition that it fails, and permitted where it fails none.
pub fn what_fails_first_refuses()
    ensures denial { (p : SecurityPolicy) (s : ℕ) (rule : Rule) →
        rule_fault p s rule ≡ option_map (refusal s rule) (fails_first (in_turn (rule_tests_of p s rule))) }
    ensures permitted { (p : SecurityPolicy) (s : ℕ) (rule : Rule) →
        (fails_first (in_turn (rule_tests_of p s rule)) ≡ None) ↔ Permits p s rule }
    ensures fails { (p : SecurityPolicy) (s : ℕ) (rule : Rule) (clause : Clause) →
        fails_first (in_turn (rule_tests_of p s rule)) ≡ Some clause → FailsCondition clause p s rule }
{
    rule_fault_is_the_first();
}

/// Were this the subject's current level, below its greatest one, the access would be granted: just at the levels of the
/// range that the grounds give. No range is empty: both its ends are in it.
pub fn granted_at_just_these_levels()
    ensures levels { (p : SecurityPolicy) (s : ℕ) (carried : SecurityLevel) (access : Access) (current : SecurityLevel) →
        s < length p.subjects →
        (Dominates (greatest_of p s) current × IsGranted (with_current p s current) s carried access.doc access.mode)
        ↔ IsInRange (range_on (grounds_of p s carried access) access.mode) current }
    ensures ends { (p : SecurityPolicy) (s : ℕ) (carried : SecurityLevel) (access : Access) (range : LevelRange) →
        range_on (grounds_of p s carried access) access.mode ≡ Some range → Dominates range.highest range.lowest }
{
    tests_are_the_properties();
    dominance_is_antisymmetric();
}

/// What `made_by` answers of each of the grounds is the event whose rule changed it last; none where no rule did.
pub fn since_its_last_change()
    ensures present { (p : SecurityPolicy) (s : ℕ) (access : Access) (rules : List Applied) →
        MadeIt (λ q. is_present q access.doc) p rules (since_of p s access rules).present }
    ensures level { (p : SecurityPolicy) (s : ℕ) (access : Access) (rules : List Applied) →
        MadeIt (λ q. level_of q access.doc) p rules (since_of p s access rules).level }
    ensures current { (p : SecurityPolicy) (s : ℕ) (access : Access) (rules : List Applied) →
        MadeIt (λ q. current_of q s) p rules (since_of p s access rules).current }
    ensures allowed { (p : SecurityPolicy) (s : ℕ) (access : Access) (rules : List Applied) →
        MadeIt (λ q. allows q s access.doc access.mode) p rules (since_of p s access rules).allowed }
{}

/// The rules that the starts of a run apply make its policy, in their order: so what is explained by them is explained of
/// the run.
pub fn rules_make_the_policy_of_a_run()
    ensures { (setup : Setup) (limit : ℕ) (events : List Event) → IsTrail (start setup limit) events →
        policy_now (state_after (start setup limit) events) ≡ policy_after setup.policy (rules_of 0 (start setup limit) events) }
{
    events_move_the_present();
    steps_lead_on();
}

/// A denial is of its moment: what is denied at a start is denied by the policy that stands just then.
pub fn denials_are_of_their_moment()
    ensures { (x : State) (n : ℕ) → IsReached x → MayStart x n → IsOfItsMoment x n }
{
    each_state_holds();
}
