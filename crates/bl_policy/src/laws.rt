// Laws: what the words of the definitions mean, for every policy, whether or not some code keeps it.
//
// Each function does nothing, and its contract is the law.
ghost use Rattle.std.specs.Prelude.{◌≡◌, ◌≢◌, ◌⊎◌, ◌↔◌, ℕ, IsTrue, Some, None, List, length, All};
ghost use Rattle.bl_level.specs.Level.{SecurityLevel};
ghost use Rattle.bl_policy.specs.declared.access.Mode.{Mode};
ghost use Rattle.bl_policy.specs.declared.access.Access.{Access};
ghost use Rattle.bl_policy.specs.declared.denial.Denial.{Denial};
ghost use Rattle.bl_policy.specs.Matrix.{Triple, Matrix, no_triple, is_in, put_in, take_out, without_document};
ghost use Rattle.bl_policy.specs.Policy.{SecurityPolicy, lowest, greatest_of, is_trusted, is_admin, allows, CurrentBelowGreatest};
ghost use Rattle.bl_policy.specs.Properties.{Simple, Star, Discretionary, Carry, IsGranted, is_simple, is_star, is_discretionary, is_carry};
ghost use Rattle.bl_policy.specs.FirstFault.{first_fault, IsFirstFault};
ghost use Rattle.bl_policy.specs.declared.rule.Rule.{Rule};
ghost use Rattle.bl_policy.specs.declared.rule.Rule.TheVariants.{Give, Rescind};
ghost use Rattle.bl_policy.specs.RuleEffect.{Permits, rule_fault, rule_makes, after_rule, IsRuleFault};

use bl_level::level::dominates_means_dominance;

/// A matrix is a finite set of triples: to put one in or take one out changes nothing else, and two
/// matrices with the same members are one.
pub fn matrix_is_a_set()
    ensures none { (t : Triple) → ¬ IsTrue (is_in no_triple t) }
    ensures put_in { (matrix : Matrix) (u t : Triple) → IsTrue (is_in (put_in matrix u) t) ↔ ((t ≡ u) ⊎ IsTrue (is_in matrix t)) }
    ensures take_out { (matrix : Matrix) (u t : Triple) → IsTrue (is_in (take_out matrix u) t) ↔ ((t ≢ u) × IsTrue (is_in matrix t)) }
    ensures without_document { (matrix : Matrix) (o : ℕ) (t : Triple) →
        IsTrue (is_in (without_document matrix o) t) ↔ ((t.document ≢ o) × IsTrue (is_in matrix t)) }
    ensures same { (a b : Matrix) → ((t : Triple) → is_in a t ≡ is_in b t) → a ≡ b }
{}

/// The tests of the properties say the properties.
pub fn tests_are_the_properties()
    ensures simple { (p : SecurityPolicy) (s o : ℕ) (m : Mode) → IsTrue (is_simple p s o m) ↔ Simple p s o m }
    ensures star { (p : SecurityPolicy) (s o : ℕ) (m : Mode) → IsTrue (is_star p s o m) ↔ Star p s o m }
    ensures discretionary { (p : SecurityPolicy) (s o : ℕ) (m : Mode) → IsTrue (is_discretionary p s o m) ↔ Discretionary p s o m }
    ensures carry { (p : SecurityPolicy) (s : ℕ) (carried : SecurityLevel) (o : ℕ) (m : Mode) →
        IsTrue (is_carry p s carried o m) ↔ Carry p s carried o m }
{
    dominates_means_dominance();
}

/// The first fault is none just where each access is granted, and else it is that of the first access that
/// is not, with what this access fails first.
pub fn first_fault_is_the_first()
    ensures none { (p : SecurityPolicy) (s : ℕ) (carried : SecurityLevel) (accesses : List Access) →
        (first_fault p s carried accesses ≡ None) ↔ All (λ access. IsGranted p s carried access.doc access.mode) accesses }
    ensures some { (p : SecurityPolicy) (s : ℕ) (carried : SecurityLevel) (accesses : List Access) (denial : Denial) →
        first_fault p s carried accesses ≡ Some denial → IsFirstFault p s carried accesses denial }
{
    dominates_means_dominance();
}

/// Every level dominates the lowest one, so who carries that is not bound by it.
pub fn the_lowest_level_binds_nobody()
    ensures { (p : SecurityPolicy) (s o : ℕ) (m : Mode) → Carry p s lowest o m }
{}

/// A rule is refused just where its speaker fails a condition, and the refusal names the first that fails.
pub fn rule_fault_is_the_first()
    ensures none { (p : SecurityPolicy) (s : ℕ) (rule : Rule) → (rule_fault p s rule ≡ None) ↔ Permits p s rule }
    ensures some { (p : SecurityPolicy) (s : ℕ) (rule : Rule) (denial : Denial) → rule_fault p s rule ≡ Some denial → IsRuleFault p s rule denial }
{
    dominates_means_dominance();
}

/// No rule adds or drops a subject or a document, changes a greatest level, or makes a subject trusted or
/// an administrator; and each greatest level dominates the current one after it, where it did before.
pub fn rules_keep_rights()
    ensures subjects { (p : SecurityPolicy) (s : ℕ) (rule : Rule) → length (after_rule p s rule).subjects ≡ length p.subjects }
    ensures documents { (p : SecurityPolicy) (s : ℕ) (rule : Rule) → length (after_rule p s rule).documents ≡ length p.documents }
    ensures greatest { (p : SecurityPolicy) (s u : ℕ) (rule : Rule) → greatest_of (after_rule p s rule) u ≡ greatest_of p u }
    ensures trusted { (p : SecurityPolicy) (s u : ℕ) (rule : Rule) → is_trusted (after_rule p s rule) u ≡ is_trusted p u }
    ensures admin { (p : SecurityPolicy) (s u : ℕ) (rule : Rule) → is_admin (after_rule p s rule) u ≡ is_admin p u }
    ensures below { (p : SecurityPolicy) (s : ℕ) (rule : Rule) → CurrentBelowGreatest p → CurrentBelowGreatest (after_rule p s rule) }
{
    dominates_means_dominance();
}

/// To give a mode that is there, or to rescind one that is not, changes nothing.
pub fn old_news_changes_nothing()
    ensures give { (p : SecurityPolicy) (s t o : ℕ) (m : Mode) → IsTrue (allows p t o m) → rule_makes p s (Give t o m) ≡ p }
    ensures rescind { (p : SecurityPolicy) (s t o : ℕ) (m : Mode) → ¬ IsTrue (allows p t o m) → rule_makes p s (Rescind t o m) ≡ p }
{}
