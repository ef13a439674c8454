//! The policy that rules make.
ghost use Rattle.std.specs.Prelude.{◌≡◌, All, IfOk};
ghost use Rattle.bl_explain.specs.Since.{KnowsApplied, policy_after};

use bl_explain::since::Applied;
use bl_policy::policy::Policy;
use std::alloc::AllocError;

/// The policy behind these rules, where they were applied to another one, one after the other, refused or not: of all rules
/// of an accepted trail the policy at its end, as law `rules_make_the_policy_of_a_run` of `bl_explain` says. An error
/// comes only where a growth is refused.
pub fn policy_behind(start: &Policy, rules: &[Applied]) -> Result<Policy, AllocError>
    requires { All (KnowsApplied start.now) rules.now }
    ensures { IfOk result (λ policy. policy ≡ policy_after start.now rules.now) }
{
    let mut policy = start.copy()?;
    for applied in rules {
        policy.apply(applied.speaker, &applied.rule);
    }
    Ok(policy)
}
