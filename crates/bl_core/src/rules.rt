//! What the start of a rule answers, and the content that it empties.
ghost use Rattle.std.specs.Prelude.{◌≡◌, ◌<◌, ◌&&◌, ℕ, IsTrue, length};
ghost use Rattle.bl_order.specs.Past.{deletes, is_rule_done};
ghost use Rattle.bl_place.specs.Shelves.{AreEmptied};
ghost use Rattle.bl_core.specs.Weights.{ruled};

use bl_place::shelf::{Shelf, empty_deleted};
use bl_policy::denial::Denial;
use bl_policy::rule::Rule;
use bl_work::answer::Answer;

/// The answer of a rule, by what the policy had against it.
pub(crate) fn ruled(denial: &Option<Denial>) -> Answer
    ensures { result ≡ ruled denial.now }
{
    match denial {
        Some(denial) => Answer::Denied(*denial),
        None => Answer::RuleDone,
    }
}

/// Empties the content of the document that a rule deletes, where the policy had nothing against it. It takes no
/// memory.
pub(crate) fn delete_content(shelves: &mut [Shelf], rule: &Rule, denial: &Option<Denial>)
    requires { (doc : ℕ) → IsTrue (deletes rule.now doc) → doc < length shelves.old }
    ensures { AreEmptied (λ doc. is_rule_done (ruled denial.now) && deletes rule.now doc) shelves.old shelves.new }
{
    if denial.is_none() {
        empty_deleted(shelves, rule);
    }
}
