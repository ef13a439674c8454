//! Entries that two passes have in hand, and how each pass ends its own. Wrong bodies are tried on what stands here,
//! since tests are no part of the crate that those are tried on.
ghost use Rattle.std.specs.Prelude.{◌≡◌};
ghost use Rattle.bl_core.specs.Answers.{IsLentBy};
ghost use Rattle.bl_gate.specs.Gates.{Calls, Follows, HasLoanInHand};
ghost use Rattle.bl_order.specs.Machine.{Ends};

use bl_eval::lent::Done;
use bl_gate::gate::Gate;
use bl_gate::pass::Pass;
use std::sync::Wait;

/// Another pass ends its entry, and after it this one.
pub fn finish_after_another<R: Wait>(
    rt: &R,
    gate: &Gate,
    pass: &mut Pass,
    other: &mut Pass,
    first: Done,
    third: Done,
)
    requires gates { (pass.old.gate ≡ gate.now) × (other.old.gate ≡ gate.now) }
    requires first { HasLoanInHand pass.old first }
    requires third { HasLoanInHand other.old third }
    ensures pass { Follows pass.old pass.new }
    ensures other { Follows other.old other.new }
    ensures ends_first { Calls pass.old (Ends first.entry) (λ x. IsLentBy x first) pass.new }
    ensures ends_third { Calls other.old (Ends third.entry) (λ x. IsLentBy x third) other.new }
{
    gate.finish(rt, other, third);
    gate.finish(rt, pass, first);
}
