//! How what a monitor answers hangs together with the machine that a core is.
ghost use Rattle.std.specs.Prelude.{◌≡◌, ◌<◌, ℕ, Bool, length};
ghost use Rattle.bl_order.specs.AtHand.{IsAtHand};
ghost use Rattle.bl_order.specs.Headline.{IsReached};
ghost use Rattle.bl_order.specs.Machine.{State, past_at};
ghost use Rattle.bl_order.specs.TheHeadline.{AgreeUpTo, told_alone};
ghost use Rattle.bl_monitor.specs.Heard.{Heard, IsToldAlone, answer_at};

use bl_order::laws::headline;

/// A monitor that is told the entries up to a place, one after another, answers the last of them (`Monitor::next`) what
/// the headline says is told alone; and so, of a place that has ended, runs or may start in a state that a trail leads
/// to, what a core answers.
pub fn monitors_answer_as_told_alone()
    ensures alone { (x : State) (lost : ℕ → Bool) (n : ℕ) (heard : Heard) → IsToldAlone heard x lost n →
        answer_at heard n ≡ (told_alone x lost n).answer }
    ensures core { (x : State) (lost : ℕ → Bool) (n : ℕ) (heard : Heard) → IsReached x → n < length x.order
        → IsAtHand x n → AgreeUpTo x lost n →
        IsToldAlone heard x lost n → answer_at heard n ≡ (past_at x n).answer }
{
    headline();
}
