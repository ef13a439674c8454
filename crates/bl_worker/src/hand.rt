//! What a worker has in hand from one turn at the gate to the next.
ghost use Rattle.std.specs.Prelude.{◌≡◌, ℕ, IsTrue};
ghost use Rattle.bl_order.specs.Machine.{MayStart, has_ended};
ghost use Rattle.bl_hall.specs.Chronicle.{HasTrail};
ghost use Rattle.bl_gate.specs.Gates.{Follows, hall_seen, state_seen};
ghost use Rattle.bl_worker.specs.Turns.{AddsTurnsAlone, AddsTurnsOf, Settles};
ghost use Rattle.bl_worker.specs.Hands.{Holds, HasInHand, IsHandOf, IsLent, MissesNone, RunsEntry, SettlesBut};
ghost use Rattle.bl_worker.specs.declared.turn.Begun.TheVariants.{Over};
ghost use Rattle.bl_worker.specs.declared.turn.Turn.TheVariants.{Idle};

use crate::bell::{Closed, LastLook};
use crate::count::{EndToRing, Looked, Seen};
use crate::pause::Pause;
use crate::turn::{Begun, Turn, begin_next};
use bl_eval::evaluate::eval;
use bl_eval::lent::{Done, Lent, Unrun};
use bl_gate::gate::Gate;
use bl_gate::pass::Pass;
use bl_gate::turn::Turn as AtGate;
use std::alloc::Global;
use std::sync::Wait;

/// What a worker has in hand: nothing, or an entry that it has run, or could not run, and has yet to end.
pub(crate) enum Hand {
    Empty,
    Ran(Done),
    Failed(Unrun),
}

/// Runs a behaviour with the gate free.
pub(crate) fn evaluate<P: Pause>(alloc: Global, pause: &P, lent: Lent) -> Hand
    ensures { IsHandOf lent result }
{
    pause.between(lent.entry());
    match eval(alloc, lent) {
        Ok(done) => Hand::Ran(done),
        Err(unrun) => Hand::Failed(unrun),
    }
}

/// Ends the entry in hand, and says whether there was one.
fn put_down(turn: &mut AtGate<'_>, hand: Hand) -> bool
    requires trail { HasTrail (hall_seen turn.old) }
    requires held { HasInHand turn.old hand }
    ensures follows { Follows turn.old turn.new }
    ensures trail { HasTrail (hall_seen turn.new) }
    ensures adds { AddsTurnsOf (Holds hand) turn.old turn.new }
    ensures settles { Settles turn.old turn.new }
    ensures ended { (n : ℕ) → Holds hand n → IsTrue (has_ended (state_seen turn.new) n) }
{
    match hand {
        Hand::Empty => return false,
        Hand::Ran(done) => turn.finish(done),
        Hand::Failed(unrun) => turn.lose(unrun),
    }
    true
}

/// A worker's turn at the gate: it ends the entry in hand, and begins one that is ready, if there is one. Where an
/// entry has ended, that is to be rung. The count of calls was read before, so that it may wait where none is ready;
/// and where it was told before that the bell is closed, the turn is a look since then.
pub(crate) fn take_turn<R: Wait>(
    rt: &R,
    gate: &Gate,
    pass: &mut Pass,
    hand: Hand,
    seen: Seen,
    closed: Option<Closed>,
) -> (Option<EndToRing>, Begun, Looked, Option<LastLook>)
    requires gate { pass.old.gate ≡ gate.now }
    requires held { HasInHand pass.old hand }
    ensures follows { Follows pass.old pass.new }
    ensures trail { HasTrail (hall_seen pass.new) }
    ensures adds { AddsTurnsAlone pass.old pass.new }
    ensures lent { IsLent pass.new result.1 }
    ensures missed { MissesNone result.1 }
    ensures idle { result.1 ≡ Over Idle → (n : ℕ) → ¬ MayStart (state_seen pass.new) n }
    ensures settles { SettlesBut (RunsEntry result.1) pass.old pass.new }
    ensures ended { (n : ℕ) → Holds hand n → IsTrue (has_ended (state_seen pass.new) n) }
{
    let mut turn = gate.turn(rt, pass.take());
    let put_down = put_down(&mut turn, hand);
    let begun = begin_next(&mut turn);
    let looked = seen.look(&turn);
    let last = match closed {
        Some(closed) => Some(closed.look(&turn)),
        None => None,
    };
    *pass = turn.leave();
    let over = match &begun {
        Begun::Over(Turn::Idle) | Begun::Runs(_) => false,
        Begun::Over(_) => true,
    };
    (EndToRing::if_any(put_down || over), begun, looked, last)
}
