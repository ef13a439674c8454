//! A worker, turn by turn.
ghost use Rattle.std.specs.Prelude.{◌≡◌, ℕ};
ghost use Rattle.bl_order.specs.Machine.{MayStart};
ghost use Rattle.bl_gate.specs.Gates.{Follows, state_seen};
ghost use Rattle.bl_worker.specs.Turns.{AddsTurnsAlone, AdmitsNoLine, Settles};

use crate::bell::{Closed, LastLook, WorkerBell};
use crate::count::Looked;
use crate::hand::{Hand, evaluate, take_turn};
use crate::pause::Pause;
use crate::turn::{Begun, Turn};
use bl_gate::gate::Gate;
use bl_gate::pass::Pass;
use crossbeam_utils::Backoff;
use std::alloc::Global;
use std::sync::Wait;

/// Waits a moment where there was nothing to do: at first for another thread's step, and then at the bell. Says whether
/// the bell is closed.
fn rest<B: WorkerBell, R: Wait>(
    rt: &R,
    bell: &B,
    backoff: &Backoff,
    looked: Looked,
) -> Option<Closed> {
    for _ in rt.forever() {
        if backoff.is_completed() {
            break;
        }
        backoff.snooze();
        if looked.is_behind(&bell.calls()) {
            return None;
        }
    }
    bell.wait_work(rt, looked)
}

/// Takes turns at the gate until the bell is closed and nothing is ready, and rings after each in which an entry has
/// ended. In one turn it ends the entry that it has run and begins the next one, which it runs with the gate free.
/// While there is nothing to do it sleeps at the bell, until workers are called. When it returns, every entry that it
/// started has ended, and nothing may start in what it has seen. It has looked since it was told that the bell is closed.
pub fn run_worker<P: Pause, B: WorkerBell, R: Wait>(
    rt: &R,
    alloc: Global,
    gate: &Gate,
    pass: &mut Pass,
    pause: &P,
    bell: &B,
) -> LastLook
    requires gate { pass.old.gate ≡ gate.now }
    ensures follows { Follows pass.old pass.new }
    ensures lines { AdmitsNoLine pass.old pass.new }
    ensures adds { AddsTurnsAlone pass.old pass.new }
    ensures settles { Settles pass.old pass.new }
    ensures idle { (n : ℕ) → ¬ MayStart (state_seen pass.new) n }
{
    let backoff = Backoff::new();
    let mut closed = None;
    let mut hand = Hand::Empty;
    for _ in rt.forever() {
        let seen = bell.calls();
        let (ended, begun, looked, last) = take_turn(rt, gate, pass, hand, seen, closed);
        match ended {
            Some(end) => {
                backoff.reset();
                bell.ring_end(rt, end);
            }
            None => {}
        }
        hand = match begun {
            Begun::Runs(lent) => evaluate(alloc, pause, lent),
            Begun::Over(Turn::Idle) => {
                if let Some(last) = last {
                    return last;
                }
                closed = rest(rt, bell, &backoff, looked);
                Hand::Empty
            }
            Begun::Over(_) => Hand::Empty,
        };
    }
    unreachable!()
}
