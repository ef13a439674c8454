//! One turn: an entry starts and ends.
ghost use Rattle.std.specs.Prelude.{◌≡◌};
ghost use Rattle.bl_hall.specs.Chronicle.{HasTrail};
ghost use Rattle.bl_gate.specs.Gates.{Follows, HasLoanInHand, KeepsInHand, hall_seen, state_seen};
ghost use Rattle.bl_worker.specs.Turns.{AddsTurnsOf, AdmitsNoLine, Closes, HasRun, HasWorked, IsTurnOf, Settles};
ghost use Rattle.bl_worker.specs.Turns.{WasTaken};
ghost use Rattle.bl_order.specs.Machine.{MayStart};
ghost use Rattle.bl_worker.specs.Hands.{HasBegun, HasMade, IsBegunOf, IsNoMiss, MissesNone, events_in, events_of};

use crate::pause::Pause;
use bl_core::machine::Started;
use bl_core::refusal::{StartFault, Starved};
use bl_eval::evaluate::eval;
use bl_eval::lent::{Done, Lent, Unrun};
use bl_gate::gate::Gate;
use bl_gate::pass::Pass;
use bl_gate::turn::Turn as AtGate;
use std::alloc::Global;
use std::sync::Wait;

/// What a turn did.
#[derive(Clone, Copy, Debug, PartialEq, Eq)]
pub enum Turn {
    /// Nothing was ready.
    Idle,
    /// The entry was ready, and another thread took it.
    Missed(u32),
    /// The entry was denied, and has ended.
    Denied(u32),
    /// The entry ran, or its rule was applied, and has ended.
    Done(u32),
    /// There was no memory to start or to run the entry, and it has ended as lost.
    Lost(u32),
}

/// Ends an entry that ran.
fn finish<R: Wait>(rt: &R, gate: &Gate, pass: &mut Pass, done: Done) -> Turn
    requires gate { pass.old.gate ≡ gate.now }
    requires held { HasLoanInHand pass.old done }
    ensures follows { Follows pass.old pass.new }
    ensures trail { HasTrail (hall_seen pass.new) }
    ensures adds { AddsTurnsOf (λ k. IsTurnOf k result) pass.old pass.new }
    ensures turn { IsTurnOf done.entry result }
    ensures ran { HasRun pass.new result }
    ensures closes { Closes done.entry pass.old pass.new }
{
    let n = done.entry();
    gate.finish(rt, pass, done);
    Turn::Done(n)
}

/// Ends an entry that could not be run as lost.
fn lose<R: Wait>(rt: &R, gate: &Gate, pass: &mut Pass, unrun: Unrun) -> Turn
    requires gate { pass.old.gate ≡ gate.now }
    requires held { HasLoanInHand pass.old unrun }
    ensures follows { Follows pass.old pass.new }
    ensures trail { HasTrail (hall_seen pass.new) }
    ensures adds { AddsTurnsOf (λ k. IsTurnOf k result) pass.old pass.new }
    ensures turn { IsTurnOf unrun.entry result }
    ensures ran { HasRun pass.new result }
    ensures closes { Closes unrun.entry pass.old pass.new }
{
    let n = unrun.entry();
    gate.lose(rt, pass, unrun);
    Turn::Lost(n)
}

/// What came of an entry that was begun in a turn at the gate: nothing is left to do, or it runs, and this was lent to
/// it.
pub(crate) enum Begun {
    Over(Turn),
    Runs(Lent),
}

/// Ends an entry that could not be started as lost.
fn lose_ready(turn: &mut AtGate<'_>, starved: Starved) -> Turn
    ensures follows { Follows turn.old turn.new }
    ensures trail { HasTrail (hall_seen turn.new) }
    ensures in_hand { KeepsInHand turn.old turn.new }
    ensures adds { AddsTurnsOf (λ k. IsTurnOf k result) turn.old turn.new }
    ensures turn { IsTurnOf starved result }
    ensures worked { HasWorked turn.old turn.new result }
    ensures settles { Settles turn.old turn.new }
    ensures missed { MayStart (state_seen turn.old) starved → IsNoMiss result }
    ensures made { HasMade (events_in result) turn.old turn.new }
{
    let n = starved.entry();
    match turn.lose_ready(starved) {
        Ok(()) => Turn::Lost(n),
        Err(_) => Turn::Missed(n),
    }
}

/// Begins the entry `n`. `Missed` comes where it may not start, and `Lost` only when out of memory.
pub(crate) fn begin(turn: &mut AtGate<'_>, n: u32) -> Begun
    ensures follows { Follows turn.old turn.new }
    ensures trail { HasTrail (hall_seen turn.new) }
    ensures in_hand { KeepsInHand turn.old turn.new }
    ensures adds { AddsTurnsOf (λ k. IsBegunOf k result) turn.old turn.new }
    ensures entry { IsBegunOf n result }
    ensures begun { HasBegun turn.old turn.new result }
    ensures missed { MayStart (state_seen turn.old) n → MissesNone result }
    ensures made { HasMade (events_of result) turn.old turn.new }
{
    match turn.start(n) {
        Ok(Started::Denied(_)) => Begun::Over(Turn::Denied(n)),
        Ok(Started::RuleDone) => Begun::Over(Turn::Done(n)),
        Ok(Started::Run(lent)) => Begun::Runs(lent),
        Err(StartFault::NotReady) => Begun::Over(Turn::Missed(n)),
        Err(StartFault::Memory(starved)) => Begun::Over(lose_ready(turn, starved)),
    }
}

/// Begins an entry that is ready, which nobody else can take; `Idle` where none is.
pub(crate) fn begin_next(turn: &mut AtGate<'_>) -> Begun
    requires { HasTrail (hall_seen turn.old) }
    ensures follows { Follows turn.old turn.new }
    ensures trail { HasTrail (hall_seen turn.new) }
    ensures in_hand { KeepsInHand turn.old turn.new }
    ensures adds { AddsTurnsOf (λ k. IsBegunOf k result) turn.old turn.new }
    ensures begun { HasBegun turn.old turn.new result }
    ensures missed { MissesNone result }
    ensures made { HasMade (events_of result) turn.old turn.new }
{
    match turn.ready() {
        Some(n) => begin(turn, n),
        None => Begun::Over(Turn::Idle),
    }
}

/// Runs a behaviour with the gate free, and ends its entry, which the pass has in hand all the while.
fn run<P: Pause, R: Wait>(
    rt: &R,
    alloc: Global,
    gate: &Gate,
    pass: &mut Pass,
    pause: &P,
    lent: Lent,
) -> Turn
    requires gate { pass.old.gate ≡ gate.now }
    requires held { HasLoanInHand pass.old lent }
    ensures follows { Follows pass.old pass.new }
    ensures trail { HasTrail (hall_seen pass.new) }
    ensures adds { AddsTurnsOf (λ k. IsTurnOf k result) pass.old pass.new }
    ensures turn { IsTurnOf lent.entry result }
    ensures ran { HasRun pass.new result }
    ensures closes { Closes lent.entry pass.old pass.new }
{
    pause.between(lent.entry());
    match eval(alloc, lent) {
        Ok(done) => finish(rt, gate, pass, done),
        Err(unrun) => lose(rt, gate, pass, unrun),
    }
}

/// One turn with the entry `n`: it starts, and where it runs it is evaluated with the gate free, and ends. `Missed`
/// comes where it may not start, and `Lost` only when out of memory. The entry was missed or has ended, with an answer
/// of the kind that the turn names.
pub fn work_on<P: Pause, R: Wait>(
    rt: &R,
    alloc: Global,
    gate: &Gate,
    pass: &mut Pass,
    pause: &P,
    n: u32,
) -> Turn
    requires gate { pass.old.gate ≡ gate.now }
    ensures follows { Follows pass.old pass.new }
    ensures trail { HasTrail (hall_seen pass.new) }
    ensures lines { AdmitsNoLine pass.old pass.new }
    ensures adds { AddsTurnsOf (λ k. IsTurnOf k result) pass.old pass.new }
    ensures turn { IsTurnOf n result }
    ensures worked { HasWorked pass.old pass.new result }
    ensures settles { Settles pass.old pass.new }
{
    let mut turn = gate.turn(rt, pass.take());
    let begun = begin(&mut turn, n);
    *pass = turn.leave();
    match begun {
        Begun::Over(turn) => turn,
        Begun::Runs(lent) => run(rt, alloc, gate, pass, pause, lent),
    }
}

/// One turn with an entry that is ready, as `work_on` takes it; `Idle` where none is. An entry that was missed had not
/// begun where the turn began, and another has begun it. Every entry that the turn started has ended.
pub fn work_once<P: Pause, R: Wait>(
    rt: &R,
    alloc: Global,
    gate: &Gate,
    pass: &mut Pass,
    pause: &P,
) -> Turn
    requires gate { pass.old.gate ≡ gate.now }
    ensures follows { Follows pass.old pass.new }
    ensures trail { HasTrail (hall_seen pass.new) }
    ensures lines { AdmitsNoLine pass.old pass.new }
    ensures adds { AddsTurnsOf (λ k. IsTurnOf k result) pass.old pass.new }
    ensures worked { HasWorked pass.old pass.new result }
    ensures taken { WasTaken pass.old pass.new result }
    ensures settles { Settles pass.old pass.new }
{
    let mut turn = gate.turn(rt, pass.take());
    let begun = begin_next(&mut turn);
    *pass = turn.leave();
    match begun {
        Begun::Over(turn) => turn,
        Begun::Runs(lent) => run(rt, alloc, gate, pass, pause, lent),
    }
}
