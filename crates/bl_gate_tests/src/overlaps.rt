//! Two behaviours that run side by side.
ghost use Rattle.std.specs.Prelude.{◌≡◌};

use super::base::{ask, assert_answered, base_gate};
use bl_gate::gate::Gate;
use bl_gate::pass::Pass;
use bl_hall::event::Event;
use bl_hall::hall::Hall;
use bl_worker::bell::Bell;
use bl_worker::pause::Pause;
use bl_worker::worker::run_worker;
use std::alloc::Global;
use std::process::Abort;
use std::sync::Wait;
use std::sync::atomic::{AtomicU64, Ordering};
use std::thread;
use std::thread::Threads;

/// The most turns for which something is held.
const MOST_TURNS: u32 = 1_000_000;

/// Holds the first behaviour that runs until another entry has ended, and notes whether that came.
#[derive(Drop)]
struct HoldFirst {
    begun: AtomicU64,
    held: AtomicU64,
    bell: Bell,
}

impl Pause for HoldFirst {
    fn between(&self, n: u32) {
        let _ = n;
        if self.begun.fetch_add(1, Ordering::SeqCst) > 0 {
            return;
        }
        for _ in 0..MOST_TURNS {
            if self.bell.ends().count() > 0 {
                self.held.store(1, Ordering::SeqCst);
                return;
            }
            thread::yield_now();
        }
    }
}

/// A worker with a pass of its own, which it gives back.
fn work<R: Wait>(rt: &R, alloc: Global, gate: &Gate, mut pass: Pass, hold: &HoldFirst) -> Pass
    requires { pass.gate ≡ gate.now }
    ensures { (result.gate ≡ pass.gate) × (result.parts ≡ pass.parts) }
{
    run_worker(rt, alloc, gate, &mut pass, hold, &hold.bell);
    pass
}

/// Two workers side by side, each with a pass of its own, which they give back.
fn work_both<R: Threads + Wait + Sync>(
    rt: &R,
    alloc: Global,
    gate: &Gate,
    one: Pass,
    two: Pass,
    hold: &HoldFirst,
) -> (Pass, Pass)
    requires { (one.gate ≡ gate.now) × (two.gate ≡ gate.now) }
    ensures { (result.0.gate ≡ one.gate) × (result.0.parts ≡ one.parts)
        × (result.1.gate ≡ two.gate) × (result.1.parts ≡ two.parts) }
{
    thread::join(
        rt,
        move || -> Pass
            requires { one.gate ≡ gate.now }
            ensures { (result.gate ≡ one.gate) × (result.parts ≡ one.parts) }
        { work(rt, alloc, gate, one, hold) },
        move || -> Pass
            requires { two.gate ≡ gate.now }
            ensures { (result.gate ≡ two.gate) × (result.parts ≡ two.parts) }
        { work(rt, alloc, gate, two, hold) },
    )
}

/// Closes a bell once it was rung for two entries that have ended.
fn close_after_two<R: Wait>(rt: &R, bell: &Bell) {
    for _ in 0..MOST_TURNS {
        if bell.ends().count() > 1 {
            break;
        }
        thread::yield_now();
    }
    bell.close(rt);
}

/// Two workers side by side, until two entries have ended. They give their passes back.
fn work_until_two<R: Threads + Wait + Sync>(
    rt: &R,
    alloc: Global,
    gate: &Gate,
    one: Pass,
    two: Pass,
    hold: &HoldFirst,
) -> (Pass, Pass)
    requires { (one.gate ≡ gate.now) × (two.gate ≡ gate.now) }
    ensures { (result.0.gate ≡ one.gate) × (result.0.parts ≡ one.parts)
        × (result.1.gate ≡ two.gate) × (result.1.parts ≡ two.parts) }
{
    let (passes, ()) = thread::join(
        rt,
        move || -> (Pass, Pass)
            requires { (one.gate ≡ gate.now) × (two.gate ≡ gate.now) }
            ensures { (result.0.gate ≡ one.gate) × (result.0.parts ≡ one.parts)
                × (result.1.gate ≡ two.gate) × (result.1.parts ≡ two.parts) }
        { work_both(rt, alloc, gate, one, two, hold) },
        move || close_after_two(rt, &hold.bell),
    );
    passes
}

/// Whether the last four events are two starts and then two ends.
fn overlap(events: &[Event]) -> bool {
    events.len() == 8
        && matches!(events[4], Event::Start(_))
        && matches!(events[5], Event::Start(_))
        && matches!(events[6], Event::End(_))
        && matches!(events[7], Event::End(_))
}

/// Asserts that the first behaviour was held until another entry had ended.
fn assert_held(rt: &impl Abort, hold: &HoldFirst) {
    assert!(rt; hold.held.load(Ordering::SeqCst) == 1);
}

/// Asserts that two entries overlapped in a hall.
fn assert_overlap(rt: &impl Abort, hall: &Hall) {
    assert!(rt; overlap(hall.trail()));
}

/// Lines of two sessions read one document, with two workers: the first behaviour that runs is held until the other has
/// ended.
#[test]
fn two_workers_overlap(rt: HostRuntime) {
    let (gate, mut pass) = base_gate(&rt);
    let one = gate.split_pass(&mut pass);
    let two = gate.split_pass(&mut pass);
    let (first, _) = ask(&rt, &gate, &mut pass);
    let (second, _) = ask(&rt, &gate, &mut pass);
    let hold = HoldFirst {
        begun: AtomicU64::new(0),
        held: AtomicU64::new(0),
        bell: Bell::new(),
    };
    let (one, two) = work_until_two(&rt, rt.alloc(), &gate, one, two, &hold);
    gate.meet(&mut pass, one);
    gate.meet(&mut pass, two);
    assert_held(&rt, &hold);
    assert_answered(&rt, &gate, &mut pass, first);
    assert_answered(&rt, &gate, &mut pass, second);
    let hall = gate.close(pass);
    assert_overlap(&rt, &hall);
    drop(hall);
    drop(hold);
}
