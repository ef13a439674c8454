//! Two sessions that run side by side.
ghost use Rattle.std.specs.Prelude.{◌≡◌, ◌+◌};

use super::base::base_gate;
use super::served::{READ_ONE, TOLD_ONE, admitted, comes, opened};
use bl_gate::gate::Gate;
use bl_gate::pass::Pass;
use bl_hall::event::Event;
use bl_hall::hall::Hall;
use bl_serve::session::{Service, serve};
use bl_wire::watched::Watched;
use bl_worker::bell::Bell;
use bl_worker::pause::Pause;
use bl_worker::worker::run_worker;
use std::alloc::Global;
use std::process::Abort;
use std::rt::Clock;
use std::sync::Wait;
use std::sync::atomic::{AtomicU64, Ordering};
use std::thread;
use std::thread::Threads;

/// Holds the first behaviour that runs until a session has ended, and notes whether that came.
#[derive(Drop)]
struct HoldFirst<R> {
    rt: R,
    bell: Bell,
    begun: AtomicU64,
    over: AtomicU64,
    held: AtomicU64,
}

impl<R> HoldFirst<R> {
    fn new(rt: R) -> HoldFirst<R> {
        HoldFirst {
            rt,
            bell: Bell::new(),
            begun: AtomicU64::new(0),
            over: AtomicU64::new(0),
            held: AtomicU64::new(0),
        }
    }
}

impl<R: Clock> Pause for HoldFirst<R> {
    fn between(&self, n: u32) {
        let _ = n;
        if self.begun.fetch_add(1, Ordering::SeqCst) > 0 {
            return;
        }
        if comes(&self.rt, &self.over) {
            self.held.store(1, Ordering::SeqCst);
        }
    }
}

/// A session with a pass of its own, which it gives back, and whether it ended well and was told what it should.
fn visit<R: Wait + Clock>(
    rt: &R,
    alloc: Global,
    gate: &Gate,
    pass: Pass,
    hold: &HoldFirst<R>,
) -> (Pass, bool)
    requires { pass.gate ≡ gate.now }
    ensures { (result.0.gate ≡ pass.gate) × (result.0.parts ≡ pass.parts) }
{
    let mut reader = Watched::new(READ_ONE);
    let mut writer = Watched::new(Vec::new(alloc));
    let service = Service {
        rt,
        alloc,
        gate,
        bell: &hold.bell,
        pause: hold,
    };
    let (pass, result) = serve(&service, pass, &mut reader, &mut writer);
    hold.over.fetch_add(1, Ordering::SeqCst);
    let told = writer.into_inner();
    let right = result == Ok(()) && told.as_slice() == TOLD_ONE;
    drop(told);
    (pass, right)
}

/// A session that begins once a behaviour runs. So its thread cannot be the one in which the first is held, with the
/// other session's line.
fn visit_later<R: Wait + Clock>(
    rt: &R,
    alloc: Global,
    gate: &Gate,
    pass: Pass,
    hold: &HoldFirst<R>,
) -> (Pass, bool)
    requires { pass.gate ≡ gate.now }
    ensures { (result.0.gate ≡ pass.gate) × (result.0.parts ≡ pass.parts) }
{
    let _ = comes(rt, &hold.begun);
    visit(rt, alloc, gate, pass, hold)
}

/// Two sessions side by side, and then no more work. The pass of both, and whether both were right.
fn visit_both<R: Threads + Wait + Clock + Sync>(
    rt: &R,
    alloc: Global,
    gate: &Gate,
    one: Pass,
    two: Pass,
    hold: &HoldFirst<R>,
) -> (Pass, bool)
    requires { (one.gate ≡ gate.now) × (two.gate ≡ gate.now) }
    ensures { (result.0.gate ≡ gate.now) × (result.0.parts ≡ one.parts + two.parts) }
{
    let ((mut pass, first), (other, second)) = thread::join(
        rt,
        move || -> (Pass, bool)
            requires { one.gate ≡ gate.now }
            ensures { (result.0.gate ≡ one.gate) × (result.0.parts ≡ one.parts) }
        { visit(rt, alloc, gate, one, hold) },
        move || -> (Pass, bool)
            requires { two.gate ≡ gate.now }
            ensures { (result.0.gate ≡ two.gate) × (result.0.parts ≡ two.parts) }
        { visit_later(rt, alloc, gate, two, hold) },
    );
    gate.meet(&mut pass, other);
    hold.bell.close(rt);
    (pass, first && second)
}

/// A worker with a pass of its own, which it gives back.
fn work<R: Wait + Clock>(
    rt: &R,
    alloc: Global,
    gate: &Gate,
    mut pass: Pass,
    hold: &HoldFirst<R>,
) -> Pass
    requires { pass.gate ≡ gate.now }
    ensures { (result.gate ≡ pass.gate) × (result.parts ≡ pass.parts) }
{
    run_worker(rt, alloc, gate, &mut pass, hold, &hold.bell);
    pass
}

/// Two workers side by side, until there is no more work. The pass of both.
fn work_both<R: Threads + Wait + Clock + Sync>(
    rt: &R,
    alloc: Global,
    gate: &Gate,
    one: Pass,
    two: Pass,
    hold: &HoldFirst<R>,
) -> Pass
    requires { (one.gate ≡ gate.now) × (two.gate ≡ gate.now) }
    ensures { (result.gate ≡ gate.now) × (result.parts ≡ one.parts + two.parts) }
{
    let (mut pass, other) = thread::join(
        rt,
        move || -> Pass
            requires { one.gate ≡ gate.now }
            ensures { (result.gate ≡ one.gate) × (result.parts ≡ one.parts) }
        { work(rt, alloc, gate, one, hold) },
        move || -> Pass
            requires { two.gate ≡ gate.now }
            ensures { (result.gate ≡ two.gate) × (result.parts ≡ two.parts) }
        { work(rt, alloc, gate, two, hold) },
    );
    gate.meet(&mut pass, other);
    pass
}

/// Two sessions and two workers, each with a part of a pass, which has them all again then. Whether both sessions were
/// right.
fn serve_both<R: Threads + Wait + Clock + Sync>(
    rt: &R,
    alloc: Global,
    gate: &Gate,
    pass: &mut Pass,
    hold: &HoldFirst<R>,
) -> bool
    requires { (pass.old.gate ≡ gate.now) × (pass.old.parts ≡ 64) }
    ensures { (pass.new.gate ≡ gate.now) × (pass.new.parts ≡ 64) }
{
    let (one, two) = (gate.split_pass(pass), gate.split_pass(pass));
    let (three, four) = (gate.split_pass(pass), gate.split_pass(pass));
    let ((sessions, right), workers) = thread::join(
        rt,
        move || -> (Pass, bool)
            requires { (one.gate ≡ gate.now) × (two.gate ≡ gate.now) }
            ensures { (result.0.gate ≡ one.gate) × (result.0.parts ≡ one.parts + two.parts) }
        { visit_both(rt, alloc, gate, one, two, hold) },
        move || -> Pass
            requires { (three.gate ≡ gate.now) × (four.gate ≡ gate.now) }
            ensures { (result.gate ≡ three.gate) × (result.parts ≡ three.parts + four.parts) }
        { work_both(rt, alloc, gate, three, four, hold) },
    );
    gate.meet(pass, sessions);
    gate.meet(pass, workers);
    right
}

/// Whether a trail is that of a first session whose line has started, of a second one from its opening to its line's
/// end, and then of the first line's end.
fn overlap(trail: &[Event]) -> bool {
    let later = Event::Line {
        session: 1,
        ordinal: 1,
    };
    let events = [
        opened(),
        admitted(),
        Event::Start(0),
        opened(),
        later,
        Event::Start(1),
        Event::End(1),
        Event::End(0),
    ];
    trail == events.as_slice()
}

/// Asserts that both sessions were right, and that the first behaviour was held until one of them had ended.
fn assert_held<R>(rt: &impl Abort, right: bool, hold: &HoldFirst<R>) {
    assert!(rt; right);
    assert!(rt; hold.held.load(Ordering::SeqCst) == 1);
}

/// Asserts that two sessions overlapped in a hall.
fn assert_overlap(rt: &impl Abort, hall: &Hall) {
    assert!(rt; overlap(hall.trail()));
}

/// Two sessions and two workers: the first behaviour that runs is held until one of the two sessions has ended, and
/// both are told what they should.
#[test]
fn two_readers_overlap(rt: HostRuntime) {
    let (gate, mut pass) = base_gate(&rt);
    let hold = HoldFirst::new(rt);
    let right = serve_both(&rt, rt.alloc(), &gate, &mut pass, &hold);
    assert_held(&rt, right, &hold);
    let hall = gate.close(pass);
    assert_overlap(&rt, &hall);
    drop(hall);
    drop(hold);
}
