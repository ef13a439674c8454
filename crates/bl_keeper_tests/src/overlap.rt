//! Threads that ask while others are served: one sync serves all that had asked before it.
ghost use Rattle.std.specs.Prelude.{◌≡◌, false};
ghost use Rattle.bl_gate.specs.Gates.{hall_seen};
ghost use Rattle.bl_keeper.specs.Keeping.{HasKept};

use super::base::{Begun, assert_sound, begin_in, no_desks, open, right};
use super::crowded::{Crowded, Meeting};
use bl_disk::device::Device;
use bl_gate::gate::Gate;
use bl_gate::pass::Pass;
use bl_horizon::horizon::Horizon;
use bl_keeper::keep::Keep;
use bl_keeper::keeper::Keeper;
use bl_keeper::which::Which;
use bl_record::journal::Journal;
use std::alloc::AllocGlobal;
use std::marker::Brand;
use std::process::Abort;
use std::sync::Wait;
use std::thread;
use std::thread::Threads;

/// How often each thread opens a session.
const TIMES: u32 = 25;

/// Opens sessions, and has each kept before the next: after each answer its line is kept.
fn open_and_keep<K: Keep, R: AllocGlobal + Abort + Wait>(
    rt: &R,
    gate: &Gate,
    keep: &K,
    mut pass: Pass,
    meeting: &Meeting,
) -> Pass
    requires { pass.gate ≡ gate.now }
    ensures { (result.gate ≡ pass.gate) × (result.parts ≡ pass.parts) }
{
    for _ in 0..TIMES {
        let session = open(rt, gate, &mut pass);
        meeting.ask();
        drop(right(rt, keep.keep_up(rt, rt.alloc(), &Horizon::new().extent())));
        meeting.answer();
        assert!(rt; meeting.has_kept(session));
    }
    meeting.end();
    pass
}

/// Two threads that do so, with a pass of their own that they give back.
fn keep_two<K: Keep + Sync, R: AllocGlobal + Abort + Threads + Wait + Sync>(
    rt: &R,
    gate: &Gate,
    keep: &K,
    meeting: &Meeting,
    passes: (Pass, Pass),
) -> (Pass, Pass)
    requires { (passes.0.gate ≡ gate.now) × (passes.1.gate ≡ gate.now) }
    ensures one { (result.0.gate ≡ passes.0.gate) × (result.0.parts ≡ passes.0.parts) }
    ensures two { (result.1.gate ≡ passes.1.gate) × (result.1.parts ≡ passes.1.parts) }
{
    let (one, two) = passes;
    thread::join(
        rt,
        move || -> Pass
            requires { one.gate ≡ gate.now }
            ensures { (result.gate ≡ one.gate) × (result.parts ≡ one.parts) }
        { open_and_keep(rt, gate, keep, one, meeting) },
        move || -> Pass
            requires { two.gate ≡ gate.now }
            ensures { (result.gate ≡ two.gate) × (result.parts ≡ two.parts) }
        { open_and_keep(rt, gate, keep, two, meeting) },
    )
}

/// Four such threads.
fn keep_four<K: Keep + Sync, R: AllocGlobal + Abort + Threads + Wait + Sync>(
    rt: &R,
    gate: &Gate,
    keep: &K,
    meeting: &Meeting,
    mut pass: Pass,
) -> Pass
    requires gate { pass.gate ≡ gate.now }
    requires parts { pass.parts ≡ 63 }
    ensures { (result.gate ≡ pass.gate) × (result.parts ≡ 63) }
{
    let two = gate.split_pass(&mut pass);
    let three = gate.split_pass(&mut pass);
    let four = gate.split_pass(&mut pass);
    let (front, back) = thread::join(
        rt,
        move || -> (Pass, Pass)
            requires { (pass.gate ≡ gate.now) × (two.gate ≡ gate.now) }
            ensures one { (result.0.gate ≡ pass.gate) × (result.0.parts ≡ pass.parts) }
            ensures two { (result.1.gate ≡ two.gate) × (result.1.parts ≡ two.parts) }
        { keep_two(rt, gate, keep, meeting, (pass, two)) },
        move || -> (Pass, Pass)
            requires { (three.gate ≡ gate.now) × (four.gate ≡ gate.now) }
            ensures one { (result.0.gate ≡ three.gate) × (result.0.parts ≡ three.parts) }
            ensures two { (result.1.gate ≡ four.gate) × (result.1.parts ≡ four.parts) }
        { keep_two(rt, gate, keep, meeting, (three, four)) },
    );
    let (mut pass, two) = front;
    let (three, four) = back;
    gate.meet(&mut pass, two);
    gate.meet(&mut pass, three);
    gate.meet(&mut pass, four);
    pass
}

/// Has four threads keep by one keeper, and gives the pass back, with all its parts.
fn keep_all<
    G: Which + Send + Sync,
    D: Device + Send + Drop,
    R: AllocGlobal + Abort + Threads + Wait + Sync,
>(rt: &R, gate: &Gate, mut pass: Pass, journal: Journal<D>, meeting: &Meeting)
where
    D::Synced: Send,
    requires gate { (gate.now ≡ G.gate) × (pass.gate ≡ G.gate) }
    requires parts { pass.parts ≡ 64 }
    requires sound { D.has_failed journal.log.device ≡ false }
    requires kept { HasKept (hall_seen pass) journal.bookmark (D.now journal.log.device) }
{
    let part = gate.split_pass(&mut pass);
    let keeper = Keeper::<G, D>::new(gate, part, journal, no_desks(rt));
    meeting.begin(4);
    drop(keep_four(rt, gate, &keeper, meeting, pass));
    let (journal, part) = keeper.finish();
    assert_sound(rt, &journal);
    drop(journal);
    drop(part);
}

/// At most two syncs served each round of four.
fn assert_shared(rt: &impl Abort, meeting: &Meeting) {
    assert!(rt; meeting.syncs() <= 66);
}

/// Of four threads that ask again and again, at most one asks alone: so two syncs serve four. Each has its line kept
/// when it is answered.
#[test]
fn one_sync_serves_all_that_asked_before_it(rt: HostRuntime) {
    let meeting = Meeting::new();
    let Begun {
        gate,
        pass,
        journal,
    } = begin_in(&rt, Crowded::new(&rt, rt.alloc(), &meeting));
    keep_all::<Brand, _, _>(&rt, &gate, pass, journal, &meeting);
    drop(gate);
    assert_shared(&rt, &meeting);
}
