//! Threads that add events and have them kept.
ghost use Rattle.std.specs.Prelude.{◌≡◌, false};
ghost use Rattle.bl_gate.specs.Gates.{hall_seen};
ghost use Rattle.bl_keeper.specs.Keeping.{HasKept};

use super::base::{Begun, assert_lines, assert_sound, begin_in, no_desks, open, right};
use bl_disk::device::Device;
use bl_disk_tests::memory::{Memory, Moment};
use bl_gate::gate::Gate;
use bl_gate::pass::Pass;
use bl_hall::hall::Hall;
use bl_horizon::horizon::Horizon;
use bl_keeper::keep::Keep;
use bl_keeper::keeper::Keeper;
use bl_keeper::which::Which;
use bl_record::journal::Journal;
use std::alloc::AllocGlobal;
use std::marker::Brand;
use std::process::Abort;
use std::sync::Wait;
use std::thread;
use std::thread::Threads;

/// How often each thread opens a session.
const TIMES: usize = 50;

/// Opens a session and has that kept, so many times; gives the pass back.
fn open_and_keep<K: Keep, R: AllocGlobal + Abort + Wait>(
    rt: &R,
    gate: &Gate,
    keep: &K,
    mut pass: Pass,
    times: usize,
) -> Pass
    requires { pass.gate ≡ gate.now }
    ensures { (result.gate ≡ pass.gate) × (result.parts ≡ pass.parts) }
{
    for _ in 0..times {
        open(rt, gate, &mut pass);
        drop(right(rt, keep.keep_up(rt, rt.alloc(), &Horizon::new().extent())));
    }
    pass
}

/// Two threads that open sessions and have each kept, with a pass of their own that they give back.
fn keep_side_by_side<K: Keep + Sync, R: AllocGlobal + Abort + Threads + Wait + Sync>(
    rt: &R,
    gate: &Gate,
    keep: &K,
    one: Pass,
    two: Pass,
) -> (Pass, Pass)
    requires { (one.gate ≡ gate.now) × (two.gate ≡ gate.now) }
    ensures one { (result.0.gate ≡ one.gate) × (result.0.parts ≡ one.parts) }
    ensures two { (result.1.gate ≡ two.gate) × (result.1.parts ≡ two.parts) }
{
    thread::join(
        rt,
        move || -> Pass
            requires { one.gate ≡ gate.now }
            ensures { (result.gate ≡ one.gate) × (result.parts ≡ one.parts) }
        { open_and_keep(rt, gate, keep, one, TIMES) },
        move || -> Pass
            requires { two.gate ≡ gate.now }
            ensures { (result.gate ≡ two.gate) × (result.parts ≡ two.parts) }
        { open_and_keep(rt, gate, keep, two, TIMES) },
    )
}

/// Has two threads open sessions and have each kept by one keeper, and gives the journal back, and the pass with all
/// its parts.
fn keep_both<
    G: Which + Send + Sync,
    D: Device + Send,
    R: AllocGlobal + Abort + Threads + Wait + Sync,
>(rt: &R, gate: &Gate, mut pass: Pass, journal: Journal<D>) -> (Journal<D>, Pass)
where
    D::Synced: Send,
    requires gate { (gate.now ≡ G.gate) × (pass.gate ≡ G.gate) }
    requires parts { pass.parts ≡ 64 }
    requires sound { D.has_failed journal.log.device ≡ false }
    requires kept { HasKept (hall_seen pass) journal.bookmark (D.now journal.log.device) }
    ensures { (result.1.gate ≡ G.gate) × (result.1.parts ≡ 64) }
{
    let part = gate.split_pass(&mut pass);
    let other = gate.split_pass(&mut pass);
    let keeper = Keeper::<G, D>::new(gate, part, journal, no_desks(rt));
    let (mut one, two) = keep_side_by_side(rt, gate, &keeper, pass, other);
    let (journal, part) = keeper.finish();
    gate.meet(&mut one, two);
    gate.meet(&mut one, part);
    (journal, one)
}

/// A file has what two threads did, and nothing that is not kept.
fn assert_all_kept<R: AllocGlobal + Abort>(rt: &R, file: &Moment) {
    assert_lines(rt, file.kept.as_slice(), 2 * TIMES);
    assert!(rt; file.loose.is_empty());
}

/// In a hall two threads did so much.
fn assert_events(rt: &impl Abort, hall: &Hall) {
    assert!(rt; hall.trail().len() == 2 * TIMES);
}

/// Each of two threads opens sessions, and has each kept before it goes on: at the end the file has all of them, in the
/// order of the trail.
#[test]
fn all_is_kept_that_two_threads_did(rt: HostRuntime) {
    let Begun {
        gate,
        pass,
        journal,
    } = begin_in(&rt, Memory::new(rt.alloc(), Vec::new(rt.alloc())));
    let (journal, pass) = keep_both::<Brand, _, _>(&rt, &gate, pass, journal);
    assert_sound(&rt, &journal);
    assert_all_kept(&rt, journal.log.device.now());
    drop(journal);
    let hall = gate.close(pass);
    assert_events(&rt, &hall);
    drop(hall);
}
