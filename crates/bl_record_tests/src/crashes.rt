//! A crash at each moment of a recovery, and of a journal that keeps up.
use crate::base::{AMPLE, EVENTS, base, file_of, front, joined, recovered, right};
use crate::grown::open_bob;
use bl_disk_tests::memory::{Memory, Moment};
use bl_disk_tests::torn::Torn;
use bl_record::recover::{Resumed, recover, resume};
use bl_setup::setup::Setup;
use std::alloc::AllocGlobal;
use std::process::Abort;
use std::test::Fail;

/// The last event of the front that is cut off: after it one entry runs, and one waits.
const EVENT: usize = 3;

/// What a crash may leave after what is right: nothing, zeros, or a torn line.
const TAILS: [&str; 3] = ["", "\0\0\0", "open b"];

/// Asserts that a recovery of what a crash left at a moment, with each tail, ends with one of two texts.
fn assert_crashes<R: AllocGlobal + Abort>(
    rt: &R,
    setup: &Setup,
    moment: &Moment,
    wanted: (&[u8], &[u8]),
) {
    for tail in TAILS {
        let bytes = joined(rt, &[&moment.kept, &moment.loose, tail.as_bytes()]);
        let file = Memory::new(rt.alloc(), bytes);
        let left = file_of(right(rt, recover(rt.alloc(), setup, file)));
        let there = left.now().kept.as_slice();
        assert!(rt; there == wanted.0 || there == wanted.1);
    }
}

/// Asserts that for each moment that a file has gone through. What was not kept is there up to each byte at some
/// moment, and at the first one nothing of it.
fn assert_throughout<R: AllocGlobal + Abort>(
    rt: &R,
    setup: &Setup,
    torn: &Torn,
    wanted: (&[u8], &[u8]),
) {
    for moment in torn.past() {
        assert_crashes(rt, setup, moment, wanted);
    }
    assert_crashes(rt, setup, torn.now(), wanted);
}

/// A recovery of a front that is cut off is made again, and ends with the same text.
fn assert_cut_off<R: AllocGlobal + Abort>(rt: &R, setup: &Setup, front: &[u8], ending: &str) {
    let file = joined(rt, &[front, b"\0\0open"]);
    let closed = joined(rt, &[front, ending.as_bytes(), b"stop\n"]);
    let left = file_of(recovered(rt, setup, &file));
    assert_throughout(rt, setup, &left, (&closed, &closed));
}

#[test]
fn recoveries_are_cut_off(rt: HostRuntime) -> Result<(), Fail> {
    let setup = base(rt.alloc())?;
    assert_cut_off(&rt, &setup, &front(&rt, EVENT + 1), EVENTS[EVENT].1);
    drop(setup);
    Ok(())
}

/// While a journal keeps up, what it kept before is recovered, with the new line or without it.
fn assert_keeping_up<R: AllocGlobal + Abort>(rt: &R, setup: &Setup, front: &[u8], ending: &str) {
    let torn = right(rt, Torn::new(rt.alloc(), front, AMPLE, AMPLE));
    let resumed = right(rt, resume(rt.alloc(), setup, torn));
    let Resumed {
        mut hall,
        mut journal,
        cut: _,
    } = resumed;
    open_bob(rt, &mut hall);
    right(rt, journal.keep_up(rt.alloc(), &hall));
    drop(hall);
    let before = joined(rt, &[front, ending.as_bytes(), b"stop\n"]);
    let after = joined(rt, &[front, ending.as_bytes(), b"open bob\nstop\n"]);
    assert_throughout(rt, setup, &journal.log.device, (&before, &after));
    assert_crashes(rt, setup, journal.log.device.now(), (&after, &after));
    drop(journal);
}

#[test]
fn journals_are_cut_off(rt: HostRuntime) -> Result<(), Fail> {
    let setup = base(rt.alloc())?;
    assert_keeping_up(&rt, &setup, &front(&rt, EVENT + 1), EVENTS[EVENT].1);
    drop(setup);
    Ok(())
}
