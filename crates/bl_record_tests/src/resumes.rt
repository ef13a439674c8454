//! Runs that go on.
use crate::base::{
    AMPLE, EVENTS, HEAD, assert_accepted, assert_kept, assert_recovered, base, front, joined, right,
};
use crate::grown::open_bob;
use bl_disk_tests::torn::Torn;
use bl_hall::hall::Hall;
use bl_record::fault::{RecoverFault, ResumeFault};
use bl_record::journal::begin;
use bl_record::recover::{Resumed, resume};
use bl_setup::setup::Setup;
use std::alloc::AllocGlobal;
use std::process::Abort;
use std::test::Fail;

/// A run goes on from a file with these bytes, of which so many are cut off; what stands there then is wanted. A
/// session is opened, and the journal keeps up with that, and is closed.
fn assert_goes_on<R: AllocGlobal + Abort>(
    rt: &R,
    setup: &Setup,
    bytes: &[u8],
    wanted: &[u8],
    cut: usize,
) {
    let torn = right(rt, Torn::new(rt.alloc(), bytes, AMPLE, AMPLE));
    let resumed = right(rt, resume(rt.alloc(), setup, torn));
    let Resumed {
        mut hall,
        mut journal,
        cut: was_cut,
    } = resumed;
    assert_eq!(rt; was_cut, cut);
    assert_kept(rt, journal.log.device.now(), wanted);
    open_bob(rt, &mut hall);
    right(rt, journal.keep_up(rt.alloc(), &hall));
    drop(hall);
    let more = joined(rt, &[wanted, b"open bob\n"]);
    assert_kept(rt, journal.log.device.now(), &more);
    let file = right(rt, journal.close()).end();
    let closed = joined(rt, &[&more, b"stop\n"]);
    assert_kept(rt, file.now(), &closed);
    drop(file);
}

/// A run goes on from a front, with a torn line or one whole line after it that is wrong.
fn assert_goes_on_after<R: AllocGlobal + Abort>(rt: &R, setup: &Setup, front: &[u8], ending: &str) {
    let wanted = joined(rt, &[front, ending.as_bytes()]);
    for tail in ["", "open b", "\0\0\0\0", "open eve\n", "open eve\nopen b"] {
        let file = joined(rt, &[front, tail.as_bytes()]);
        assert_goes_on(rt, setup, &file, &wanted, tail.len());
    }
}

#[test]
fn each_front_goes_on(rt: HostRuntime) -> Result<(), Fail> {
    let setup = base(rt.alloc())?;
    for (n, (_, ending)) in EVENTS.iter().enumerate() {
        assert_goes_on_after(&rt, &setup, &front(&rt, n + 1), ending);
    }
    drop(setup);
    Ok(())
}

/// Asserts why no run goes on from a file with these bytes, which stays as it was.
fn assert_refused<R: AllocGlobal + Abort>(
    rt: &R,
    setup: &Setup,
    bytes: &[u8],
    wanted: ResumeFault,
) {
    let torn = right(rt, Torn::new(rt.alloc(), bytes, AMPLE, AMPLE));
    match resume(rt.alloc(), setup, torn) {
        Ok(_resumed) => panic!(rt; "it goes on"),
        Err((fault, left)) => {
            assert_eq!(rt; fault, wanted);
            assert!(rt; left.past().is_empty());
            assert_kept(rt, left.now(), bytes);
            drop(left);
        }
    }
}

#[test]
fn closed_trails_are_over(rt: HostRuntime) -> Result<(), Fail> {
    let setup = base(rt.alloc())?;
    let file = joined(&rt, &[&front(&rt, 5), b"stop\n"]);
    assert_refused(&rt, &setup, &file, ResumeFault::Over);
    drop(setup);
    Ok(())
}

/// Two whole lines after a front of five events are wrong: the first of them is the eighth line of the file. No run
/// goes on from it, and a recovery cuts both off.
fn assert_cut_by_a_recovery_alone<R: AllocGlobal + Abort>(
    rt: &R,
    setup: &Setup,
    front: &[u8],
    ending: &str,
) {
    let wrong = b"open eve\nopen bob\n".as_slice();
    let file = joined(rt, &[front, wrong]);
    assert_refused(rt, setup, &file, ResumeFault::Wrong(8));
    assert_recovered(rt, setup, front, wrong, ending, 18);
}

#[test]
fn two_wrong_lines_are_cut_by_a_recovery_alone(rt: HostRuntime) -> Result<(), Fail> {
    let setup = base(rt.alloc())?;
    let front = front(&rt, 5);
    assert_cut_by_a_recovery_alone(&rt, &setup, &front, EVENTS[4].1);
    drop(setup);
    Ok(())
}

#[test]
fn torn_heads(rt: HostRuntime) -> Result<(), Fail> {
    let setup = base(rt.alloc())?;
    let fault = ResumeFault::Unrecovered(RecoverFault::Head(2));
    assert_refused(&rt, &setup, b"trail 2\nlim", fault);
    drop(setup);
    Ok(())
}

/// A journal begins in a file with a torn head, and keeps up with a hall.
#[test]
fn a_journal_begins(rt: HostRuntime) -> Result<(), Fail> {
    let setup = base(rt.alloc())?;
    // asked for the proof alone: the setup is of version 2
    let _version = setup.version();
    let torn = right(&rt, Torn::new(rt.alloc(), b"trail 2\nli", AMPLE, AMPLE));
    let mut journal = right(&rt, begin(rt.alloc(), 10_000, torn));
    assert_kept(&rt, journal.log.device.now(), HEAD.as_bytes());
    let mut hall = right(&rt, Hall::new(rt.alloc(), setup, 10_000));
    open_bob(&rt, &mut hall);
    right(&rt, journal.keep_up(rt.alloc(), &hall));
    let file = right(&rt, journal.close()).end();
    let closed = joined(&rt, &[HEAD.as_bytes(), b"open bob\nstop\n"]);
    assert_kept(&rt, file.now(), &closed);
    assert_accepted(&rt, hall.core().setup(), &closed, 1);
    drop(hall);
    drop(file);
    Ok(())
}
