//! Each call of the device failing in turn, and a disk that is full.
use crate::base::{AMPLE, EVENTS, assert_kept, base, file_of, front, joined, right};
use crate::faulty::Faulty;
use bl_disk::device::DeviceError;
use bl_disk_tests::torn::Torn;
use bl_record::fault::RecoverFault;
use bl_record::recover::recover;
use bl_setup::setup::Setup;
use std::alloc::AllocGlobal;
use std::process::Abort;
use std::test::Fail;

/// So many calls of a device has a recovery that finds all ended: it reads, cuts and syncs, and adds and syncs `stop`.
const CALLS: usize = 5;

/// So many has one that adds and syncs the lines of what it ends, too.
const CALLS_WITH_LINES: usize = 7;

/// The last event of the front whose file is full: after it one entry runs, and one waits.
const EVENT: usize = 3;

/// Asserts that the call after so many fails, and that the file which it leaves is recovered as if it had not.
fn assert_call_fails<R: AllocGlobal + Abort>(
    rt: &R,
    setup: &Setup,
    file: &[u8],
    calls: usize,
    closed: &[u8],
) {
    let faulty = Faulty::new(rt.alloc(), joined(rt, &[file]), calls);
    match recover(rt.alloc(), setup, faulty) {
        Ok(_recovered) => panic!(rt; "no fault"),
        Err((fault, left)) => {
            assert!(rt; fault == RecoverFault::Device(DeviceError::Failed));
            let again = right(rt, recover(rt.alloc(), setup, left.into_memory()));
            assert_kept(rt, file_of(again).now(), closed);
        }
    }
}

/// Asserts that each call fails in turn in the recovery of a front, and that none is left to fail after these.
fn assert_calls_fail<R: AllocGlobal + Abort>(rt: &R, setup: &Setup, front: &[u8], ending: &str) {
    let file = joined(rt, &[front, b"open b"]);
    let closed = joined(rt, &[front, ending.as_bytes(), b"stop\n"]);
    let all = if ending.is_empty() {
        CALLS
    } else {
        CALLS_WITH_LINES
    };
    for calls in 0..all {
        assert_call_fails(rt, setup, &file, calls, &closed);
    }
    let faulty = Faulty::new(rt.alloc(), file, all);
    let left = file_of(right(rt, recover(rt.alloc(), setup, faulty)));
    assert_kept(rt, left.into_memory().now(), &closed);
}

#[test]
fn each_call_fails_in_turn(rt: HostRuntime) -> Result<(), Fail> {
    let setup = base(rt.alloc())?;
    for (n, (_, ending)) in EVENTS.iter().enumerate() {
        assert_calls_fail(&rt, &setup, &front(&rt, n + 1), ending);
    }
    drop(setup);
    Ok(())
}

/// Asserts that a file with room for so many bytes more is full, and is recovered once there is room.
fn assert_full<R: AllocGlobal + Abort>(
    rt: &R,
    setup: &Setup,
    file: &[u8],
    room: usize,
    closed: &[u8],
) {
    let torn = right(rt, Torn::new(rt.alloc(), file, room, AMPLE));
    match recover(rt.alloc(), setup, torn) {
        Ok(_recovered) => panic!(rt; "there is room"),
        Err((fault, left)) => {
            assert!(rt; fault == RecoverFault::Device(DeviceError::Full));
            let again = right(rt, recover(rt.alloc(), setup, left.renewed(AMPLE)));
            assert_kept(rt, file_of(again).now(), closed);
        }
    }
}

/// Asserts that a disk is full at each byte that the recovery of a front writes.
fn assert_full_at_each_byte<R: AllocGlobal + Abort>(
    rt: &R,
    setup: &Setup,
    front: &[u8],
    ending: &str,
) {
    let written = joined(rt, &[ending.as_bytes(), b"stop\n"]);
    let closed = joined(rt, &[front, &written]);
    for (room, _) in written.iter().enumerate() {
        assert_full(rt, setup, front, room, &closed);
    }
}

#[test]
fn a_disk_that_is_full_at_each_byte(rt: HostRuntime) -> Result<(), Fail> {
    let setup = base(rt.alloc())?;
    assert_full_at_each_byte(&rt, &setup, &front(&rt, EVENT + 1), EVENTS[EVENT].1);
    drop(setup);
    Ok(())
}
