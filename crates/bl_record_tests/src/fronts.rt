//! Each front of the run's trail, with what may stand after it.
use crate::base::{EVENTS, HEAD, assert_recovered, base, front, joined};
use bl_disk_tests::memory::Memory;
use bl_record::fault::RecoverFault;
use bl_record::recover::recover;
use bl_setup::setup::Setup;
use std::alloc::AllocGlobal;
use std::process::Abort;
use std::test::Fail;

/// None of these is the line of an event that may come after a front of the run.
const WRONG: [&[u8]; 7] = [
    b"\0",
    b"\0\0\0\0\0\0\0\0",
    b"\0\0\0\0\n\0\0\0\0",
    b"garbage",
    b"garbage\nopen bob\n",
    b"stop",
    b"stop\nopen bob\n",
];

/// Asserts what is recovered of a front with each part of its next line after it, without that line's LF, and with what
/// is wrong.
fn assert_ends<R: AllocGlobal + Abort>(
    rt: &R,
    setup: &Setup,
    front: &[u8],
    line: &[u8],
    ending: &str,
) {
    for (end, _) in line.iter().enumerate() {
        assert_recovered(rt, setup, front, &line[..end], ending, end);
    }
    for wrong in WRONG.as_slice() {
        assert_recovered(rt, setup, front, wrong, ending, wrong.len());
    }
    assert_recovered(rt, setup, front, b"stop\n", ending, 0);
}

/// Asserts what is recovered of each front.
fn assert_fronts<R: AllocGlobal + Abort>(rt: &R, setup: &Setup, events: &[(&str, &str)]) {
    let mut before = "";
    for (n, (line, ending)) in events.iter().enumerate() {
        assert_ends(rt, setup, &front(rt, n), line.as_bytes(), before);
        before = ending;
    }
    assert_ends(rt, setup, &front(rt, events.len()), b"stop\n", before);
}

#[test]
fn each_front(rt: HostRuntime) -> Result<(), Fail> {
    let setup = base(rt.alloc())?;
    assert_fronts(&rt, &setup, EVENTS.as_slice());
    drop(setup);
    Ok(())
}

/// A line that stands there again is no event, but for one that opens a session once more.
#[test]
fn repeated_lines(rt: HostRuntime) -> Result<(), Fail> {
    let setup = base(rt.alloc())?;
    for (n, (line, ending)) in EVENTS.iter().enumerate().skip(1) {
        let front = front(&rt, n + 1);
        assert_recovered(&rt, &setup, &front, line.as_bytes(), ending, line.len());
    }
    drop(setup);
    Ok(())
}

/// What is closed is closed again as it is.
#[test]
fn closed_again(rt: HostRuntime) -> Result<(), Fail> {
    let setup = base(rt.alloc())?;
    let whole = front(&rt, EVENTS.len());
    assert_recovered(&rt, &setup, &whole, b"stop\n", "", 0);
    drop(setup);
    Ok(())
}

/// Heads from which no journal is recovered, each with why.
const HEADS: [(&[u8], RecoverFault); 6] = [
    (b"", RecoverFault::Head(1)),
    (b"trail 2", RecoverFault::Head(1)),
    (b"\0\0\0\0\0\0\0\0", RecoverFault::Head(1)),
    (b"trail 2\n", RecoverFault::Head(2)),
    (b"trail 2\nlimit 100", RecoverFault::Head(2)),
    (
        b"trail 1\nlimit 10000\nopen ann\n",
        RecoverFault::OldVersion,
    ),
];

/// A file whose head is torn or of version 1 is left as it was.
#[test]
fn heads(rt: HostRuntime) -> Result<(), Fail> {
    let setup = base(rt.alloc())?;
    for (bytes, wanted) in HEADS.as_slice() {
        let file = Memory::new(rt.alloc(), joined(&rt, &[bytes]));
        match recover(rt.alloc(), &setup, file) {
            Ok(_) => panic!(&rt; "it is recovered"),
            Err((fault, left)) => {
                assert_eq!(rt; fault, *wanted);
                assert!(rt; left.past().is_empty());
                assert!(rt; left.now().kept.as_slice() == *bytes);
            }
        }
    }
    drop(setup);
    Ok(())
}

/// A head alone is a run of no event.
#[test]
fn head_alone(rt: HostRuntime) -> Result<(), Fail> {
    let setup = base(rt.alloc())?;
    assert_recovered(&rt, &setup, HEAD.as_bytes(), b"", "", 0);
    drop(setup);
    Ok(())
}
