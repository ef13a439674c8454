//! Heads that are not right.
use crate::base::{assert_rebuilt, base, reserved};
use bl_rebuild::fault::RebuildFault;
use bl_rebuild::fault::RebuildFault::{Head, OldVersion};
use bl_rebuild::rebuild::rebuild;
use bl_setup::setup::Setup;
use std::alloc::AllocGlobal;
use std::process::Abort;
use std::test::Fail;

/// Asserts why no hall is rebuilt of a text.
fn assert_fault<R: AllocGlobal + Abort>(rt: &R, setup: &Setup, text: &[u8], wanted: RebuildFault) {
    match rebuild(rt.alloc(), setup, text) {
        Ok(_rebuilt) => panic!(rt; "no fault"),
        Err(fault) => assert_eq!(rt; fault, wanted),
    }
}

/// Heads, with the first line of each that is not right.
const WRONG: [(&[u8], u64); 16] = [
    (b"", 1),
    (b"t", 1),
    (b"trail 2", 1),
    (b"\n", 1),
    (b"\0\0\0\0\0\0\0\0", 1),
    (b"trail 3\nlimit 10000\nopen ann\n", 1),
    (b"Trail 2\nlimit 10000\nopen ann\n", 1),
    (b"trail 2\r\nlimit 10000\n", 1),
    (b"trail 2\n", 2),
    (b"trail 2\nlim", 2),
    (b"trail 2\nlimit 10000", 2),
    (b"trail 2\nlimit 0\n", 2),
    (b"trail 2\nlimit 010\n", 2),
    (b"trail 2\nlimit 100001\n", 2),
    (b"trail 2\nlimit\n", 2),
    (b"trail 2\nopen ann\n", 2),
];

/// Asserts the first line of each text that is not right.
fn assert_wrong<R: AllocGlobal + Abort>(rt: &R, setup: &Setup, cases: &[(&[u8], u64)]) {
    for (text, line) in cases {
        assert_fault(rt, setup, text, Head(*line));
    }
}

#[test]
fn wrong_heads(rt: HostRuntime) -> Result<(), Fail> {
    let setup = base(rt.alloc())?;
    assert_wrong(&rt, &setup, WRONG.as_slice());
    drop(setup);
    Ok(())
}

#[test]
fn head_alone(rt: HostRuntime) -> Result<(), Fail> {
    let setup = base(rt.alloc())?;
    let passed = assert_rebuilt(&rt, &setup, b"trail 2\nlimit 1\n", b"", 0);
    drop(setup);
    passed
}

#[test]
fn head_and_stop(rt: HostRuntime) -> Result<(), Fail> {
    let setup = base(rt.alloc())?;
    let passed = assert_rebuilt(&rt, &setup, b"trail 2\nlimit 100000\n", b"stop\n", 0);
    drop(setup);
    passed
}

#[test]
fn version_1(rt: HostRuntime) -> Result<(), Fail> {
    let text: &[u8] =
        b"trail 1\nlimit 10000\nopen ann\nline 0 1 when read memo do show memo;end\nstart 0 run\n";
    let setup = base(rt.alloc())?;
    assert_fault(&rt, &setup, text, OldVersion);
    drop(setup);
    let setup = reserved(rt.alloc())?;
    assert_fault(&rt, &setup, text, Head(1));
    drop(setup);
    Ok(())
}
