//! What a read does where a growth is refused. With ample memory each test here gives all lines. Where a single growth
//! is refused, whichever it is, one read has failed and what was given before begins the lines: `bench/checks/growths`
//! refuses each in turn, and tells so by a file.
use super::base::{AMPLE, lines_of};
use bl_allowance::allowance::Allowance;
use bl_connection::stream::{Answer, Stream};
use std::alloc::AllocGlobal;
use std::fs;
use std::io::Print;
use std::process::Abort;
use std::rt::Files;

const INPUT: &[u8] = b"hello ann\nwait\nbye\n";

/// Whether a growth was refused: who refuses one writes this file then, in the folder where the test runs.
fn was_refused(rt: &impl Files) -> bool {
    !matches!(fs::exists(rt, "refused"), Ok(false))
}

/// Reads a stream to its end; how many bytes it gave, which are those of the input, and whether a read has failed.
fn read_all<R: Abort, S: Stream>(rt: &R, stream: &mut S) -> (usize, bool) {
    let mut room = [0u8; 120];
    let mut count = 0usize;
    for _ in 0..100 {
        match stream.read(&mut room) {
            Answer::Moved(0) => return (count, false),
            Answer::Moved(moved) => {
                let given = INPUT.get(count..count.saturating_add(moved));
                assert!(rt; given == Some(&room[..moved]));
                count = count.saturating_add(moved);
            }
            Answer::WouldBlock => {}
            Answer::Failed => return (count, true),
        }
    }
    panic!(rt; "it has no end")
}

/// Asserts that a stream of this script gives all lines, or where a growth was refused a front of them; says which.
fn assert_outlasts<R: AllocGlobal + Abort + Files + Print>(rt: &R, script: &[u8]) {
    let allowance = Allowance::new(AMPLE, 0);
    let mut stream = lines_of(rt, script, &allowance);
    let (count, failed) = read_all(rt, &mut stream);
    let came = if failed {
        assert!(rt; was_refused(rt));
        "out of memory"
    } else {
        assert!(rt; count == INPUT.len());
        "own"
    };
    let _ = println!(rt; "{came}");
}

/// Lines come in parts, so that a part of one is held by itself, and then more of it.
#[test]
fn lines_in_parts(rt: HostRuntime) {
    assert_outlasts(&rt, b"hello ann\nwa|i|t\nbye\n");
}

/// All lines come at once.
#[test]
fn lines_at_once(rt: HostRuntime) {
    assert_outlasts(&rt, INPUT);
}
