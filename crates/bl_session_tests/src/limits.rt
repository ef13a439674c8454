//! Long input, and a bad byte behind many blanks.
use crate::base::{Ended, SHOW_MEMO, assert_said_under, base, joined, right, serve};
use bl_wire::fault::SessionFault;
use std::io::BufReader;
use std::process::Abort;

/// How many bytes a session may read.
const MOST: usize = 16_777_216;

/// These words, and then a byte so many times.
fn words_and_bytes<R: AllocGlobal + Abort>(rt: &R, words: &str, byte: u8, times: usize) -> Vec<u8> {
    let mut input = right(rt, joined(rt.alloc(), [words].as_slice()));
    for _ in 0..times {
        right(rt, input.push(byte));
    }
    input
}

/// Asserts that a session ended for the length of its input, with nothing written and the last byte unread.
fn assert_too_long(rt: &impl Abort, ended: &Ended<&[u8], Vec<u8>>) {
    assert!(rt; ended.result == Err(SessionFault::TooLong));
    assert!(rt; !ended.read_failed && !ended.write_failed);
    assert!(rt; ended.writer.is_empty());
    assert!(rt; ended.reader.len() == 1);
}

#[test]
fn input_at_its_limit(rt: HostRuntime) {
    let mut input = words_and_bytes(&rt, "", b'\n', MOST);
    assert_said_under(&rt, 10_000, &input, "bye\n");
    right(&rt, input.push(b'\n'));
    let ended = serve(
        rt.alloc(),
        base(&rt),
        10_000,
        input.as_slice(),
        Vec::new(rt.alloc()),
    );
    assert_too_long(&rt, &ended);
    drop(ended);
    drop(input);
}

#[test]
fn one_line_to_the_limit(rt: HostRuntime) {
    let input = words_and_bytes(&rt, "hello ann\n", b'x', MOST - 10);
    let output = "ok\n1 refused long\nbye\n";
    assert_said_under(&rt, 10_000, &input, output);
    drop(input);
}

#[test]
fn blanks_before_a_bad_byte(rt: HostRuntime) {
    let mut input = words_and_bytes(&rt, "hello ann\n", b' ', 9000);
    right(&rt, input.push(b'\n'));
    right(&rt, input.extend_from_slice(SHOW_MEMO.as_bytes()));
    right(&rt, input.push(0x80));
    let output = "ok\n1 refused syntax 32\nbye\n";
    assert_said_under(&rt, 10_000, &input, output);
    drop(input);
}

/// Asserts that a session ended well, and that a line was refused in it as too long.
fn assert_refused<I>(rt: &impl Abort, ended: &Ended<I, Vec<u8>>) {
    assert!(rt; ended.result == Ok(()));
    assert!(rt; ended.writer.as_slice() == b"ok\n1 refused long\nbye\n".as_slice());
}

/// A line that is too long is refused, and no fault of its reader, where it comes in parts.
#[test]
fn long_line_in_parts(rt: HostRuntime) {
    let alloc = rt.alloc();
    let input = words_and_bytes(&rt, "hello ann\n", b'x', 40_000);
    let parts = right(
        &rt,
        BufReader::with_capacity(alloc, 1_000, input.as_slice()),
    );
    let ended = serve(alloc, base(&rt), 10_000, parts, Vec::new(alloc));
    assert_refused(&rt, &ended);
    drop(ended);
    drop(input);
}
