//! How a session begins, and how lines and the input end.
use crate::base::{assert_said, assert_served, base};

#[test]
fn greet_and_leave(rt: HostRuntime) {
    assert_said(&rt, "hello ann\n", "ok\nbye\n");
    assert_said(&rt, "", "bye\n");
}

#[test]
fn read_one(rt: HostRuntime) {
    let input = "hello ann\nwhen read memo do show memo; end\nwait\n";
    assert_said(&rt, input, "ok\n1 done \"m1\"\nok\nbye\n");
}

#[test]
fn read_without_line_end(rt: HostRuntime) {
    let input = "hello ann\nwhen read note do show note; end";
    assert_said(&rt, input, "ok\n1 done \"n1\"\nbye\n");
}

#[test]
fn cr_before_lf(rt: HostRuntime) {
    let input = "hello ann\r\nwhen read memo do show memo; end\r\nwait\r\n";
    assert_said(&rt, input, "ok\n1 done \"m1\"\nok\nbye\n");
}

#[test]
fn first_line_must_be_hello(rt: HostRuntime) {
    let setup = base(&rt);
    let input = b"wait\nhello ann\n";
    let left = assert_served(&rt, setup, 10_000, input, "refused hello\nbye\n");
    assert_eq!(rt; left, 10);
    assert_said(&rt, "hello zed\n", "refused hello\nbye\n");
}
