//! A run that takes no more.
use super::base::{AMPLE, MOST_READ, assert_answers, assert_gives, lines_of};
use bl_allowance::allowance::Allowance;
use bl_connection::stream::Answer;
use std::process::Abort;

/// A part of a line is held when the run takes no more: it is dropped, and so is all that would come.
#[test]
fn half_a_line_is_dropped(rt: HostRuntime) {
    let allowance = Allowance::new(AMPLE, 0);
    let mut stream = lines_of(&rt, b"wait\nwhen read memo do| end\n", &allowance);
    assert_gives(&rt, &mut stream, MOST_READ, b"wait\n");
    assert_answers(&rt, &mut stream, Answer::WouldBlock);
    allowance.end();
    assert_gives(&rt, &mut stream, MOST_READ, b"");
    assert_gives(&rt, &mut stream, MOST_READ, b"");
}

/// Whole lines that were not begun are dropped too, and nothing more is read.
#[test]
fn lines_are_dropped(rt: HostRuntime) {
    let allowance = Allowance::new(63, 0);
    let mut stream = lines_of(&rt, b"wait\nwait\n!", &allowance);
    assert_gives(&rt, &mut stream, MOST_READ, b"wait\n");
    allowance.end();
    assert_gives(&rt, &mut stream, MOST_READ, b"");
    assert!(rt; stream.inner().at == 10);
}

/// A line that was begun is given to its end.
#[test]
fn begun_lines_are_given(rt: HostRuntime) {
    let allowance = Allowance::new(AMPLE, 0);
    let mut stream = lines_of(&rt, b"wai|t\nbye\n", &allowance);
    assert_answers(&rt, &mut stream, Answer::WouldBlock);
    assert_gives(&rt, &mut stream, 2, b"wa");
    allowance.end();
    assert_gives(&rt, &mut stream, 2, b"it");
    assert_gives(&rt, &mut stream, MOST_READ, b"\n");
    assert_gives(&rt, &mut stream, MOST_READ, b"");
}

/// A run that takes no more before anything is read.
#[test]
fn nothing_is_read(rt: HostRuntime) {
    let allowance = Allowance::new(AMPLE, 0);
    allowance.end();
    let mut stream = lines_of(&rt, b"wait\n", &allowance);
    assert_gives(&rt, &mut stream, MOST_READ, b"");
    assert!(rt; stream.inner().at == 0);
}

/// What one connection is refused ends the run for the others.
#[test]
fn ends_for_all(rt: HostRuntime) {
    let allowance = Allowance::new(32, 1);
    let mut stream = lines_of(&rt, b"wait\n", &allowance);
    let mut other = lines_of(&rt, b"wait\n", &allowance);
    assert_gives(&rt, &mut stream, MOST_READ, b"");
    assert!(rt; allowance.is_over());
    assert_gives(&rt, &mut other, MOST_READ, b"");
    assert!(rt; other.inner().at == 0);
}
