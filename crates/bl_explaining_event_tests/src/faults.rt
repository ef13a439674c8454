//! What is said where nothing is explained.
use crate::base::{DAY, OFFICE, asks, assert_says};
use bl_explaining_event::explain::explain_event_on;
use bl_wire::watched::Watched;
use std::io;
use std::io::Write;

/// A trail that is wrong at its sixth line.
const WRONG: &str =
    "trail 2\nlimit 9\nopen bob\nline 0 1 current internal\nstart 0 rule\nopen nobody\nstop\n";

/// A trail that is still written.
const OPEN: &str = "trail 2\nlimit 9\nopen bob\nline 0 1 cur";

/// A trail that goes on behind its `stop`.
const BEHIND_STOP: &str = "trail 2\nlimit 9\nopen bob\nstop\nopen bob\n";

/// A setup of which a trail may be of version 1.
const SMALL: &str = "ranks u\ncategories\nsubject ann greatest u current u\n";

/// The setup is read first, and its fault is told.
#[test]
fn no_setup(rt: HostRuntime) {
    assert_says(&rt, "rank u\n", WRONG, 1, 3, "setup 1: syntax\n");
}

#[test]
fn no_event(rt: HostRuntime) {
    assert_says(&rt, OFFICE, DAY, 0, 2, "no event 0\n");
    assert_says(&rt, OFFICE, DAY, 98, 2, "no event 98\n");
    assert_says(&rt, OFFICE, DAY, 1000, 2, "no event 1000\n");
}

/// A session that opens, a line, an end and a loss start nothing.
#[test]
fn no_start(rt: HostRuntime) {
    assert_says(&rt, OFFICE, DAY, 1, 2, "event 1 starts nothing\n");
    assert_says(&rt, OFFICE, DAY, 14, 2, "event 14 starts nothing\n");
    assert_says(&rt, OFFICE, DAY, 4, 2, "event 4 starts nothing\n");
    assert_says(&rt, OFFICE, DAY, 73, 2, "event 73 starts nothing\n");
}

/// What stands behind the event is not looked at.
#[test]
fn wrong_trails(rt: HostRuntime) {
    assert_says(&rt, OFFICE, WRONG, 2, 2, "event 2 starts nothing\n");
    assert_says(&rt, OFFICE, WRONG, 4, 3, "trail wrong at line 6\n");
    assert_says(&rt, OFFICE, WRONG, 9, 3, "trail wrong at line 6\n");
    assert_says(&rt, OFFICE, OPEN, 1, 2, "event 1 starts nothing\n");
    assert_says(&rt, OFFICE, OPEN, 2, 3, "trail wrong at line 4\n");
    assert_says(&rt, OFFICE, BEHIND_STOP, 2, 3, "trail wrong at line 5\n");
    assert_says(&rt, OFFICE, "trail 3\n", 1, 3, "trail wrong at line 1\n");
}

#[test]
fn an_old_version(rt: HostRuntime) {
    let trail = "trail 1\nlimit 9\nopen ann\nstop\n";
    assert_says(&rt, SMALL, trail, 1, 3, "trail of version 1\n");
}

/// Takes no byte.
#[derive(Drop)]
struct TakesNothing {}

impl Write for TakesNothing {
    fn write(&mut self, _: &[u8]) -> io::Result<usize> {
        Ok(0)
    }

    fn flush(&mut self) -> io::Result<()> {
        Ok(())
    }
}

#[test]
fn names_a_fault_of_the_output(rt: HostRuntime) {
    let alloc = rt.alloc();
    let mut writer = Watched::new(TakesNothing {});
    let mut errors = Watched::new(Vec::new(alloc));
    let (setup, trail) = (OFFICE.as_bytes(), DAY.as_bytes());
    let status = explain_event_on(alloc, setup, trail, &asks(13), &mut writer, &mut errors);
    assert_eq!(rt; status, 3);
    assert!(rt; errors.into_inner().as_slice() == b"write fault\n".as_slice());
}
