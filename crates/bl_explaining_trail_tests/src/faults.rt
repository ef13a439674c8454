//! What is said where nothing is explained.
use crate::base::{DAY, OFFICE, asks, assert_says};
use bl_explaining_trail::explain::explain_trail_on;
use bl_wire::watched::Watched;
use std::io;
use std::io::Write;

/// A trail that is wrong at its sixth line.
const WRONG: &str =
    "trail 2\nlimit 9\nopen bob\nline 0 1 current internal\nstart 0 rule\nopen nobody\nstop\n";

/// A trail that is still written.
const OPEN: &str = "trail 2\nlimit 9\nopen bob\nline 0 1 cur";

/// A trail that goes on behind its `stop`.
const BEHIND_STOP: &str = "trail 2\nlimit 9\nopen bob\nstop\nopen bob\n";

/// The setup is read first, and its fault is told.
#[test]
fn no_setup(rt: HostRuntime) {
    let asked = asks(Some(98), "nobody", &["read"]);
    assert_says(&rt, "rank u\n", WRONG, &asked, 3, "setup 1: syntax\n");
}

/// Then the trail is followed, up to the event that is asked for, or to its end.
#[test]
fn wrong_trails(rt: HostRuntime) {
    let words = "trail wrong at line 6\n";
    assert_says(
        &rt,
        OFFICE,
        WRONG,
        &asks(None, "nobody", &["read"]),
        3,
        words,
    );
    assert_says(
        &rt,
        OFFICE,
        WRONG,
        &asks(Some(4), "bob", &["read offer"]),
        3,
        words,
    );
    let words = "trail wrong at line 4\n";
    assert_says(
        &rt,
        OFFICE,
        OPEN,
        &asks(None, "bob", &["read offer"]),
        3,
        words,
    );
    assert_says(
        &rt,
        OFFICE,
        OPEN,
        &asks(Some(2), "bob", &["read offer"]),
        3,
        words,
    );
    let words = "trail wrong at line 5\n";
    assert_says(
        &rt,
        OFFICE,
        BEHIND_STOP,
        &asks(Some(2), "bob", &["read offer"]),
        3,
        words,
    );
    let words = "trail wrong at line 1\n";
    assert_says(
        &rt,
        OFFICE,
        "trail 3\n",
        &asks(Some(0), "bob", &["read offer"]),
        3,
        words,
    );
}

/// What stands behind the events that are asked for is not looked at: the subject is what is not found here.
#[test]
fn no_subject(rt: HostRuntime) {
    let words = "no subject `bop`\n";
    assert_says(
        &rt,
        OFFICE,
        WRONG,
        &asks(Some(3), "bop", &["read offer"]),
        2,
        words,
    );
    assert_says(
        &rt,
        OFFICE,
        OPEN,
        &asks(Some(1), "bop", &["read offer"]),
        2,
        words,
    );
    assert_says(
        &rt,
        OFFICE,
        DAY,
        &asks(None, "bop", &["read offer"]),
        2,
        words,
    );
}

#[test]
fn no_event(rt: HostRuntime) {
    let words = "no event 98\n";
    assert_says(
        &rt,
        OFFICE,
        DAY,
        &asks(Some(98), "bop", &["read offer"]),
        2,
        words,
    );
}

#[test]
fn accesses_with_a_fault(rt: HostRuntime) {
    let words = "cannot say: unknown meno\n";
    assert_says(
        &rt,
        OFFICE,
        DAY,
        &asks(Some(46), "bob", &["read", "meno"]),
        2,
        words,
    );
}

/// Takes no byte.
#[derive(Drop)]
struct TakesNothing {}

impl Write for TakesNothing {
    fn write(&mut self, _: &[u8]) -> io::Result<usize> {
        Ok(0)
    }

    fn flush(&mut self) -> io::Result<()> {
        Ok(())
    }
}

#[test]
fn names_a_fault_of_the_output(rt: HostRuntime) {
    let alloc = rt.alloc();
    let mut writer = Watched::new(TakesNothing {});
    let mut errors = Watched::new(Vec::new(alloc));
    let status = explain_trail_on(
        alloc,
        OFFICE.as_bytes(),
        DAY.as_bytes(),
        &asks(Some(0), "bob", &["read minutes"]),
        &mut writer,
        &mut errors,
    );
    assert_eq!(rt; status, 3);
    assert!(rt; errors.into_inner().as_slice() == b"write fault\n".as_slice());
}
